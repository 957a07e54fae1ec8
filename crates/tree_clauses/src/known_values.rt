ghost use Rattle.std.specs.Prelude.{◌≡◌, ℕ, ◌<◌, ◌↔◌, length, IsTrue, IfOk, IfSome, OnOk, None};
ghost use Rattle.std.specs.BTreeMap.{get};
ghost use Rattle.std.specs.Option.{option_map};
ghost use Rattle.std.specs.Ordering.{nat_cmp};
ghost use Rattle.feature_trees.specs.Sound.{sound};
ghost use Rattle.feature_trees.specs.Tree.{entry, is_dir, kind_of};
ghost use Rattle.tree_clauses.specs.declared.clause.Literal.TheVariants as Literal;
ghost use Rattle.tree_clauses.specs.Cells.{made_value, whole_value, AreSound, IsMadeBelow, IsMadeWithin, AreWithin};
ghost use Rattle.tree_clauses.specs.Steps.{FactIs, Gives, IsThere};

use crate::cell::{Cell, Made, Whole};
use crate::cells::{Cells, made_entry};
use crate::clause::Var;
use feature_trees::{Kind, Value};
use script_names::{Bytes, Memory, Name};
use std::alloc::Global;
use std::collections::BTreeMap;

/// The values of the variables that are known so far. A variable has the place of its value; no value is copied.
#[derive(Drop)]
pub(crate) struct Values<'a> {
    places: BTreeMap<u32, usize>,
    cells: Cells<'a>,
    ghost within: { AreWithin (get nat_cmp places) cells },
}

impl<'a> Values<'a> {
    ghost use Rattle.tree_clauses.specs.KnownValues.{known_in};

    /// One variable is known, that of the tree.
    pub(crate) fn of(alloc: Global, x: Var, tree: &'a Value) -> Result<Values<'a>, Memory>
        ensures { IfOk result (λ values. Gives (λ _. None) (known_in values) x.0 tree.now) }
    {
        let mut values = Values {
            places: BTreeMap::new(alloc),
            cells: Cells::new(alloc),
        };
        values.give(x, Made::New(Cell::Seen(tree)))?;
        Ok(values)
    }

    /// The place of the value of a variable, where it is known.
    pub(crate) fn place(&self, x: Var) -> Option<usize>
        ensures is { result ≡ get nat_cmp self.now.places x.0 }
        ensures within { IfSome result (λ place. place < length self.now.cells) }
    {
        match self.places.get(&x.0) {
            Some(place) => Some(*place),
            None => None,
        }
    }

    /// Whether a variable is known.
    pub(crate) fn has(&self, x: Var) -> bool
        ensures { IsTrue result ↔ IsThere (known_in self.now x.0) }
    {
        match self.place(x) {
            Some(_) => true,
            None => false,
        }
    }

    /// The kind of the value of a variable, where it is known.
    pub(crate) fn kind(&self, x: Var) -> Option<Kind>
        ensures { result ≡ option_map kind_of (known_in self.now x.0) }
    {
        match self.place(x) {
            Some(place) => Some(self.cells.kind(place)),
            None => None,
        }
    }

    /// Whether the value of a variable is a directory, where it is known.
    pub(crate) fn is_directory(&self, x: Var) -> Option<bool>
        ensures { result ≡ option_map is_dir (known_in self.now x.0) }
    {
        match self.place(x) {
            Some(place) => Some(self.cells.is_directory(place)),
            None => None,
        }
    }

    /// The value of a variable with all its entries, where it is known: a copy where it is made.
    pub(crate) fn whole(&self, alloc: Global, x: Var) -> Result<Option<Whole<'a>>, Memory>
        ensures { IfOk result (λ found. option_map whole_value found ≡ known_in self.now x.0) }
    {
        match self.place(x) {
            Some(place) => {
                let whole = self.cells.whole(alloc, place)?;
                Ok(Some(whole))
            }
            None => Ok(None),
        }
    }

    /// Whether the value of a variable is a link to a target, where it is known.
    pub(crate) fn is_link_to(&self, x: Var, target: &Bytes) -> Option<bool>
        ensures { FactIs (known_in self.now) (Literal.Target x target.now) result }
    {
        match self.place(x) {
            Some(place) => Some(self.cells.is_link_to(place, target)),
            None => None,
        }
    }

    /// Whether the entry of the value of a variable under a name is that of another one, where both are known.
    pub(crate) fn is_entry(
        &self,
        alloc: Global,
        x: Var,
        f: &Name,
        y: Var,
    ) -> Result<Option<bool>, Memory>
        ensures { IfOk result (λ found. FactIs (known_in self.now) (Literal.Entry x f.now y) found) }
    {
        let from = match self.place(x) {
            Some(place) => place,
            None => return Ok(None),
        };
        let to = match self.place(y) {
            Some(place) => place,
            None => return Ok(None),
        };
        let same = self.cells.is_entry(alloc, from, f, to)?;
        Ok(Some(same))
    }

    /// An entry of the value of a variable, where it is known.
    pub(crate) fn entry(&self, x: Var, f: &Name) -> Option<Made<'a>>
        ensures value { option_map (made_value self.now.cells) result
            ≡ option_map (λ v. entry v f.now) (known_in self.now x.0) }
        ensures within { IsMadeWithin self.now.cells result }
    {
        match self.place(x) {
            Some(place) => Some(made_entry(self.cells.entry(place, f))),
            None => None,
        }
    }

    /// The values are sound.
    pub(crate) fn are_sound(&self)
        ensures { AreSound self.now.cells }
    {
        self.cells.are_sound();
    }

    /// Gives a variable its value, which is sound.
    pub(crate) fn give(&mut self, x: Var, made: Made<'a>) -> Result<(), Memory>
        requires { IsMadeBelow (length self.old.cells) made }
        ensures gives { OnOk result (Gives (known_in self.old) (known_in self.new) x.0
            (made_value self.old.cells made.entry)) }
        ensures sound { OnOk result (IsTrue (sound (made_value self.old.cells made.entry))) }
    {
        let place = self.cells.put(made)?;
        self.cells.are_sound();
        self.places.insert(x.0, place)?;
        Ok(())
    }
}
