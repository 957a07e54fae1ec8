ghost use Rattle.std.specs.Prelude.{◌≡◌, ℕ, List, ◌<◌, ◌↔◌, [], length, map, slice_index_or, None, Some, IsTrue};
ghost use Rattle.std.specs.Prelude.{IfOk, OnErr, MatchOption, MatchResult};
ghost use Rattle.feature_trees.specs.declared.value.Value.{Value};
ghost use Rattle.feature_trees.specs.declared.value.Value.TheVariants as value;
ghost use Rattle.feature_trees.specs.declared.kind.Kind.TheVariants as kinds;
ghost use Rattle.feature_trees.specs.Tree.{entry, entries_of, is_dir, kind_of};
ghost use Rattle.tree_clauses.specs.declared.cell.Edit.{Edit as AnyEdit};
ghost use Rattle.tree_clauses.specs.Solved.{Rising};
ghost use Rattle.tree_clauses.specs.Cells.{value_at, edited, cell_value, place_under, found_value};
ghost use Rattle.tree_clauses.specs.Cells.{AreBelow, IsBelow, AreSound, IsSeenSound, IsFoundBelow};
ghost use Rattle.tree_clauses.specs.Cells.{made_value, whole_value, IsMadeBelow, IsPlaced, IsChain, IsSource};

use crate::cell::{Cell, Chain, Edit, Found, Made, Source, Whole};
use crate::facts::{copied_entries, is_directory, is_link_to};
use feature_trees::{Entries, Kind, Value};
use script_names::{Bytes, Copied, List, Memory, Name};
use std::alloc::Global;
use std::marker::Model;

/// Cells, each of which speaks of earlier ones alone. Contracts see the list of their values.
#[derive(Drop)]
pub(crate) struct Cells<'a> {
    cells: List<Cell<'a>>,
}

impl<'a> Model for Cells<'a> {
    ghost use Rattle.std.specs.Prelude.{List};
    ghost use Rattle.feature_trees.specs.declared.value.Value.{Value as AnyValue};
    ghost use Rattle.feature_trees.specs.contracts.value.Value as value_contract;
    ghost use Rattle.std.specs.Coded.{coded_list};
    ghost use Rattle.tree_clauses.specs.Cells.{values_of, AreCells};

    ghost Value = { List AnyValue };

    ghost coded = { coded_list value_contract.the_row.coded };

    ghost view = { λ c. values_of c.cells };

    ghost invariant = { λ c. AreCells c.cells };
}

impl<'a> Cells<'a> {
    /// No cell.
    pub(crate) fn new(alloc: Global) -> Cells<'a>
        ensures { result ≡ [] }
    {
        Cells {
            cells: List::new(alloc),
        }
    }

    /// The place of a value, at the end where it is new. For want of memory the cells are as before.
    pub(crate) fn put(&mut self, made: Made<'a>) -> Result<usize, Memory>
        requires { IsMadeBelow (length self.old) made }
        ensures placed { IfOk result (IsPlaced self.old self.new (made_value self.old made.entry)) }
        ensures kept { OnErr result (self.new ≡ self.old) }
    {
        match made {
            Made::New(cell) => {
                let place = self.push(cell)?;
                Ok(place)
            }
            Made::Old(place) => Ok(place),
        }
    }

    // One more cell; the answer is its place. For want of memory the cells are as before.
    fn push(&mut self, cell: Cell<'a>) -> Result<usize, Memory>
        requires { IsBelow (length self.old) cell }
        ensures placed { IfOk result (IsPlaced self.old self.new (cell_value self.old cell.entry)) }
        ensures kept { OnErr result (self.new ≡ self.old) }
    {
        seen_is_sound(&cell);
        let place = self.cells.len();
        self.cells.add(cell)?;
        Ok(place)
    }

    /// The values are sound.
    pub(crate) fn are_sound(&self)
        ensures { AreSound self.now }
    {
        let _cells = &self.cells;
    }

    // The cell at a place.
    fn at(&self, at: usize) -> Option<&Cell<'a>>
        ensures { MatchOption result (value_at self.now at ≡ value.Absent)
            (λ cell. (at < length self.now) × IsBelow at cell.now
            × (value_at self.now at ≡ cell_value self.now cell.now)) }
    {
        self.cells.get(at)
    }

    /// The kind of the value at a place.
    pub(crate) fn kind(&self, at: usize) -> Kind
        ensures { result ≡ kind_of (value_at self.now at) }
    {
        match self.at(at) {
            None => Kind::Absent,
            Some(cell) => match cell {
                Cell::Seen(value) => value.kind(),
                Cell::Absent => Kind::Absent,
                Cell::Reg => Kind::Reg,
                Cell::Link(_) => Kind::Link,
                Cell::Empty => Kind::Dir,
                Cell::Edited(_, _) => Kind::Dir,
            },
        }
    }

    /// Whether the value at a place is a directory.
    pub(crate) fn is_directory(&self, at: usize) -> bool
        ensures { result ≡ is_dir (value_at self.now at) }
    {
        match self.at(at) {
            None => false,
            Some(cell) => match cell {
                Cell::Seen(value) => is_directory(value),
                Cell::Absent => false,
                Cell::Reg => false,
                Cell::Link(_) => false,
                Cell::Empty => true,
                Cell::Edited(_, _) => true,
            },
        }
    }

    /// Whether the value at a place is a link to a target.
    pub(crate) fn is_link_to(&self, at: usize, target: &Bytes) -> bool
        ensures { IsTrue result ↔ (value_at self.now at ≡ value.Link target.now) }
    {
        match self.at(at) {
            None => false,
            Some(cell) => match cell {
                Cell::Seen(value) => is_link_to(value, target),
                Cell::Absent => false,
                Cell::Reg => false,
                Cell::Link(to) => to.equal(target),
                Cell::Empty => false,
                Cell::Edited(_, _) => false,
            },
        }
    }

    /// What stands under a name of the value at a place.
    pub(crate) fn entry(&self, at: usize, f: &Name) -> Found<'a>
        ensures value { found_value self.now result ≡ entry (value_at self.now at) f.now }
        ensures below { IsFoundBelow (length self.now) result }
    {
        let mut here = at;
        loop {
            match self.entry_or_source(here, f) {
                Ok(found) => return found,
                Err(from) => here = from,
            }
        }
    }

    // What stands under a name of the value at a place, or where else the same stands under it: at an earlier place.
    fn entry_or_source(&self, at: usize, f: &Name) -> Result<Found<'a>, usize>
        ensures { MatchResult result
            (λ found. IsFoundBelow (length self.now) found
            × (found_value self.now found ≡ entry (value_at self.now at) f.now))
            (λ from. (from < at) × (entry (value_at self.now from) f.now ≡ entry (value_at self.now at) f.now)) }
    {
        self.are_sound();
        match self.at(at) {
            None => Ok(Found::Absent),
            Some(cell) => match cell {
                Cell::Seen(value) => Ok(seen_entry(value, f)),
                Cell::Absent => Ok(Found::Absent),
                Cell::Reg => Ok(Found::Absent),
                Cell::Link(_) => Ok(Found::Absent),
                Cell::Empty => Ok(Found::Absent),
                Cell::Edited(from, edits) => match place_under(edits.as_slice(), f) {
                    Some(place) => Ok(Found::At(place)),
                    None => Err(*from),
                },
            },
        }
    }

    /// Whether the entry of the value at a place under a name is the value at another place.
    pub(crate) fn is_entry(
        &self,
        alloc: Global,
        from: usize,
        f: &Name,
        to: usize,
    ) -> Result<bool, Memory>
        ensures { IfOk result (λ is. IsTrue is ↔ (value_at self.now to ≡ entry (value_at self.now from) f.now)) }
    {
        match self.entry(from, f) {
            Found::Absent => Ok(is_absent(self.kind(to))),
            Found::Seen(there) => {
                let value = self.whole(alloc, to)?;
                Ok(value.value().equal(there))
            }
            Found::At(place) => {
                let same = self.are_same(alloc, to, place)?;
                Ok(same)
            }
        }
    }

    // Whether the values at two places are the same.
    fn are_same(&self, alloc: Global, one: usize, other: usize) -> Result<bool, Memory>
        ensures { IfOk result (λ same. IsTrue same ↔ (value_at self.now one ≡ value_at self.now other)) }
    {
        if one == other {
            return Ok(true);
        }
        let value = self.whole(alloc, one)?;
        let there = self.whole(alloc, other)?;
        Ok(value.value().equal(there.value()))
    }

    /// The value at a place with all its entries.
    pub(crate) fn whole(&self, alloc: Global, at: usize) -> Result<Whole<'a>, Memory>
        ensures { IfOk result (λ whole. whole_value whole ≡ value_at self.now at) }
    {
        match self.at(at) {
            None => Ok(Whole::Built(Value::Absent)),
            Some(cell) => match cell {
                Cell::Seen(value) => Ok(Whole::Seen(value)),
                _ => {
                    let built = self.copy(alloc, at)?;
                    Ok(Whole::Built(built))
                }
            },
        }
    }

    // A copy of the value at a place.
    #[cycle(copying)]
    fn copy(&self, alloc: Global, at: usize) -> Result<Value, Memory>
        ensures { IfOk result (λ copy. copy ≡ value_at self.now at) }
    {
        match self.at(at) {
            None => Ok(Value::Absent),
            Some(cell) => match cell {
                Cell::Seen(value) => value.copy(alloc),
                Cell::Absent => Ok(Value::Absent),
                Cell::Reg => Ok(Value::Reg),
                Cell::Link(target) => {
                    let target = target.copy(alloc)?;
                    Ok(Value::Link(target))
                }
                Cell::Empty => Ok(Value::Dir(Entries::new(alloc))),
                Cell::Edited(_, _) => {
                    let entries = self.copy_entries(alloc, at)?;
                    Ok(Value::Dir(entries))
                }
            },
        }
    }

    // A copy of the entries of the value at a place.
    #[cycle(copying)]
    fn copy_entries(&self, alloc: Global, at: usize) -> Result<Entries, Memory>
        ensures { IfOk result (λ entries. entries ≡ entries_of (value_at self.now at)) }
    {
        let Chain { entries, edits } = self.chain(alloc, at)?;
        let mut entries = entries;
        let mut chain = edits;
        while let Some(edits) = chain.pop() {
            entries = self.with_edits(alloc, at, entries, edits)?;
        }
        Ok(entries)
    }

    // The entries with the value at its place under the name of each edit.
    #[cycle(copying)]
    fn with_edits(
        &self,
        alloc: Global,
        bound: usize,
        entries: Entries,
        edits: &[Edit],
    ) -> Result<Entries, Memory>
        requires { AreBelow bound edits.now }
        ensures { IfOk result (λ new. new ≡ edited self.now entries edits.now) }
    {
        let mut entries = entries;
        let mut left = edits;
        while let [edit, rest @ ..] = left {
            let value = self.copy(alloc, edit.place)?;
            entries.set(&edit.name, value)?;
            left = rest;
        }
        Ok(entries)
    }

    // What the entries of the value at a place are made of: edits that lead down to a value which is none of edits.
    fn chain(&self, alloc: Global, at: usize) -> Result<Chain, Memory>
        ensures { IfOk result (λ chain. IsChain self.now at chain) }
    {
        let mut edits = Vec::new(alloc);
        let mut here = at;
        loop {
            match self.source(alloc, here)? {
                Source::Entries(entries) => return Ok(Chain { entries, edits }),
                Source::Edits(from, more) => {
                    edits.push(more)?;
                    here = from;
                }
            }
        }
    }

    // The entries of the value at a place, or what they are made of.
    fn source(&self, alloc: Global, at: usize) -> Result<Source, Memory>
        ensures { IfOk result (λ source. IsSource self.now at source) }
    {
        match self.at(at) {
            None => Ok(Source::Entries(Entries::new(alloc))),
            Some(cell) => match cell {
                Cell::Seen(value) => {
                    let entries = copied_entries(alloc, value)?;
                    Ok(Source::Entries(entries))
                }
                Cell::Absent => Ok(Source::Entries(Entries::new(alloc))),
                Cell::Reg => Ok(Source::Entries(Entries::new(alloc))),
                Cell::Link(_) => Ok(Source::Entries(Entries::new(alloc))),
                Cell::Empty => Ok(Source::Entries(Entries::new(alloc))),
                Cell::Edited(from, edits) => Ok(Source::Edits(*from, edits.as_slice())),
            },
        }
    }
}

// A value that is seen in the tree is sound.
fn seen_is_sound(cell: &Cell)
    ensures { IsSeenSound cell.now }
{
    match cell {
        Cell::Seen(value) => value.is_sound(),
        Cell::Absent => {}
        Cell::Reg => {}
        Cell::Link(_) => {}
        Cell::Empty => {}
        Cell::Edited(_, _) => {}
    }
}

// What stands under a name of a value of the tree.
fn seen_entry<'a>(value: &'a Value, f: &Name) -> Found<'a>
    ensures value { (values : List Value) → found_value values result ≡ entry value.now f.now }
    ensures below { (place : ℕ) → IsFoundBelow place result }
{
    match value.entry(f) {
        None => Found::Absent,
        Some(there) => Found::Seen(there),
    }
}

// The place of the edit of a name.
fn place_under(edits: &[Edit], f: &Name) -> Option<usize>
    requires { Rising (map (λ edit. edit.name) edits.now) }
    ensures { result ≡ place_under None f.now edits.now }
{
    match edit_at(edits, f) {
        Ok(at) => Some(edits[at].place),
        Err(_) => None,
    }
}

// Where the edit of a name is, or where it would go, by halving.
fn edit_at(edits: &[Edit], f: &Name) -> Result<usize, usize>
    requires { Rising (map (λ edit. edit.name) edits.now) }
    ensures { MatchResult result
        (λ at. (at < length edits.now)
        × ((d : AnyEdit) → place_under None f.now edits.now ≡ Some (slice_index_or edits.now at d).place))
        (λ at. place_under None f.now edits.now ≡ None) }
{
    edits.binary_search_by(|edit| edit.name.compare(f))
}

// Whether a kind is that of nothing.
fn is_absent(kind: Kind) -> bool
    ensures { IsTrue result ↔ (kind ≡ kinds.Absent) }
{
    match kind {
        Kind::Absent => true,
        Kind::Reg => false,
        Kind::Link => false,
        Kind::Special(_) => false,
        Kind::Dir => false,
    }
}

/// What was found, as what is made of it.
pub(crate) fn made_entry<'a>(found: Found<'a>) -> Made<'a>
    ensures value { (values : List Value) → made_value values result ≡ found_value values found.entry }
    ensures below { (place : ℕ) → IsFoundBelow place found.entry → IsMadeBelow place result }
{
    match found {
        Found::Absent => Made::New(Cell::Absent),
        Found::Seen(value) => Made::New(Cell::Seen(value)),
        Found::At(place) => Made::Old(place),
    }
}
