//! A store in the making: the variables of a store, which literals of a case narrow and add to. Whether a pair is left
//! is known after each of them.

ghost use Rattle.std.specs.Prelude.{◌≡◌, ◌≢◌, ◌≤◌, ◌↔◌, ℕ, IsTrue, IfOk, OnOk, Some, None, [], length};
ghost use Rattle.tree_clauses.specs.declared.clause.Literal.TheVariants as literal;
ghost use Rattle.clause_solver.specs.declared.variable.Definition.TheVariants as definition;
ghost use Rattle.clause_solver.specs.Variables.{Earlier};
ghost use Rattle.clause_solver.specs.Drafts.{place_in, IsPlaced, AreGiven, IsSteady, Says, IsPut, Adds, Makes};
ghost use Rattle.clause_solver.specs.Appends.{IsSingle};

use crate::appended::Found;
use crate::lists::Lists;
use crate::variable::{Definition, MadeValue};
use feature_trees::Kinds;
use script_names::{Copied, Memory, Name};
use std::alloc::Global;
use std::collections::BTreeMap;
use tree_clauses::Var;

/// The lists of a store, with the variables of it that variables of a case stand for.
#[derive(Drop)]
pub(crate) struct Draft {
    pub(crate) lists: Lists,
    pub(crate) places: BTreeMap<u32, u32>,
}

impl Draft {
    /// The lists of a store, with these variables of it as the places of the given variables of a case.
    pub(crate) fn of(alloc: Global, lists: Lists, given: &[Var]) -> Result<Draft, Memory>
        requires few { length given.now ≤ u32.MAX }
        ensures { IfOk result (λ draft. (draft.lists ≡ lists) × AreGiven given.now (place_in draft)) }
    {
        let mut draft = Draft {
            lists,
            places: BTreeMap::new(alloc),
        };
        for i in 0..given.len() {
            draft.put(Var(i as u32), given[i].0)?;
        }
        Ok(draft)
    }

    /// Whether a variable of the case has a place.
    pub(crate) fn has(&self, x: Var) -> bool
        ensures { IsTrue result ↔ IsPlaced (place_in self.now x.0) }
    {
        match self.places.get(&x.0) {
            Some(_) => true,
            None => false,
        }
    }

    /// The place of a variable of the case.
    pub(crate) fn place(&self, x: Var) -> u32
        requires { IsPlaced (place_in self.now x.0) }
        ensures { place_in self.now x.0 ≡ Some result }
    {
        match self.places.get(&x.0) {
            Some(n) => *n,
            None => unreachable!(),
        }
    }

    /// A variable is of one of these kinds.
    pub(crate) fn narrow(&mut self, alloc: Global, x: Var, k: Kinds) -> Result<(), Memory>
        requires steady { IsSteady self.old }
        requires placed { IsPlaced (place_in self.old x.0) }
        ensures { OnOk result (Says self.old self.new (literal.Kind x k)) }
    {
        let n = self.place(x);
        self.lists.narrow(alloc, n, k)?;
        Ok(())
    }

    /// A variable has an entry.
    pub(crate) fn fill(&mut self, alloc: Global, x: Var) -> Result<(), Memory>
        requires steady { IsSteady self.old }
        requires placed { IsPlaced (place_in self.old x.0) }
        ensures { OnOk result (Says self.old self.new (literal.NotEmpty x)) }
    {
        let n = self.place(x);
        self.lists.fill(alloc, n)?;
        Ok(())
    }

    /// A variable has no entry.
    pub(crate) fn empty(&mut self, alloc: Global, x: Var) -> Result<(), Memory>
        requires steady { IsSteady self.old }
        requires placed { IsPlaced (place_in self.old x.0) }
        ensures { OnOk result (Says self.old self.new (literal.Fence x [])) }
    {
        let n = self.place(x);
        let new = self.lists.without_entries(alloc, n)?;
        self.lists = new;
        Ok(())
    }

    // A variable of the case gets its place.
    fn put(&mut self, v: Var, y: u32) -> Result<(), Memory>
        ensures { OnOk result (IsPut self.old self.new v.0 y) }
    {
        self.places.insert(v.0, y)?;
        Ok(())
    }

    // A variable of the case stands for a new one with this definition.
    fn define(&mut self, alloc: Global, v: Var, d: Definition) -> Result<(), Memory>
        requires steady { IsSteady self.old }
        requires before { Earlier self.old.lists.vars (length self.old.lists.vars) d }
        requires single { IsSingle self.old.lists.vars d }
        ensures { OnOk result (Adds self.old self.new v.0 d) }
    {
        let y = self.lists.append_in_place(alloc, d)?;
        self.put(v, y)?;
        Ok(())
    }

    /// A variable of the case is an entry of another.
    pub(crate) fn enter(&mut self, alloc: Global, v: Var, x: Var, f: &Name) -> Result<(), Memory>
        requires steady { IsSteady self.old }
        requires placed { IsPlaced (place_in self.old x.0) }
        ensures { OnOk result (Makes self.old self.new v.0 (definition.Child x.0 f.now)) }
    {
        f.is_sound();
        let n = self.place(x);
        match self.lists.resolve(n, f) {
            Found::Known(y) => {
                self.put(v, y)?;
                Ok(())
            }
            Found::Nothing => {
                self.define(alloc, v, Definition::Made(MadeValue::Absent))?;
                Ok(())
            }
            Found::At(m) => {
                if let Some(y) = self.lists.find(m, f) {
                    self.put(v, y)?;
                    return Ok(());
                }
                let name = f.copy(alloc)?;
                self.define(alloc, v, Definition::Child(m, name))?;
                Ok(())
            }
        }
    }

    /// A variable of the case is a made value.
    pub(crate) fn make(&mut self, alloc: Global, v: Var, value: MadeValue) -> Result<(), Memory>
        requires steady { IsSteady self.old }
        ensures { OnOk result (Makes self.old self.new v.0 (definition.Made value)) }
    {
        self.define(alloc, v, Definition::Made(value))?;
        Ok(())
    }

    /// A variable of the case is a directory with the entries of another.
    pub(crate) fn ensure(&mut self, alloc: Global, v: Var, x: Var) -> Result<(), Memory>
        requires steady { IsSteady self.old }
        requires placed { IsPlaced (place_in self.old x.0) }
        ensures { OnOk result (Makes self.old self.new v.0 (definition.Ensured x.0)) }
    {
        let n = self.place(x);
        self.define(alloc, v, Definition::Ensured(n))?;
        Ok(())
    }

    /// A variable of the case is a directory with the entries of another, but for the value of a third under a name.
    pub(crate) fn derive(
        &mut self,
        alloc: Global,
        v: Var,
        x: Var,
        f: &Name,
        z: Var,
    ) -> Result<(), Memory>
        requires steady { IsSteady self.old }
        requires placed { IsPlaced (place_in self.old x.0) × IsPlaced (place_in self.old z.0) }
        ensures { OnOk result (Makes self.old self.new v.0 (definition.Derived x.0 f.now z.0)) }
    {
        f.is_sound();
        let n = self.place(x);
        let m = self.place(z);
        let name = f.copy(alloc)?;
        self.define(alloc, v, Definition::Derived(n, name, m))?;
        Ok(())
    }
}
