//! How a variable is left with entries under some names alone, or under none: along its definitions, down to a place of
//! the start tree.

ghost use Rattle.std.specs.Prelude.{◌≡◌, ℕ, List, ◌<◌, [], length, IfOk, OnOk, IsTrue, Some};
ghost use Rattle.clause_solver.specs.Variables.{Listed, is_node, member, var_at};
ghost use Rattle.clause_solver.specs.NameSets.{has};
ghost use Rattle.clause_solver.specs.Decided.{AreDecided};
ghost use Rattle.clause_solver.specs.Emptied.{EndsAt, HasItsVariable, HasMore, IsClosed, IsWithin};
ghost use Rattle.clause_solver.specs.Emptied.{fenced, let_in, names_past, vars_past};

use crate::lists::{Lists, have_entries};
use crate::name_set::{NameSet, fence_set, lets_in};
use crate::places::var_at;
use crate::settling::settle_entries;
use crate::variable::{Definition, Variable};
use feature_trees::{Kind, Kinds};
use script_names::{Copied, List, Memory, Name};
use shared_table::{Shared, fork_alone, set_alone};
use std::alloc::Global;

/// The way down from a variable that has entries under some names alone: the lists, in which the variables that were
/// replaced on the way under other names are absent, and those names with the names that they were replaced under.
#[derive(Drop)]
pub(crate) struct WayDown {
    pub(crate) lists: Lists,
    pub(crate) names: List<Name>,
    /// The place of the start tree that it ends at; else it ends at a made value.
    pub(crate) place: Option<u32>,
}

impl Lists {
    // Goes past an entry that is replaced: where its name is a new one, nothing stands there.
    fn go_past(
        &mut self,
        alloc: Global,
        names: &mut List<Name>,
        known: &mut NameSet,
        f: &Name,
        y: u32,
    ) -> Result<(), Memory>
        requires decided { AreDecided self.old }
        requires inside { y < length self.old.vars }
        requires known { (g : List ℕ) → has known.old g ≡ member g names.old }
        ensures decided { OnOk result (AreDecided self.new) }
        ensures vars { OnOk result (self.new.vars ≡ vars_past self.old.vars names.old f.now y) }
        ensures names { OnOk result (names.new ≡ names_past names.old f.now) }
        ensures known { OnOk result ((g : List ℕ) → has known.new g ≡ member g names.new) }
    {
        if known.has(f) {
            return Ok(());
        }
        self.narrow(alloc, y, Kinds::of(Kind::Absent))?;
        let name = f.copy(alloc)?;
        names.add(name)?;
        known.add(f)?;
        Ok(())
    }

    /// The way down from a variable that has entries under the names of a fence alone.
    pub(crate) fn way_down(
        &self,
        alloc: Global,
        x: u32,
        fence: &List<Name>,
    ) -> Result<WayDown, Memory>
        requires decided { AreDecided self.now }
        requires inside { x < length self.now.vars }
        ensures decided { IfOk result (λ way. AreDecided way.lists) }
        ensures ends { IfOk result (λ way. EndsAt self.now.vars x fence.now way.lists.vars way.names way.place) }
    {
        let mut new = self.fork()?;
        let mut names = fence.copy(alloc)?;
        let mut known = NameSet::of(alloc, fence.as_slice())?;
        let mut here = x;
        'down: loop {
            let definition = var_at(&new.vars, here as usize).definition.fork()?;
            match definition.get() {
                Definition::Start => {
                    return Ok(WayDown {
                        lists: new,
                        names,
                        place: Some(here),
                    });
                }
                Definition::Child(_, _) => {
                    return Ok(WayDown {
                        lists: new,
                        names,
                        place: Some(here),
                    });
                }
                Definition::Derived(of, f, y) => {
                    new.go_past(alloc, &mut names, &mut known, f, *y)?;
                    here = *of;
                }
                Definition::Ensured(of) => here = *of,
                Definition::Made(_) => {
                    return Ok(WayDown {
                        lists: new,
                        names,
                        place: None,
                    });
                }
            }
        }
    }

    // Gives an entry of a place its variable, where it has none.
    fn enter(&mut self, alloc: Global, n: u32, f: &Name) -> Result<(), Memory>
        requires decided { AreDecided self.old }
        requires inside { n < length self.old.vars }
        requires node { IsTrue (is_node (var_at self.old.vars n).definition) }
        ensures decided { OnOk result (AreDecided self.new) }
        ensures more { OnOk result (HasMore self.old.vars self.new.vars) }
        ensures known { OnOk result (HasItsVariable self.new.vars n f.now) }
    {
        f.is_sound();
        if let Some(_) = self.find(n, f) {
            return Ok(());
        }
        let name = f.copy(alloc)?;
        let _y = self.append_in_place(alloc, Definition::Child(n, name))?;
        Ok(())
    }

    // Gives the entries of a place under these names their variables.
    fn with_entries(&self, alloc: Global, n: u32, names: &[Name]) -> Result<Lists, Memory>
        requires decided { AreDecided self.now }
        requires inside { n < length self.now.vars }
        requires node { IsTrue (is_node (var_at self.now.vars n).definition) }
        ensures decided { IfOk result (λ new. AreDecided new) }
        ensures more { IfOk result (λ new. HasMore self.now.vars new.vars) }
        ensures known { IfOk result (λ new. (f : List ℕ) → Listed f names.now → HasItsVariable new.vars n f) }
    {
        let mut new = self.fork()?;
        for i in 0..names.len() {
            new.enter(alloc, n, &names[i])?;
        }
        Ok(new)
    }

    // The lists, with further variables, where a place has entries under these names alone.
    fn closed(&self, alloc: Global, n: u32, names: &[Name]) -> Result<Lists, Memory>
        requires decided { AreDecided self.now }
        requires inside { n < length self.now.vars }
        requires node { IsTrue (is_node (var_at self.now.vars n).definition) }
        ensures decided { IfOk result (λ new. AreDecided new) }
        ensures closed { IfOk result (λ new. IsClosed self.now.vars n names.now new.vars) }
    {
        let mut new = self.with_entries(alloc, n, names)?;
        enclose(alloc, &mut new.vars, n as usize, names)?;
        let best = fork_alone(&new.best)?;
        let settled = settle_entries(alloc, &new.vars, &new.kin, best, n as usize)?;
        let have = have_entries(alloc, &new.vars, &settled.best, &new.kin, &new.filled);
        new.alive = (new.alive & settled.fits) & have;
        new.best = settled.best;
        Ok(new)
    }

    /// The lists, with further variables, where x has no entry.
    pub(crate) fn without_entries(&self, alloc: Global, x: u32) -> Result<Lists, Memory>
        requires decided { AreDecided self.now }
        requires inside { x < length self.now.vars }
        ensures decided { IfOk result (λ new. AreDecided new) }
        ensures within { IfOk result (λ new. IsWithin self.now.vars x [] new.vars) }
    {
        let none = List::new(alloc);
        self.with_fence(alloc, x, &none)
    }

    /// The lists, with further variables, where x has entries under the names of a fence alone.
    pub(crate) fn with_fence(
        &self,
        alloc: Global,
        x: u32,
        fence: &List<Name>,
    ) -> Result<Lists, Memory>
        requires decided { AreDecided self.now }
        requires inside { x < length self.now.vars }
        ensures decided { IfOk result (λ new. AreDecided new) }
        ensures within { IfOk result (λ new. IsWithin self.now.vars x fence.now new.vars) }
    {
        let way = self.way_down(alloc, x, fence)?;
        match way.place {
            Some(n) => {
                let new = way.lists.closed(alloc, n, way.names.as_slice())?;
                Ok(new)
            }
            None => Ok(way.lists),
        }
    }
}

// The names that a fence lets in.
fn let_in(alloc: Global, fence: &Option<List<Name>>, names: &[Name]) -> Result<List<Name>, Memory>
    ensures { IfOk result (λ kept. kept ≡ let_in fence.now names.now) }
{
    let known = fence_set(alloc, fence)?;
    let mut kept = List::new(alloc);
    for i in 0..names.len() {
        if lets_in(&known, &names[i]) {
            let name = names[i].copy(alloc)?;
            kept.add(name)?;
        }
    }
    Ok(kept)
}

// The place may have entries under these names alone.
fn enclose(
    alloc: Global,
    vars: &mut Shared<Variable>,
    n: usize,
    names: &[Name],
) -> Result<(), Memory>
    requires { n < length vars.old }
    ensures { OnOk result (vars.new ≡ fenced vars.old n names.now) }
{
    let enclosed = enclosed_at(alloc, vars, n, names)?;
    set_alone(vars, n, enclosed)?;
    Ok(())
}

// The place, which may have entries under these names alone.
fn enclosed_at(
    alloc: Global,
    vars: &Shared<Variable>,
    n: usize,
    names: &[Name],
) -> Result<Variable, Memory>
    requires { n < length vars.now }
    ensures { IfOk result (λ v. v
        ≡ record (var_at vars.now n) { fence = Some (let_in (var_at vars.now n).fence names.now) }) }
{
    let v = var_at(vars, n);
    let definition = v.definition.fork()?;
    let fence = let_in(alloc, &v.fence, names)?;
    let target = v.target.copy(alloc)?;
    Ok(Variable {
        definition,
        kinds: v.kinds,
        fence: Some(fence),
        not_empty: v.not_empty,
        target,
    })
}
