//! What stands at the start where nothing is there that need not be.

ghost use Rattle.std.specs.Prelude.{◌≡◌, ◌≢◌, ◌⊎◌, ◌↔◌, ℕ, ◌+◌, ◌<◌, ◌≤◌, length, slice_set, IfOk, OnOk, IsTrue};
ghost use Rattle.feature_trees.specs.declared.kind.Kind.TheVariants.{Absent};
ghost use Rattle.feature_trees.specs.Kinds.{of};
ghost use Rattle.clause_solver.specs.Variables.{narrowed, var_at};
ghost use Rattle.clause_solver.specs.Decided.{AreDecided};
ghost use Rattle.clause_solver.specs.Plainest.{AreFitting, AreNeededFrom, ArePlainestFrom, IsPlainer, IsSpare};
ghost use Rattle.clause_solver.specs.Plainest.{is_entry};

use crate::facts::narrow;
use crate::greatest::{ReplacedNames, is_same, some_present_child};
use crate::lists::{Lists, have_entries};
use crate::places::{definition_at, kind_at, var_at};
use crate::variable::Definition;
use feature_trees::{Kind, Kinds};
use script_names::Memory;
use shared_table::set_alone;
use std::alloc::Global;

// Whether it is an entry of a place of the start tree.
fn is_entry(definition: &Definition) -> bool
    ensures { result ≡ is_entry definition.now }
{
    match definition {
        Definition::Start => false,
        Definition::Child(_, _) => true,
        Definition::Derived(_, _, _) => false,
        Definition::Ensured(_) => false,
        Definition::Made(_) => false,
    }
}

impl Lists {
    // Whether an entry is there that may be missing, and nothing that a variable stands for is there in it.
    fn is_spare(&self, x: usize) -> bool
        requires fitting { AreFitting self.now }
        requires inside { x < length self.now.vars }
        ensures { IsTrue result ↔ IsSpare self.now.vars self.now.best x }
    {
        let may = var_at(&self.vars, x).kinds.has(Kind::Absent);
        if !is_entry(definition_at(&self.vars, x)) || !may {
            return false;
        }
        if is_same(kind_at(&self.best, x), Kind::Absent) {
            return false;
        }
        let replaced = ReplacedNames::Nothing;
        !some_present_child(&self.vars, &self.best, &self.kin, x, &None, &replaced)
    }

    // Says of an entry that it is missing.
    fn drop_place(&mut self, alloc: Global, x: usize) -> Result<(), Memory>
        requires inside { x < length self.old.vars }
        requires same { length self.old.best ≡ length self.old.vars }
        ensures vars { OnOk result (self.new.vars ≡ narrowed self.old.vars x (of Absent)) }
        ensures best { OnOk result (self.new.best ≡ slice_set self.old.best x Absent) }
        ensures others { OnOk result ((self.new.kin ≡ self.old.kin) × (self.new.filled ≡ self.old.filled)) }
    {
        narrow(alloc, &mut self.vars, x, Kinds::of(Kind::Absent))?;
        set_alone(&mut self.best, x, Kind::Absent)?;
        Ok(())
    }

    // Says of a place that it is missing, where it is spare.
    fn drop_spare(&mut self, alloc: Global, x: usize) -> Result<(), Memory>
        requires fitting { AreFitting self.old }
        requires inside { x < length self.old.vars }
        requires later { AreNeededFrom (x + 1) self.old.vars self.old.best }
        ensures fitting { OnOk result (AreFitting self.new) }
        ensures plainer { OnOk result (IsPlainer self.old.vars self.new.vars) }
        ensures needed { OnOk result (AreNeededFrom x self.new.vars self.new.best) }
        ensures others { OnOk result ((i : ℕ) → i ≢ x → var_at self.new.vars i ≡ var_at self.old.vars i) }
        ensures filled { OnOk result (self.new.filled ≡ self.old.filled) }
    {
        if !self.is_spare(x) {
            return Ok(());
        }
        self.drop_place(alloc, x)?;
        Ok(())
    }

    // The lists without what is spare from one place to before another, whether a valuation is left or not: from the
    // last place to the first, so that a directory follows all that is there in it.
    fn without_spares(&self, alloc: Global, low: usize, high: usize) -> Result<Lists, Memory>
        requires decided { AreDecided self.now }
        requires left { IsTrue self.now.alive }
        requires inside { (low ≤ high) × (high ≤ length self.now.vars) }
        requires later { AreNeededFrom high self.now.vars self.now.best }
        ensures decided { IfOk result (λ new. AreDecided new) }
        ensures plainer { IfOk result (λ new. IsPlainer self.now.vars new.vars) }
        ensures needed { IfOk result (λ new. AreNeededFrom low new.vars new.best) }
        ensures others { IfOk result (λ new. (i : ℕ) → (i < low) ⊎ (high ≤ i)
            → var_at new.vars i ≡ var_at self.now.vars i) }
        ensures filled { IfOk result (λ new. new.filled ≡ self.now.filled) }
    {
        let mut new = self.fork()?;
        let mut x = high;
        while x > low {
            x -= 1;
            new.drop_spare(alloc, x)?;
        }
        new.alive = have_entries(alloc, &new.vars, &new.best, &new.kin, &new.filled);
        Ok(new)
    }

    // The lists without what is spare and not needed from one place to before another: all of it at once, and where no
    // valuation is left then, one half after the other.
    fn without_needless(&self, alloc: Global, low: usize, high: usize) -> Result<Lists, Memory>
        requires decided { AreDecided self.now }
        requires left { IsTrue self.now.alive }
        requires inside { (low ≤ high) × (high ≤ length self.now.vars) }
        requires later { AreNeededFrom high self.now.vars self.now.best }
        ensures plainest { IfOk result (λ new. ArePlainestFrom low self.now new) }
    {
        let tried = self.without_spares(alloc, low, high)?;
        if tried.alive {
            return Ok(tried);
        }
        if high - low <= 1 {
            let kept = self.fork()?;
            return Ok(kept);
        }
        let middle = low + (high - low) / 2;
        let upper = self.without_needless(alloc, middle, high)?;
        let new = upper.without_needless(alloc, low, middle)?;
        Ok(new)
    }

    /// The lists without anything that need not be there: without what is spare no valuation is left.
    pub(crate) fn plainest(&self, alloc: Global) -> Result<Lists, Memory>
        requires decided { AreDecided self.now }
        requires left { IsTrue self.now.alive }
        ensures { IfOk result (λ new. ArePlainestFrom 0 self.now new) }
    {
        let new = self.without_needless(alloc, 0, self.vars.len())?;
        Ok(new)
    }
}
