//! The variables of a store with their greatest kinds and links, and whether a pair is left. Each step decides at once,
//! and looks at nothing but what it changes, and at the variables that have to have an entry.

ghost use Rattle.std.specs.Prelude.{◌≡◌, ◌↔◌, ◌<◌, length, IfOk, OnOk, IsTrue};
ghost use Rattle.clause_solver.specs.Variables.{Ordered, filled, narrowed};
ghost use Rattle.clause_solver.specs.Linked.{AreLinked};
ghost use Rattle.clause_solver.specs.Decided.{AreDecided, AreFilled, HaveEntries, number_at};

use crate::facts::{fill, narrow};
use crate::greatest::{ReplacedNames, greatest_narrowed, has_entry_outside, is_same};
use crate::kin::Kin;
use crate::places::{kind_at, var_at};
use crate::settling::settle_entries;
use crate::variable::Variable;
use feature_trees::{Kind, Kinds};
use script_names::Memory;
use shared_table::{Shared, fork_alone, push_alone, set_alone};
use std::alloc::Global;

/// The variables of a store, and what is known of them together.
#[derive(Debug, Drop)]
pub(crate) struct Lists {
    pub(crate) vars: Shared<Variable>,
    /// The greatest kind of each.
    pub(crate) best: Shared<Kind>,
    pub(crate) kin: Shared<Kin>,
    /// The numbers of those that have an entry by a fact.
    pub(crate) filled: Shared<u32>,
    /// Whether some valuation is left.
    pub(crate) alive: bool,
}

impl Lists {
    /// Equal lists, which own the same nodes.
    pub(crate) fn fork(&self) -> Result<Lists, Memory>
        ensures { IfOk result (λ fork. fork ≡ self.now) }
    {
        let vars = fork_alone(&self.vars)?;
        let best = fork_alone(&self.best)?;
        let kin = fork_alone(&self.kin)?;
        let filled = fork_alone(&self.filled)?;
        Ok(Lists {
            vars,
            best,
            kin,
            filled,
            alive: self.alive,
        })
    }

    /// Narrows a variable to a set of kinds.
    pub(crate) fn narrow(&mut self, alloc: Global, x: u32, k: Kinds) -> Result<(), Memory>
        requires decided { AreDecided self.old }
        requires inside { x < length self.old.vars }
        ensures narrowed { OnOk result (self.new.vars ≡ narrowed self.old.vars x k) }
        ensures decided { OnOk result (AreDecided self.new) }
    {
        let x = x as usize;
        narrow(alloc, &mut self.vars, x, k)?;
        let kind = greatest_narrowed(&self.vars, &self.best, x);
        let fits = var_at(&self.vars, x).kinds.has(kind);
        if is_same(kind_at(&self.best, x), kind) {
            self.alive = self.alive & fits;
            return Ok(());
        }
        set_alone(&mut self.best, x, kind)?;
        let best = fork_alone(&self.best)?;
        let settled = settle_entries(alloc, &self.vars, &self.kin, best, x)?;
        let have = have_entries(alloc, &self.vars, &settled.best, &self.kin, &self.filled);
        self.alive = (self.alive & (fits & settled.fits)) & have;
        self.best = settled.best;
        Ok(())
    }

    /// Says of a variable that it has an entry.
    pub(crate) fn fill(&mut self, alloc: Global, x: u32) -> Result<(), Memory>
        requires decided { AreDecided self.old }
        requires inside { x < length self.old.vars }
        ensures filled { OnOk result (self.new.vars ≡ filled self.old.vars x) }
        ensures decided { OnOk result (AreDecided self.new) }
    {
        if var_at(&self.vars, x as usize).not_empty {
            return Ok(());
        }
        fill(alloc, &mut self.vars, x as usize)?;
        push_alone(&mut self.filled, x)?;
        let replaced = ReplacedNames::Nothing;
        let has = has_entry_outside(
            alloc, &self.vars, &self.best, &self.kin, true, x as usize, &replaced,
        );
        self.alive = self.alive & has;
        Ok(())
    }
}

/// The number at a place.
pub(crate) fn number_at(numbers: &Shared<u32>, k: usize) -> u32
    requires { k < length numbers.now }
    ensures { result ≡ number_at numbers.now k }
{
    match numbers.get(k) {
        Some(number) => *number,
        None => unreachable!(),
    }
}

/// Whether each of the variables that have an entry by a fact has one among the greatest kinds.
pub(crate) fn have_entries(
    alloc: Global,
    vars: &Shared<Variable>,
    best: &Shared<Kind>,
    kin: &Shared<Kin>,
    filled: &Shared<u32>,
) -> bool
    requires same { length best.now ≡ length vars.now }
    requires order { Ordered vars.now }
    requires linked { AreLinked vars.now kin.now }
    requires filled { AreFilled vars.now filled.now }
    ensures { IsTrue result ↔ HaveEntries vars.now best.now filled.now }
{
    for k in 0..filled.len() {
        let replaced = ReplacedNames::Nothing;
        let x = number_at(filled, k) as usize;
        let has = has_entry_outside(alloc, vars, best, kin, true, x, &replaced);
        if !has {
            return false;
        }
    }
    true
}
