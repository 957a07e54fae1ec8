// The pick of clauses for a tree.
ghost use Rattle.std.specs.Prelude.{◌≡◌, ◌↔◌, ◌≤◌, [], length, false, All, IfOk, IsTrue, List as ListOf, map};
ghost use Rattle.tree_clauses.specs.Literals.{CoversTree};
ghost use Rattle.tree_clauses.specs.Solved.{IsSolved};
ghost use Rattle.tree_predictions.specs.declared.looks.Look.{Look};
ghost use Rattle.tree_predictions.specs.declared.plan.TheConstants.{MOST_SHARED};
ghost use Rattle.tree_predictions.specs.Looks.{held_of};
ghost use Rattle.tree_predictions.specs.Picks.{IsPick, ArePicks};
ghost use Rattle.tree_predictions.specs.Plans.{clauses_of, looks_behind, ArePlanned, IsHeld};

use crate::looks::held_of;
use crate::plan::Step;
use feature_trees::Value;
use script_names::{List, Memory};
use std::alloc::Global;
use tree_clauses::{Clause, covers};

/// The picks of the clauses of a plan, which are in solved order, for trees.
pub(crate) fn picks_of(
    alloc: Global,
    plan: &[Step],
    trees: &[&Value],
) -> Result<List<Option<u64>>, Memory>
    requires solved { All IsSolved (clauses_of plan.now) }
    requires planned { ArePlanned [] plan.now }
    ensures { IfOk result (ArePicks (clauses_of plan.now) (map (λ tree. tree.now) trees.now)) }
{
    let mut picks = List::new(alloc);
    for tree in trees {
        let pick = pick(alloc, plan, tree)?;
        picks.add(pick)?;
    }
    Ok(picks)
}

// The number of the first clause that covers a tree, counted from 1. Of each clause are looked at only the looks that
// the one before it has not, and those only where all others hold.
fn pick(alloc: Global, plan: &[Step], tree: &Value) -> Result<Option<u64>, Memory>
    requires solved { All IsSolved (clauses_of plan.now) }
    requires planned { ArePlanned [] plan.now }
    ensures { IfOk result (IsPick (clauses_of plan.now) tree.now) }
{
    let mut held = 0usize;
    let mut number = 0u64;
    for step in plan {
        let now = held_behind(tree, held, step);
        held = now.looks;
        number += 1;
        let covered = covers_if(alloc, step.clause, tree, now.all)?;
        if covered {
            return Ok(Some(number));
        }
    }
    Ok(None)
}

// How many looks of a clause hold of a tree, from the first on, and whether all may.
#[derive(Clone, Copy, Debug, PartialEq, Eq)]
struct Held {
    looks: usize,
    all: bool,
}

// The same of the clause of a step, behind a clause of whose looks so many hold.
fn held_behind(tree: &Value, held: usize, step: &Step) -> Held
    requires { step.now.shared ≤ MOST_SHARED }
    ensures { (before : ListOf Look) → step.now.shared ≤ length before → held ≡ held_of tree.now before
        → IsHeld tree.now (looks_behind before step.now) result }
{
    if held < step.shared {
        return Held {
            looks: held,
            all: false,
        };
    }
    let more = held_of(tree, step.more.as_slice());
    Held {
        looks: step.shared + more,
        all: more == step.more.len(),
    }
}

// Whether a clause covers a tree, of which it is known whether all of its looks may hold.
fn covers_if(alloc: Global, clause: &Clause, tree: &Value, all: bool) -> Result<bool, Memory>
    requires solved { IsSolved clause.now }
    requires fails { all ≡ false → ¬ (CoversTree clause.now tree.now) }
    ensures { IfOk result (λ found. IsTrue found ↔ CoversTree clause.entry.now tree.now) }
{
    if !all {
        return Ok(false);
    }
    covers(alloc, clause, tree)
}
