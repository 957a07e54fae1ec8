// Clauses in their order, each with what it asks of a tree beyond the clause before it. Outcomes stand in the order of
// their traces, so neighbours have a long beginning in common, and what it asks is looked at once for all of them.
ghost use Rattle.std.specs.Prelude.{◌≡◌, ◌≤◌, [], drop, length, map, IfOk};
ghost use Rattle.tree_predictions.specs.Plans.{clauses_of, looks_behind, ArePlanned};

use crate::looks::{Look, looks_of, same_front};
use script_names::{List, Memory};
use std::alloc::Global;
use tree_clauses::Clause;

/// How many looks a clause shares with the one before it, at most; so their sum with others is a number of 64 bits.
pub(crate) const MOST_SHARED: usize = 1_000_000_000;

/// A clause, and its looks: the first `shared` ones of the clause before it, and more behind them.
#[derive(Drop)]
pub(crate) struct Step<'a> {
    pub(crate) clause: &'a Clause,
    pub(crate) shared: usize,
    pub(crate) more: List<Look>,
}

/// The steps of clauses, in their order.
pub(crate) fn plan_of<'a>(alloc: Global, clauses: &[&'a Clause]) -> Result<List<Step<'a>>, Memory>
    ensures clauses { IfOk result (λ plan. clauses_of plan ≡ map (λ clause. clause.now) clauses.now) }
    ensures planned { IfOk result (ArePlanned []) }
{
    let mut plan = List::new(alloc);
    let mut before = List::new(alloc);
    for clause in clauses {
        let looks = looks_of(alloc, clause)?;
        let step = step_of(alloc, clause, before.as_slice(), looks.as_slice())?;
        plan.add(step)?;
        before = looks;
    }
    Ok(plan)
}

// The step of a clause with these looks behind a clause with those before.
fn step_of<'a>(
    alloc: Global,
    clause: &'a Clause,
    before: &[Look],
    looks: &[Look],
) -> Result<Step<'a>, Memory>
    ensures clause { IfOk result (λ step. step.clause.now ≡ clause.entry.now) }
    ensures within { IfOk result (λ step. step.shared ≤ length before.now) }
    ensures few { IfOk result (λ step. step.shared ≤ MOST_SHARED) }
    ensures looks { IfOk result (λ step. looks.now ≡ looks_behind before.now step) }
{
    let shared = same_front(before, looks, MOST_SHARED);
    let more = looks_from(alloc, looks, shared)?;
    Ok(Step {
        clause,
        shared,
        more,
    })
}

// Copies of the looks from a place on.
fn looks_from(alloc: Global, looks: &[Look], from: usize) -> Result<List<Look>, Memory>
    ensures { IfOk result (λ rest. rest ≡ drop from looks.now) }
{
    match looks.get(from..) {
        Some(rest) => List::copies(alloc, rest),
        None => Ok(List::new(alloc)),
    }
}
