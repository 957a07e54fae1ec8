ghost use Rattle.std.specs.Prelude.{◌≡◌, ◌++◌, [], length, All, IfOk, OnOk, map};
ghost use Rattle.std.specs.List.{flat_map};
ghost use Rattle.tree_clauses.specs.Solved.{IsSolved};
ghost use Rattle.tree_predictions.specs.Chunks.{part, IsWithin};
ghost use Rattle.tree_predictions.specs.Picks.{ArePicks, FirstUnsolved, PredictGives};
ghost use Rattle.tree_predictions.specs.Plans.{clauses_of, ArePlanned};

use crate::chunks::{Chunk, chunks_of};
use crate::fault::PredictFault;
use crate::picks::picks_of;
use crate::plan::{Step, plan_of};
use case_pool::map_jobs;
use feature_trees::Value;
use script_names::{List, Memory};
use std::alloc::Global;
use std::thread::Threads;
use tree_clauses::{Clause, is_solved};

/// The number of the first clause that is not in solved order, counted from 1; None where all are.
pub fn first_unsolved(alloc: Global, clauses: &[&Clause]) -> Result<Option<u64>, Memory>
    ensures { IfOk result (FirstUnsolved (map (λ clause. clause.now) clauses.now)) }
{
    let mut number = 0u64;
    for clause in clauses {
        number += 1;
        let solved = is_solved(alloc, clause)?;
        if !solved {
            return Ok(Some(number));
        }
    }
    Ok(None)
}

/// For each tree, in the trees' order, the number of the first clause that covers it, counted from 1; None where none
/// does. The clauses are in solved order. Threads share the trees; the answer does not depend on how many there are.
pub fn pick_each<R: Threads + Sync>(
    rt: &R,
    alloc: Global,
    clauses: &[&Clause],
    trees: &[&Value],
) -> Result<List<Option<u64>>, Memory>
    requires { All IsSolved (map (λ clause. clause.now) clauses.now) }
    ensures { IfOk result (ArePicks (map (λ clause. clause.now) clauses.now) (map (λ tree. tree.now) trees.now)) }
{
    let plan = plan_of(alloc, clauses)?;
    picked(rt, alloc, plan.as_slice(), trees)
}

// The picks of the clauses of a plan for trees, which threads share.
fn picked<R: Threads + Sync>(
    rt: &R,
    alloc: Global,
    plan: &[Step],
    trees: &[&Value],
) -> Result<List<Option<u64>>, Memory>
    requires solved { All IsSolved (clauses_of plan.now) }
    requires planned { ArePlanned [] plan.now }
    ensures { IfOk result (ArePicks (clauses_of plan.now) (map (λ tree. tree.now) trees.now)) }
{
    let chunks = chunks_of(alloc, trees.len())?;
    let picks = move |chunk: &Chunk| -> Result<List<Option<u64>>, Memory>
        requires solved { All IsSolved (clauses_of plan.now) }
        requires planned { ArePlanned [] plan.now }
        requires within { IsWithin (length trees.now) chunk.now }
        ensures { IfOk result (ArePicks (clauses_of plan.entry.now)
            (map (λ tree. tree.now) (part trees.entry.now chunk.now))) }
    { picks_of(alloc, plan, &trees[chunk.from..chunk.to]) };
    let answers = map_jobs(rt, alloc, &chunks, 1, &picks)?;
    joined(alloc, answers)
}

/// For each tree, in the trees' order, the number of the first clause that covers it, counted from 1; None where none
/// does. `Unsolved` exactly where some clause is not in solved order.
pub fn predict<R: Threads + Sync>(
    rt: &R,
    alloc: Global,
    clauses: &[&Clause],
    trees: &[&Value],
) -> Result<List<Option<u64>>, PredictFault>
    ensures { PredictGives (map (λ clause. clause.now) clauses.now) (map (λ tree. tree.now) trees.now) result }
{
    match first_unsolved(alloc, clauses)? {
        Some(number) => Err(PredictFault::Unsolved { number }),
        None => {
            let picks = pick_each(rt, alloc, clauses, trees)?;
            Ok(picks)
        }
    }
}

// The picks of all chunks, one after another.
fn joined(alloc: Global, answers: List<List<Option<u64>>>) -> Result<List<Option<u64>>, Memory>
    ensures { IfOk result (λ all. all ≡ flat_map (λ picks. picks) answers) }
{
    let mut all = List::new(alloc);
    for picks in answers.into_vec() {
        add_each(&mut all, picks)?;
    }
    Ok(all)
}

// Adds picks behind others.
fn add_each(all: &mut List<Option<u64>>, picks: List<Option<u64>>) -> Result<(), Memory>
    ensures { OnOk result (all.new ≡ all.old ++ picks) }
{
    for pick in picks.into_vec() {
        all.add(pick)?;
    }
    Ok(())
}
