//! One way in which a scenario can end, made from a path.

ghost use Rattle.std.specs.Prelude.{◌≡◌, ◌<◌, ◌≤◌, ◌+◌, ◌^◌, length, IfOk};
ghost use Rattle.clause_solver.specs.Plainest.{IsPlainestTree};
ghost use Rattle.clause_solver.specs.Stands.{Alive};
ghost use Rattle.case_paths.specs.Paths.{AllAlive, states};
ghost use Rattle.scenario_outcomes.specs.OutcomeOf.{IsOutcomeOf, AreOutcomes};

use case_paths::Found;
use dpkg_scenarios::Ending;
use feature_trees::Value;
use scenario_runs::ScriptCall;
use script_names::{Copied, List, Mark, Memory};
use std::alloc::Global;
use tree_clauses::Clause;

/// One way in which a scenario can end: its number from 1, the ending of its runs and the marks of their deeds, the
/// clause that says which start trees they begin from and which trees they leave, and one such start tree.
#[derive(Drop)]
pub struct Outcome {
    pub number: u32,
    pub ending: Ending,
    pub trace: List<Mark>,
    pub clause: Clause,
    pub shown: Value,
}

impl Copied for Outcome {
    fn copy(&self, alloc: Global) -> Result<Outcome, Memory> {
        let trace = self.trace.copy(alloc)?;
        let clause = self.clause.copy(alloc)?;
        let shown = self.shown.copy(alloc)?;
        Ok(Outcome {
            number: self.number,
            ending: self.ending,
            trace,
            clause,
            shown,
        })
    }
}

/// Why there is no list of outcomes: no tree has what is needed, or the runs from those that do have more different
/// traces than the limit, or want of memory.
#[derive(Clone, Copy, Debug, PartialEq, Eq)]
pub enum OutcomesFault {
    NoStart,
    Over,
    Memory,
}

impl Copied for OutcomesFault {
    fn copy(&self, _alloc: Global) -> Result<OutcomesFault, Memory> {
        Ok(*self)
    }
}

impl From<Memory> for OutcomesFault {
    ghost use Rattle.std.specs.Prelude.{◌≡◌};
    ghost use Rattle.scenario_outcomes.specs.declared.outcome.OutcomesFault.TheVariants.{Memory as NoMemory};

    ghost from_gives = { λ _ fault. fault ≡ NoMemory };

    fn from(_refused: Memory) -> OutcomesFault {
        OutcomesFault::Memory
    }
}

/// The outcome of a path, by its place in the list of paths, counted from 0. It shows the plainest start tree, as
/// `Store::plainest_tree` has it.
pub fn make_outcome(
    alloc: Global,
    place: u32,
    path: Found<(Ending, List<ScriptCall>)>,
) -> Result<Outcome, Memory>
    requires alive { Alive path.state.store }
    requires numbered { place + 1 < 2 ^ 32 }
    ensures outcome { IfOk result (IsOutcomeOf place path) }
    ensures plainest { IfOk result (λ outcome. IsPlainestTree path.state.store outcome.shown) }
{
    let Found { value, state } = path;
    let (ending, _calls) = value;
    let trace = state.trace.listed(alloc)?;
    let clause = state.store.clause()?;
    let shown = state.store.plainest_tree(alloc)?;
    Ok(Outcome {
        number: place + 1,
        ending,
        trace,
        clause,
        shown,
    })
}

/// The outcomes of paths, in their order.
pub(crate) fn make_outcomes(
    alloc: Global,
    paths: List<Found<(Ending, List<ScriptCall>)>>,
) -> Result<List<Outcome>, Memory>
    requires alive { AllAlive (states paths) }
    requires numbered { length paths < 2 ^ 32 }
    ensures { IfOk result (AreOutcomes 0 paths) }
{
    let mut outcomes = List::new(alloc);
    let mut place = 0u32;
    for path in paths.into_vec() {
        let outcome = make_outcome(alloc, place, path)?;
        outcomes.add(outcome)?;
        place += 1;
    }
    Ok(outcomes)
}
