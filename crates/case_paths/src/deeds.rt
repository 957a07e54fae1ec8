//! What the next deed of a run forks a path into: an act or a back by its cases, from the tree now and the kept tree;
//! keeping the tree into itself.

ghost use Rattle.std.specs.Prelude.{◌<◌, IfOk};
ghost use Rattle.utility_calls.specs.Acts.{IsPerformed};
ghost use Rattle.utility_calls.specs.Backs.{IsNamed};
ghost use Rattle.case_paths.specs.Steps.{act_step, back_step, IsNextStep, StepForks, KeepForks, IsNext, AreForksBy};

use crate::fork::{Forks, fork};
use crate::queue::Queue;
use crate::state::PathState;
use act_cases::{back_cases, cases};
use script_names::{Mark, Memory};
use std::alloc::Global;
use utility_calls::acts::Act;
use utility_calls::backs::Back;
use utility_calls::deeds::Deed;

// What an act forks a state into.
fn forks_by_act(alloc: Global, marks: &[Mark], state: PathState, act: &Act) -> Result<Forks, Memory>
    requires counted { state.done < usize.MAX }
    requires performed { IsPerformed act.now }
    requires next { IsNextStep state marks.now (act_step act.now) }
    ensures { IfOk result (λ forks. StepForks state marks.now (act_step act.now) forks) }
{
    let rows = cases(alloc, act)?;
    let mark = marks[state.trace.len()];
    let given = [state.store.now()];
    let forks = fork(alloc, mark, &given, state, rows.as_slice())?;
    Ok(forks)
}

// What putting something back forks a state into.
fn forks_by_back(
    alloc: Global,
    marks: &[Mark],
    state: PathState,
    back: &Back,
) -> Result<Forks, Memory>
    requires known { state.kept.0 < state.store.count }
    requires counted { state.done < usize.MAX }
    requires named { IsNamed back.now }
    requires next { IsNextStep state marks.now (back_step back.now) }
    ensures { IfOk result (λ forks. StepForks state marks.now (back_step back.now) forks) }
{
    let rows = back_cases(alloc, back)?;
    let mark = marks[state.trace.len()];
    let given = [state.store.now(), state.kept];
    let forks = fork(alloc, mark, &given, state, rows.as_slice())?;
    Ok(forks)
}

// The state with its tree now as the kept tree, beside no other.
fn keeping(alloc: Global, mut state: PathState) -> Forks
    requires { state.done < usize.MAX }
    ensures { KeepForks state result }
{
    state.kept = state.store.now();
    state.done += 1;
    Forks {
        lower: Queue::new(alloc),
        followed: state,
        higher: Queue::new(alloc),
    }
}

/// What the next deed of a run with these marks forks a state into.
pub fn forks_by(
    alloc: Global,
    marks: &[Mark],
    state: PathState,
    deed: &Deed,
) -> Result<Forks, Memory>
    requires known { state.kept.0 < state.store.count }
    requires counted { state.done < usize.MAX }
    requires next { IsNext state marks.now deed.now }
    ensures { IfOk result (λ forks. AreForksBy state marks.now deed.now forks) }
{
    match deed {
        Deed::Does(act) => forks_by_act(alloc, marks, state, act),
        Deed::Returns(back) => forks_by_back(alloc, marks, state, back),
        Deed::Keeps => Ok(keeping(alloc, state)),
    }
}
