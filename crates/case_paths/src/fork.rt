//! A deed forks a path into one path for each of its cases that leads on from some pair.

ghost use Rattle.std.specs.Prelude.{◌≡◌, ◌<◌, ◌≤◌, ◌++◌, ◌∷◌, [], length, All, IfOk};
ghost use Rattle.tree_clauses.specs.Plain.{IsPlainFrom};
ghost use Rattle.clause_solver.specs.Adds.{AllInside, AddsFrom, LeadsNowhereFrom};
ghost use Rattle.case_paths.specs.Steps.{mark_of, GoesOn, Forked, AreForks, HasRow, IsRowAt, IsLed};

use crate::queue::Queue;
use crate::state::PathState;
use crate::trace::Trace;
use script_names::{Mark, Memory, Site};
use std::alloc::Global;
use tree_clauses::{Case, Var};

/// What a deed forks a state into: the state that goes on by the row of a run, and those of lower and of higher rows.
#[derive(Drop)]
pub struct Forks {
    pub lower: Queue<PathState>,
    pub followed: PathState,
    pub higher: Queue<PathState>,
}

// The trace with one mark more, which shares the marks of this one.
fn with_mark(trace: &Trace, site: Site, row: u8) -> Result<Trace, Memory>
    ensures { IfOk result (λ t. t ≡ trace.now ++ mark_of site row ∷ []) }
{
    let mut more = trace.fork()?;
    more.add(Mark { site, row })?;
    Ok(more)
}

// The states that cases fork a state into, in the cases' order.
fn siblings(
    alloc: Global,
    site: Site,
    given: &[Var],
    state: &PathState,
    cases: &[Case],
) -> Result<Queue<PathState>, Memory>
    requires plain { All (IsPlainFrom (length given.now)) cases.now }
    requires few { length given.now ≤ u32.MAX }
    requires inside { AllInside given.now state.now.store.count }
    requires counted { state.now.done < usize.MAX }
    ensures { IfOk result (λ ys. Forked given.now site state.now cases.now ys) }
{
    let mut forks = Queue::new(alloc);
    for case in cases {
        let found = state.store.add_from(given, case)?;
        let store = match found {
            Some(store) => store,
            None => continue,
        };
        let trace = with_mark(&state.trace, site, case.row)?;
        let kept = state.kept;
        let done = state.done + 1;
        forks.push(PathState {
            store,
            kept,
            trace,
            done,
        })?;
    }
    Ok(forks)
}

// The state behind a case that leads on from some pair of it, with one mark more; its trace is not copied.
fn gone_on(mark: Mark, given: &[Var], state: PathState, case: &Case) -> Result<PathState, Memory>
    requires plain { IsPlainFrom (length given.now) case.now }
    requires few { length given.now ≤ u32.MAX }
    requires inside { AllInside given.now state.store.count }
    requires counted { state.done < usize.MAX }
    requires leads { LeadsNowhereFrom state.store given.now case.now → ⊥ }
    ensures adds { IfOk result (λ y. AddsFrom state.store given.now case.now y.store) }
    ensures goes { IfOk result (λ y. GoesOn state mark y) }
{
    let PathState {
        store,
        kept,
        trace,
        done,
    } = state;
    let mut trace = trace;
    let found = store.follow_from(given, case)?;
    trace.add(mark)?;
    match found {
        Some(store) => Ok(PathState {
            store,
            kept,
            trace,
            done: done + 1,
        }),
        None => unreachable!(),
    }
}

// The place of the case of a row.
fn place(cases: &[Case], row: u8) -> usize
    requires { HasRow cases.now row }
    ensures { IsRowAt cases.now row result }
{
    for at in 0usize..cases.len() {
        let case = &cases[at];
        if case.row == row {
            return at;
        }
    }
    unreachable!()
}

/// What cases fork a state into, where a run goes on by the row of this mark. The given variables of the cases stand
/// for these of the store.
pub fn fork(
    alloc: Global,
    mark: Mark,
    given: &[Var],
    state: PathState,
    cases: &[Case],
) -> Result<Forks, Memory>
    requires plain { All (IsPlainFrom (length given.now)) cases.now }
    requires few { length given.now ≤ u32.MAX }
    requires inside { AllInside given.now state.store.count }
    requires counted { state.done < usize.MAX }
    requires led { IsLed given.now state cases.now mark.row }
    ensures { IfOk result (λ forks. AreForks mark given.now state cases.now forks) }
{
    let at = place(cases, mark.row);
    let lower = siblings(alloc, mark.site, given, &state, &cases[..at])?;
    let higher = siblings(alloc, mark.site, given, &state, &cases[at + 1..])?;
    let followed = gone_on(mark, given, state, &cases[at])?;
    Ok(Forks {
        lower,
        followed,
        higher,
    })
}
