//! One run from a stage, followed to its end, and the stages that part from it on the way.

ghost use Rattle.std.specs.Prelude.{◌+◌, ◌<◌, ◌≤◌, ◌↔◌, IsTrue};
ghost use Rattle.clause_solver.specs.Stands.{Alive};
ghost use Rattle.case_paths.specs.Stages.{IsStage, IsPursued};

use crate::deeds::forks_by;
use crate::machine::Machine;
use crate::queue::Queue;
use crate::state::{Found, PathState, PathsFault, Ran};
use std::alloc::Global;

/// What comes of a stage: the path of one of its runs, and the stages that part from it, those with lower traces and
/// those with higher ones, each by rising traces.
#[derive(Drop)]
pub struct Pursued<V> {
    pub lower: Queue<PathState>,
    pub path: Found<V>,
    pub higher: Queue<PathState>,
}

// Whether the parts below a path, the path and the parts above it are more than the room.
fn are_over(lower: usize, higher: usize, room: usize) -> bool
    ensures { IsTrue result ↔ (room < lower + 1 + higher) }
{
    lower >= room || higher >= room - lower
}

/// What comes of a stage: the machine runs from a start tree of it, and its deeds are taken one after the other for all
/// pairs at once. At each act, and where something is put back, the pairs with the run's row go on; those with another
/// row are a stage of their own.
/// `Over` as soon as the stage has parted into more than `room`.
pub fn pursue<V: Drop, M: Machine<End = V>>(
    alloc: Global,
    machine: &M,
    stage: PathState,
    room: usize,
) -> Result<Pursued<V>, PathsFault>
    requires alive { Alive stage.store }
    requires stage { IsStage (M.decision machine.now) stage }
    requires room { 1 ≤ room }
    ensures { IsPursued (M.decision machine.now) stage room result }
{
    let start = stage.store.start_tree(alloc)?;
    let Ran {
        value,
        trace: all_marks,
        deeds: all_deeds,
    } = machine.run(alloc, &start)?;
    let marks = all_marks.as_slice();
    let deeds = all_deeds.as_slice();
    let mut lower = Queue::new(alloc);
    let mut state = stage;
    let mut higher = Queue::new(alloc);
    for at in state.done..deeds.len() {
        let forks = forks_by(alloc, marks, state, &deeds[at])?;
        lower.put_last(forks.lower)?;
        higher.put_first(forks.higher)?;
        state = forks.followed;
        if are_over(lower.len(), higher.len(), room) {
            return Err(PathsFault::Over);
        }
    }
    let path = Found { value, state };
    Ok(Pursued {
        lower,
        path,
        higher,
    })
}
