ghost use Rattle.std.specs.Prelude.{◌≡◌, ◌≤◌, length};
ghost use Rattle.clause_solver.specs.Pairs.{HasPair};
ghost use Rattle.feature_trees.specs.declared.value.Value.{Value as Tree};
ghost use Rattle.case_paths.specs.Paths.{Explored, AllAlive};
ghost use Rattle.case_paths.specs.Items.{AllItems, Advanced, item_states};

use crate::items::{Item, paths_of, put_found};
use crate::machine::Machine;
use crate::pursuit::pursue;
use crate::queue::Queue;
use crate::state::{Found, PathState, PathsFault};
use crate::trace::Trace;
use clause_solver::Store;
use feature_trees::Kinds;
use script_names::List;
use std::alloc::Global;

// One round over the items: each stage that waits is run once, and what comes of it takes its place. `Over` where there
// are more items than room, each of which stands for a trace at least.
fn round<V: Drop, M: Machine<End = V>>(
    alloc: Global,
    machine: &M,
    mut items: Queue<Item<V>>,
    room: usize,
) -> Result<Queue<Item<V>>, PathsFault>
    requires items { AllItems (M.decision machine.now) items }
    requires alive { AllAlive (item_states items) }
    requires room { length items ≤ room }
    ensures { Advanced (M.decision machine.now) items room result }
{
    let mut seen = Queue::new(alloc);
    'items: loop {
        match items.pop() {
            None => return Ok(seen),
            Some(Item::Ended(path)) => seen.push(Item::Ended(path))?,
            Some(Item::Waiting(stage)) => {
                let left = room - items.len() - seen.len();
                let found = match pursue(alloc, machine, stage, left) {
                    Ok(found) => found,
                    Err(fault) => return Err(fault),
                };
                put_found(&mut seen, found)?;
            }
        }
    }
}

/// All paths of a machine from a set of pairs of a tree and itself: each pair is on the path of its own run, and the
/// traces of the paths rise. `Over` exactly where the runs have more than `room` different traces.
pub fn explore<V: Drop, M: Machine<End = V>>(
    alloc: Global,
    machine: &M,
    store: Store,
    room: usize,
) -> Result<List<Found<V>>, PathsFault>
    requires same { (t u : Tree) → HasPair store t u → u ≡ t }
    ensures { Explored (M.decision machine.now) store room result }
{
    let mut store = store;
    let now = store.now();
    let left = store.limit(now, Kinds::all())?;
    if !left {
        return Ok(List::new(alloc));
    }
    if room == 0 {
        return Err(PathsFault::Over);
    }
    let none = Trace::new(alloc);
    let mut items = Queue::new(alloc);
    let first = PathState {
        store,
        kept: now,
        trace: none,
        done: 0,
    };
    items.push(Item::Waiting(first))?;
    'rounds: loop {
        let before = items.len();
        let next = match round(alloc, machine, items, room) {
            Ok(next) => next,
            Err(fault) => return Err(fault),
        };
        if next.len() == before {
            let paths = paths_of(alloc, next)?;
            return Ok(paths);
        }
        items = next;
    }
}
