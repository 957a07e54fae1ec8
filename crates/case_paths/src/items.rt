//! What is left of an exploration: stages that wait for their run, and paths that have ended, by rising traces.

ghost use Rattle.std.specs.Prelude.{◌≡◌, ◌++◌, length, IfOk, OnOk};
ghost use Rattle.case_paths.specs.Items.{stage_items, found_items, path_items, ended_count};

use crate::pursuit::Pursued;
use crate::queue::Queue;
use crate::state::{Found, PathState};
use script_names::{List, Memory};
use std::alloc::Global;

/// A stage that waits for its run, or a path that has ended.
#[derive(Drop)]
pub enum Item<V> {
    Waiting(PathState),
    Ended(Found<V>),
}

// Stages behind the items, in their order.
fn put_stages<V: Drop>(
    items: &mut Queue<Item<V>>,
    mut stages: Queue<PathState>,
) -> Result<(), Memory>
    ensures { OnOk result (items.new ≡ items.old ++ stage_items stages) }
{
    'stages: loop {
        match stages.pop() {
            None => return Ok(()),
            Some(stage) => items.push(Item::Waiting(stage))?,
        }
    }
}

/// Puts what came of a stage behind the items, by rising traces: stages with lower traces, the path that has ended,
/// and stages with higher traces.
pub fn put_found<V: Drop>(items: &mut Queue<Item<V>>, found: Pursued<V>) -> Result<(), Memory>
    ensures { OnOk result (items.new ≡ items.old ++ found_items found) }
{
    let Pursued {
        lower,
        path,
        higher,
    } = found;
    put_stages(items, lower)?;
    items.push(Item::Ended(path))?;
    put_stages(items, higher)?;
    Ok(())
}

/// The paths of items that have all ended.
pub fn paths_of<V: Drop>(alloc: Global, mut items: Queue<Item<V>>) -> Result<List<Found<V>>, Memory>
    requires { ended_count items ≡ length items }
    ensures { IfOk result (λ paths. items ≡ path_items paths) }
{
    let mut paths = List::new(alloc);
    'items: loop {
        match items.pop() {
            None => return Ok(paths),
            Some(Item::Ended(path)) => paths.add(path)?,
            Some(Item::Waiting(_)) => unreachable!(),
        }
    }
}
