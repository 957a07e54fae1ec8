ghost use Rattle.std.specs.Prelude.{◌≡◌, IfOk};
ghost use Rattle.scenario_runs.specs.Runs.{begun};

use crate::call::ScriptCall;
use dpkg_scenarios::{Ending, StepNext};
use feature_trees::Value;
use script_names::{Copied, List, Memory};
use shell_rules::Trace;
use std::alloc::Global;
use utility_calls::deeds::Deed;

/// How far a run of a scenario has come.
#[derive(Drop)]
pub struct Course {
    /// The file tree, as it is now.
    pub tree: Value,
    /// The file tree as it was when it was kept, at the begin of the last unpacking; before the first one that of the
    /// run's begin.
    pub kept: Value,
    /// The marks of the acts that were done and of what was put back, in order.
    pub trace: Trace,
    /// What was done to the trees, in order.
    pub deeds: List<Deed>,
    /// The calls of scripts, in order.
    pub calls: List<ScriptCall>,
    /// How many more turns of loops may be taken.
    pub turns: u32,
    /// How many acts of the last unpacking were done with success.
    pub unpacked: u32,
}

/// How the work of a step ended.
#[derive(Clone, Copy, Debug, PartialEq, Eq)]
pub enum WorkEnd {
    /// With success.
    Succeeded,
    /// With failure: at the file act of this number, or 0 where a script failed.
    Failed(u32),
    /// With this ending of the whole run.
    Over(Ending),
}

/// What the work of a step came to.
#[derive(Drop)]
pub struct Worked {
    pub end: WorkEnd,
    pub course: Course,
}

/// Where a run is: what follows, and how far it has come.
#[derive(Drop)]
pub struct Reached {
    pub next: StepNext,
    pub course: Course,
}

/// A run in which nothing was done.
pub(crate) fn begun(alloc: Global, tree: &Value, turns: u32) -> Result<Course, Memory>
    ensures { IfOk result (λ course. course ≡ begun turns tree.now) }
{
    let start = tree.copy(alloc)?;
    let kept = tree.copy(alloc)?;
    Ok(Course {
        tree: start,
        kept,
        trace: List::new(alloc),
        deeds: List::new(alloc),
        calls: List::new(alloc),
        turns,
        unpacked: 0,
    })
}
