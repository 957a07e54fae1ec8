ghost use Rattle.std.specs.Prelude.{◌≡◌, IfOk, Some};
ghost use Rattle.feature_trees.specs.declared.kind.Kind.TheVariants.{Dir};
ghost use Rattle.feature_trees.specs.Tree.{kind_of};
ghost use Rattle.dpkg_scenarios.specs.declared.scenario.StepNext.TheVariants.{Stop};
ghost use Rattle.scenario_runs.specs.Runs.{replayed_at, scenario_run};

use crate::course::{Course, Reached, begun};
use crate::job::Job;
use crate::replayed::Replayed;
use crate::steps::take_step;
use dpkg_scenarios::theorems::scenarios_end;
use dpkg_scenarios::{Ending, StepNext};
use feature_trees::Value;
use script_names::Memory;
use std::alloc::Global;

// What a run comes to that has ended.
fn replayed(ending: Ending, course: Course) -> Replayed
    ensures { replayed_at (Stop ending) course ≡ Some result }
{
    let Course {
        tree,
        kept: _,
        trace,
        deeds,
        calls,
        turns: _,
        unpacked: _,
    } = course;
    Replayed {
        ending,
        trace,
        after: tree,
        calls,
        deeds,
    }
}

/// Runs the scenario of a job from a tree, which is a directory: the ending, the trace, the tree that is left, the
/// calls of scripts and the deeds are those of the scenario's run (Debian Policy, 6.5 to 6.8). All scripts share the
/// turns of the job. The one fault is want of memory.
pub fn run(alloc: Global, job: &Job, tree: &Value) -> Result<Replayed, Memory>
    requires { kind_of tree.now ≡ Dir }
    ensures { IfOk result (λ replayed. scenario_run job.now tree.now ≡ Some replayed) }
{
    scenarios_end();
    let mut course = begun(alloc, tree, job.turns)?;
    let mut step = 1u16;
    'steps: loop {
        let Reached {
            next,
            course: after,
        } = take_step(alloc, job, step, course)?;
        course = after;
        match next {
            StepNext::Go(later) => step = later,
            StepNext::Stop(ending) => return Ok(replayed(ending, course)),
        }
    }
}
