ghost use Rattle.std.specs.Prelude.{◌≡◌, List, ℕ, IfOk, Some};
ghost use Rattle.feature_trees.specs.declared.kind.Kind.TheVariants.{Dir};
ghost use Rattle.feature_trees.specs.Tree.{kind_of};
ghost use Rattle.dpkg_scenarios.specs.Scenarios.{Step};
ghost use Rattle.dpkg_scenarios.specs.Steps.{IsStep, line, words_of};
ghost use Rattle.dpkg_scenarios.specs.declared.scenario.StepNext.TheVariants.{Go};
ghost use Rattle.scenario_runs.specs.Runs.{plan_of, call_script, next_behind, go_next};
ghost use Rattle.scenario_runs.specs.Later.{IsLater, Works};

use crate::course::{Course, Reached, WorkEnd, Worked};
use crate::files::do_files;
use crate::job::Job;
use crate::restoring::{restore, unpack};
use crate::scripts::call_script;
use dpkg_scenarios::theorems::scenarios_end;
use dpkg_scenarios::{ScriptKind, Side, StepNext, StepWork, call_words, next, work};
use script_names::Memory;
use std::alloc::Global;

// Calls the script of a step; a missing one is a success, and no call.
fn call_step(
    alloc: Global,
    job: &Job,
    step: u16,
    side: Side,
    script: ScriptKind,
    course: Course,
) -> Result<Worked, Memory>
    requires step { IsStep job.now.scenario step }
    requires dir { kind_of course.tree ≡ Dir }
    ensures call { (words : List (List ℕ))
        → let meaning = (plan_of job.now).scripts side script in
        words_of job.now.scenario step job.now.said ≡ Some words
        → IfOk result (λ worked. worked ≡ call_script job.now.premises step side script words meaning course) }
    ensures dir { IfOk result (λ worked. kind_of worked.course.tree ≡ Dir) }
{
    match job.scripts(side).get(script) {
        None => Ok(Worked {
            end: WorkEnd::Succeeded,
            course,
        }),
        Some(program) => {
            let words = call_words(alloc, job.scenario, step, &job.said)?;
            let premises = &job.premises;
            call_script(alloc, premises, step, side, script, words, program, course)
        }
    }
}

// Does the work of a step.
fn do_work(alloc: Global, job: &Job, step: u16, course: Course) -> Result<Worked, Memory>
    requires step { IsStep job.now.scenario step }
    requires dir { kind_of course.tree ≡ Dir }
    ensures work { IfOk result (λ worked. Works (plan_of job.now) step course worked) }
    ensures dir { IfOk result (λ worked. kind_of worked.course.tree ≡ Dir) }
{
    match work(job.scenario, step) {
        StepWork::Script { side, script } => call_step(alloc, job, step, side, script, course),
        StepWork::Unpack => unpack(alloc, step, &job.files.unpack, course),
        StepWork::RemoveFiles => do_files(alloc, false, step, &job.files.remove_files, course),
        StepWork::RemoveOld => do_files(alloc, false, step, &job.files.remove_old, course),
        StepWork::RemoveConf => do_files(alloc, false, step, &job.files.remove_conf, course),
        StepWork::Restore => restore(alloc, step, &job.files.backs, course),
    }
}

// What follows a step whose work ended so.
fn next_behind(job: &Job, step: u16, end: WorkEnd) -> StepNext
    requires { IsStep job.now.scenario step }
    ensures { (s : Step) → line job.now.scenario step ≡ Some s → result ≡ next_behind job.now.plain s end }
{
    match end {
        WorkEnd::Succeeded => next(job.scenario, step, true, job.plain),
        WorkEnd::Failed(_) => next(job.scenario, step, false, job.plain),
        WorkEnd::Over(ending) => StepNext::Stop(ending),
    }
}

/// Takes a step of a job's scenario: what follows it, and how far the run has come then.
pub(crate) fn take_step(
    alloc: Global,
    job: &Job,
    step: u16,
    course: Course,
) -> Result<Reached, Memory>
    requires step { IsStep job.now.scenario step }
    requires dir { kind_of course.tree ≡ Dir }
    ensures step { IfOk result (λ reached. reached ≡ go_next (plan_of job.now) (Go step) course) }
    ensures later { IfOk result (λ reached. IsLater job.now.scenario step reached.next) }
    ensures dir { IfOk result (λ reached. kind_of reached.course.tree ≡ Dir) }
{
    scenarios_end();
    let Worked { end, course } = do_work(alloc, job, step, course)?;
    let next = next_behind(job, step, end);
    Ok(Reached { next, course })
}
