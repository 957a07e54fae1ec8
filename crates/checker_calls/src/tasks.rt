//! What is done of each task, and of a prediction.

ghost use Rattle.std.specs.Prelude.{◌≡◌, All, IfOk};
ghost use Rattle.feature_trees.specs.Sound.{IsTree};
ghost use Rattle.checker_input.specs.Input.{IsSound};
ghost use Rattle.prediction_text.specs.PredictionText.{AreSolved};
ghost use Rattle.checker_calls.specs.Tasks.{IsRunOf, IsProgramOf, TaskGives};
ghost use Rattle.checker_calls.specs.Works.{IsSoundWork, IsPredictionOf, WorkGives};

use crate::explanations::write_explanation;
use crate::faults::TaskFault;
use crate::loads::write_load;
use crate::pairs::write_pair;
use crate::reports::write_report;
use crate::work::Work;
use crate::written::Written;
use case_pool::Gate;
use checker_input::{Packages, Task};
use colis_syntax::print_program;
use dpkg_scenarios::Scenario;
use feature_trees::Value;
use outcome_report::run_status;
use package_jobs::job_of;
use prediction_input::Prediction;
use prediction_text::predict_text;
use report_text::render_run;
use scenario_runs::run;
use script_names::Memory;
use shell_forms::Accepted;
use shell_to_colis::translate;
use std::alloc::Global;
use std::thread::Threads;

// The run of a scenario from a tree.
fn write_run(
    alloc: Global,
    packages: &Packages,
    tree: &Value,
    scenario: Scenario,
    turns: u32,
) -> Result<Written, Memory>
    requires { IsTree tree.now }
    ensures { IfOk result (λ written. IsRunOf packages.now tree.now scenario turns written.text written.status) }
{
    let job = job_of(alloc, scenario, packages, turns)?;
    let replayed = run(alloc, &job, tree)?;
    let text = render_run(alloc, &replayed)?;
    let status = run_status(&replayed);
    Ok(Written { text, status })
}

// The program of a script.
fn write_program(alloc: Global, script: &Accepted) -> Result<Written, Memory>
    ensures { IfOk result (λ written. IsProgramOf script.now written.text written.status) }
{
    let program = translate(alloc, script)?;
    program.is_sound();
    let text = print_program(alloc, &program)?;
    Ok(Written { text, status: 0 })
}

// The text of what a task asks for, and the status that goes with it; or why there is none.
fn write_task<R: Threads + Sync, G: Gate>(
    rt: &R,
    alloc: Global,
    gate: &G,
    task: &Task,
) -> Result<Written, TaskFault>
    requires { IsSound task.now }
    ensures { TaskGives task.now result }
{
    match task {
        Task::Check {
            packages,
            scenario,
            turns,
            limit,
            layout,
        } => {
            write_report(
                rt, alloc, gate, packages, *turns, *limit, *scenario, *layout,
            )
        }
        Task::Run {
            packages,
            tree,
            scenario,
            turns,
        } => {
            let written = write_run(alloc, packages, tree, *scenario, *turns)?;
            Ok(written)
        }
        Task::Translate { script } => {
            let written = write_program(alloc, script)?;
            Ok(written)
        }
        Task::Load { number, limit } => write_load(rt, alloc, gate, *number, *limit),
        Task::Explain {
            packages,
            sources,
            scenario,
            turns,
            limit,
            view,
        } => {
            write_explanation(
                rt, alloc, gate, packages, sources, *scenario, *turns, *limit, *view,
            )
        }
        Task::Pair {
            packages,
            scenario,
            turns,
            limit,
        } => write_pair(rt, alloc, gate, packages, *turns, *limit, *scenario),
    }
}

// The text on the trees of a prediction.
fn write_prediction<R: Threads + Sync>(
    rt: &R,
    alloc: Global,
    prediction: &Prediction,
) -> Result<Written, Memory>
    requires { All AreSolved prediction.now.report.parts }
    ensures { IfOk result (λ written. IsPredictionOf prediction.now written.text written.status) }
{
    let text = predict_text(rt, alloc, &prediction.report, &prediction.trees)?;
    Ok(Written { text, status: 0 })
}

// The text of work, and the status that goes with it; or why there is none.
fn write_work<R: Threads + Sync, G: Gate>(
    rt: &R,
    alloc: Global,
    gate: &G,
    work: &Work,
) -> Result<Written, TaskFault>
    requires { IsSoundWork work.now }
    ensures { WorkGives work.now result }
{
    match work {
        Work::Task(task) => write_task(rt, alloc, gate, task),
        Work::Predict(prediction) => {
            let written = write_prediction(rt, alloc, prediction)?;
            Ok(written)
        }
    }
}

/// The text of work, and the status that goes with it; or why there is none. The work is let go here, in one place.
pub fn carry_out<R: Threads + Sync, G: Gate>(
    rt: &R,
    alloc: Global,
    gate: &G,
    work: Work,
) -> Result<Written, TaskFault>
    requires { IsSoundWork work }
    ensures { WorkGives work result }
{
    write_work(rt, alloc, gate, &work)
}
