//! What a request comes to, with all that its files hold.

ghost use Rattle.std.specs.Prelude.{IfOk};
ghost use Rattle.checker_input.specs.Input.{ReadsInput, IsInRange};
ghost use Rattle.checker_input.specs.declared.asked.Asked.TheVariants.{Prediction as predicts};
ghost use Rattle.checker_calls.specs.Works.{work_of, work_in, IsSoundWork};

use checker_input::{Asked, InputRefusal, Task, read_task};
use checker_io::{Shelf, Stop};
use command_words::Request;
use prediction_input::{Prediction, read_prediction};
use script_names::Text;
use std::alloc::Global;

/// What is to be done.
#[derive(Drop)]
pub enum Work {
    /// A task on packages, or on a script.
    Task(Task),
    /// The outcome of each of many trees, by a report.
    Predict(Prediction),
}

// The prediction of a report and trees in files of these names, or the first refusal.
fn read_predict<S: Shelf>(
    alloc: Global,
    report: &Text,
    trees: &Text,
    shelf: &mut S,
) -> Result<Work, Stop<Text, InputRefusal>>
    ensures reads { ReadsInput (S.state shelf.old) (S.state shelf.new)
        (work_of (predicts report.now trees.now)) result }
    ensures sound { IfOk result IsSoundWork }
{
    match read_prediction(alloc, report, trees, shelf) {
        Ok(prediction) => Ok(Work::Predict(prediction)),
        Err(stop) => Err(stop),
    }
}

/// Reads what the request names: what is to be done, or the first refusal. A prediction's report is read and understood
/// before its trees are read.
pub fn read_work<S: Shelf>(
    alloc: Global,
    request: &Request,
    shelf: &mut S,
) -> Result<Work, Stop<Text, InputRefusal>>
    ensures reads { ReadsInput (S.state shelf.old) (S.state shelf.new) (work_in request.now) result }
    ensures sound { IsInRange request.now → IfOk result IsSoundWork }
{
    match read_task(alloc, request, shelf) {
        Ok(Asked::Task(task)) => Ok(Work::Task(task)),
        Ok(Asked::Prediction { report, trees }) => read_predict(alloc, &report, &trees, shelf),
        Err(stop) => Err(stop),
    }
}
