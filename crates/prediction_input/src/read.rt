ghost use Rattle.std.specs.Prelude.{All, IfOk};
ghost use Rattle.checker_input.specs.Input.{FoundWithin, ReadsInput};
ghost use Rattle.prediction_text.specs.PredictionText.{AreSolved};
ghost use Rattle.prediction_input.specs.PredictionInput.{report_in, trees_in, predict_in};

use crate::prediction::Prediction;
use crate::understand::{named_report, named_trees};
use checker_input::{Found, InputRefusal, of_file, read_within};
use checker_io::{Shelf, Stop};
use outcome_report::Report;
use script_names::{Copied, List, Text};
use std::alloc::Global;
use tree_predictions::NamedTree;

/// How many bytes the report may have, and the file of trees.
pub const MOST_BYTES: usize = 67_108_864;

// What the file of this name holds, if it is there; the name is copied.
fn read_file<S: Shelf>(
    alloc: Global,
    name: &Text,
    shelf: &mut S,
) -> Result<Found, Stop<Text, InputRefusal>>
    ensures { FoundWithin MOST_BYTES name.now (S.state shelf.old) (S.state shelf.new) result }
{
    let Ok(name) = name.copy(alloc) else {
        return Err(Stop::NoMemory);
    };
    read_within(alloc, name, MOST_BYTES, shelf)
}

// The report, in the file of this name.
fn read_report<S: Shelf>(
    alloc: Global,
    report: &Text,
    shelf: &mut S,
) -> Result<Report, Stop<Text, InputRefusal>>
    ensures reads { ReadsInput (S.state shelf.old) (S.state shelf.new) (report_in report.now) result }
    ensures solved { IfOk result (λ report. All AreSolved report.parts) }
{
    let found = match read_file(alloc, report, shelf) {
        Ok(found) => found,
        Err(stop) => return Err(stop),
    };
    let came = named_report(alloc, &found.content);
    of_file(found.name, came)
}

// The trees, in the file of this name.
fn read_trees<S: Shelf>(
    alloc: Global,
    trees: &Text,
    shelf: &mut S,
) -> Result<List<NamedTree>, Stop<Text, InputRefusal>>
    ensures { ReadsInput (S.state shelf.old) (S.state shelf.new) (trees_in trees.now) result }
{
    let found = match read_file(alloc, trees, shelf) {
        Ok(found) => found,
        Err(stop) => return Err(stop),
    };
    let came = named_trees(alloc, &found.content);
    of_file(found.name, came)
}

/// The report and the trees in the files of these names, or the first refusal: the report is read, understood and found
/// to have clauses in solved order before the file of trees is looked for.
pub fn read_prediction<S: Shelf>(
    alloc: Global,
    report: &Text,
    trees: &Text,
    shelf: &mut S,
) -> Result<Prediction, Stop<Text, InputRefusal>>
    ensures reads { ReadsInput (S.state shelf.old) (S.state shelf.new) (predict_in report.now trees.now) result }
    ensures solved { IfOk result (λ prediction. All AreSolved prediction.report.parts) }
{
    let report = match read_report(alloc, report, shelf) {
        Ok(report) => report,
        Err(stop) => return Err(stop),
    };
    let trees = match read_trees(alloc, trees, shelf) {
        Ok(trees) => trees,
        Err(stop) => return Err(stop),
    };
    Ok(Prediction { report, trees })
}
