//! What the two files come to, by their contents: a value, or what is wrong with it.

ghost use Rattle.std.specs.Prelude.{All, IfOk};
ghost use Rattle.prediction_text.specs.PredictionText.{AreSolved};
ghost use Rattle.prediction_input.specs.PredictionInput.{ReportReads, ReportComes, TreesCome};

use checker_input::FileFault;
use outcome_report::Report;
use prediction_text::has_solved_clauses;
use report_reader::{JsonFault, read_json};
use script_names::{Bytes, List, Memory};
use std::alloc::Global;
use tree_predictions::{NamedTree, TreesFault, read_trees};

// The report of a text, if its clauses are in solved order.
fn solved_report(alloc: Global, text: &[u8]) -> Result<Result<Report, FileFault>, Memory>
    ensures { IfOk result (ReportReads text.now) }
{
    let report = match read_json(alloc, text) {
        Ok(report) => report,
        Err(JsonFault::Json) => return Ok(Err(FileFault::Report { why: 1 })),
        Err(JsonFault::Shape) => return Ok(Err(FileFault::Report { why: 2 })),
        Err(JsonFault::Memory) => return Err(Memory),
    };
    let solved = has_solved_clauses(alloc, &report)?;
    if !solved {
        return Ok(Err(FileFault::Report { why: 3 }));
    }
    Ok(Ok(report))
}

/// The report, which has to be there.
pub fn named_report(
    alloc: Global,
    report: &Option<Bytes>,
) -> Result<Result<Report, FileFault>, Memory>
    ensures { IfOk result (ReportComes report.now) }
{
    match report {
        None => Ok(Err(FileFault::Missing)),
        Some(text) => {
            let came = solved_report(alloc, text.as_slice())?;
            Ok(came)
        }
    }
}

/// The trees, whose file has to be there.
pub fn named_trees(
    alloc: Global,
    trees: &Option<Bytes>,
) -> Result<Result<List<NamedTree>, FileFault>, Memory>
    ensures { IfOk result (TreesCome trees.now) }
{
    match trees {
        None => Ok(Err(FileFault::Missing)),
        Some(text) => match read_trees(alloc, text.as_slice()) {
            Ok(trees) => Ok(Ok(trees)),
            Err(TreesFault::Line { line, why }) => Ok(Err(FileFault::Line { line, why })),
            Err(TreesFault::Memory) => Err(Memory),
        },
    }
}
