use outcome_report::Report;
use script_names::List;
use tree_predictions::NamedTree;

/// A report, and the trees of which it is asked which outcome each has.
#[derive(Drop)]
pub struct Prediction {
    pub report: Report,
    pub trees: List<NamedTree>,
}
