//! Which outcome of a report each of many trees has, as a text, and that the runs from these trees end so.
//! It stands on tree_predictions, report_text and outcome_report. Begin with `predict_text` and
//! specs/PredictionText.antt, then `theorems`.
#![tactic(auto)]

mod predicted;
pub mod theorems;

pub use predicted::{has_solved_clauses, predict_text};
