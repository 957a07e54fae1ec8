//! The report and the trees of a prediction, as their files hold them, or the first refusal. It stands on
//! checker_input, report_reader, prediction_text and tree_predictions. Begin with `read_prediction` and
//! specs/PredictionInput.antt.
#![tactic(auto)]

mod prediction;
mod read;
pub mod theorems;
mod understand;

pub use prediction::Prediction;
pub use read::{MOST_BYTES, read_prediction};
