//! The report that a JSON text tells: what report_json prints is read back, and so is a text of the first version.
//! It stands on report_json, whose definition says which value a report has, and on serde_json, whose definition says
//! which value a text has. Begin with `read_json` and specs/JsonAnswers.antt: what is read loosely from a value
//! (specs/ReportRead.antt) is made a value again and compared.
#![tactic(auto)]

mod clauses;
mod members;
mod outcomes;
mod pieces;
mod read;
pub mod theorems;

pub use read::{JsonFault, read_json};
