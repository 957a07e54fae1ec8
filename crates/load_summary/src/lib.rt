//! The summary of a report on a made package: a line for each scenario that tells how many of its outcomes end in each
//! way, and the verdict. It is made of the endings alone. It stands on outcome_report, whose reports it tells of. Begin
//! with `render_load`, and with specs/Summary.antt for its text.
#![tactic(auto)]

mod counts;
mod endings;
mod summary;

pub use endings::{ScenarioEndings, load_verdict};
pub use summary::render_load;
