//! The outcomes of a scenario: the ways in which it can end, each start tree in exactly one of them.
//! It stands on scenario_runs, start_trees, case_paths and the crates below these. Begin with `outcomes`, and with
//! specs/Outcomes.antt for what it is that they are exact.
#![tactic(auto)]

mod job_runs;
mod listing;
mod outcome;

pub use listing::{endings, job_paths, outcomes};
pub use outcome::{Outcome, OutcomesFault, make_outcome};
