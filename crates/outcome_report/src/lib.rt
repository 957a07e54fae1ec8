//! The report of scenarios: each outcome with the run from the tree that it shows, and the verdict. Its texts are those
//! of report_text. It stands on scenario_outcomes and scenario_runs. Begin with `make_part`, and with
//! specs/OutcomeReport.antt for what it is for a part of a report to be a scenario's.
#![tactic(auto)]

mod outcome_report;
mod replay;
mod verdicts;

pub use outcome_report::{Report, ReportEntry, ReportPart, make_entry, make_part};
pub use replay::{Replay, keep_replay};
pub use verdicts::{run_status, verdict};
