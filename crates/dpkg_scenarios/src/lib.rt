//! What a package manager does with a package, step by step: ten scenarios as tables, which script of which package is
//! called in each step and with which words, and what follows on its success and on its failure (Debian Policy,
//! chapter 6). It stands on script_names. Begin with specs/Scenarios.antt, which has a line for each step, and with
//! `scenario`.
#![tactic(auto)]

mod call;
mod columns;
mod names;
mod said;
mod scenario;
mod scripts;
mod steps;
mod tables;
pub mod theorems;
mod verdicts;

pub use call::call_words;
pub use columns::{
    Before, Columns, NewEntries, OwnFolders, checked_scenarios, columns_of, pair_scenarios,
};
pub use names::{pair_named, scenario_name, scenario_named, script_name};
pub use said::Said;
pub use scenario::{Ending, Scenario, ScriptKind, Side, State, StepNext, StepWork};
pub use scripts::Scripts;
pub use steps::{next, work, work_at};
pub use verdicts::{Judged, ending_verdict, joint_verdict, verdict_on};
