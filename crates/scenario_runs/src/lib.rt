//! The run of a scenario on one concrete tree: its scripts, called one after another as dpkg_scenarios says, and the
//! files that are placed, taken away and put back between them (Debian Policy, chapter 6). It stands on dpkg_scenarios,
//! colis_interp, concrete_utils and the crates below these. Begin with specs/Runs.antt, which says what a run is, and
//! with `job` and `runs`; `theorems` has what holds of runs.
#![tactic(auto)]

mod call;
mod course;
mod file_acts;
mod file_backs;
mod files;
mod job;
mod replayed;
mod restoring;
mod runs;
mod scripts;
mod steps;
pub mod theorems;

pub use call::{CallEnd, ScriptCall};
pub use course::{Course, Reached, WorkEnd, Worked};
pub use file_acts::FileActs;
pub use file_backs::FileBacks;
pub use job::{Files, Job};
pub use replayed::Replayed;
pub use restoring::restored;
pub use runs::run;
