//! The job of a scenario, made of the packages and the base that were read: the run that it stands for, and the trees
//! that the run may begin from; and the acts of each step that places or takes away files. It stands on checker_input,
//! package_lists, system_base, scenario_runs, start_trees and shell_to_colis. Begin with specs/StartTrees.antt and
//! `needs_of`; `theorems` has what holds of the run.
#![tactic(auto)]

mod followed;
mod gone_needs;
mod job;
mod kept;
mod needs;
mod own_needs;
mod plain_needs;
mod programs;
mod sides;
mod step_acts;
pub mod theorems;

pub use job::{is_plain, job_of, job_with};
pub use kept::kept_of;
pub use needs::needs_of;
pub use programs::{Programs, programs_of};
pub use step_acts::file_acts;
