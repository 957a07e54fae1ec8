//! The files that a request reads: which, in which order, what each comes to, and why one is refused. It stands on
//! command_words, package_lists, system_base, shell_forms and checker_io.
#![tactic(auto)]

mod asked;
mod control;
mod faults;
mod input;
mod names;
mod package;
mod read_file;
mod read_kept;
mod read_package;
mod read_pair;
mod script;
mod sources;
mod task;
pub mod theorems;
mod understand;

pub use asked::Asked;
pub use faults::{FileFault, InputRefusal};
pub use input::read_task;
pub use package::{Package, Packages};
pub use read_file::{Found, of_file, read_within};
pub use script::{ScriptFault, read_script};
pub use sources::Sources;
pub use task::Task;
