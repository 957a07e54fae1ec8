//! What a call of the program is: from its words, by the files that it reads, to the bytes that it writes and the status
//! that it ends with. It reads unpacked Debian packages and reports every way in which their maintainer scripts can end,
//! scenario by scenario, over all file trees that meet stated start conditions; or reports so the one scenario of a pair
//! of packages, or of a package that is configured twice; or sums up such a report on a package that it makes; or
//! explains to people what such reports say; or runs one scenario from one tree; or translates one script and prints its
//! CoLiS program; or says which outcome of a report each of many trees has. Begin with `top`: its `run_words` is all
//! that the program does, and its `finish` ends the program with the status. What a report says is in
//! specs/Reports.antt, and what it means in `theorems`.
#![tactic(auto)]

mod account;
mod command_line;
mod deliver;
mod error_lines;
mod explanations;
mod faults;
mod loads;
mod pairs;
mod reports;
mod scenarios;
mod tasks;
pub mod theorems;
mod top;
mod work;
mod written;

pub use command_line::words_of;
pub use top::{finish, run_words};
