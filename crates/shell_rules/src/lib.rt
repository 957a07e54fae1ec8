//! The rules of execution, without any syntax: what commands do from a state and a tree, in which order, and where a
//! run ends. It stands on link_walks, debian_versions, utility_calls, shell_words and the crates below these. Begin
//! with specs/State.antt, which has the state and the ways to leave a command, and then specs/Commands.antt,
//! Loops.antt, Cases.antt, Calls.antt and Expansion.antt, a definition for each rule; specs/Planned.antt has what a
//! command comes to under the premises of a run, and `theorems` what holds of all this.
#![tactic(auto)]

mod leave;
mod own_names;
mod premises;
mod run;
mod spelled;
mod state;
pub mod theorems;

pub use leave::{Leave, MAX_STATUS};
pub use own_names::is_shells_own;
pub use premises::Premises;
pub use run::End;
pub use spelled::Spelled;
pub use state::{Conc, Trace};
