//! The simple commands of a script whose words are settled before it runs, each with its fields, and what is known of
//! the paths of the changes among them where what stands there is of the sort that the command takes.
//! It stands on shell_syntax for scripts, on shell_rules and utility_calls for what words and commands come to, and on
//! system_base. Begin with specs/Settled.antt and `settled_commands`, and with specs/Sorts.antt and `add_sorts`.
#![tactic(auto)]

mod given;
mod seeing;
mod seen;
mod settled;
mod sorts;

pub use settled::settled_commands;
pub use sorts::add_sorts;
