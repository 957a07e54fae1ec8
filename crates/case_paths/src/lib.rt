//! Symbolic execution of what meets a tree at its deeds alone: all paths of a walk from a set of pairs of trees, each
//! pair on the path of its own run.
//! It stands on utility_calls, act_cases and clause_solver. Begin with `explore` and `Machine`, and with
//! specs/Paths.antt for what its answer is.
#![tactic(auto)]

mod deeds;
mod exploration;
mod fork;
mod items;
mod machine;
mod pursuit;
mod queue;
mod state;
mod trace;

pub use exploration::explore;
pub use machine::Machine;
pub use state::{Found, PathState, PathsFault, Ran};
pub use trace::Trace;
