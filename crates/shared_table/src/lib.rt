//! Shared lists: a list as a tree of nodes that several lists may own, and the counter of the nodes that are made.
//! It stands on script_names alone. Begin with `shared`.
#![tactic(auto)]

mod alone;
mod node;
mod shared;
mod steps;

pub use alone::{fork_alone, push_alone, set_alone};
pub use shared::Shared;
pub use steps::Steps;
