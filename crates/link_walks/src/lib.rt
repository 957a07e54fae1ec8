//! Paths along known links: those of which it is stated that they lead to a directory. It says where a path leads, which
//! act is done in place of one, and what a planned call comes to.
//! It stands on utility_calls, feature_trees, shown_texts and script_names. Begin with `KnownLink`, specs/Reaching.antt
//! and `reach`; specs/Following.antt has `follow_act` and `follow`.
#![tactic(auto)]

mod act_paths;
mod followed_acts;
mod known_link;
mod names;
mod plans;
pub mod theorems;
mod walks;

pub use followed_acts::follow_act;
pub use known_link::KnownLink;
pub use plans::follow;
pub use walks::{MOST_LINKS, Reached, reach};
