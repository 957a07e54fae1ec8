//! What is known of the system on which a package is handled: the base. A text says it, a line each; the reader answers
//! the least line that is at fault, and why. It stands on package_lists, whose paths and sets of paths it has, on
//! link_walks, whose links can be stated, and on utility_calls, whose calls can be. Begin with specs/Bases.antt and `read_base`.
#![tactic(auto)]

mod base;
mod directories;
mod reading;

pub use base::{Base, KnownPath};
pub use directories::base_paths;
pub use reading::read_base;
