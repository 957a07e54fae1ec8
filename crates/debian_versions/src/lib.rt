//! Versions of Debian packages and their order (Debian Policy, 5.6.12; deb-version(7)), and the answer of
//! `dpkg --compare-versions`. It stands on script_names alone. Begin with specs/Versions.antt and `comparison`.
#![tactic(auto)]

mod comparing;
mod part;
pub mod theorems;
mod version;

pub use comparing::{Operator, comparison};
pub use version::Version;
