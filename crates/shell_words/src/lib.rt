//! Words of the shell: how an expanded word is cut into fields, joined to one string, and matched as a pattern,
//! and the finite map of the variables. It stands on script_names alone. Begin with `piece` and `field`; `theorems`
//! has what holds of their definitions.
#![tactic(auto)]

mod env;
mod fault;
mod field;
mod letter;
mod pattern;
mod piece;
mod run;
pub mod theorems;
mod trim;

pub use env::Env;
pub use fault::WordFault;
pub use field::{STRING_LIMIT, fields, join};
pub use pattern::matches;
pub use piece::Piece;
pub use trim::trim_newlines;
