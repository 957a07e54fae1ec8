//! The CoLiS program of an accepted script. It stands on shell_forms and colis_syntax, and its laws on colis_meaning
//! and shell_rules. Begin with `translate` in `translation`, with specs/Translated.antt for what each construct
//! becomes, and with specs/Shell.antt for what a script does.
#![tactic(auto)]

mod defs;
mod kinds;
mod redirections;
mod statements;
pub mod theorems;
mod translation;
mod words;

pub use translation::translate;
