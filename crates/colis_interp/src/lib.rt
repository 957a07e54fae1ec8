//! Runs CoLiS programs on one concrete tree, by their meaning (colis_meaning). It stands on colis_meaning,
//! colis_syntax, shell_rules, concrete_utils, link_walks, debian_versions and the crates below these. Begin with
//! `interp`; `execution` has a function for each construct of the language, over the state in `shell`; `planning` has
//! what the fields of a command come to under the premises of the run.
#![tactic(auto)]

mod acts;
mod execution;
mod halt;
mod interp;
mod leaving;
mod names;
mod place;
mod planning;
mod root;
mod shell;
mod spelling;
mod strings;
mod utilities;

pub use interp::{Ran, run};
