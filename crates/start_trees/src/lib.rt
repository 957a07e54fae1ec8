//! The trees that a run may begin from: the trees of files that have what is needed at some paths, as a store of pairs.
//! It stands on clause_solver, tree_clauses, feature_trees and script_names. Begin with specs/Needs.antt and
//! `start_store`.
#![tactic(auto)]

mod need;
mod starts;

pub use need::{Need, Wanted};
pub use starts::start_store;
