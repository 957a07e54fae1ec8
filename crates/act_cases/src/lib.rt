//! Acts as cases: for each row of an act the clause of the trees that take it, and of the tree that it leaves.
//! The rows of a back become cases too, from a tree and a kept tree. It stands on utility_calls, tree_clauses,
//! feature_trees and script_names. Begin with `making`, and with specs/Cases.antt for what the cases of an act are;
//! `backs` and specs/BackCases.antt are the same of a back.
#![tactic(auto)]

mod backs;
mod looks;
mod making;
mod moves;
mod plans;
mod puts;

pub use backs::back_cases;
pub use making::cases;
