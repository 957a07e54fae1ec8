//! Facts on places of the start tree, each of which a clause makes a necessary condition.
//! It stands on tree_clauses, feature_trees and script_names. Begin with `facts`, and with specs/PlaceFacts.antt for
//! what a fact says; `theorems` says that the facts of a clause hold of every tree that it covers.
#![tactic(auto)]

mod asked;
mod clause_facts;
mod fact;
mod standing;
mod standings;
pub mod theorems;

pub use clause_facts::facts;
pub use fact::{Fact, PlaceFact};
