//! Which of many outcomes each of many trees has, by the outcomes' clauses alone: named trees in one text, and the pick
//! of clauses for each tree. It stands on start_facts, tree_clauses, feature_trees and case_pool. Begin
//! with `read_trees` and specs/NamedTrees.antt, then `predict` and specs/Picks.antt.
#![tactic(auto)]

mod chunks;
mod fault;
mod lines;
mod looks;
mod name_set;
mod named_tree;
mod picks;
mod plan;
mod predictions;
mod read;

pub use fault::{PredictFault, TreesFault};
pub use named_tree::{MOST_BYTES, NamedTree};
pub use predictions::{first_unsolved, pick_each, predict};
pub use read::read_trees;
