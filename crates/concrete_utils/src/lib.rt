//! Acts, and putting back, on a concrete file tree: which row one takes, what it answers, and the tree that it leaves.
//! It stands on utility_calls, feature_trees and script_names. Begin with `steps::act` and `backs::put_back`, and with
//! utility_calls' specs/Acts.antt and specs/Backs.antt.
#![tactic(auto)]

pub mod backs;
pub mod steps;
mod walks;
