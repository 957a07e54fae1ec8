//! Stores of start trees: which trees may stand at the start of a path, by the literals of a clause.
//! It stands on tree_clauses, shared_table, feature_trees and script_names. Begin with `store`, and with
//! specs/Stands.antt for what a store stands for.
#![tactic(auto)]

mod add_case;
mod appended;
mod children;
mod derivations;
mod difference;
mod drafts;
mod emptying;
mod facts;
mod greatest;
mod growing;
mod kin;
mod leading;
mod lists;
mod literals;
mod looking;
mod name_set;
mod new_name;
mod places;
mod plainest;
mod settling;
mod start_tree;
mod store;
mod variable;

pub use store::Store;
