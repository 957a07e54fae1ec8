//! Calls of utilities: the acts that they come to, what each act is on a tree, row by row, what is put back there from
//! a kept tree, and what all this comes to from each tree, decided one after another.
//! It stands on feature_trees and script_names. Begin with `calls` and specs/Calls.antt for what a call comes to, with
//! `acts`, specs/Table.antt and specs/Acts.antt for what each act does, and with `backs` and specs/Backs.antt for what
//! putting back does; specs/Decisions.antt has the decisions over acts, and specs/Walks.antt those that also put back.
#![tactic(auto)]

pub mod acts;
pub mod backs;
pub mod calls;
pub mod deeds;
mod fault;
mod modes;
mod operands;
mod options;
mod pairs;
mod path_strings;
mod places;
mod planned;
mod questions;
pub mod sights;
mod stated_call;
mod stated_calls;
mod table;
pub mod theorems;

pub use pairs::{copies_itself, is_in, is_parent, reaches, same_name, same_names, same_or_below};
pub use places::is_prefix;
pub use stated_call::{CallEnd, StatedCall};
pub use stated_calls::{StatedCalls, StatedFault, can_be_stated};
