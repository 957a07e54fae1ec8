//! The outcomes of a part of a report in groups that end alike, each with what is told of its start trees.
//! It stands on outcome_report and fact_boxes. Begin with `groups`, and with specs/Told.antt for what it is for a group
//! to be told exactly.
#![tactic(auto)]

mod ends;
mod group;
mod members;
mod pairs;
mod telling;
pub mod theorems;

pub use ends::{GroupEnd, end_alike, end_of, same_end, same_script, same_side};
pub use group::{FactBox, Group};
pub use telling::groups;
