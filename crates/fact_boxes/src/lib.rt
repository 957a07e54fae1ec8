//! Facts on places of start trees, told of several outcomes at once: a row for each outcome, which has what its facts
//! leave, and boxes, in one of which each of some rows lies, and as far as can be none of the others.
//! It stands on start_facts. Begin with specs/Cells.antt, for what one fact leaves, and with `boxes_of`.
#![tactic(auto)]

mod boxes;
mod cells;
mod rows;
pub mod theorems;

pub use boxes::{MOST_BOXES, MOST_MEMBERS, all_tell, boxes_of, cell_at, row_at};
pub use cells::{Cell, Column, is_anything, tell, within};
pub use rows::{add_facts, row_of};
