//! Packages that are made, by a number: the only script of one is a postinst of so many commands, each of which can
//! fail or reach a link. It stands on checker_input, whose packages they are, and by which the script's text is read.
//! Begin with `load`, and with specs/Loaded.antt.
#![tactic(auto)]

mod made;
mod reading;
mod script_text;
pub mod theorems;

pub use made::load;
