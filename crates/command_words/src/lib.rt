//! The words of the command line, and what they ask for. It stands on dpkg_scenarios and script_names. Begin with
//! specs/CommandLines.antt, which says what a valid line is, and with `read_words`.
#![tactic(auto)]

mod field;
mod limits;
mod look;
mod read;
mod request;
mod said;
mod setting;
pub mod theorems;
mod value;

pub use limits::{MOST_LIMIT, MOST_LOAD, MOST_TURNS, USUAL_LIMIT, USUAL_TURNS};
pub use read::{WordsFault, read_words};
pub use request::{Folders, Layout, Request, View};
