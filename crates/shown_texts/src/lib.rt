//! The texts that the checker prints and reads again: bytes by their one spelling, numbers, lines, paths, sites,
//! marks, reasons. Each has a definition in specs/, a call that adds it to a text, and a call that reads a whole text
//! as one. It stands on script_names. Begin with `spelling`; `theorems` says that printing and reading belong
//! together.
#![tactic(auto)]

mod lines;
mod mark;
mod number;
mod parts;
mod path;
mod reason;
mod spelling;
pub mod theorems;

pub use lines::{push_line, push_lines, read_lines};
pub use mark::{push_mark, push_site, read_mark, read_site};
pub use number::{push_number, read_number};
pub use parts::cut;
pub use path::{push_name, push_path, read_path};
pub use reason::{push_reason, read_reason};
pub use spelling::{push_shown, read_shown, show};
