//! The base of the checker: want of memory, lists, boxes, bytes and texts as contracts see them, copies,
//! and the small values that every layer names: names and paths of the file tree, names of commands, sites, marks,
//! reasons.
//! It stands on std alone. Begin with `list` and `name`.
#![tactic(auto)]

mod boxed;
mod bytes;
mod command_names;
mod common;
mod component;
mod copied;
mod list;
mod mark;
mod memory;
mod name;
mod path;
mod reason;
mod slot;
mod text;
pub mod theorems;

pub use boxed::Boxed;
pub use bytes::Bytes;
pub use command_names::{
    SpecialBuiltIn, Utility, is_kept_name, is_special_name, special_named, utility_named,
};
pub use common::Common;
pub use copied::Copied;
pub use list::List;
pub use mark::{Mark, Site};
pub use memory::Memory;
pub use name::{NAME_MAX, Name, NameFault};
pub use path::{MAX_NAMES, Path, PathFault};
pub use reason::{Done, Reason};
pub use slot::Slot;
pub use text::Text;
