//! Feature trees: what stands at a place of the file tree, and the calls and laws of trees.
//! It stands on script_names and shown_texts. Begin with `value`, and with specs/Tree.antt for what the calls mean.
#![tactic(auto)]

mod draft;
mod kind;
mod pipes;
mod print;
mod put;
mod read;
mod same;
pub mod shape;
pub mod theorems;
mod value;
mod version;

pub use kind::{Kind, Kinds, Special};
pub use print::{first_version_line, print_tree, put_tree, tree_lines};
pub use put::PutFault;
pub use read::{MOST_NAMES, TreeFault, read_tree};
pub use value::{Entries, Value};
pub use version::Version;
