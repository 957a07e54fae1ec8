//! The files that come with a package, as dpkg keeps them: its version and its name, its list of files, its
//! configuration files. Each reader answers the least line that is at fault, and why. Beside them stand paths as they
//! are written, and sets of these. It stands on feature_trees for the lines of a text, and on dpkg_scenarios. Begin with
//! specs/Lists.antt and `list`.
#![tactic(auto)]

mod conffiles;
mod control;
mod entry;
mod entry_sets;
mod fault;
mod file_list;
mod folder_names;
mod kept;
mod kind;
mod lines;
mod list;
mod name_list;
mod path_set;
mod paths;
pub mod theorems;

pub use conffiles::read_conffiles;
pub use control::{read_control, read_name};
pub use entry::{Entry, entries_are_named};
pub use entry_sets::{Which, conf_folders, has_entry, is_one_of, paths_of};
pub use fault::LineFault;
pub use file_list::FileList;
pub use folder_names::FolderNames;
pub use kept::kept_path;
pub use kind::EntryKind;
pub use lines::text_lines;
pub use list::read_list;
pub use path_set::{PathSet, add_each, is_within};
pub use paths::{folders, path_text, read_path};
