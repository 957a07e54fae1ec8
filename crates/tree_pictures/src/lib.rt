//! Trees as people see them: what a run makes of a tree, place by place, and the shell lines that make a tree.
//! It stands on feature_trees. Begin with specs/Pictures.antt and specs/ShellLines.antt.
#![tactic(auto)]

mod pictures;
mod placed;
mod shell_lines;

pub use pictures::{is_among, put_picture, put_whole_tree, standing_at};
pub use placed::{Placed, Standing, tree_places};
pub use shell_lines::put_shell_lines;
