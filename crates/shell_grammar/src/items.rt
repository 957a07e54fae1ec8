use script_names::List;
use shell_syntax::{Assign, Redirect, Word};

/// The assignments, words and redirections of a simple command, each in order (XCU 2.9.1 Simple Commands).
#[derive(Drop)]
pub struct Items {
    pub assigns: List<Assign>,
    pub words: List<Word>,
    pub redirects: List<Redirect>,
}
