use script_names::{Copied, Memory};
use shell_syntax::Redirect;
use std::alloc::Global;

/// What a command is, by its first token (XCU 2.9 Shell Commands).
#[derive(Clone, Copy, Debug, PartialEq, Eq)]
pub enum CommandForm {
    /// A compound command, and its redirections.
    Compound,
    /// A command that begins with a name: the definition of a function, or a simple command.
    Named,
    /// A simple command that begins otherwise.
    Simple,
}

impl Copied for CommandForm {
    fn copy(&self, _alloc: Global) -> Result<CommandForm, Memory> {
        Ok(*self)
    }
}

/// What a compound command is, by its first token (XCU 2.9.4 Compound Commands).
#[derive(Clone, Copy, Debug, PartialEq, Eq)]
pub enum CompoundForm {
    Subshell,
    If,
    For,
    Case,
    /// `while`, or `until` where that is true.
    Loop { until: bool },
    Braces,
}

impl Copied for CompoundForm {
    fn copy(&self, _alloc: Global) -> Result<CompoundForm, Memory> {
        Ok(*self)
    }
}

/// What a token is to a simple command (XCU 2.9.1 Simple Commands).
#[derive(Clone, Copy, Debug, PartialEq, Eq)]
pub enum Item {
    Assignment,
    Redirection(Redirect),
    Word,
}
