ghost use Rattle.std.specs.Prelude.{◌≡◌};

use script_names::{Copied, Memory};
use std::alloc::Global;

/// A redirection (XCU 2.7 Redirection): the five that are supported.
#[derive(Clone, Copy, Debug, PartialEq, Eq)]
pub enum Redirect {
    /// `> /dev/null`: standard output goes nowhere (XCU 2.7.2 Redirecting Output).
    OutNull,
    /// `2> /dev/null`: standard error goes nowhere (XCU 2.7.2 Redirecting Output).
    ErrNull,
    /// `< /dev/null`: standard input is empty (XCU 2.7.1 Redirecting Input).
    InNull,
    /// `>&2`: standard output goes where standard error goes (XCU 2.7.6 Duplicating an Output File Descriptor).
    OutToErr,
    /// `2>&1`: standard error goes where standard output goes (XCU 2.7.6 Duplicating an Output File Descriptor).
    ErrToOut,
}

impl Copied for Redirect {
    fn copy(&self, _alloc: Global) -> Result<Redirect, Memory> {
        Ok(*self)
    }
}
