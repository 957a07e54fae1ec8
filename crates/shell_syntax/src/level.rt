ghost use Rattle.std.specs.Prelude.{◌≡◌, nat_le};
ghost use Rattle.shell_syntax.specs.Printed.{rank, is_simple};

use script_names::{Copied, Memory};
use std::alloc::Global;

/// The names of the grammar that a command's text may be without braces round it, each of which covers those before it
/// (XCU 2.10.2 Shell Grammar Rules).
#[derive(Clone, Copy, Debug, PartialEq, Eq)]
pub enum Level {
    /// A simple command without redirections (XCU 2.9.1 Simple Commands).
    Simple,
    /// A compound command without redirections (XCU 2.9.4 Compound Commands).
    Compound,
    /// Any command.
    Command,
    /// Commands with `|` between them (XCU 2.9.2 Pipelines).
    PipeSequence,
    /// A pipeline: commands with `|` between them, perhaps behind `!` (XCU 2.9.2 Pipelines).
    Pipeline,
    /// Pipelines with `&&` and `||` between them (XCU 2.9.3 Lists).
    AndOr,
    /// A list (XCU 2.9.3 Lists).
    List,
}

impl Copied for Level {
    fn copy(&self, _alloc: Global) -> Result<Level, Memory> {
        Ok(*self)
    }
}

impl Level {
    /// Whether a command of this level may stand, without braces round it, where the grammar has that name.
    pub(crate) fn fits(self, place: Level) -> bool
        ensures { result ≡ nat_le (rank self) (rank place) }
    {
        self.rank() <= place.rank()
    }

    /// Whether it is that of a simple command.
    pub(crate) fn is_simple(self) -> bool
        ensures { result ≡ is_simple self }
    {
        match self {
            Level::Simple => true,
            Level::Compound => false,
            Level::Command => false,
            Level::PipeSequence => false,
            Level::Pipeline => false,
            Level::AndOr => false,
            Level::List => false,
        }
    }

    // Its place in the order.
    fn rank(self) -> u8
        ensures { result ≡ rank self }
    {
        match self {
            Level::Simple => 0,
            Level::Compound => 1,
            Level::Command => 2,
            Level::PipeSequence => 3,
            Level::Pipeline => 4,
            Level::AndOr => 5,
            Level::List => 6,
        }
    }
}
