ghost use Rattle.std.specs.Prelude.{◌≡◌};

use crate::copied::Copied;
use crate::memory::Memory;
use std::alloc::Global;

/// A place in a scenario: its step, and in the step the byte offset of a command in its script,
/// or the number of a file act.
#[derive(Clone, Copy, Debug, PartialEq, Eq, PartialOrd, Ord)]
pub struct Site {
    pub step: u16,
    pub at: u32,
}

/// An act that was done: where, and by which of the act's rows.
#[derive(Clone, Copy, Debug, PartialEq, Eq, PartialOrd, Ord)]
pub struct Mark {
    pub site: Site,
    pub row: u8,
}

impl Copied for Site {
    fn copy(&self, _alloc: Global) -> Result<Site, Memory> {
        Ok(*self)
    }
}

impl Copied for Mark {
    fn copy(&self, _alloc: Global) -> Result<Mark, Memory> {
        Ok(*self)
    }
}
