ghost use Rattle.std.specs.Prelude.{◌≡◌};

use crate::copied::Copied;
use crate::memory::Memory;
use std::alloc::Global;

/// Why a run ends without a result: what it met has no specification here.
#[derive(Clone, Copy, Debug, PartialEq, Eq)]
pub enum Reason {
    Call,
    Echo,
    Link,
    Slash,
    Root,
    Empty,
    DotDot,
    Dot,
    Long,
    Glob,
    Pattern,
    Pipe,
    Message,
    Strict,
    Status,
    Run,
    Same,
    Conffile,
    Restore,
}

/// What an act answers: success, failure, or a stop where nothing is specified.
#[derive(Clone, Copy, Debug, PartialEq, Eq)]
pub enum Done {
    Ok,
    Failed,
    Stopped(Reason),
}

impl Copied for Reason {
    fn copy(&self, _alloc: Global) -> Result<Reason, Memory> {
        Ok(*self)
    }
}

impl Copied for Done {
    fn copy(&self, _alloc: Global) -> Result<Done, Memory> {
        Ok(*self)
    }
}
