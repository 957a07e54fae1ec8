ghost use Rattle.std.specs.Prelude.{◌≡◌};

use crate::copied::Copied;
use std::alloc::{AllocError, AllocFailed, Global};

/// Want of memory: the one answer without a stated cause.
#[derive(Clone, Copy, PartialEq, Eq, Debug)]
pub struct Memory;

impl Copied for Memory {
    fn copy(&self, _alloc: Global) -> Result<Memory, Memory> {
        Ok(*self)
    }
}

impl From<AllocError> for Memory {
    fn from(_refused: AllocError) -> Memory {
        Memory
    }
}

impl<T: Drop> From<AllocFailed<T>> for Memory {
    fn from(_refused: AllocFailed<T>) -> Memory {
        Memory
    }
}
