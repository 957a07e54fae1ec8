use script_names::{Copied, Memory, Reason};
use std::alloc::Global;

/// Why a call comes to no acts: it has no specified meaning, or want of memory.
#[derive(Clone, Copy, Debug, PartialEq, Eq)]
pub enum CallFault {
    Because(Reason),
    Memory,
}

impl Copied for CallFault {
    fn copy(&self, _alloc: Global) -> Result<CallFault, Memory> {
        Ok(*self)
    }
}

impl From<Memory> for CallFault {
    ghost use Rattle.std.specs.Prelude.{◌≡◌};
    ghost use Rattle.utility_calls.specs.declared.fault.CallFault.TheVariants.{Memory as OutOfMemory};

    ghost from_gives = { λ _ fault. fault ≡ OutOfMemory };

    fn from(_refused: Memory) -> CallFault {
        CallFault::Memory
    }
}
