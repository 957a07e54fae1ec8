use script_names::{Copied, Memory};
use std::alloc::Global;

/// Why a text is not read as a program.
#[derive(Clone, Copy, Debug, PartialEq, Eq)]
pub enum ProgramFault {
    /// No well formed program has this text.
    Bad,
    /// Want of memory.
    Memory,
}

impl Copied for ProgramFault {
    fn copy(&self, _alloc: Global) -> Result<ProgramFault, Memory> {
        Ok(*self)
    }
}

impl From<Memory> for ProgramFault {
    ghost use Rattle.std.specs.Prelude.{◌≡◌};
    ghost use Rattle.colis_reader.specs.declared.fault.ProgramFault.TheVariants.{Memory as MemoryFault};

    ghost from_gives = { λ _ fault. fault ≡ MemoryFault };

    fn from(_memory: Memory) -> ProgramFault {
        ProgramFault::Memory
    }
}
