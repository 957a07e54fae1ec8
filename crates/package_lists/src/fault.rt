use script_names::{Copied, Memory};
use std::alloc::Global;

/// Why a file that comes with a package is not of its form.
#[derive(Clone, Copy, Debug, PartialEq, Eq)]
pub enum LineFault {
    /// The least line at fault, counted from 1, and the least why of that line, by the reader.
    Line { line: u64, why: u8 },
    Memory,
}

impl Copied for LineFault {
    fn copy(&self, _alloc: Global) -> Result<LineFault, Memory> {
        Ok(*self)
    }
}

impl From<Memory> for LineFault {
    ghost use Rattle.std.specs.Prelude.{◌≡◌};
    ghost use Rattle.package_lists.specs.declared.fault.LineFault.TheVariants.{Memory as NoMemory};

    ghost from_gives = { λ _ fault. fault ≡ NoMemory };

    fn from(_refused: Memory) -> LineFault {
        LineFault::Memory
    }
}
