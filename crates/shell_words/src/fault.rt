ghost use Rattle.std.specs.Prelude.{◌≡◌};

use script_names::{Copied, Memory};
use std::alloc::{AllocError, AllocFailed, Global};

/// Why a word gave no fields, no string, or no match.
#[derive(Clone, Copy, Debug, PartialEq, Eq)]
pub enum WordFault {
    /// A string would pass 65,536 bytes.
    Long,
    /// A field has an active `*`, `?` or `[`: it would be replaced by the names of files.
    Glob,
    /// A pattern has a shape that shells read differently.
    Pattern,
    Memory,
}

impl Copied for WordFault {
    fn copy(&self, _alloc: Global) -> Result<WordFault, Memory> {
        Ok(*self)
    }
}

impl From<Memory> for WordFault {
    ghost use Rattle.std.specs.Prelude.{◌≡◌};
    ghost use Rattle.shell_words.specs.declared.fault.WordFault.TheVariants.{Memory as NoMemory};

    ghost from_gives = { λ _ fault. fault ≡ NoMemory };

    fn from(_refused: Memory) -> WordFault {
        WordFault::Memory
    }
}
