ghost use Rattle.std.specs.Prelude.{◌≡◌};
ghost use Rattle.checker_io.specs.declared.stop.Stop.TheVariants.{NoMemory};

use script_names::Memory;
use std::alloc::{AllocError, AllocFailed};

/// Why a reading ended without an answer: `F` are the files that it may ask for, `R` what it may refuse.
#[derive(Clone, Copy, Debug, PartialEq, Eq)]
pub enum Stop<F, R> {
    /// What was read is refused.
    Refused(R),
    /// This file could not be read.
    ReadFailed(F),
    NoMemory,
}

impl<F, R> From<Memory> for Stop<F, R> {
    ghost from_gives = { λ _ stop. stop ≡ NoMemory };

    fn from(_refused: Memory) -> Self {
        Stop::NoMemory
    }
}

impl<F, R> From<AllocError> for Stop<F, R> {
    ghost from_gives = { λ _ stop. stop ≡ NoMemory };

    fn from(_refused: AllocError) -> Self {
        Stop::NoMemory
    }
}

impl<F, R, T: Drop> From<AllocFailed<T>> for Stop<F, R> {
    ghost from_gives = { λ _ stop. stop ≡ NoMemory };

    fn from(_refused: AllocFailed<T>) -> Self {
        Stop::NoMemory
    }
}
