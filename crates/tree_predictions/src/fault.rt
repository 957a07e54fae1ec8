use script_names::{Copied, Memory};
use std::alloc::Global;

/// Why a text is none of named trees.
#[derive(Clone, Copy, Debug, PartialEq, Eq)]
pub enum TreesFault {
    /// The least line at fault, counted from 1, and why. In a tree, as of its own text: 1, it is not of the form, or
    /// its path has more than 4,096 names; 2, an earlier line names its path; 3, its parent is neither the root nor an
    /// earlier line's directory. Of a `tree` line: 1, it has no name, or one of more than 255 bytes; 5, an earlier tree
    /// has its name. 4: it stands before the first `tree` line.
    Line { line: u64, why: u8 },
    Memory,
}

impl Copied for TreesFault {
    fn copy(&self, _alloc: Global) -> Result<TreesFault, Memory> {
        Ok(*self)
    }
}

impl From<Memory> for TreesFault {
    ghost use Rattle.std.specs.Prelude.{◌≡◌};
    ghost use Rattle.tree_predictions.specs.declared.fault.TreesFault.TheVariants.{Memory as NoMemory};

    ghost from_gives = { λ _ fault. fault ≡ NoMemory };

    fn from(_refused: Memory) -> TreesFault {
        TreesFault::Memory
    }
}

/// Why no outcome is predicted.
#[derive(Clone, Copy, Debug, PartialEq, Eq)]
pub enum PredictFault {
    /// The first clause that is not in solved order, counted from 1.
    Unsolved { number: u64 },
    Memory,
}

impl Copied for PredictFault {
    fn copy(&self, _alloc: Global) -> Result<PredictFault, Memory> {
        Ok(*self)
    }
}

impl From<Memory> for PredictFault {
    ghost use Rattle.std.specs.Prelude.{◌≡◌};
    ghost use Rattle.tree_predictions.specs.declared.fault.PredictFault.TheVariants.{Memory as NoMemory};

    ghost from_gives = { λ _ fault. fault ≡ NoMemory };

    fn from(_refused: Memory) -> PredictFault {
        PredictFault::Memory
    }
}
