//! What a path is made of, and what a run gives.

ghost use Rattle.std.specs.Prelude.{◌≡◌};

use crate::trace::Trace;
use clause_solver::Store;
use script_names::{Copied, List, Mark, Memory};
use std::alloc::Global;
use tree_clauses::Var;
use utility_calls::deeds::Deed;

/// Where a path stands: the pairs of trees that are on it, the variable of the tree that was kept last, the marks that
/// its deeds left, in order, and how many deeds are done.
#[derive(Debug, Drop)]
pub struct PathState {
    pub store: Store,
    pub kept: Var,
    pub trace: Trace,
    pub done: usize,
}

/// A path: what it ends with, and its state then.
#[derive(Debug, Drop)]
pub struct Found<V> {
    pub value: V,
    pub state: PathState,
}

/// A run from one tree, which is the kept tree at first: what it ends with, the marks that its deeds left, and the
/// deeds.
#[derive(Debug, Drop)]
pub struct Ran<V> {
    pub value: V,
    pub trace: List<Mark>,
    pub deeds: List<Deed>,
}

/// Why there is no list of paths: more different traces than there is room for, or want of memory.
#[derive(Clone, Copy, Debug, PartialEq, Eq)]
pub enum PathsFault {
    Over,
    Memory,
}

impl Copied for PathsFault {
    fn copy(&self, _alloc: Global) -> Result<PathsFault, Memory> {
        Ok(*self)
    }
}

impl From<Memory> for PathsFault {
    ghost use Rattle.std.specs.Prelude.{◌≡◌};
    ghost use Rattle.case_paths.specs.declared.state.PathsFault.TheVariants.{Memory as NoMemory};

    ghost from_gives = { λ _ fault. fault ≡ NoMemory };

    fn from(_refused: Memory) -> PathsFault {
        PathsFault::Memory
    }
}
