use crate::acts::Act;
use crate::backs::Back;
use script_names::{Copied, Memory};
use std::alloc::Global;

/// One thing that a run does to its trees.
#[derive(Debug, Drop)]
pub enum Deed {
    /// An act.
    Does(Act),
    /// Something is put back from the kept tree.
    Returns(Back),
    /// The tree is kept as it is now, which leaves no mark.
    Keeps,
}

impl Copied for Deed {
    fn copy(&self, alloc: Global) -> Result<Deed, Memory> {
        match self {
            Deed::Does(act) => Ok(Deed::Does(act.copy(alloc)?)),
            Deed::Returns(back) => Ok(Deed::Returns(back.copy(alloc)?)),
            Deed::Keeps => Ok(Deed::Keeps),
        }
    }
}
