ghost use Rattle.std.specs.Prelude.{◌≡◌};

use feature_trees::Kinds;
use script_names::{Bytes, Copied, List, Memory, Name};
use std::alloc::Global;

/// What is said of what stands at a place of the start tree.
#[derive(Debug, Drop)]
pub enum Fact {
    /// Its kind is in the set.
    Kinds(Kinds),
    /// It has entries under these names alone.
    Fence(List<Name>),
    /// It has an entry under another name than these.
    Beside(List<Name>),
    /// It is a link to that target.
    Target(Bytes),
}

/// A fact on a place of the start tree, whose names are those from the root on.
#[derive(Debug, Drop)]
pub struct PlaceFact {
    pub place: List<Name>,
    pub fact: Fact,
}

impl Copied for Fact {
    fn copy(&self, alloc: Global) -> Result<Fact, Memory> {
        match self {
            Fact::Kinds(kinds) => Ok(Fact::Kinds(*kinds)),
            Fact::Fence(names) => Ok(Fact::Fence(names.copy(alloc)?)),
            Fact::Beside(names) => Ok(Fact::Beside(names.copy(alloc)?)),
            Fact::Target(target) => Ok(Fact::Target(target.copy(alloc)?)),
        }
    }
}

impl Copied for PlaceFact {
    fn copy(&self, alloc: Global) -> Result<PlaceFact, Memory> {
        let place = self.place.copy(alloc)?;
        let fact = self.fact.copy(alloc)?;
        Ok(PlaceFact { place, fact })
    }
}
