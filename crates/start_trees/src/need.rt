ghost use Rattle.std.specs.Prelude.{◌≡◌};

use feature_trees::Kinds;
use script_names::{Bytes, Copied, List, Memory, Name, Path};
use std::alloc::Global;

/// What is wanted of what stands at a path, which may be nothing.
#[derive(Debug, Drop)]
pub enum Wanted {
    /// It is of one of these kinds.
    Kinds(Kinds),
    /// It has entries under these names alone; what is no directory has none.
    Names(List<Name>),
    /// It is a symbolic link with this target.
    Target(Bytes),
}

impl Copied for Wanted {
    fn copy(&self, alloc: Global) -> Result<Wanted, Memory> {
        match self {
            Wanted::Kinds(kinds) => Ok(Wanted::Kinds(*kinds)),
            Wanted::Names(names) => Ok(Wanted::Names(names.copy(alloc)?)),
            Wanted::Target(target) => Ok(Wanted::Target(target.copy(alloc)?)),
        }
    }
}

/// What a tree is to have at a path.
#[derive(Debug, Drop)]
pub struct Need {
    pub path: Path,
    pub wanted: Wanted,
}

impl Copied for Need {
    fn copy(&self, alloc: Global) -> Result<Need, Memory> {
        let path = self.path.copy(alloc)?;
        let wanted = self.wanted.copy(alloc)?;
        Ok(Need { path, wanted })
    }
}
