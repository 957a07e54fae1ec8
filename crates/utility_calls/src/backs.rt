ghost use Rattle.std.specs.Prelude.{◌≡◌, IfOk};
ghost use Rattle.utility_calls.specs.Backs.{back_of, names_of};

use crate::acts::Act;
use script_names::{Copied, Memory, Path};
use std::alloc::Global;

/// What is put back where unpacking failed, as it stood in the tree that was kept before (Debian Policy, section 6.6:
/// a failed unpack is undone).
#[derive(Debug, Drop)]
pub enum Back {
    /// A directory that may have been made: it is taken away where it was not there before, unless it has an entry.
    Folder(Path),
    /// What may have been replaced by a file or a link: it is put there again, unless a directory is or was there.
    File(Path),
}

impl Copied for Back {
    fn copy(&self, alloc: Global) -> Result<Back, Memory> {
        match self {
            Back::Folder(p) => Ok(Back::Folder(p.copy(alloc)?)),
            Back::File(p) => Ok(Back::File(p.copy(alloc)?)),
        }
    }
}

impl Back {
    /// The path.
    pub fn path(&self) -> &Path
        ensures { result.now.names ≡ names_of self.now }
    {
        match self {
            Back::Folder(p) => p,
            Back::File(p) => p,
        }
    }
}

/// What is put back for an act that unpacked something: a directory where the act as it was listed makes one, else what
/// was replaced; at the path of the act that was done for it.
pub fn back_of(alloc: Global, listed: &Act, done: &Act) -> Result<Back, Memory>
    ensures { IfOk result (λ back. back ≡ back_of listed.now done.now) }
{
    let path = done.path().copy(alloc)?;
    match listed {
        Act::EnsureDir(_) => Ok(Back::Folder(path)),
        _ => Ok(Back::File(path)),
    }
}
