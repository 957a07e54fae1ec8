ghost use Rattle.std.specs.Prelude.{◌≡◌};

use script_names::{Copied, List, Memory, Name};
use std::alloc::Global;

/// What a variable of a clause has of a place of the start tree: it has the entries of what stands there under every
/// name but some, and of these there are entries under the ones left at most. Where it is whole, it is what stands
/// there.
#[derive(Drop)]
pub(crate) struct Standing {
    pub(crate) place: List<Name>,
    pub(crate) whole: bool,
    pub(crate) but: List<Name>,
    pub(crate) left: List<Name>,
}

impl Copied for Standing {
    fn copy(&self, alloc: Global) -> Result<Standing, Memory> {
        let place = self.place.copy(alloc)?;
        let but = self.but.copy(alloc)?;
        let left = self.left.copy(alloc)?;
        Ok(Standing {
            place,
            whole: self.whole,
            but,
            left,
        })
    }
}
