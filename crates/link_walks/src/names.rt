// Lists of names.
ghost use Rattle.std.specs.Prelude.{◌≡◌, ◌++◌, IfOk};

use script_names::{Copied, List, Memory, Name};
use std::alloc::Global;

/// Copies of names, and of others behind them.
pub(crate) fn joined(alloc: Global, front: &[Name], back: &[Name]) -> Result<List<Name>, Memory>
    ensures { IfOk result (λ all. all ≡ front.now ++ back.now) }
{
    let mut all = List::copies(alloc, front)?;
    for name in back {
        all.add(name.copy(alloc)?)?;
    }
    Ok(all)
}
