ghost use Rattle.std.specs.Prelude.{◌≡◌, ◌≤◌, length, IfOk, IfSome, List, ℕ};
ghost use Rattle.checker_io.specs.Reading.{Reads, content};

use crate::shelf::{Shelf, ShelfFault};
use crate::stop::Stop;
use script_names::Bytes;
use std::alloc::Global;

/// What the file of that name holds, None where there is none. More than `max` bytes are refused by `too_long`.
pub fn read_content<S: Shelf, F: Drop, R: Drop>(
    alloc: Global,
    shelf: &mut S,
    file: F,
    name: &str,
    max: usize,
    too_long: R,
) -> Result<Option<Bytes>, Stop<F, R>>
    ensures reads { (named : F → List ℕ) → named file ≡ name.now
        → Reads named (S.state shelf.old) (S.state shelf.new) (content file max too_long) result }
    ensures short { IfOk result (λ found. IfSome found (λ bytes. length bytes ≤ max)) }
{
    match shelf.read(alloc, name, max) {
        Ok(bytes) => Ok(Some(bytes)),
        Err(ShelfFault::Missing) => Ok(None),
        Err(ShelfFault::TooLong) => Err(Stop::Refused(too_long)),
        Err(ShelfFault::Failed) => Err(Stop::ReadFailed(file)),
        Err(ShelfFault::Memory) => Err(Stop::NoMemory),
    }
}
