ghost use Rattle.std.specs.Prelude.{◌≡◌, ◌≤◌, length, IfSome, IfOk};
ghost use Rattle.checker_io.specs.Shelf.{ShelfState, ReadGives, ReadCause};

use script_names::{Bytes, Copied, Memory};
use std::alloc::Global;

/// Why a file was not read.
#[derive(Clone, Copy, Debug, PartialEq, Eq)]
pub enum ShelfFault {
    /// There is no file of that name.
    Missing,
    /// The file has more bytes than were asked for at most.
    TooLong,
    /// The file could not be read.
    Failed,
    Memory,
}

impl Copied for ShelfFault {
    fn copy(&self, _alloc: Global) -> Result<ShelfFault, Memory> {
        Ok(*self)
    }
}

/// Where whole files are read, by name.
pub trait Shelf {
    // The files that it holds, where it tells that, its count of faults, and the name that failed last.
    ghost state: { Self → ShelfState };

    /// The whole file of that name, of at most `max` bytes. No read changes what the shelf holds.
    fn read(&mut self, alloc: Global, name: &str, max: usize) -> Result<Bytes, ShelfFault>
        ensures fits { IfOk result (λ bytes. length bytes ≤ max) }
        ensures gives { IfSome (state self.old).holds (λ files. ReadGives (files name.now) max result) }
        ensures kept { (state self.new).holds ≡ (state self.old).holds }
        ensures cause { ReadCause (state self.old) (state self.new) name.now result };
}
