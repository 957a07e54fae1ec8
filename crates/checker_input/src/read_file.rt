ghost use Rattle.std.specs.Prelude.{◌≡◌};
ghost use Rattle.checker_input.specs.Input.{FileFound, FoundWithin, file_in as name_in, of_file};

use crate::faults::{FileFault, InputRefusal};
use crate::names::{PackageFile, file_in};
use checker_io::{Shelf, Stop, read_content};
use script_names::{Bytes, Copied, Memory, Text};
use std::alloc::Global;

/// How many bytes a file of a package, a base, a tree or a script may have.
pub const MAX_FILE: usize = 1_048_576;

/// A file that was looked for: its name, and what it holds, if it is there.
#[derive(Drop)]
pub struct Found {
    pub name: Text,
    pub content: Option<Bytes>,
}

/// What the file of this name holds, if it is there, where it has at most so many bytes.
pub fn read_within<S: Shelf>(
    alloc: Global,
    name: Text,
    most: usize,
    shelf: &mut S,
) -> Result<Found, Stop<Text, InputRefusal>>
    ensures { FoundWithin most name (S.state shelf.old) (S.state shelf.new) result }
{
    match read_content(alloc, shelf, (), name.as_str(), most, ()) {
        Ok(content) => Ok(Found { name, content }),
        Err(Stop::Refused(())) => Err(Stop::Refused(InputRefusal {
            file: name,
            fault: FileFault::TooLong { most },
        })),
        Err(Stop::ReadFailed(())) => Err(Stop::ReadFailed(name)),
        Err(Stop::NoMemory) => Err(Stop::NoMemory),
    }
}

/// What the file of this name holds, if it is there.
pub fn read_file<S: Shelf>(
    alloc: Global,
    name: Text,
    shelf: &mut S,
) -> Result<Found, Stop<Text, InputRefusal>>
    ensures { FileFound name (S.state shelf.old) (S.state shelf.new) result }
{
    read_within(alloc, name, MAX_FILE, shelf)
}

/// What the file of this name holds, if it is there; the name is copied.
pub fn read_named<S: Shelf>(
    alloc: Global,
    name: &Text,
    shelf: &mut S,
) -> Result<Found, Stop<Text, InputRefusal>>
    ensures { FileFound name.now (S.state shelf.old) (S.state shelf.new) result }
{
    let Ok(name) = name.copy(alloc) else {
        return Err(Stop::NoMemory);
    };
    read_file(alloc, name, shelf)
}

/// What a file of a package holds, if it is there.
pub fn read_own<S: Shelf>(
    alloc: Global,
    folder: &Text,
    file: PackageFile,
    shelf: &mut S,
) -> Result<Found, Stop<Text, InputRefusal>>
    ensures { FileFound (name_in folder.now file) (S.state shelf.old) (S.state shelf.new) result }
{
    let Ok(name) = file_in(alloc, folder.as_str(), file) else {
        return Err(Stop::NoMemory);
    };
    read_file(alloc, name, shelf)
}

/// What a file comes to, by what its content comes to.
pub fn of_file<V: Drop>(
    name: Text,
    came: Result<Result<V, FileFault>, Memory>,
) -> Result<V, Stop<Text, InputRefusal>>
    ensures { result ≡ of_file name came }
{
    match came {
        Ok(Ok(value)) => Ok(value),
        Ok(Err(fault)) => Err(Stop::Refused(InputRefusal { file: name, fault })),
        Err(_) => Err(Stop::NoMemory),
    }
}
