ghost use Rattle.std.specs.Prelude.{◌≡◌, ◌<◌, ◌≤◌, ◌+◌, ◌-◌, [], IfOk, Err, length};
ghost use Rattle.std.specs.IoError.{error_kind};
ghost use Rattle.std.specs.Io.KnownBytes.{ReadConsumes};
ghost use Rattle.checker_io.specs.DirShelf.{DirFaults, DirCounts, RestTakes, NotOpened, OpenedGives, FileGives};
ghost use Rattle.checker_io.specs.DirShelf.{OrNoMemory, name_or_empty, dir_state};
ghost use Rattle.checker_io.specs.Shelf.{ReadCause};

use crate::shelf::{Shelf, ShelfFault};
use script_names::{Bytes, Text};
use std::alloc::Global;
use std::fs;
use std::io::{self, ErrorKind, Read};
use std::marker::Model;
use std::rt::Files;

/// A shelf over the file system. It tells nothing of what it holds.
#[derive(Drop)]
pub struct DirShelf<'a, R: Files> {
    runtime: &'a R,
    faults: u64,
    failed: Option<Text>,
}

impl<'a, R: Files> Model for DirShelf<'a, R> {
    ghost use Rattle.checker_io.specs.DirShelf.{DirFaults, name_or_empty};

    ghost Value = { DirFaults };

    ghost view = { λ s. record { faults = s.faults; failed = name_or_empty s.failed } };
}

impl<'a, R: Files> DirShelf<'a, R> {
    /// A shelf over the file system, of which no read failed yet.
    pub fn new(runtime: &'a R) -> DirShelf<'a, R>
        ensures { result ≡ record { faults = 0; failed = [] } }
    {
        DirShelf {
            runtime,
            faults: 0,
            failed: None,
        }
    }
}

// How many bytes are read at once at most.
const BUFFER: usize = 4_096;

// How many bytes to ask for after so many of at most `max`: one at least, and no more than one byte past `max`.
fn next_room(max: usize, count: usize) -> usize
    requires { count ≤ max }
    ensures some { 0 < result }
    ensures within { result ≤ BUFFER }
    ensures bound { count + result ≤ max + 1 }
{
    if max - count < BUFFER {
        max - count + 1
    } else {
        BUFFER
    }
}

// One read, which asks for one byte at least, so that its count is 0 only at the end.
fn read_some<F: Read>(file: &mut F, buffer: &mut [u8]) -> io::Result<usize>
    requires { 0 < length buffer.old }
    ensures bound { IfOk result (λ count. count ≤ length buffer.old) }
    ensures len { length buffer.new ≡ length buffer.old }
    ensures bytes { ReadConsumes (F.remaining file.old) (F.remaining file.new) result buffer.new }
{
    file.read(buffer)
}

// What is left of a file, of at most `max` bytes. Each turn takes one byte at least, or is the last one.
fn read_rest<F: Read>(alloc: Global, file: &mut F, max: usize) -> Result<Bytes, ShelfFault>
    ensures { RestTakes (F.remaining file.old) (F.remaining file.new) max result }
{
    let mut bytes = Vec::new(alloc);
    let mut buffer = [0u8; BUFFER];
    for _turn in 0..u64::MAX {
        let room = next_room(max, bytes.len());
        let Ok(count) = read_some(file, &mut buffer[..room]) else {
            return Err(ShelfFault::Failed);
        };
        if count == 0 {
            return Ok(Bytes::from_vec(bytes));
        }
        if count > max - bytes.len() {
            return Err(ShelfFault::TooLong);
        }
        if bytes.extend_from_slice(&buffer[..count]).is_err() {
            return Err(ShelfFault::Memory);
        }
    }
    Err(ShelfFault::Failed)
}

// Why a file was not read that could not be opened. A file below what is no directory is missing, as one is in a
// directory that does not hold it.
fn open_fault(fault: &io::Error) -> ShelfFault
    ensures { NotOpened (error_kind fault.now) (Err result) }
{
    if fault.kind() == ErrorKind::NotFound || fault.kind() == ErrorKind::NotADirectory {
        ShelfFault::Missing
    } else {
        ShelfFault::Failed
    }
}

// What is left of a file that was opened, of at most `max` bytes.
fn read_opened<F: Read>(
    alloc: Global,
    opened: &mut io::Result<F>,
    max: usize,
) -> Result<Bytes, ShelfFault>
    ensures { OpenedGives (λ f. F.remaining f) opened.old opened.new max result }
{
    match opened {
        Ok(file) => read_rest(alloc, file, max),
        Err(fault) => Err(open_fault(fault)),
    }
}

// The file of that name.
fn read_file<R: Files>(
    alloc: Global,
    runtime: &R,
    name: &str,
    max: usize,
) -> Result<Bytes, ShelfFault>
    ensures { FileGives (λ f. R.File.remaining f) max result }
{
    let mut opened = fs::open(runtime, name);
    read_opened(alloc, &mut opened, max)
}

impl<'a, R: Files> Shelf for DirShelf<'a, R> {
    ghost state = { dir_state };

    /// The whole file of that name, of which at most one byte more than `max` is read. It is missing exactly where the
    /// system finds none, be it that the name goes on below what is no directory; a name of a directory, or of a file
    /// that may not be read, is a failed read.
    fn read(&mut self, alloc: Global, name: &str, max: usize) -> Result<Bytes, ShelfFault>
        ensures fits { IfOk result (λ bytes. length bytes ≤ max) }
        ensures cause { ReadCause (dir_state self.old) (dir_state self.new) name.now result }
        ensures counts { DirCounts self.old self.new name.now result }
        ensures gives { OrNoMemory (λ given. FileGives (λ f. R.File.remaining f) max given) result }
    {
        let Ok(copy) = Text::from_text(alloc, name) else {
            return Err(ShelfFault::Memory);
        };
        match read_file(alloc, self.runtime, name, max) {
            Ok(bytes) => Ok(bytes),
            Err(ShelfFault::Failed) => {
                self.faults = self.faults.saturating_add(1);
                self.failed = Some(copy);
                Err(ShelfFault::Failed)
            }
            Err(fault) => Err(fault),
        }
    }
}
