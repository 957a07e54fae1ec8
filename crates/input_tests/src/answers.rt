//! Requests over files in memory, and what is answered.

use crate::texts::told;
use checker_input::{FileFault, InputRefusal, read_task};
use checker_io::{MemShelf, Stop};
use command_words::{Request, read_words};
use script_names::{Bytes, List, Memory, Text};
use std::alloc::Global;

/// A file: its name and its bytes.
pub type File<'a> = (&'a str, &'a [u8]);

/// Why a request is not answered.
#[derive(Drop)]
pub enum Stopped {
    Refused(InputRefusal),
    ReadFailed(Text),
    NoMemory,
}

/// How a request is to be stopped: a file of this name is refused for this, or could not be read.
#[derive(Clone, Copy)]
pub enum Wanted<'a> {
    Refused(&'a str, FileFault),
    ReadFailed(&'a str),
}

// The words of a line.
fn words(alloc: Global, line: &str) -> Result<List<Text>, Memory> {
    let mut words = List::new(alloc);
    for word in line.split(" ") {
        let word = Text::from_text(alloc, word)?;
        words.add(word)?;
    }
    Ok(words)
}

// The request that the words of a line spell.
fn request(alloc: Global, line: &str) -> Result<Request, Memory> {
    let words = words(alloc, line)?;
    match read_words(alloc, &words) {
        Ok(request) => Ok(request),
        Err(_) => Err(Memory),
    }
}

// A shelf with these files, of which a later one stands in the place of an earlier one, and of whose reads the one of
// that number fails.
fn shelf(alloc: Global, files: &[File<'_>], failing: u32) -> Result<MemShelf, Memory> {
    let mut shelf = MemShelf::new(alloc);
    for file in files {
        shelf.put(file.0, file.1)?;
    }
    shelf.fail_at(failing)?;
    Ok(shelf)
}

// What was read for a request, as a text.
fn read(alloc: Global, request: &Request, shelf: &mut MemShelf) -> Result<Bytes, Stopped> {
    match read_task(alloc, request, shelf) {
        Ok(asked) => match told(alloc, asked) {
            Ok(text) => Ok(text),
            Err(_) => Err(Stopped::NoMemory),
        },
        Err(Stop::Refused(refusal)) => Err(Stopped::Refused(refusal)),
        Err(Stop::ReadFailed(name)) => Err(Stopped::ReadFailed(name)),
        Err(Stop::NoMemory) => Err(Stopped::NoMemory),
    }
}

/// What was read for the request of a line over these files, as a text. The read of that number is to fail, counted
/// from 1.
pub(crate) fn answer(
    alloc: Global,
    line: &str,
    files: &[File<'_>],
    failing: u32,
) -> Result<Bytes, Stopped> {
    let Ok(request) = request(alloc, line) else {
        return Err(Stopped::NoMemory);
    };
    let Ok(mut shelf) = shelf(alloc, files, failing) else {
        return Err(Stopped::NoMemory);
    };
    read(alloc, &request, &mut shelf)
}

/// Whether the request of a line is stopped so.
pub(crate) fn is_stopped(
    alloc: Global,
    line: &str,
    files: &[File<'_>],
    failing: u32,
    want: Wanted<'_>,
) -> bool {
    match answer(alloc, line, files, failing) {
        Ok(_) => false,
        Err(Stopped::Refused(refusal)) => match want {
            Wanted::Refused(name, fault) => {
                refusal.file.as_str() == name && refusal.fault == fault
            }
            Wanted::ReadFailed(_) => false,
        },
        Err(Stopped::ReadFailed(file)) => match want {
            Wanted::Refused(..) => false,
            Wanted::ReadFailed(name) => file.as_str() == name,
        },
        Err(Stopped::NoMemory) => false,
    }
}
