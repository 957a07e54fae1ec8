ghost use Rattle.std.specs.Prelude.{◌≡◌, ◌≢◌, ◌≤◌, ◌++◌, [], ◌∷◌, ℕ, List, Some, Err, OnOk, OnErr, IfOk, length};
ghost use Rattle.std.specs.Prelude.{option_copied, if◌then◌else◌};
ghost use Rattle.std.specs.Str.{bytes_eq};
ghost use Rattle.checker_io.specs.MemShelf.{MemFiles, MemReads, file_at, shelf_state};
ghost use Rattle.checker_io.specs.Shelf.{ReadGives, ReadCause};
ghost use Rattle.checker_io.specs.declared.shelf.ShelfFault.TheVariants.{Failed};

use crate::shelf::{Shelf, ShelfFault};
use script_names::{Bytes, Memory, Text};
use std::alloc::Global;
use std::marker::Model;

/// A file in memory.
#[derive(Drop)]
pub struct File {
    name: Text,
    bytes: Bytes,
}

// The file that counts under a name.
fn find<'a>(files: &'a [File], name: &str) -> Option<&'a Bytes>
    ensures { option_copied result ≡ file_at files.now name.now }
{
    match files.iter().find(|file| file.name.as_str() == name) {
        Some(file) => Some(&file.bytes),
        None => None,
    }
}

// A copy of what stands under a name, of at most `max` bytes.
fn copy_file(alloc: Global, files: &[File], name: &str, max: usize) -> Result<Bytes, ShelfFault>
    ensures gives { ReadGives (file_at files.now name.now) max result }
    ensures never { result ≢ Err Failed }
{
    let Some(bytes) = find(files, name) else {
        return Err(ShelfFault::Missing);
    };
    if bytes.len() > max {
        return Err(ShelfFault::TooLong);
    }
    match Bytes::from_slice(alloc, bytes.as_slice()) {
        Ok(copy) => Ok(copy),
        Err(_) => Err(ShelfFault::Memory),
    }
}

/// A shelf in memory, which tells all. Its reads can be made to fail, by their number.
#[derive(Drop)]
pub struct MemShelf {
    files: Vec<File>,
    failing: Vec<u64>,
    reads: u64,
    faults: u64,
    failed: Text,
}

impl Model for MemShelf {
    ghost use Rattle.checker_io.specs.MemShelf.{MemFiles};

    ghost Value = { MemFiles };

    ghost view = { λ s. record {
      files = s.files.items;
      failing = s.failing.items;
      reads = s.reads;
      faults = s.faults;
      failed = s.failed;
    } };
}

impl MemShelf {
    /// A shelf without files, none of whose reads is to fail.
    pub fn new(alloc: Global) -> MemShelf
        ensures { result ≡ record { files = []; failing = []; reads = 0; faults = 0; failed = [] } }
    {
        MemShelf {
            files: Vec::new(alloc),
            failing: Vec::new(alloc),
            reads: 0,
            faults: 0,
            failed: Text::from_string(String::new(alloc)),
        }
    }

    /// Puts a file under a name, in the place of one that stood there. For want of memory the shelf is as before.
    pub fn put(&mut self, name: &str, bytes: &[u8]) -> Result<(), Memory>
        ensures ok { OnOk result (self.new
            ≡ record self.old { files = record { name = name.now; bytes = bytes.now } ∷ self.old.files }) }
        ensures file_at { OnOk result ((other : List ℕ) → file_at self.new.files other
            ≡ (if bytes_eq name.now other then Some bytes.now else file_at self.old.files other)) }
        ensures err { OnErr result (self.new ≡ self.old) }
    {
        let alloc = *self.files.allocator();
        let file = File {
            name: Text::from_text(alloc, name)?,
            bytes: Bytes::from_slice(alloc, bytes)?,
        };
        self.files.insert(0, file)?;
        Ok(())
    }

    /// The read of that number, counted from 1, is to fail. For want of memory the shelf is as before.
    pub fn fail_at(&mut self, n: u32) -> Result<(), Memory>
        ensures ok { OnOk result (self.new ≡ record self.old { failing = self.old.failing ++ n ∷ [] }) }
        ensures err { OnErr result (self.new ≡ self.old) }
    {
        self.failing.push(u64::from(n))?;
        Ok(())
    }
}

impl Shelf for MemShelf {
    ghost state = { shelf_state };

    fn read(&mut self, alloc: Global, name: &str, max: usize) -> Result<Bytes, ShelfFault>
        ensures fits { IfOk result (λ bytes. length bytes ≤ max) }
        ensures gives { ReadGives (file_at self.old.files name.now) max result }
        ensures kept { self.new.files ≡ self.old.files }
        ensures cause { ReadCause (shelf_state self.old) (shelf_state self.new) name.now result }
        ensures exact { MemReads self.old self.new name.now max result }
    {
        self.reads = self.reads.saturating_add(1);
        if self.failing.contains(&self.reads) {
            let Ok(copy) = Text::from_text(alloc, name) else {
                return Err(ShelfFault::Memory);
            };
            self.faults = self.faults.saturating_add(1);
            self.failed = copy;
            return Err(ShelfFault::Failed);
        }
        copy_file(alloc, &self.files, name, max)
    }
}
