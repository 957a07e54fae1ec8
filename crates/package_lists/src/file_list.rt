ghost use Rattle.std.specs.Prelude.{◌≡◌, ◌≤◌, [], length};
ghost use Rattle.package_lists.specs.FileLists.{MOST_ENTRIES};

use crate::entry::Entry;
use script_names::{Copied, List, Memory};
use std::alloc::Global;
use std::marker::Model;

/// The entries of a package, which contracts see as their list: at most 1,048,576, as many as a list of files of that
/// many bytes may have.
#[derive(Debug, Drop)]
pub struct FileList {
    entries: List<Entry>,
}

impl Model for FileList {
    ghost use Rattle.std.specs.Prelude.{◌≤◌, length, List as Items};
    ghost use Rattle.std.specs.Coded.{coded_list};
    ghost use Rattle.package_lists.specs.Entries.{EntryParts};
    ghost use Rattle.package_lists.specs.FileLists.{MOST_ENTRIES};
    ghost use Rattle.package_lists.specs.contracts.entry.Entry as entry;

    ghost Value = { Items EntryParts };

    ghost coded = { coded_list entry.the_row.coded };

    ghost view = { λ list. list.entries };

    ghost invariant = { λ list. length list.entries ≤ MOST_ENTRIES };
}

impl FileList {
    /// No entries.
    pub fn empty(alloc: Global) -> FileList
        ensures { result ≡ [] }
    {
        FileList {
            entries: List::new(alloc),
        }
    }

    /// These entries.
    pub fn new(entries: List<Entry>) -> FileList
        requires { length entries ≤ MOST_ENTRIES }
        ensures { result ≡ entries }
    {
        FileList { entries }
    }

    /// The entries.
    pub fn list(&self) -> &List<Entry>
        ensures list { result.now ≡ self.now }
        ensures few { length self.now ≤ MOST_ENTRIES }
    {
        &self.entries
    }

    /// The entries, in order.
    pub fn as_slice(&self) -> &[Entry]
        ensures { result.now ≡ self.now }
    {
        self.entries.as_slice()
    }

    /// How many entries there are.
    pub fn len(&self) -> usize
        ensures { result ≡ length self.now }
    {
        self.entries.len()
    }

    /// The entries, moved out.
    pub fn into_list(self) -> List<Entry>
        ensures list { result ≡ self }
        ensures few { length self ≤ MOST_ENTRIES }
    {
        let FileList { entries } = self;
        entries
    }
}

impl Copied for FileList {
    fn copy(&self, alloc: Global) -> Result<FileList, Memory> {
        let entries = self.entries.copy(alloc)?;
        Ok(FileList { entries })
    }
}
