ghost use Rattle.std.specs.Prelude.{◌≡◌, ◌<◌, length, false, All, IfOk};
ghost use Rattle.package_lists.specs.Paths.{plain_path};
ghost use Rattle.package_lists.specs.Entries.{entry_at, HasName};

use crate::kind::EntryKind;
use crate::paths::read_path;
use script_names::{Copied, Memory, Path};
use std::alloc::Global;
use std::marker::Model;

/// An entry of a package: a path that has a name and ends in no slash, and what is to stand there.
#[derive(Debug, Drop)]
pub struct Entry {
    path: Path,
    kind: EntryKind,
}

impl Model for Entry {
    ghost use Rattle.std.specs.Prelude.{◌≡◌, ◌<◌, length, false};
    ghost use Rattle.std.specs.Coded.{codes};
    ghost use Rattle.package_lists.specs.Entries.{EntryParts};
    ghost use Rattle.package_lists.specs.contracts.kind.EntryKind as entry_kind;

    ghost Value = { EntryParts };

    ghost coded = { Prim.hlevel (codes, entry_kind.the_row.coded) };

    ghost view = { λ e. record { names = e.path.names; kind = e.kind } };

    ghost invariant = { λ e. (e.path.slash ≡ false) × (0 < length e.path.names) };
}

impl Entry {
    /// The entry at the path that is written so, `/` and its 1 to 64 names joined by `/`; None where no path is.
    pub fn read(alloc: Global, path: &[u8], kind: EntryKind) -> Result<Option<Entry>, Memory>
        ensures { IfOk result (λ found. found ≡ entry_at path.now kind) }
    {
        match read_path(alloc, path)? {
            Some(path) => Ok(Some(Entry { path, kind })),
            None => Ok(None),
        }
    }

    /// The path. It has a name, and ends in no slash.
    pub fn path(&self) -> &Path
        ensures path { result.now ≡ plain_path self.now.names }
        ensures named { 0 < length self.now.names }
    {
        &self.path
    }

    /// What is to stand there.
    pub fn kind(&self) -> &EntryKind
        ensures { result.now ≡ self.now.kind }
    {
        &self.kind
    }

    /// The entry at the same path with another kind.
    pub fn with_kind(&self, alloc: Global, kind: EntryKind) -> Result<Entry, Memory>
        ensures { IfOk result (λ entry. entry ≡ record { names = self.now.names; kind = kind }) }
    {
        let path = self.path.copy(alloc)?;
        Ok(Entry { path, kind })
    }
}

/// Says of entries that the path of each has a name. It does nothing.
pub fn entries_are_named(entries: &[Entry])
    ensures { All HasName entries.now }
{
    for entry in entries {
        let _path = entry.path();
    }
}

impl Copied for Entry {
    fn copy(&self, alloc: Global) -> Result<Entry, Memory> {
        let path = self.path.copy(alloc)?;
        let kind = self.kind.copy(alloc)?;
        Ok(Entry { path, kind })
    }
}
