// The paths of a package's entries of some kind.
ghost use Rattle.std.specs.Prelude.{◌≡◌, ◌&&◌, ◌||◌, ℕ, List as ListOf, true, IfOk, OnOk};
ghost use Rattle.std.specs.Str.{bytes_eq};
ghost use Rattle.package_lists.specs.Entries.{has_at, has_conf_below, is_conf_below, is_file};
ghost use Rattle.package_lists.specs.EntrySets.{is_which, is_one_of};
ghost use Rattle.package_lists.specs.Paths.{path_text as path_text_of};
ghost use Rattle.package_lists.specs.PathSets.{has};

use crate::entry::Entry;
use crate::kind::EntryKind;
use crate::path_set::{PathSet, add_each};
use crate::paths::{folders, path_text};
use dpkg_scenarios::NewEntries;
use script_names::Memory;
use std::alloc::Global;

/// Which entries are looked for: all, the files that are no configuration files, the configuration files, or the links.
#[derive(Clone, Copy)]
pub enum Which {
    All,
    Files,
    Conffiles,
    Links,
}

/// The paths of the entries of that kind.
pub fn paths_of(alloc: Global, which: Which, entries: &[Entry]) -> Result<PathSet, Memory>
    ensures { IfOk result (λ set. (path : ListOf ℕ) → has set path ≡ has_at (is_which which) entries.now path) }
{
    let mut set = PathSet::new(alloc);
    for entry in entries {
        let path = path_text(alloc, entry.path().names())?;
        add_which(&mut set, which, entry.kind(), path.as_slice())?;
    }
    Ok(set)
}

// Adds the path of an entry, if it is of that kind.
pub fn add_which(
    set: &mut PathSet,
    which: Which,
    kind: &EntryKind,
    path: &[u8],
) -> Result<(), Memory>
    ensures { OnOk result ((other : ListOf ℕ)
        → has set.new other ≡ ((is_which which kind.now && bytes_eq path.now other) || has set.old other)) }
{
    if !is_which(which, kind) {
        return Ok(());
    }
    set.add(path)
}

// Whether an entry of this kind is.
fn is_which(which: Which, kind: &EntryKind) -> bool
    ensures { result ≡ is_which which kind.now }
{
    match which {
        Which::All => true,
        Which::Files => kind.is_file(),
        Which::Conffiles => kind.is_conf(),
        Which::Links => kind.is_link(),
    }
}

/// Whether an entry's path is in a set.
pub fn has_entry(alloc: Global, set: &PathSet, entry: &Entry) -> Result<bool, Memory>
    ensures { IfOk result (λ answer. answer ≡ has set.now (path_text_of entry.now.names)) }
{
    let path = path_text(alloc, entry.path().names())?;
    let answer = set.has(path.as_slice());
    Ok(answer)
}

/// The paths that have a configuration file below them.
pub fn conf_folders(alloc: Global, entries: &[Entry]) -> Result<PathSet, Memory>
    ensures { IfOk result (λ set. (path : ListOf ℕ) → has set path ≡ has_conf_below entries.now path) }
{
    let mut set = PathSet::new(alloc);
    for entry in entries {
        add_above_conf(alloc, &mut set, entry)?;
    }
    Ok(set)
}

// Adds the folders on the way to an entry, if that is a configuration file.
fn add_above_conf(alloc: Global, set: &mut PathSet, entry: &Entry) -> Result<(), Memory>
    ensures { OnOk result ((path : ListOf ℕ) → has set.new path ≡ (is_conf_below path entry.now || has set.old path)) }
{
    if !entry.kind().is_conf() {
        return Ok(());
    }
    let above = folders(alloc, entry.path().names())?;
    add_each(set, above.as_slice())
}

// Whether an entry is a file whose path is in a set.
pub fn has_file(alloc: Global, set: &PathSet, entry: &Entry) -> Result<bool, Memory>
    ensures { let found = is_file entry.now.kind && has set.now (path_text_of entry.now.names) in
        IfOk result (λ answer. answer ≡ found) }
{
    if !entry.kind().is_file() {
        return Ok(false);
    }
    has_entry(alloc, set, entry)
}

/// Whether an entry of the new package is one of these, from the paths that the old package has.
pub fn is_one_of(
    alloc: Global,
    which: NewEntries,
    old: &PathSet,
    entry: &Entry,
) -> Result<bool, Memory>
    ensures { let path = path_text_of entry.now.names in
        IfOk result (λ answer. answer ≡ is_one_of which (has old.now) path) }
{
    match which {
        NewEntries::Every => Ok(true),
        NewEntries::Added => {
            let is_there = has_entry(alloc, old, entry)?;
            Ok(!is_there)
        }
        NewEntries::NoEntry => Ok(false),
    }
}
