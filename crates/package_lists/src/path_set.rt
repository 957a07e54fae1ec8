ghost use Rattle.std.specs.Prelude.{◌≡◌, ◌||◌, ℕ, List as ListOf, false, IfOk, OnOk, OnErr};
ghost use Rattle.std.specs.List.{list_any};
ghost use Rattle.std.specs.Str.{bytes_eq};
ghost use Rattle.package_lists.specs.Paths.{is_among, is_within, path_texts};
ghost use Rattle.package_lists.specs.PathSets.{has};

use crate::paths::{folders, path_text};
use script_names::{Bytes, Memory, Name, Path};
use std::alloc::Global;
use std::collections::BTreeSet;

/// A set of paths, as they are written.
#[derive(Drop)]
pub struct PathSet {
    alloc: Global,
    paths: BTreeSet<Vec<u8>>,
}

impl PathSet {
    /// No paths.
    pub fn new(alloc: Global) -> PathSet
        ensures { (path : ListOf ℕ) → has result path ≡ false }
    {
        PathSet {
            alloc,
            paths: BTreeSet::new(alloc),
        }
    }

    /// These paths.
    pub fn of(alloc: Global, paths: &[Path]) -> Result<PathSet, Memory>
        ensures { IfOk result (λ set. (path : ListOf ℕ) → has set path ≡ is_among (path_texts paths.now) path) }
    {
        let mut set = PathSet::new(alloc);
        for path in paths {
            let text = path_text(alloc, path.names())?;
            set.add(text.as_slice())?;
        }
        Ok(set)
    }

    /// Whether a path is in the set.
    pub fn has(&self, path: &[u8]) -> bool
        ensures { result ≡ has self.now path.now }
    {
        self.paths.contains(path)
    }

    /// One more path; for want of memory the set has what it had.
    pub fn add(&mut self, path: &[u8]) -> Result<(), Memory>
        ensures ok { OnOk result ((other : ListOf ℕ)
            → has self.new other ≡ (bytes_eq path.now other || has self.old other)) }
        ensures kept { OnErr result ((other : ListOf ℕ) → has self.new other ≡ has self.old other) }
    {
        let key = Vec::from_slice(self.alloc, path)?;
        self.paths.insert(key)?;
        Ok(())
    }
}

/// Adds each of these paths.
pub fn add_each(set: &mut PathSet, paths: &[Bytes]) -> Result<(), Memory>
    ensures { OnOk result ((other : ListOf ℕ)
        → has set.new other ≡ (list_any (λ path. bytes_eq path other) paths.now || has set.old other)) }
{
    for path in paths {
        set.add(path.as_slice())?;
    }
    Ok(())
}

// Whether a set has any of these paths.
pub fn has_any(set: &PathSet, paths: &[Bytes]) -> bool
    ensures { result ≡ list_any (has set.now) paths.now }
{
    for path in paths {
        if set.has(path.as_slice()) {
            return true;
        }
    }
    false
}

/// Whether the path of these names is in a set, or lies below one that is.
pub fn is_within(alloc: Global, set: &PathSet, names: &[Name]) -> Result<bool, Memory>
    ensures { IfOk result (λ answer. answer ≡ is_within (has set.now) names.now) }
{
    let of_root = set.has(b"".as_slice());
    let above = folders(alloc, names)?;
    let of_folder = has_any(set, above.as_slice());
    let text = path_text(alloc, names)?;
    let of_path = set.has(text.as_slice());
    Ok(of_root || of_folder || of_path)
}
