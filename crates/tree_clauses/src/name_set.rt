ghost use Rattle.std.specs.Prelude.{◌≡◌, ◌||◌, ℕ, List, false, IfOk, OnOk, OnErr};
ghost use Rattle.std.specs.Str.{bytes_eq};
ghost use Rattle.tree_clauses.specs.NameSets.{has, is_among};

use script_names::{Memory, Name};
use std::alloc::Global;
use std::collections::BTreeSet;

/// A set of names.
#[derive(Drop)]
pub(crate) struct NameSet {
    alloc: Global,
    names: BTreeSet<Vec<u8>>,
}

impl NameSet {
    // No names.
    fn new(alloc: Global) -> NameSet
        ensures { (f : List ℕ) → has result f ≡ false }
    {
        NameSet {
            alloc,
            names: BTreeSet::new(alloc),
        }
    }

    /// These names.
    pub(crate) fn of(alloc: Global, names: &[Name]) -> Result<NameSet, Memory>
        ensures { IfOk result (λ set. (f : List ℕ) → has set f ≡ is_among names.now f) }
    {
        let mut set = NameSet::new(alloc);
        for f in names {
            set.add(f.as_slice())?;
        }
        Ok(set)
    }

    /// Whether a name is one of them.
    pub(crate) fn has(&self, f: &[u8]) -> bool
        ensures { result ≡ has self.now f.now }
    {
        self.names.contains(f)
    }

    // One more name; for want of memory the set has what it had.
    fn add(&mut self, f: &[u8]) -> Result<(), Memory>
        ensures ok { OnOk result ((other : List ℕ)
            → has self.new other ≡ (bytes_eq f.now other || has self.old other)) }
        ensures kept { OnErr result ((other : List ℕ) → has self.new other ≡ has self.old other) }
    {
        let key = Vec::from_slice(self.alloc, f)?;
        self.names.insert(key)?;
        Ok(())
    }
}
