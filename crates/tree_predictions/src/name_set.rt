ghost use Rattle.std.specs.Prelude.{◌≡◌, ◌||◌, ℕ, List, false, OnOk, OnErr};
ghost use Rattle.std.specs.Str.{bytes_eq};
ghost use Rattle.tree_predictions.specs.NameSets.{has};

use script_names::Memory;
use std::alloc::Global;
use std::collections::BTreeSet;

/// A set of names of trees.
#[derive(Drop)]
pub(crate) struct NameSet {
    alloc: Global,
    names: BTreeSet<Vec<u8>>,
}

impl NameSet {
    /// No names.
    pub(crate) fn new(alloc: Global) -> NameSet
        ensures { (name : List ℕ) → has result name ≡ false }
    {
        NameSet {
            alloc,
            names: BTreeSet::new(alloc),
        }
    }

    /// Whether a name is one of them.
    pub(crate) fn has(&self, name: &[u8]) -> bool
        ensures { result ≡ has self.now name.now }
    {
        self.names.contains(name)
    }

    /// One more name; for want of memory the set has what it had.
    pub(crate) fn add(&mut self, name: &[u8]) -> Result<(), Memory>
        ensures ok { OnOk result ((other : List ℕ)
            → has self.new other ≡ (bytes_eq name.now other || has self.old other)) }
        ensures kept { OnErr result ((other : List ℕ) → has self.new other ≡ has self.old other) }
    {
        let key = Vec::from_slice(self.alloc, name)?;
        self.names.insert(key)?;
        Ok(())
    }
}
