//! Sets of names, in which one is found without going over all of them.

ghost use Rattle.std.specs.Prelude.{◌≡◌, ◌||◌, ◌↔◌, ◌⊎◌, ℕ, List as ListOf, false, IfOk, OnOk, IsTrue};
ghost use Rattle.std.specs.Ordering.{is_eq};
ghost use Rattle.feature_trees.specs.Tree.{name_cmp};
ghost use Rattle.clause_solver.specs.NameSets.{has, lets_in};
ghost use Rattle.clause_solver.specs.Variables.{allowed, member};

use script_names::{List, Memory, Name};
use std::alloc::Global;
use std::collections::BTreeSet;

/// A set of names.
#[derive(Drop)]
pub(crate) struct NameSet {
    alloc: Global,
    names: BTreeSet<Vec<u8>>,
}

impl NameSet {
    /// No names.
    pub(crate) fn new(alloc: Global) -> NameSet
        ensures { (f : ListOf ℕ) → has result f ≡ false }
    {
        NameSet {
            alloc,
            names: BTreeSet::new(alloc),
        }
    }

    /// These names.
    pub(crate) fn of(alloc: Global, names: &[Name]) -> Result<NameSet, Memory>
        ensures { IfOk result (λ set. (f : ListOf ℕ) → has set f ≡ member f names.now) }
    {
        let mut set = NameSet::new(alloc);
        for name in names {
            set.add(name)?;
        }
        Ok(set)
    }

    /// Whether a name is in the set.
    pub(crate) fn has(&self, f: &Name) -> bool
        ensures { result ≡ has self.now f.now }
    {
        self.names.contains(f.as_slice())
    }

    /// One more name.
    pub(crate) fn add(&mut self, f: &Name) -> Result<(), Memory>
        ensures { OnOk result ((g : ListOf ℕ) → has self.new g ≡ (is_eq (name_cmp g f.now) || has self.old g)) }
    {
        let key = Vec::from_slice(self.alloc, f.as_slice())?;
        self.names.insert(key)?;
        Ok(())
    }
}

/// The names of a fence as a set, where there is a fence.
pub(crate) fn fence_set(
    alloc: Global,
    fence: &Option<List<Name>>,
) -> Result<Option<NameSet>, Memory>
    ensures { IfOk result (λ set. (f : ListOf ℕ) → lets_in set f ≡ allowed fence.now f) }
{
    match fence {
        None => Ok(None),
        Some(names) => {
            let set = NameSet::of(alloc, names.as_slice())?;
            Ok(Some(set))
        }
    }
}

/// Whether a fence with these names lets the name in.
pub(crate) fn lets_in(fence: &Option<NameSet>, f: &Name) -> bool
    ensures { result ≡ lets_in fence.now f.now }
{
    match fence {
        None => true,
        Some(set) => set.has(f),
    }
}
