ghost use Rattle.std.specs.Prelude.{◌≡◌, [], IfOk};
ghost use Rattle.package_lists.specs.Below.{with_name};

use crate::path_set::PathSet;
use script_names::{Copied, List, Memory, Name};
use std::alloc::Global;
use std::marker::Model;

/// Names, each once, in the order in which they came.
#[derive(Drop)]
pub struct NameList {
    names: List<Name>,
    known: PathSet,
}

impl Model for NameList {
    ghost use Rattle.std.specs.Prelude.{◌≡◌, ℕ, List};
    ghost use Rattle.package_lists.specs.Paths.{is_among};
    ghost use Rattle.package_lists.specs.PathSets.{has};

    ghost Value = { List (List ℕ) };

    ghost view = { λ l. l.names };

    ghost invariant = { λ l. (name : List ℕ) → has l.known name ≡ is_among l.names name };
}

impl NameList {
    /// No names.
    pub fn new(alloc: Global) -> NameList
        ensures { result ≡ [] }
    {
        NameList {
            names: List::new(alloc),
            known: PathSet::new(alloc),
        }
    }

    /// The names.
    pub fn names(&self) -> &List<Name>
        ensures { result.now ≡ self.now }
    {
        &self.names
    }

    /// The list with one more name, unless it is there already.
    pub fn with(self, alloc: Global, name: &Name) -> Result<NameList, Memory>
        ensures { IfOk result (λ more. more ≡ with_name self name.now) }
    {
        let NameList { names, known } = self;
        let is_known = known.has(name.as_slice());
        if is_known {
            return Ok(NameList { names, known });
        }
        let mut names = names;
        let mut known = known;
        let copy = name.copy(alloc)?;
        names.add(copy)?;
        known.add(name.as_slice())?;
        Ok(NameList { names, known })
    }
}
