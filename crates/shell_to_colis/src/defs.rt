ghost use Rattle.std.specs.Prelude.{◌≡◌, [], ◌∷◌, ◌++◌, IfOk};
ghost use Rattle.colis_syntax.specs.WellFormed.{is_def};

use colis_syntax::Def;
use script_names::{List, Memory};
use std::alloc::Global;
use std::collections::BTreeSet;
use std::marker::Model;

/// The functions that are defined before a place of a script, in order, with the set of their names. Contracts see
/// the list of the functions.
#[derive(Drop)]
pub(crate) struct Defs {
    alloc: Global,
    list: List<Def>,
    names: BTreeSet<Vec<u8>>,
}

impl Model for Defs {
    ghost use Rattle.std.specs.Prelude.{List as Items};
    ghost use Rattle.std.specs.Coded.{coded_list};
    ghost use Rattle.colis_syntax.specs.declared.def.Def.{Def as DefRecord};
    ghost use Rattle.colis_syntax.specs.contracts.def.Def as def;

    ghost Value = { Items DefRecord };

    ghost coded = { coded_list def.the_row.coded };

    ghost view = { λ defs. defs.list };

    ghost use Rattle.shell_to_colis.specs.DefNames.{AreTheNames};

    ghost invariant = { λ defs. AreTheNames defs.list defs.names };
}

impl Defs {
    /// No functions.
    pub(crate) fn new(alloc: Global) -> Defs
        ensures { result ≡ [] }
    {
        Defs {
            alloc,
            list: List::new(alloc),
            names: BTreeSet::new(alloc),
        }
    }

    /// Whether one of the functions has this name.
    pub(crate) fn has(&self, name: &[u8]) -> bool
        ensures { result ≡ is_def name.now self.now }
    {
        self.names.contains(name)
    }

    /// The functions and one more behind them.
    pub(crate) fn with(self, def: Def) -> Result<Defs, Memory>
        ensures { IfOk result (λ defs. defs ≡ self ++ def ∷ []) }
    {
        let Defs {
            alloc,
            mut list,
            mut names,
        } = self;
        let name = Vec::from_slice(alloc, def.name.as_slice())?;
        names.insert(name)?;
        list.add(def)?;
        Ok(Defs { alloc, list, names })
    }

    /// The functions, moved out.
    pub(crate) fn into_list(self) -> List<Def>
        ensures { result ≡ self }
    {
        let Defs { list, .. } = self;
        list
    }
}
