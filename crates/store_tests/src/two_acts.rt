ghost use Rattle.std.specs.Prelude.{◌≡◌, ◌≤◌, [], ◌∷◌, ◌++◌, length, IfOk, OnOk};
ghost use Rattle.utility_calls.specs.Acts.{row, tree_after, IsPerformed};
ghost use Rattle.utility_calls.specs.declared.deeds.Deed.TheVariants.{Does};
ghost use Rattle.utility_calls.specs.Decisions.{mark_at};
ghost use Rattle.store_tests.specs.TwoActs.{site_of, asked_and_made};

use crate::asked_path::AskedPath;
use case_paths::{Found, Machine, PathsFault, Ran, explore};
use clause_solver::Store;
use concrete_utils::steps::act;
use feature_trees::Value;
use script_names::{Copied, Done, List, Mark, Memory, Site};
use std::alloc::Global;
use utility_calls::acts::Act;
use utility_calls::deeds::Deed;

/// Does an act, and adds its mark and its deed to those that were done before.
pub(crate) fn perform(
    alloc: Global,
    at: u32,
    own: Act,
    tree: &mut Value,
    marks: &mut List<Mark>,
    deeds: &mut List<Deed>,
) -> Result<Done, Memory>
    requires { IsPerformed own }
    ensures answer { IfOk result (λ done. done ≡ (row own tree.old).answer) }
    ensures tree { OnOk result (tree.new ≡ tree_after own tree.old) }
    ensures marks { OnOk result (marks.new ≡ marks.old ++ mark_at (site_of at) own tree.old ∷ []) }
    ensures deeds { OnOk result (deeds.new ≡ deeds.old ++ Does own ∷ []) }
{
    let taken = act(alloc, &own, tree)?;
    marks.add(Mark {
        site: Site { step: 0, at },
        row: taken.0,
    })?;
    deeds.add(Deed::Does(own))?;
    Ok(taken.1)
}

impl Machine for AskedPath {
    type End = Done;

    ghost decision = { asked_and_made };

    fn run(&self, alloc: Global, start: &Value) -> Result<Ran<Done>, Memory> {
        let mut tree = start.copy(alloc)?;
        let mut marks = List::new(alloc);
        let mut deeds = List::new(alloc);
        let asked = self.path.copy(alloc)?;
        perform(
            alloc,
            0,
            Act::Exists(asked),
            &mut tree,
            &mut marks,
            &mut deeds,
        )?;
        let made = self.path.copy(alloc)?;
        let value = perform(
            alloc,
            1,
            Act::MakeDir(made),
            &mut tree,
            &mut marks,
            &mut deeds,
        )?;
        Ok(Ran {
            value,
            trace: marks,
            deeds,
        })
    }

    ghost performed = { λ m. ((λ _. (m.named, m.named), tt), λ _. ((λ _. (m.named, m.named), tt), λ _. tt)) };
}

/// All paths of the two acts from every tree.
pub(crate) fn all_paths(
    alloc: Global,
    machine: &AskedPath,
    room: usize,
) -> Result<List<Found<Done>>, PathsFault>
    ensures { IfOk result (λ xs. length xs ≤ room) }
{
    let store = Store::start(alloc)?;
    let found = explore(alloc, machine, store, room)?;
    Ok(found)
}
