ghost use Rattle.std.specs.Prelude.{◌≤◌, length, IfOk};
ghost use Rattle.store_tests.specs.Questions.{all_asked, asked_performed};

use crate::asked_path::AskedPaths;
use case_paths::{Found, Machine, PathsFault, Ran, explore};
use clause_solver::Store;
use concrete_utils::steps::act;
use feature_trees::Value;
use script_names::{Copied, Done, List, Mark, Memory, Site};
use std::alloc::Global;
use utility_calls::acts::Act;
use utility_calls::deeds::Deed;

impl Machine for AskedPaths {
    type End = Done;

    ghost decision = { all_asked };

    fn run(&self, alloc: Global, start: &Value) -> Result<Ran<Done>, Memory> {
        let mut tree = start.copy(alloc)?;
        let mut marks = List::new(alloc);
        let mut deeds = List::new(alloc);
        let paths = self.paths.as_slice();
        for path in paths {
            let asked = path.copy(alloc)?;
            let ask = Act::Exists(asked);
            let taken = act(alloc, &ask, &mut tree)?;
            marks.add(Mark {
                site: Site { step: 0, at: 0 },
                row: taken.0,
            })?;
            deeds.add(Deed::Does(ask))?;
        }
        Ok(Ran {
            value: Done::Ok,
            trace: marks,
            deeds,
        })
    }

    ghost performed = { λ m. asked_performed m.paths };
}

/// All paths of the questions from every tree.
pub(crate) fn answered(
    alloc: Global,
    machine: &AskedPaths,
    room: usize,
) -> Result<List<Found<Done>>, PathsFault>
    ensures { IfOk result (λ xs. length xs ≤ room) }
{
    let store = Store::start(alloc)?;
    let found = explore(alloc, machine, store, room)?;
    Ok(found)
}
