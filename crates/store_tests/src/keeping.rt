ghost use Rattle.std.specs.Prelude.{◌≡◌, ◌≢◌, ◌≤◌, ◌∷◌, [], List as ListOf, length, IfOk, OnOk};
ghost use Rattle.script_names.specs.declared.reason.Done.{Done as DoneOf};
ghost use Rattle.script_names.specs.declared.reason.Done.TheVariants as done;
ghost use Rattle.utility_calls.specs.Acts.{IsPerformed};
ghost use Rattle.utility_calls.specs.Backs.{IsNamed};
ghost use Rattle.utility_calls.specs.Walks.{Walk, Acts, PutsBack, Keeping};
ghost use Rattle.store_tests.specs.declared.kept_path.KeptStep.{KeptStep as StepOf};
ghost use Rattle.store_tests.specs.Keeping.{steps_from, all_steps, steps_done, walked};
ghost use Rattle.store_tests.specs.TwoActs.{site_of};

use crate::kept_path::{KeptPath, KeptStep, Standing};
use crate::two_acts::perform;
use case_paths::{Found, Machine, PathsFault, Ran, explore};
use clause_solver::Store;
use concrete_utils::backs::put_back;
use feature_trees::Value;
use script_names::{Copied, Done, List, Mark, Memory, Path, Site};
use std::alloc::Global;
use utility_calls::acts::Act;
use utility_calls::backs::Back;
use utility_calls::deeds::Deed;

// Where a run stands before its first step: the start tree is the kept tree.
fn standing(alloc: Global, start: &Value) -> Result<Standing, Memory>
    ensures { IfOk result (λ at. at ≡ record { tree = start.now; kept = start.now; marks = []; deeds = [] }) }
{
    let tree = start.copy(alloc)?;
    let kept = start.copy(alloc)?;
    Ok(Standing {
        tree,
        kept,
        marks: List::new(alloc),
        deeds: List::new(alloc),
    })
}

// Does an act, and adds its mark and its deed.
fn perform_at(alloc: Global, own: Act, at: &mut Standing) -> Result<Done, Memory>
    requires performed { IsPerformed own }
    ensures { IfOk result (λ answer. (next : DoneOf → Walk DoneOf)
        → walked (Acts (site_of 0) own next) at.old ≡ walked (next answer) at.new) }
{
    let answer = perform(alloc, 0, own, &mut at.tree, &mut at.marks, &mut at.deeds)?;
    Ok(answer)
}

// Keeps the tree, and adds the deed.
fn keep(alloc: Global, at: &mut Standing) -> Result<(), Memory>
    ensures { OnOk result ((next : Walk DoneOf) → walked (Keeping next) at.old ≡ walked next at.new) }
{
    let kept = at.tree.copy(alloc)?;
    at.deeds.add(Deed::Keeps)?;
    at.kept = kept;
    Ok(())
}

// Puts something back from the kept tree, and adds its mark and its deed.
fn return_at(alloc: Global, back: Back, at: &mut Standing) -> Result<Done, Memory>
    requires named { IsNamed back }
    ensures { IfOk result (λ answer. (next : DoneOf → Walk DoneOf)
        → walked (PutsBack (site_of 0) back next) at.old ≡ walked (next answer) at.new) }
{
    let taken = put_back(alloc, &back, &mut at.tree, &at.kept)?;
    at.marks.add(Mark {
        site: Site { step: 0, at: 0 },
        row: taken.0,
    })?;
    at.deeds.add(Deed::Returns(back))?;
    Ok(taken.1)
}

// Does a step, behind one with this answer.
fn take(
    alloc: Global,
    path: &Path,
    step: KeptStep,
    before: Done,
    at: &mut Standing,
) -> Result<Done, Memory>
    requires named { path.now.names ≢ [] }
    ensures { IfOk result (λ answer. (rest : ListOf StepOf)
        → walked (steps_from path.now (step ∷ rest) before) at.old ≡ walked (steps_from path.now rest answer) at.new) }
{
    let own = path.copy(alloc)?;
    match step {
        KeptStep::Asks => perform_at(alloc, Act::Exists(own), at),
        KeptStep::Places => perform_at(alloc, Act::PlaceFile(own), at),
        KeptStep::Discards => perform_at(alloc, Act::Discard(own), at),
        KeptStep::Removes => {
            let act = Act::Remove {
                p: own,
                force: false,
                deep: true,
            };
            perform_at(alloc, act, at)
        }
        KeptStep::Keeps => {
            keep(alloc, at)?;
            Ok(before)
        }
        KeptStep::Returns => return_at(alloc, Back::File(own), at),
    }
}

impl Machine for KeptPath {
    type End = Done;

    ghost decision = { all_steps };

    fn run(&self, alloc: Global, start: &Value) -> Result<Ran<Done>, Memory> {
        let mut at = standing(alloc, start)?;
        let mut answer = Done::Ok;
        let steps = self.steps.as_slice();
        for step in steps {
            answer = take(alloc, &self.path, *step, answer, &mut at)?;
        }
        let Standing {
            tree: _,
            kept: _,
            marks,
            deeds,
        } = at;
        Ok(Ran {
            value: answer,
            trace: marks,
            deeds,
        })
    }

    ghost performed = { λ m. steps_done m.path m.named m.steps done.Ok };
}

/// All paths of the steps from every tree.
pub(crate) fn kept_paths(
    alloc: Global,
    machine: &KeptPath,
    room: usize,
) -> Result<List<Found<Done>>, PathsFault>
    ensures { IfOk result (λ xs. length xs ≤ room) }
{
    let store = Store::start(alloc)?;
    let found = explore(alloc, machine, store, room)?;
    Ok(found)
}
