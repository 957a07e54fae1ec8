ghost use Rattle.std.specs.Prelude.{◌≤◌, true, All};
ghost use Rattle.utility_calls.specs.Acts.{IsPerformed};
ghost use Rattle.shell_rules.specs.Calls.{do_act, do_acts, do_operands};
ghost use Rattle.colis_interp.specs.Places.{place_of};
ghost use Rattle.colis_interp.specs.Runs.{Runs, state_of};

use crate::halt::Halt;
use crate::place::Place;
use crate::shell::Shell;
use script_names::{Done, List, Mark};
use std::alloc::Global;
use utility_calls::acts::Act;

/// Does an act at a command: whether it succeeds. The shell keeps the act.
pub(crate) fn do_act(alloc: Global, a: Act, place: Place, shell: &mut Shell) -> Result<bool, Halt>
    requires { IsPerformed a }
    ensures turns { shell.new.conc.turns ≤ shell.old.conc.turns }
    ensures runs { Runs (do_act a (place_of place.entry) (state_of shell.old)) result shell.new }
{
    let site = place.site();
    let (row, done) = shell.root.act(alloc, &a)?;
    shell.trace.add(Mark { site, row })?;
    shell.acts.add(a)?;
    match done {
        Done::Ok => Ok(true),
        Done::Failed => Ok(false),
        Done::Stopped(reason) => Err(place.stop(reason)),
    }
}

/// Does acts up to the first failure: whether none fails.
pub(crate) fn do_acts(
    alloc: Global,
    acts: List<Act>,
    place: Place,
    shell: &mut Shell,
) -> Result<bool, Halt>
    requires { All (λ a. IsPerformed a) acts }
    ensures turns { shell.new.conc.turns ≤ shell.old.conc.turns }
    ensures runs { Runs (do_acts acts (place_of place.entry) (state_of shell.old)) result shell.new }
{
    for a in acts.into_vec() {
        let ok = do_act(alloc, a, place, shell)?;
        if !ok {
            return Ok(false);
        }
    }
    Ok(true)
}

/// Does the acts of each operand: whether none fails.
pub(crate) fn do_operands(
    alloc: Global,
    operands: List<List<Act>>,
    place: Place,
    shell: &mut Shell,
) -> Result<bool, Halt>
    requires { All (λ acts. All (λ a. IsPerformed a) acts) operands }
    ensures turns { shell.new.conc.turns ≤ shell.old.conc.turns }
    ensures runs { Runs (do_operands true operands (place_of place.entry) (state_of shell.old)) result shell.new }
{
    let mut all = true;
    for acts in operands.into_vec() {
        let ok = do_acts(alloc, acts, place, shell)?;
        all = all && ok;
    }
    Ok(all)
}
