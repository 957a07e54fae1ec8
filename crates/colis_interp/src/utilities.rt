ghost use Rattle.std.specs.Prelude.{◌≡◌, ◌≤◌};
ghost use Rattle.utility_calls.specs.Performed.{HasPerformedActs};
ghost use Rattle.shell_rules.specs.Calls.{do_planned, do_call_of, negated_if};
ghost use Rattle.colis_interp.specs.Places.{place_of};
ghost use Rattle.colis_interp.specs.Runs.{Runs, state_of};

use crate::acts::{do_act, do_operands};
use crate::halt::Halt;
use crate::place::Place;
use crate::planning::planned;
use crate::shell::{Shell, print};
use script_names::{Bytes, List};
use shell_rules::Spelled;
use std::alloc::Global;
use utility_calls::calls::Planned;

// The answer of a question, or its opposite.
fn negated_if(negate: bool, yes: bool) -> bool
    ensures { result ≡ negated_if negate yes }
{
    if negate { !yes } else { yes }
}

// Does what a call comes to.
fn do_planned(alloc: Global, planned: Planned, place: Place, shell: &mut Shell) -> Result<(), Halt>
    requires { HasPerformedActs planned }
    ensures turns { shell.new.conc.turns ≤ shell.old.conc.turns }
    ensures runs { Runs (do_planned planned (place_of place.entry) (state_of shell.old)) result shell.new }
{
    match planned {
        Planned::Known(ok) => {
            shell.conc.status = ok;
            Ok(())
        }
        Planned::Ask { act, negate } => {
            let yes = do_act(alloc, act, place, shell)?;
            shell.conc.status = negated_if(negate, yes);
            Ok(())
        }
        Planned::Print(text) => {
            print(text.as_slice(), shell)?;
            shell.conc.status = true;
            Ok(())
        }
        Planned::Change(operands) => {
            let ok = do_operands(alloc, operands, place, shell)?;
            shell.conc.status = ok;
            Ok(())
        }
        Planned::Unspecified(reason) => Err(place.stop(reason)),
    }
}

/// Runs a command of these fields: the first is its name. Of its words the first two are spelled out or not.
pub(crate) fn call_utility(
    alloc: Global,
    spelled: Spelled,
    fields: &List<Bytes>,
    place: Place,
    shell: &mut Shell,
) -> Result<(), Halt>
    ensures turns { shell.new.conc.turns ≤ shell.old.conc.turns }
    ensures runs { Runs (do_call_of spelled fields.now (place_of place.entry) (state_of shell.old)) result shell.new }
{
    if fields.len() == 0 {
        shell.conc.status = shell.substituted;
        return Ok(());
    }
    let premises = shell.conc.premises.get();
    let planned = planned(alloc, premises, place.functions, spelled, fields)?;
    do_planned(alloc, planned, place, shell)
}
