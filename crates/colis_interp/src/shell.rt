ghost use Rattle.std.specs.Prelude.{◌≡◌, ◌≤◌, ◌<◌, OnOk};
ghost use Rattle.shell_rules.specs.Commands.{checked};
ghost use Rattle.shell_rules.specs.Loops.{take_turn, assign};
ghost use Rattle.shell_rules.specs.Calls.{printed};
ghost use Rattle.colis_interp.specs.Places.{place_of};
ghost use Rattle.colis_interp.specs.Runs.{Runs, state_of};

use crate::halt::Halt;
use crate::place::Place;
use crate::root::Root;
use script_names::{Bytes, List, Memory, Reason};
use shell_rules::{Conc, Leave, Trace};
use utility_calls::acts::Act;

/// A shell in the course of a run: its own state, the tree, the marks of the acts that were done, these acts, and of
/// the command whose words are expanded whether its last command substitution succeeded.
#[derive(Drop)]
pub(crate) struct Shell {
    pub conc: Conc,
    pub root: Root,
    pub trace: Trace,
    pub acts: List<Act>,
    pub substituted: bool,
}

/// Behind what counts as a simple command: under the strict flag a failure that is not excepted ends the shell.
pub(crate) fn checked(place: Place, shell: &Shell) -> Result<(), Halt>
    ensures { Runs (checked (place_of place.entry) (state_of shell.now)) result shell.now }
{
    if shell.conc.strict && !shell.conc.status && !place.excepted {
        if place.inner {
            return Err(place.stop(Reason::Strict));
        }
        return Err(Halt::Left(Leave::Exited));
    }
    Ok(())
}

/// Takes a turn of the loop.
pub(crate) fn take_turn(place: Place, shell: &mut Shell) -> Result<(), Halt>
    ensures turns { shell.new.conc.turns ≤ shell.old.conc.turns }
    ensures taken { OnOk result (shell.new.conc.turns < shell.old.conc.turns) }
    ensures runs { Runs (take_turn (place_of place.entry) (state_of shell.old)) result shell.new }
{
    if shell.conc.turns == 0 {
        return Err(Halt::Left(Leave::Bound(place.site())));
    }
    shell.conc.turns -= 1;
    Ok(())
}

/// Gives a variable a value.
pub(crate) fn assign(name: &[u8], value: Bytes, shell: &mut Shell) -> Result<(), Memory>
    ensures turns { shell.new.conc.turns ≤ shell.old.conc.turns }
    ensures ok { OnOk result (state_of shell.new ≡ assign name.now value (state_of shell.old)) }
{
    shell.conc.vars.set(name, value)
}

/// Adds a text to what is captured, if anything is.
pub(crate) fn print(text: &[u8], shell: &mut Shell) -> Result<(), Memory>
    ensures turns { shell.new.conc.turns ≤ shell.old.conc.turns }
    ensures ok { OnOk result (state_of shell.new ≡ printed text.now (state_of shell.old)) }
{
    match &mut shell.conc.captured {
        Some(before) => before.extend(text),
        None => Ok(()),
    }
}
