ghost use Rattle.std.specs.Prelude.{◌≡◌, ◌≤◌, Some, None, if◌then◌else◌};
ghost use Rattle.script_names.specs.ShellNames.{is_digit};
ghost use Rattle.shell_rules.specs.Calls.{is_status, number_behind, leave_with};
ghost use Rattle.colis_interp.specs.Places.{place_of};
ghost use Rattle.colis_interp.specs.Runs.{Runs, state_of};

use crate::halt::Halt;
use crate::place::Place;
use crate::shell::Shell;
use script_names::{Bytes, Reason};
use shell_rules::{Leave, MAX_STATUS};

/// Whether a byte is a decimal digit.
pub(crate) fn is_digit(byte: u8) -> bool
    ensures { result ≡ is_digit byte }
{
    48 <= byte && byte <= 57
}

// The number of 1 to 3 digits, where it is a status.
fn status_number(text: &[u8]) -> Option<u32>
    ensures { result ≡ (if is_status text.now then Some (number_behind 0 text.now) else None) }
{
    match text {
        [a] => {
            if is_digit(*a) {
                return Some(u32::from(*a - 48));
            }
            None
        }
        [a, b] => {
            if is_digit(*a) && is_digit(*b) {
                return Some(u32::from(*a - 48) * 10 + u32::from(*b - 48));
            }
            None
        }
        [a, b, c] => {
            if is_digit(*a) && is_digit(*b) && is_digit(*c) {
                let number = (u32::from(*a - 48) * 10 + u32::from(*b - 48)) * 10
                    + u32::from(*c - 48);
                if number <= MAX_STATUS {
                    return Some(number);
                }
            }
            None
        }
        _ => None,
    }
}

/// Leaves what stands round the command, with the status that its operand gives, or with the one that holds.
pub(crate) fn leave_with(
    how: Leave,
    fields: &[Bytes],
    place: Place,
    shell: &mut Shell,
) -> Result<(), Halt>
    ensures turns { shell.new.conc.turns ≤ shell.old.conc.turns }
    ensures runs { Runs (leave_with how fields.now (place_of place.entry) (state_of shell.old)) result shell.new }
{
    match fields {
        [] => Err(Halt::Left(how)),
        [text] => match status_number(text.as_slice()) {
            Some(number) => {
                shell.conc.status = number == 0;
                Err(Halt::Left(how))
            }
            None => Err(place.stop(Reason::Status)),
        },
        [_, _, ..] => Err(place.stop(Reason::Status)),
    }
}
