ghost use Rattle.std.specs.Prelude.{◌≡◌, ◌≤◌, take, length};
ghost use Rattle.std.specs.List.{list_any, list_all};
ghost use Rattle.std.specs.Str.{bytes_eq};
ghost use Rattle.script_names.specs.ShellNames.{is_letter, is_name_byte, is_shell_name};
ghost use Rattle.shell_rules.specs.Calls.{is_changeable, cut_at_equals};
ghost use Rattle.shell_rules.specs.Calls.{export_one, export_each, unset_one, unset_each};
ghost use Rattle.colis_meaning.specs.Meaning.{names_of};
ghost use Rattle.colis_interp.specs.Operands.{behind_equals};
ghost use Rattle.colis_interp.specs.Places.{place_of};
ghost use Rattle.colis_interp.specs.Runs.{Runs, state_of};

use crate::halt::Halt;
use crate::leaving::is_digit;
use crate::place::Place;
use crate::shell::{Shell, assign};
use colis_syntax::Def;
use script_names::{Bytes, Reason};
use std::alloc::Global;

// Whether a byte is a letter or `_`.
fn is_letter(byte: u8) -> bool
    ensures { result ≡ is_letter byte }
{
    (97 <= byte && byte <= 122) || (65 <= byte && byte <= 90) || byte == 95
}

// Whether a byte may stand in a name.
fn is_name_byte(byte: u8) -> bool
    ensures { result ≡ is_name_byte byte }
{
    is_letter(byte) || is_digit(byte)
}

// Whether a text is a name.
fn is_name(text: &[u8]) -> bool
    ensures { result ≡ is_shell_name text.now }
{
    match text {
        [] => false,
        [first, rest @ ..] => is_letter(*first) && are_name_bytes(rest),
    }
}

// Whether each byte may stand in a name.
fn are_name_bytes(text: &[u8]) -> bool
    ensures { result ≡ list_all is_name_byte text.now }
{
    text.iter().all(|byte| is_name_byte(*byte))
}

// Whether a text is the name of a variable that may be changed.
fn is_changeable(name: &[u8]) -> bool
    ensures { result ≡ is_changeable name.now }
{
    is_name(name) && !(name == b"IFS".as_slice())
}

// Where the first `=` stands, or how many bytes there are.
fn equals_at(field: &[u8]) -> usize
    ensures within { result ≤ length field.now }
    ensures cut { cut_at_equals field.now ≡ (take result field.now, behind_equals result field.now) }
{
    for (at, byte) in field.iter().enumerate() {
        if *byte == b'=' {
            return at;
        }
    }
    field.len()
}

// One operand of `export`: NAME or NAME=VALUE.
fn export_one(alloc: Global, field: &[u8], place: Place, shell: &mut Shell) -> Result<(), Halt>
    ensures turns { shell.new.conc.turns ≤ shell.old.conc.turns }
    ensures runs { let exported = export_one (cut_at_equals field.now) in
        Runs (exported (place_of place.entry) (state_of shell.old)) result shell.new }
{
    let at = equals_at(field);
    if !is_changeable(&field[..at]) {
        return Err(place.stop(Reason::Call));
    }
    if at == field.len() {
        return Ok(());
    }
    let value = Bytes::from_slice(alloc, &field[at + 1..])?;
    assign(&field[..at], value, shell)?;
    Ok(())
}

/// Gives the variables of `export` their values.
pub(crate) fn export_each(
    alloc: Global,
    fields: &[Bytes],
    place: Place,
    shell: &mut Shell,
) -> Result<(), Halt>
    ensures turns { shell.new.conc.turns ≤ shell.old.conc.turns }
    ensures runs { Runs (export_each fields.now (place_of place.entry) (state_of shell.old)) result shell.new }
{
    for field in fields {
        export_one(alloc, field.as_slice(), place, shell)?;
    }
    Ok(())
}

/// Whether one of the functions has this name.
pub(crate) fn is_function(name: &[u8], functions: &[Def]) -> bool
    ensures { result ≡ list_any (bytes_eq name.now) (names_of functions.now) }
{
    has_name(name, functions)
}

fn has_name(name: &[u8], functions: &[Def]) -> bool
    ensures { result ≡ list_any (λ def. bytes_eq name.now def.name) functions.now }
{
    functions.iter().any(|def| name == def.name.as_slice())
}

// One operand of `unset`.
fn unset_one(name: &[u8], place: Place, shell: &mut Shell) -> Result<(), Halt>
    ensures turns { shell.new.conc.turns ≤ shell.old.conc.turns }
    ensures runs { Runs (unset_one name.now (place_of place.entry) (state_of shell.old)) result shell.new }
{
    if is_changeable(name) && !is_function(name, place.functions) {
        shell.conc.vars.unset(name);
        return Ok(());
    }
    Err(place.stop(Reason::Call))
}

/// Takes the variables of `unset` away.
pub(crate) fn unset_each(fields: &[Bytes], place: Place, shell: &mut Shell) -> Result<(), Halt>
    ensures turns { shell.new.conc.turns ≤ shell.old.conc.turns }
    ensures runs { Runs (unset_each fields.now (place_of place.entry) (state_of shell.old)) result shell.new }
{
    for field in fields {
        unset_one(field.as_slice(), place, shell)?;
    }
    Ok(())
}
