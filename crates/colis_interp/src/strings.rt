ghost use Rattle.std.specs.Prelude.{◌≡◌, ◌++◌, IfOk, OnOk};
ghost use Rattle.shell_words.specs.Patterns.{pattern_letters};
ghost use Rattle.shell_rules.specs.Expansion.{do_variable, do_argument, do_count, given, output_of};
ghost use Rattle.shell_words.specs.Fields.{short};
ghost use Rattle.shell_rules.specs.Cases.{pattern_answer};
ghost use Rattle.shell_rules.specs.Expansion.{or_empty, trimmed};
ghost use Rattle.colis_interp.specs.declared.shell.Shell.{Shell as ShellRecord};
ghost use Rattle.colis_interp.specs.Places.{place_of};
ghost use Rattle.colis_interp.specs.Runs.{Runs, state_of};

use crate::halt::{Halt, halt_of};
use crate::place::Place;
use crate::shell::Shell;
use script_names::{Bytes, Copied, List, Memory, Reason};
use shell_rules::is_shells_own;
use shell_words::{Piece, STRING_LIMIT, matches, trim_newlines};
use shown_texts::push_number;
use std::alloc::Global;

/// The value of a variable.
pub(crate) fn variable(
    alloc: Global,
    name: &[u8],
    place: Place,
    shell: &Shell,
) -> Result<Bytes, Halt>
    ensures { Runs (do_variable name.now (place_of place.entry) (state_of shell.now)) result shell.now }
{
    if is_shells_own(name) {
        return Err(place.stop(Reason::Call));
    }
    match shell.conc.vars.get(name) {
        Some(value) => Ok(value.copy(alloc)?),
        None => Ok(Bytes::new(alloc)),
    }
}

/// The argument with this number, counted from 1.
pub(crate) fn argument(
    alloc: Global,
    number: u8,
    place: Place,
    shell: &Shell,
) -> Result<Bytes, Halt>
    ensures { Runs (do_argument number (place_of place.entry) (state_of shell.now)) result shell.now }
{
    let at = if number == 0 { 0 } else { number - 1 };
    match shell.conc.args.get(usize::from(at)) {
        Some(value) => Ok(value.copy(alloc)?),
        None => Ok(Bytes::new(alloc)),
    }
}

/// How many arguments there are, in decimal.
pub(crate) fn count(alloc: Global, place: Place, shell: &Shell) -> Result<Bytes, Halt>
    ensures { Runs (do_count (place_of place.entry) (state_of shell.now)) result shell.now }
{
    let mut text = Bytes::new(alloc);
    push_number(&mut text, shell.conc.args.len() as u64)?;
    Ok(text)
}

/// A string that may be assigned, or be the subject of a `case`: it has at most 65,536 bytes.
pub(crate) fn short(text: Bytes, place: Place) -> Result<Bytes, Halt>
    ensures { (s : ShellRecord) → Runs (given (short text) (place_of place.entry) (state_of s)) result s }
{
    if text.len() > STRING_LIMIT {
        return Err(place.stop(Reason::Long));
    }
    Ok(text)
}

/// Whether a pattern matches a subject.
pub(crate) fn pattern_answer(
    alloc: Global,
    pattern: &List<Piece>,
    subject: &[u8],
    place: Place,
) -> Result<bool, Halt>
    ensures { (s : ShellRecord)
        → let answer = pattern_answer subject.now (pattern_letters pattern.now) in
        Runs (answer (place_of place.entry) (state_of s)) result s }
{
    match matches(alloc, pattern, subject) {
        Ok(yes) => Ok(yes),
        Err(fault) => Err(halt_of(fault, place)),
    }
}

/// What a substitution captured, without the newlines at its end.
pub(crate) fn trimmed(alloc: Global, captured: Option<Bytes>) -> Bytes
    ensures { result ≡ trimmed (or_empty captured) }
{
    match captured {
        Some(text) => {
            let mut written = text;
            trim_newlines(&mut written);
            written
        }
        None => Bytes::new(alloc),
    }
}

/// Adds fields to others.
pub(crate) fn append(
    alloc: Global,
    fields: &mut List<Bytes>,
    more: &List<Bytes>,
) -> Result<(), Memory>
    ensures { OnOk result (fields.new ≡ fields.old ++ more.now) }
{
    for field in more.as_slice() {
        let twin = field.copy(alloc)?;
        fields.add(twin)?;
    }
    Ok(())
}
