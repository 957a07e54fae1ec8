// The simple commands of a script whose words are all settled.
ghost use Rattle.std.specs.Prelude.{◌≡◌, ◌++◌, ℕ, List as ListOf, not, ◌&&◌, IfOk, OnOk};
ghost use Rattle.std.specs.List.{list_any, flat_map};
ghost use Rattle.std.specs.Option.{option_copied};
ghost use Rattle.shell_rules.specs.OwnNames.{is_shells_own};
ghost use Rattle.settled_commands.specs.Seen.{commands_in as seen_in};
ghost use Rattle.settled_commands.specs.Settled.{script_name, has_no_value, is_empty, is_quoted, settled_part};
ghost use Rattle.settled_commands.specs.Settled.{settled_text, one_field, settled_field, settled_fields, settled};
ghost use Rattle.settled_commands.specs.Settled.{settled_commands};
ghost use Rattle.settled_commands.specs.KnownNames.{are_given, is_unset};

use crate::given::Given;
use crate::seeing::commands_in;
use crate::seen::{SeenCommand, SeenPart};
use script_names::{Bytes, Copied, List, Memory};
use shell_rules::is_shells_own;
use shell_syntax::Command;
use std::alloc::Global;

/// The fields of each simple command whose words are all settled, in the script of this body: those in its functions
/// and substitutions are among them. A word is settled where it comes to one field, and to the same in every run: its
/// parts are plain or quoted, or expansions of variables that have no value in the script, each of which stands for its
/// default, or nothing.
pub fn settled_commands(alloc: Global, body: &Command) -> Result<List<List<Bytes>>, Memory>
    ensures { IfOk result (λ commands. commands ≡ settled_commands body.now) }
{
    let seen = commands_in(alloc, body)?;
    let given = Given::of(alloc, seen.as_slice())?;
    let fields = settled_of(alloc, &given, seen.as_slice())?;
    Ok(fields)
}

// The fields of each of these commands whose words are all settled.
fn settled_of(
    alloc: Global,
    given: &Given,
    commands: &[SeenCommand],
) -> Result<List<List<Bytes>>, Memory>
    ensures { IfOk result (λ fields. fields ≡ flat_map (settled (is_unset given.now)) commands.now) }
{
    let mut all = List::new(alloc);
    for command in commands {
        add_settled(alloc, given, &mut all, command)?;
    }
    Ok(all)
}

// Adds the fields of a command whose words are all settled.
fn add_settled(
    alloc: Global,
    given: &Given,
    all: &mut List<List<Bytes>>,
    command: &SeenCommand,
) -> Result<(), Memory>
    ensures { OnOk result (all.new ≡ all.old ++ settled (is_unset given.now) command.now) }
{
    match settled_fields(alloc, given, command.words.as_slice())? {
        None => Ok(()),
        Some(fields) => all.add(fields),
    }
}

// The fields of words, where all are settled.
fn settled_fields(
    alloc: Global,
    given: &Given,
    words: &[List<SeenPart>],
) -> Result<Option<List<Bytes>>, Memory>
    ensures { IfOk result (λ fields. fields ≡ settled_fields (is_unset given.now) words.now) }
{
    let mut fields = List::new(alloc);
    for word in words {
        match settled_field(alloc, given, word.as_slice())? {
            None => return Ok(None),
            Some(field) => fields.add(field)?,
        }
    }
    Ok(Some(fields))
}

// Whether a variable has no value.
fn is_unset(given: &Given, name: &[u8]) -> bool
    ensures { result ≡ is_unset given.now name.now }
{
    !is_shells_own(name) && (name != b"DPKG_MAINTSCRIPT_NAME".as_slice() && !given.has(name))
}

// The text of a part, where it is settled.
fn settled_part<'a>(given: &Given, part: &'a SeenPart) -> Option<&'a Bytes>
    ensures { option_copied result ≡ settled_part (is_unset given.now) part.now }
{
    match part {
        SeenPart::Literal { bytes, .. } => Some(bytes),
        SeenPart::Variable {
            name,
            default,
            quoted,
        } => {
            if is_unset(given, name.as_slice()) && (*quoted || is_empty(default.as_slice())) {
                return Some(default);
            }
            None
        }
        SeenPart::Unknown => None,
    }
}

// Whether a text has no bytes.
fn is_empty(text: &[u8]) -> bool
    ensures { result ≡ is_empty text.now }
{
    match text {
        [] => true,
        [_, ..] => false,
    }
}

// The text of a word, where its parts are settled.
fn settled_text(alloc: Global, given: &Given, parts: &[SeenPart]) -> Result<Option<Bytes>, Memory>
    ensures { IfOk result (λ text. text ≡ settled_text (is_unset given.now) parts.now) }
{
    let mut text = Bytes::new(alloc);
    for part in parts {
        match settled_part(given, part) {
            None => return Ok(None),
            Some(bytes) => text.extend(bytes.as_slice())?,
        }
    }
    Ok(Some(text))
}

// Whether a part is quoted.
fn is_quoted(part: &SeenPart) -> bool
    ensures { result ≡ is_quoted part.now }
{
    match part {
        SeenPart::Literal { quoted, .. } => *quoted,
        SeenPart::Variable { quoted, .. } => *quoted,
        SeenPart::Unknown => false,
    }
}

// Whether one of the parts is quoted.
fn some_quoted(parts: &[SeenPart]) -> bool
    ensures { result ≡ list_any is_quoted parts.now }
{
    parts.iter().any(|part| is_quoted(part))
}

// The field that a text comes to.
fn one_field(quoted: bool, text: Option<Bytes>) -> Option<Bytes>
    ensures { result ≡ one_field quoted text }
{
    match text {
        None => None,
        Some(text) => {
            if is_empty(text.as_slice()) && !quoted {
                return None;
            }
            Some(text)
        }
    }
}

// The field of a word, where it is settled.
fn settled_field(alloc: Global, given: &Given, parts: &[SeenPart]) -> Result<Option<Bytes>, Memory>
    ensures { IfOk result (λ field. field ≡ settled_field (is_unset given.now) parts.now) }
{
    let text = settled_text(alloc, given, parts)?;
    Ok(one_field(some_quoted(parts), text))
}
