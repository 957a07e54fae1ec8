ghost use Rattle.std.specs.Prelude.{◌≡◌, IfOk};
ghost use Rattle.std.specs.List.{list_any};
ghost use Rattle.std.specs.Option.{option_copied};
ghost use Rattle.std.specs.Str.{bytes_eq};
ghost use Rattle.shell_forms.specs.Forms.{is_name};
ghost use Rattle.shell_forms.specs.Seen.{bytes_of, static_of, static_name_of, is_unquoted, is_run, is_all};
ghost use Rattle.shell_forms.specs.Seen.{is_all_alone_in, some_unquoted_in, some_runs_in, is_one_flag_in};
ghost use Rattle.shell_forms.specs.Seen.{sets_ifs_in};

use script_names::{Bytes, Memory};
use shell_syntax::{Assign, Part, Word};
use std::alloc::Global;

// The bytes that a part stands for, quoted or not.
fn bytes_of(part: &Part) -> Option<&Bytes>
    ensures { option_copied result ≡ bytes_of part.now }
{
    match part {
        Part::Plain(bytes) => Some(bytes),
        Part::Quoted(bytes) => Some(bytes),
        Part::Param { .. } | Part::All | Part::Run { .. } => None,
    }
}

/// The bytes of a word without any expansion in it.
pub fn static_text(alloc: Global, word: &Word) -> Result<Option<Bytes>, Memory>
    ensures { IfOk result (λ text. text ≡ static_of word.now.parts) }
{
    let mut text = Bytes::new(alloc);
    for part in word.parts.as_slice() {
        match bytes_of(part) {
            None => return Ok(None),
            Some(bytes) => text.extend(bytes.as_slice())?,
        }
    }
    Ok(Some(text))
}

/// The static name of a command, where its first word is static.
pub(crate) fn static_name(alloc: Global, words: &[Word]) -> Result<Option<Bytes>, Memory>
    ensures { IfOk result (λ name. name ≡ static_name_of words.now) }
{
    match words {
        [] => Ok(None),
        [word, ..] => static_text(alloc, word),
    }
}

/// Whether the name is this one.
pub fn is_name(name: &Option<Bytes>, one: &[u8]) -> bool
    ensures { result ≡ is_name name.now one.now }
{
    match name {
        None => false,
        Some(name) => is(name.as_slice(), one),
    }
}

/// Whether two names are the same.
pub(crate) fn is(name: &[u8], one: &[u8]) -> bool
    ensures { result ≡ bytes_eq name.now one.now }
{
    name == one
}

/// Whether the words are the one static word `-e` or `+e`.
pub(crate) fn is_one_flag(alloc: Global, words: &[Word]) -> Result<bool, Memory>
    ensures { IfOk result (λ is. is ≡ is_one_flag_in words.now) }
{
    match words {
        [word] => {
            let text = static_text(alloc, word)?;
            Ok(is_name(&text, b"-e") || is_name(&text, b"+e"))
        }
        _ => Ok(false),
    }
}

// Whether a part is an expansion outside quotes.
fn is_unquoted(part: &Part) -> bool
    ensures { result ≡ is_unquoted part.now }
{
    match part {
        Part::Param { quoted, .. } => !*quoted,
        Part::Run { quoted, .. } => !*quoted,
        Part::Plain(_) | Part::Quoted(_) | Part::All => false,
    }
}

/// Whether one of the words has an expansion outside quotes.
pub(crate) fn some_unquoted(words: &[Word]) -> bool
    ensures { result ≡ some_unquoted_in words.now }
{
    words.iter().any(|word| has_unquoted(word))
}

// Whether a word has an expansion outside quotes.
fn has_unquoted(word: &Word) -> bool
    ensures { result ≡ list_any is_unquoted word.now.parts }
{
    word.parts.as_slice().iter().any(|part| is_unquoted(part))
}

// Whether a part is a substitution.
fn is_run(part: &Part) -> bool
    ensures { result ≡ is_run part.now }
{
    match part {
        Part::Run { .. } => true,
        Part::Plain(_) | Part::Quoted(_) | Part::Param { .. } | Part::All => false,
    }
}

// Whether a substitution stands in a word.
fn has_run(word: &Word) -> bool
    ensures { result ≡ list_any is_run word.now.parts }
{
    word.parts.as_slice().iter().any(|part| is_run(part))
}

/// Whether a substitution stands in one of the values that are assigned.
pub(crate) fn some_runs(assigns: &[Assign]) -> bool
    ensures { result ≡ some_runs_in assigns.now }
{
    assigns.iter().any(|assign| has_run(&assign.value))
}

/// Whether one of the variables that are assigned is IFS.
pub(crate) fn sets_ifs(assigns: &[Assign]) -> bool
    ensures { result ≡ sets_ifs_in assigns.now }
{
    assigns
        .iter()
        .any(|assign| is(assign.name.as_slice(), b"IFS"))
}

// Whether a part is `"$@"`.
fn is_all(part: &Part) -> bool
    ensures { result ≡ is_all part.now }
{
    match part {
        Part::All => true,
        Part::Plain(_) | Part::Quoted(_) | Part::Param { .. } | Part::Run { .. } => false,
    }
}

/// Whether a word is `"$@"` and nothing else.
pub(crate) fn is_all_alone(word: &Word) -> bool
    ensures { result ≡ is_all_alone_in word.now.parts }
{
    match word.parts.as_slice() {
        [part] => is_all(part),
        _ => false,
    }
}
