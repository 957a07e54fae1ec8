ghost use Rattle.std.specs.Prelude.{◌≡◌, map, IfOk};
ghost use Rattle.shell_to_colis.specs.Translated.{part_to, piece_of, parameter_to, default_to, expansion};
ghost use Rattle.shell_to_colis.specs.Translated.{is_all_alone};
ghost use Rattle.colis_syntax.specs.WellFormed.{is_argument};

use colis_syntax::{Str, StrPiece};
use script_names::{Boxed as Box, Bytes, Copied, List, Memory};
use shell_syntax::{Key, Part};
use std::alloc::Global;

/// How a part stands in its word (POSIX.1-2017, XCU 2.2 Quoting, 2.6.5 Field Splitting).
#[derive(Clone, Copy, Debug, PartialEq, Eq)]
pub(crate) enum Quoting {
    /// It is text outside quotes.
    Plain,
    /// It is text or an expansion inside quotes.
    Quoted,
    /// It is an expansion outside quotes, which is split into fields.
    Split,
}

// How an expansion stands in its word.
fn expansion(quoted: bool) -> Quoting
    ensures { result ≡ expansion quoted }
{
    if quoted {
        Quoting::Quoted
    } else {
        Quoting::Split
    }
}

/// How a part stands in its word.
pub(crate) fn quoting_of(part: &Part) -> Quoting
    ensures { result ≡ (part_to part.now).quoting }
{
    match part {
        Part::Plain(_) => Quoting::Plain,
        Part::Quoted(_) => Quoting::Quoted,
        Part::Param { quoted, .. } => expansion(*quoted),
        Part::All => Quoting::Quoted,
        Part::Run { quoted, .. } => expansion(*quoted),
    }
}

/// A string, as it stands in a word.
pub(crate) fn piece(quoting: Quoting, value: Str) -> StrPiece
    ensures { result ≡ piece_of quoting value }
{
    match quoting {
        Quoting::Plain => StrPiece::Plain(value),
        Quoting::Quoted => StrPiece::Quoted(value),
        Quoting::Split => StrPiece::Split(value),
    }
}

// Whether a part is `"$@"`.
fn is_all(part: &Part) -> bool
    ensures { result ≡ (part_to part.now).is_all }
{
    match part {
        Part::All => true,
        Part::Plain(_) | Part::Quoted(_) | Part::Param { .. } | Part::Run { .. } => false,
    }
}

/// Whether a word is `"$@"` and nothing else.
pub(crate) fn is_all_alone(parts: &[Part]) -> bool
    ensures { result ≡ is_all_alone (map part_to parts.now) }
{
    match parts {
        [part] => is_all(part),
        _ => false,
    }
}

// Whether an argument may have the number.
fn is_argument(number: u8) -> bool
    ensures { result ≡ is_argument number }
{
    1 <= number && number <= 9
}

// A parameter.
fn parameter(alloc: Global, key: &Key) -> Result<Str, Memory>
    ensures { IfOk result (λ value. value ≡ parameter_to key.now) }
{
    match key {
        Key::Named(name) => Ok(Str::Var(name.copy(alloc)?)),
        Key::Arg(number) => {
            if is_argument(*number) {
                Ok(Str::Arg(*number))
            } else {
                Ok(Str::Join(List::new(alloc)))
            }
        }
        Key::Count => Ok(Str::Count),
    }
}

/// A parameter, with its default where it has one.
pub(crate) fn expanded(alloc: Global, key: &Key, default: &Option<Bytes>) -> Result<Str, Memory>
    ensures { IfOk result (λ value. value ≡ default_to default.now (parameter_to key.now)) }
{
    let value = parameter(alloc, key)?;
    match default {
        None => Ok(value),
        Some(bytes) => {
            let bytes = bytes.copy(alloc)?;
            Ok(Str::Or(Box::new(alloc, value)?, bytes))
        }
    }
}
