// Words in the texts of scripts: the first of a command, and whether a name stands in a text as a word.
ghost use Rattle.std.specs.Prelude.{◌≡◌, ◌++◌, ◌∷◌, [], true, not, drop, IfOk, OnOk};
ghost use Rattle.std.specs.List.{filter, list_all};
ghost use Rattle.explanation.specs.CommandWords.{at_end, begins_with, is_kept_word, is_plain_byte};
ghost use Rattle.explanation.specs.CommandWords.{is_plain_name, is_quote, named_from, unquoted, word_at};

use crate::scripts::script_text;
use crate::spots::Spot;
use checker_input::Sources;
use script_names::{Bytes, Memory};
use script_places::{ends_word, first_word, joined};
use std::alloc::Global;
use utility_calls::can_be_stated;

// What stands in a text from a byte on.
fn from_byte(text: &[u8], at: usize) -> &[u8]
    ensures { result.now ≡ drop at text.now }
{
    if at < text.len() { &text[at..] } else { &[] }
}

/// The first word of the command at a place, as it is written; no bytes, where the place is in no script.
pub fn word_at(sources: &Sources, spot: Spot) -> &[u8]
    ensures { result.now ≡ word_at sources.now spot }
{
    match spot {
        Spot::InScript { side, script, at } => {
            first_word(from_byte(script_text(sources, side, script), at as usize))
        }
        Spot::InFiles { .. } | Spot::Nowhere => b"",
    }
}

// Whether a byte is a letter, a digit, or `+`, `-`, `.`, `/` or `_`.
fn is_plain_byte(byte: u8) -> bool
    ensures { result ≡ is_plain_byte byte }
{
    let small = b'a' <= byte && byte <= b'z';
    let large = b'A' <= byte && byte <= b'Z';
    let digit = b'-' <= byte && byte <= b'9';
    small || (large || (digit || (byte == b'+' || byte == b'_')))
}

// Whether each byte is such a one.
fn are_plain(word: &[u8]) -> bool
    ensures { result ≡ list_all is_plain_byte word.now }
{
    word.iter().all(|byte| is_plain_byte(*byte))
}

/// Whether a word is the name of a command of which a base can state how its calls end.
pub fn is_plain_name(word: &[u8]) -> bool
    ensures { result ≡ is_plain_name word.now }
{
    can_be_stated(word) && are_plain(word)
}

/// Whether a word is the name of a command of which no base can state how its calls end.
pub fn is_kept_word(word: &[u8]) -> bool
    ensures { result ≡ is_kept_word word.now }
{
    word.len() != 0 && !can_be_stated(word)
}

// Whether a byte quotes others.
fn is_quote(byte: u8) -> bool
    ensures { result ≡ is_quote byte }
{
    byte == b'"' || (byte == b'\'' || byte == b'\\')
}

// Adds a byte, unless it quotes others.
fn push_unquoted(text: &mut Bytes, byte: u8) -> Result<(), Memory>
    ensures { OnOk result (text.new ≡ text.old ++ filter (λ b. not (is_quote b)) (byte ∷ [])) }
{
    if is_quote(byte) {
        return Ok(());
    }
    text.push(byte)
}

// A text without the bytes that quote others.
fn without_quotes(alloc: Global, lines: &[u8]) -> Result<Bytes, Memory>
    ensures { IfOk result (λ bytes. bytes ≡ filter (λ b. not (is_quote b)) lines.now) }
{
    let mut bytes = Bytes::new(alloc);
    for byte in lines {
        push_unquoted(&mut bytes, *byte)?;
    }
    Ok(bytes)
}

/// A text without its joined lines and the bytes that quote others.
pub fn unquoted(alloc: Global, text: &[u8]) -> Result<Bytes, Memory>
    ensures { IfOk result (λ bytes. bytes ≡ unquoted text.now) }
{
    let lines = joined(alloc, text)?;
    without_quotes(alloc, lines.as_slice())
}

// Whether nothing stands there, or a byte that ends a word.
fn at_end(text: &[u8]) -> bool
    ensures { result ≡ at_end text.now }
{
    match text {
        [] => true,
        [byte, ..] => ends_word(*byte),
    }
}

// Whether a text begins with the name as a word.
fn begins_with(name: &[u8], text: &[u8]) -> bool
    ensures { result ≡ begins_with name.now text.now }
{
    let first = match text.get(..name.len()) {
        Some(first) => first,
        None => text,
    };
    first == name && at_end(from_byte(text, name.len()))
}

/// Whether a name stands as a word in a text without bytes that quote others.
pub fn is_named(name: &[u8], text: &[u8]) -> bool
    ensures { result ≡ named_from true name.now text.now }
{
    let mut may = true;
    let mut left = text;
    while let [byte, rest @ ..] = left {
        if may && begins_with(name, left) {
            return true;
        }
        may = ends_word(*byte);
        left = rest;
    }
    false
}
