ghost use Rattle.std.specs.Prelude.{◌≡◌};
ghost use Rattle.shell_words.specs.Words.{word, bytes_of, has_glob};
ghost use Rattle.shell_words.specs.Fields.{Gives, Adds, fields_of, field_value, short, joined};

use crate::fault::WordFault;
use crate::letter::{Letter, is_blank, is_unquoted, letters};
use crate::piece::Piece;
use script_names::{Bytes, List};
use std::alloc::Global;

/// The most bytes that a string of a shell may have here.
pub const STRING_LIMIT: usize = 65536;

/// The fields of a word in a command or a `for` list (POSIX.1-2017, XCU 2.6.5 Field Splitting, with the usual IFS).
/// The first field that has more than 65,536 bytes (Long) or an active glob byte (Glob) is the fault; in one field
/// Long comes first.
pub fn fields(alloc: Global, pieces: &List<Piece>) -> Result<List<Bytes>, WordFault>
    ensures { Gives result (fields_of (word pieces.now)) }
{
    let word = letters(alloc, pieces.as_slice())?;
    cut(alloc, word.as_slice())
}

// The fields of a word's letters: the parts between its blanks that have a byte or a quoted piece.
fn cut(alloc: Global, word: &[Letter]) -> Result<List<Bytes>, WordFault>
    ensures { Gives result (fields_of word.now) }
{
    let mut fields = List::new(alloc);
    let mut from = 0;
    for (at, letter) in word.iter().enumerate() {
        if is_blank(letter) {
            add_field(alloc, &mut fields, &word[from..at])?;
            from = at + 1;
        }
    }
    add_field(alloc, &mut fields, &word[from..])?;
    Ok(fields)
}

// The field of a part, behind those that are there; a part with nothing gives none.
fn add_field(alloc: Global, fields: &mut List<Bytes>, part: &[Letter]) -> Result<(), WordFault>
    ensures { Adds fields.old fields.new part.now result }
{
    if part.is_empty() {
        return Ok(());
    }
    let text = field(alloc, part)?;
    fields.add(text)?;
    Ok(())
}

// The bytes of a part, or its fault: too long comes before an active glob byte.
fn field(alloc: Global, part: &[Letter]) -> Result<Bytes, WordFault>
    ensures { Gives result (field_value part.now) }
{
    let text = bytes(alloc, part)?;
    if has_glob(part) {
        return Err(WordFault::Glob);
    }
    Ok(text)
}

// The bytes of a part, at most 65,536.
fn bytes(alloc: Global, part: &[Letter]) -> Result<Bytes, WordFault>
    ensures { Gives result (short (bytes_of part.now)) }
{
    let mut text = Bytes::new(alloc);
    for letter in part {
        match letter {
            Letter::Quote => {}
            Letter::Quoted(b) | Letter::Plain(b) | Letter::Split(b) => {
                if text.len() == STRING_LIMIT {
                    return Err(WordFault::Long);
                }
                text.push(*b)?;
            }
        }
    }
    Ok(text)
}

// Whether a part has an active `*`, `?`, or `[` with a `]` behind it.
fn has_glob(part: &[Letter]) -> bool
    ensures { result ≡ has_glob part.now }
{
    let mut open = false;
    for letter in part {
        if is_unquoted(letter, b'*') || is_unquoted(letter, b'?') {
            return true;
        }
        if open && is_unquoted(letter, b']') {
            return true;
        }
        if is_unquoted(letter, b'[') {
            open = true;
        }
    }
    false
}

/// The string of a word that is not split: an assigned value, or the subject of a `case`.
/// Long where it would pass 65,536 bytes.
pub fn join(alloc: Global, pieces: &List<Piece>) -> Result<Bytes, WordFault>
    ensures { Gives result (short (joined pieces.now)) }
{
    let mut text = Bytes::new(alloc);
    for piece in pieces.as_slice() {
        if piece.text.len() > STRING_LIMIT - text.len() {
            return Err(WordFault::Long);
        }
        text.extend(piece.text.as_slice())?;
    }
    Ok(text)
}
