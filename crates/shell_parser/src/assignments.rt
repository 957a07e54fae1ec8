//! A word NAME=.., cut at its first `=`.

ghost use Rattle.std.specs.Prelude.{◌≡◌, IfOk};
ghost use Rattle.shell_grammar.specs.Look.{up_to_equals as up_to_equals_of};
ghost use Rattle.shell_grammar.specs.Trees.{behind_equals as behind_equals_of, plain_part_of, rest_of as the_rest_of};
ghost use Rattle.shell_parser.specs.Reads.{raw_text as raw_text_of};

use script_names::{Bytes, List, Memory};
use shell_lexer::RawPart;
use shell_syntax::Part;
use std::alloc::Global;

/// The text of the first part, where that is plain.
pub fn raw_text(raws: &[RawPart]) -> &[u8]
    ensures { result.now ≡ raw_text_of raws.now }
{
    match raws.get(0) {
        Some(RawPart::Plain(text)) => text.as_slice(),
        _ => b"".as_slice(),
    }
}

/// The parts behind the first.
pub fn rest_of(raws: &[RawPart]) -> &[RawPart]
    ensures { result.now ≡ the_rest_of raws.now }
{
    if raws.len() == 0 {
        return raws;
    }
    &raws[1..]
}

/// The bytes up to the first `=`.
pub fn up_to_equals(text: &[u8]) -> &[u8]
    ensures { result.now ≡ up_to_equals_of text.now }
{
    let mut i = 0;
    while i < text.len() {
        if text[i] == b'=' {
            return &text[..i];
        }
        i += 1;
    }
    text
}

/// The bytes behind the first `=`.
pub fn behind_equals(text: &[u8]) -> &[u8]
    ensures { result.now ≡ behind_equals_of text.now }
{
    let mut i = 0;
    while i < text.len() {
        if text[i] == b'=' {
            return &text[i + 1..];
        }
        i += 1;
    }
    b"".as_slice()
}

/// A plain part, if it has a byte, in a list with room for so many parts.
pub fn plain_part(alloc: Global, text: &[u8], room: usize) -> Result<List<Part>, Memory>
    ensures { IfOk result (λ parts. parts ≡ plain_part_of text.now) }
{
    let mut parts = List::with_room(alloc, room)?;
    if text.len() == 0 {
        return Ok(parts);
    }
    let bytes = Bytes::from_slice(alloc, text)?;
    parts.add(Part::Plain(bytes))?;
    Ok(parts)
}
