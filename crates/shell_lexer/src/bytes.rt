//! Kinds of bytes, and joined lines.

ghost use Rattle.std.specs.Prelude.{◌≡◌, ◌≤◌, length, drop};
ghost use Rattle.script_names.specs.ShellNames as names;
ghost use Rattle.shell_lexer.specs.Seen.{IsBehind};
ghost use Rattle.shell_lexer.specs.Text as text;

use crate::byte_kind::{ByteKind, OPENING_BRACE, RunKind};

// A space or a tab.
pub(crate) fn is_blank(byte: u8) -> bool
    ensures { result ≡ text.is_blank byte }
{
    byte == b' ' || byte == b'\t'
}

fn is_digit(byte: u8) -> bool
    ensures { result ≡ names.is_digit byte }
{
    b'0' <= byte && byte <= b'9'
}

fn is_letter(byte: u8) -> bool
    ensures { result ≡ names.is_letter byte }
{
    (b'a' <= byte && byte <= b'z') || (b'A' <= byte && byte <= b'Z') || byte == b'_'
}

fn is_special(byte: u8) -> bool
    ensures { result ≡ text.is_special byte }
{
    byte == b'*' || byte == b'?' || byte == b'!' || byte == b'-'
}

fn is_default_byte(byte: u8) -> bool
    ensures { result ≡ text.is_default_byte byte }
{
    !(byte == b'\n'
        || byte == b'\''
        || byte == b'"'
        || byte == b'\\'
        || byte == b'`'
        || byte == b'$'
        || byte == b'{'
        || byte == b'}'
        || byte == b'~')
}

// Whether a run has the byte.
pub(crate) fn passes(which: RunKind, byte: u8) -> bool
    ensures { result ≡ text.passes which byte }
{
    match which {
        RunKind::Blanks => is_blank(byte),
        RunKind::Digits => is_digit(byte),
        RunKind::Names => is_letter(byte) || is_digit(byte),
        RunKind::Defaults => is_default_byte(byte),
    }
}

// What the byte is.
pub(crate) fn kind_of(byte: u8) -> ByteKind
    ensures { result ≡ text.kind byte }
{
    if is_blank(byte) {
        ByteKind::Blank
    } else if byte == b'\n' {
        ByteKind::Newline
    } else if byte == b';' {
        ByteKind::Semi
    } else if byte == b'&' {
        ByteKind::Amp
    } else if byte == b'|' {
        ByteKind::Bar
    } else if byte == b'(' {
        ByteKind::Open
    } else if byte == b')' {
        ByteKind::Close
    } else if byte == b'<' {
        ByteKind::Less
    } else if byte == b'>' {
        ByteKind::Greater
    } else if byte == b'#' {
        ByteKind::Hash
    } else {
        word_kind_of(byte)
    }
}

// What a byte is that begins no blank, operator or comment.
fn word_kind_of(byte: u8) -> ByteKind
    ensures { result ≡ text.word_kind byte }
{
    if byte == b'\'' {
        ByteKind::Single
    } else if byte == b'"' {
        ByteKind::Double
    } else if byte == b'\\' {
        ByteKind::Back
    } else if byte == b'`' {
        ByteKind::Tick
    } else if byte == b'$' {
        ByteKind::Dollar
    } else if byte == OPENING_BRACE {
        ByteKind::Brace
    } else if byte == b'@' {
        ByteKind::At
    } else if is_special(byte) {
        ByteKind::Special
    } else if is_digit(byte) {
        ByteKind::Digit
    } else if is_letter(byte) {
        ByteKind::Name
    } else {
        ByteKind::Other
    }
}

// The place of the next byte that counts: joined lines are passed over.
pub(crate) fn skip(bytes: &[u8], at: usize) -> usize
    requires { at ≤ length bytes.now }
    ensures within { result ≤ length bytes.now }
    ensures on { at ≤ result }
    ensures skips { drop result bytes.now ≡ text.skip (drop at bytes.now) }
{
    let mut place = at;
    while place + 1 < bytes.len() {
        if bytes[place] == b'\\' && bytes[place + 1] == b'\n' {
            place += 2;
        } else {
            return place;
        }
    }
    place
}

// The place behind the byte, where it is the next that counts.
pub(crate) fn after(bytes: &[u8], at: usize, byte: u8) -> Option<usize>
    requires { at ≤ length bytes.now }
    ensures { IsBehind bytes.now at byte result }
{
    let here = skip(bytes, at);
    if here < bytes.len() && bytes[here] == byte {
        Some(here + 1)
    } else {
        None
    }
}

// Whether a word ends at the place: at the text's end, a blank or an operator.
pub(crate) fn ends_word(bytes: &[u8], at: usize) -> bool
    requires { at ≤ length bytes.now }
    ensures { result ≡ text.ends_word (text.skip (drop at bytes.now)) }
{
    let here = skip(bytes, at);
    if here < bytes.len() {
        is_word_end(kind_of(bytes[here]))
    } else {
        true
    }
}

fn is_word_end(kind: ByteKind) -> bool
    ensures { result ≡ text.is_word_end kind }
{
    match kind {
        ByteKind::Blank => true,
        ByteKind::Newline => true,
        ByteKind::Semi => true,
        ByteKind::Amp => true,
        ByteKind::Bar => true,
        ByteKind::Open => true,
        ByteKind::Close => true,
        ByteKind::Less => true,
        ByteKind::Greater => true,
        _ => false,
    }
}
