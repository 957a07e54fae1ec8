ghost use Rattle.std.specs.Prelude.{◌≡◌, ◌≤◌, ◌<◌, ◌+◌, length, drop, take};
ghost use Rattle.script_places.specs.Positions.{behind_newline, character_length, characters_within, first_line};
ghost use Rattle.script_places.specs.Positions.{line_at, line_count, line_length, newline_count, newlines};
ghost use Rattle.script_places.specs.Positions.{offset_behind, passed_behind, position_of, whole_here};

use bstr::decode_utf8;

/// Where a byte stands in a text: its line and its column, both from 1. A column counts characters: each well-formed
/// sequence of UTF-8, and each byte of none, is one (The Unicode Standard, table 3-7).
#[derive(Clone, Copy, Debug, PartialEq, Eq)]
pub struct Position {
    pub line: usize,
    pub column: usize,
}

/// Where the byte `at` stands in a text; the place behind its last byte, where it has no such one. A byte within a
/// character has the character's column.
pub fn position_of(text: &[u8], at: usize) -> Position
    ensures { result ≡ position_of text.now at }
{
    let front = front(text, at);
    let offset = behind_newline(front);
    let column = 1 + characters_within(&text[front.len() - offset..], offset);
    Position {
        line: 1 + newlines(front),
        column,
    }
}

/// How many lines a text has, of which the last may lack its newline.
pub fn line_count(text: &[u8]) -> usize
    ensures { result ≡ line_count text.now }
{
    if behind_newline(text) == 0 {
        newlines(text)
    } else {
        newlines(text) + 1
    }
}

// The first bytes of a text, as far as there are some.
pub(crate) fn front(text: &[u8], at: usize) -> &[u8]
    ensures value { result.now ≡ take at text.now }
    ensures short { length result.now ≤ length text.now }
{
    if at < text.len() { &text[..at] } else { text }
}

// The bytes of a text behind the first ones.
pub(crate) fn behind(text: &[u8], at: usize) -> &[u8]
    ensures { result.now ≡ drop at text.now }
{
    if at < text.len() { &text[at..] } else { &[] }
}

// How many bytes the first character has.
pub(crate) fn character_length(text: &[u8]) -> usize
    ensures { result ≡ character_length text.now }
{
    let (character, size) = decode_utf8(text);
    if character.is_some() { size } else { 1 }
}

// How many newlines a byte is.
fn newline_count(byte: u8) -> usize
    ensures value { result ≡ newline_count byte }
    ensures most { result ≤ 1 }
{
    if byte == b'\n' { 1 } else { 0 }
}

// How many newlines there are.
pub(crate) fn newlines(text: &[u8]) -> usize
    ensures value { result ≡ newlines text.now }
    ensures most { result ≤ length text.now }
{
    let mut count = 0usize;
    let mut left = text;
    while let [byte, rest @ ..] = left {
        count += newline_count(*byte);
        left = rest;
    }
    count
}

// How many bytes stand behind the last newline, a byte later.
fn offset_behind(offset: usize, byte: u8) -> usize
    requires { offset < 18446744073709551615 }
    ensures value { result ≡ offset_behind offset byte }
    ensures most { result ≤ offset + 1 }
{
    if byte == b'\n' { 0 } else { offset + 1 }
}

// How many bytes stand behind the last newline.
pub(crate) fn behind_newline(text: &[u8]) -> usize
    ensures value { result ≡ behind_newline 0 text.now }
    ensures most { result ≤ length text.now }
{
    let mut offset = 0usize;
    let mut left = text;
    while let [byte, rest @ ..] = left {
        offset = offset_behind(offset, *byte);
        left = rest;
    }
    offset
}

/// How many bytes are to be passed over behind the first one, where so many are from that one on: the rest of a
/// character.
pub fn passed_behind(passed: usize, text: &[u8]) -> usize
    ensures { result ≡ passed_behind passed text.now }
{
    if passed == 0 {
        character_length(text).saturating_sub(1)
    } else {
        passed - 1
    }
}

// How many characters begin here and end within the first bytes.
fn whole_here(passed: usize, bytes: usize, text: &[u8]) -> usize
    ensures value { result ≡ whole_here passed bytes text.now }
    ensures most { result ≤ 1 }
{
    if passed > 0 {
        return 0;
    }
    if character_length(text) <= bytes {
        1
    } else {
        0
    }
}

// How many characters end within the first bytes.
fn characters_within(text: &[u8], bytes: usize) -> usize
    ensures value { result ≡ characters_within 0 bytes text.now }
    ensures most { result ≤ length text.now }
{
    let mut count = 0usize;
    let mut passed = 0usize;
    let mut within = bytes;
    let mut left = text;
    while let [_, rest @ ..] = left {
        count += whole_here(passed, within, left);
        passed = passed_behind(passed, left);
        within = within.saturating_sub(1);
        left = rest;
    }
    count
}

// How many bytes stand before the first newline.
fn line_length(text: &[u8]) -> usize
    ensures value { result ≡ line_length text.now }
    ensures most { result ≤ length text.now }
{
    let mut size = 0usize;
    let mut left = text;
    while let [byte, rest @ ..] = left {
        if *byte == b'\n' {
            return size;
        }
        size += 1;
        left = rest;
    }
    size
}

// What stands before the first newline.
fn first_line(text: &[u8]) -> &[u8]
    ensures { result.now ≡ first_line text.now }
{
    &text[..line_length(text)]
}

// The line of the byte `at`, without its newline.
pub(crate) fn line_at(text: &[u8], at: usize) -> &[u8]
    ensures { result.now ≡ line_at text.now at }
{
    let front = front(text, at);
    let offset = behind_newline(front);
    first_line(&text[front.len() - offset..])
}
