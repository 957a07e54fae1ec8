ghost use Rattle.std.specs.Prelude.{◌≡◌, ◌==◌, ◌≤◌, length, reverse, None, IfOk, if◌then◌else◌};
ghost use Rattle.script_places.specs.CommandEnds.{behind_arrow, closed, closes, command_length, ends_before, in_double};
ghost use Rattle.script_places.specs.CommandEnds.{in_gap, in_text, is_alone, is_arrow, is_arrow_place, is_between, is_blank};
ghost use Rattle.script_places.specs.CommandEnds.{is_end, is_gap, is_gap_escape, is_text, next_within, opened, opened_or_next};
ghost use Rattle.script_places.specs.CommandEnds.{scan_of, scanned};

use script_names::Memory;
use std::alloc::Global;

/// What a byte of a script stands in.
#[derive(Clone, Copy, Debug, PartialEq, Eq)]
pub enum Within {
    /// Where a word may begin.
    Gap,
    /// In a word, outside quotes.
    Word,
    /// Behind the arrow of a redirection.
    Arrow,
    /// Behind a backslash where a word may begin.
    GapEscape,
    /// Behind a backslash in a word.
    WordEscape,
    /// Behind a backslash behind an arrow.
    ArrowEscape,
    Comment,
    /// In single quotes.
    Single,
    /// In double quotes.
    Double,
    /// Behind a backslash in double quotes.
    DoubleEscape,
    /// Behind a `$` in a word.
    WordDollar,
    /// Behind a `$` in double quotes.
    DoubleDollar,
    /// In `${..}` in a word.
    WordBrace,
    /// In `${..}` in double quotes.
    DoubleBrace,
}

/// How many bytes the command has that a text begins with: up to the operator, the newline or the comment that ends it,
/// without the blanks before that; quotes, escapes, joined lines, expansions and substitutions are passed over
/// (POSIX.1-2017, XCU 2.2 Quoting, 2.3 Token Recognition).
#[tactic(auto, using(crate::proofs::CommandEnds::passes))]
pub fn command_length(alloc: Global, text: &[u8]) -> Result<usize, Memory>
    ensures value { IfOk result (λ size. size ≡ command_length text.now) }
    ensures most { IfOk result (λ size. size ≤ length text.now) }
{
    let mut around = Vec::new(alloc);
    let mut within = Within::Gap;
    let mut passed = 0usize;
    let mut size = 0usize;
    let mut left = text;
    while let [byte, rest @ ..] = left {
        if ends_before(within, is_alone(&around), *byte) {
            return Ok(size);
        }
        within = scan(&mut around, within, *byte)?;
        passed += 1;
        size = furthest(is_between(within, is_alone(&around)), size, passed);
        left = rest;
    }
    Ok(size)
}

// How far the command reaches: to what is passed now, unless that is a blank between words.
fn furthest(between: bool, size: usize, passed: usize) -> usize
    ensures { result ≡ (if between then size else passed) }
{
    if between { size } else { passed }
}

// Goes behind one more byte. `around` has for each parenthesis that is open where the text goes on behind it.
pub(crate) fn scan(around: &mut Vec<Within>, within: Within, byte: u8) -> Result<Within, Memory>
    ensures { IfOk result (λ next. scan_of next around.new.items ≡ scanned (scan_of within around.old.items) byte) }
{
    match opened(within, byte) {
        Some(back) => {
            around.push(back)?;
            Ok(Within::Gap)
        }
        None => Ok(closed_or_next(around, within, byte)),
    }
}

// Goes behind a byte that opens no parenthesis.
fn closed_or_next(around: &mut Vec<Within>, within: Within, byte: u8) -> Within
    ensures { scan_of result around.new.items ≡ opened_or_next None (scan_of within around.old.items) byte }
{
    if closes(within, byte) {
        return closed(around);
    }
    next_within(within, byte)
}

// Goes behind a closed parenthesis.
fn closed(around: &mut Vec<Within>) -> Within
    ensures { scan_of result around.new.items ≡ closed (reverse around.old.items) }
{
    match around.pop() {
        Some(within) => within,
        None => Within::Gap,
    }
}

// Whether no parenthesis is open.
fn is_alone(around: &Vec<Within>) -> bool
    ensures { result ≡ is_alone (reverse around.now.items) }
{
    around.is_empty()
}

// A blank.
pub(crate) fn is_blank(byte: u8) -> bool
    ensures { result ≡ is_blank byte }
{
    byte == b' ' || byte == b'\t'
}

// The byte of an operator that ends a command.
pub(crate) fn is_end(byte: u8) -> bool
    ensures { result ≡ is_end byte }
{
    byte == b';' || byte == b'|' || byte == b'\n' || byte == b')'
}

// The arrow of a redirection.
pub(crate) fn is_arrow(byte: u8) -> bool
    ensures { result ≡ is_arrow byte }
{
    byte == b'<' || byte == b'>'
}

// Behind a byte outside quotes.
fn in_text(byte: u8) -> Within
    ensures { result ≡ in_text byte }
{
    if is_blank(byte) || is_end(byte) || byte == b'&' || byte == b'(' {
        return Within::Gap;
    }
    if is_arrow(byte) {
        return Within::Arrow;
    }
    if byte == b'\'' {
        return Within::Single;
    }
    if byte == b'"' {
        return Within::Double;
    }
    if byte == b'$' {
        return Within::WordDollar;
    }
    if byte == b'\\' {
        return Within::WordEscape;
    }
    Within::Word
}

// Behind a byte that may begin a word.
fn in_gap(byte: u8) -> Within
    ensures { result ≡ in_gap byte }
{
    if byte == b'#' {
        return Within::Comment;
    }
    if byte == b'\\' {
        return Within::GapEscape;
    }
    in_text(byte)
}

// Behind a byte that follows an arrow.
fn behind_arrow(byte: u8) -> Within
    ensures { result ≡ behind_arrow byte }
{
    if byte == b'&' {
        return Within::Word;
    }
    if byte == b'\\' {
        return Within::ArrowEscape;
    }
    in_text(byte)
}

// Behind a byte in double quotes.
fn in_double(byte: u8) -> Within
    ensures { result ≡ in_double byte }
{
    if byte == b'"' {
        return Within::Word;
    }
    if byte == b'\\' {
        return Within::DoubleEscape;
    }
    if byte == b'$' {
        return Within::DoubleDollar;
    }
    Within::Double
}

// One of two, by whether the byte is this one.
fn either(byte: u8, this: u8, met: Within, other: Within) -> Within
    ensures { result ≡ (if byte == this then met else other) }
{
    if byte == this { met } else { other }
}

// Behind a byte that opens no parenthesis and closes none.
fn next_within(within: Within, byte: u8) -> Within
    ensures { result ≡ next_within within byte }
{
    match within {
        Within::Gap => in_gap(byte),
        Within::Word => in_text(byte),
        Within::Arrow => behind_arrow(byte),
        Within::GapEscape => either(byte, b'\n', Within::Gap, Within::Word),
        Within::WordEscape => Within::Word,
        Within::ArrowEscape => either(byte, b'\n', Within::Arrow, Within::Word),
        Within::Comment => either(byte, b'\n', Within::Gap, Within::Comment),
        Within::Single => either(byte, b'\'', Within::Word, Within::Single),
        Within::Double => in_double(byte),
        Within::DoubleEscape => Within::Double,
        Within::WordDollar => either(byte, b'{', Within::WordBrace, in_text(byte)),
        Within::DoubleDollar => either(byte, b'{', Within::DoubleBrace, in_double(byte)),
        Within::WordBrace => either(byte, b'}', Within::Word, Within::WordBrace),
        Within::DoubleBrace => either(byte, b'}', Within::Double, Within::DoubleBrace),
    }
}

// Where the text goes on behind a parenthesis, if the byte opens one.
pub(crate) fn opened(within: Within, byte: u8) -> Option<Within>
    ensures { result ≡ opened within byte }
{
    if byte != b'(' {
        return None;
    }
    match within {
        Within::Gap | Within::Word | Within::Arrow | Within::WordDollar => Some(Within::Word),
        Within::DoubleDollar => Some(Within::Double),
        Within::GapEscape | Within::WordEscape | Within::ArrowEscape | Within::Comment => None,
        Within::Single | Within::Double | Within::DoubleEscape => None,
        Within::WordBrace | Within::DoubleBrace => None,
    }
}

// Whether a byte here belongs to the text of commands.
pub(crate) fn is_text(within: Within) -> bool
    ensures { result ≡ is_text within }
{
    match within {
        Within::Gap | Within::Word | Within::Arrow | Within::WordDollar => true,
        Within::GapEscape | Within::WordEscape | Within::ArrowEscape | Within::Comment => false,
        Within::Single | Within::Double | Within::DoubleEscape | Within::DoubleDollar => false,
        Within::WordBrace | Within::DoubleBrace => false,
    }
}

// Whether the byte closes a parenthesis.
fn closes(within: Within, byte: u8) -> bool
    ensures { result ≡ closes within byte }
{
    is_text(within) && byte == b')'
}

// Whether the byte before is an arrow.
pub(crate) fn is_arrow_place(within: Within) -> bool
    ensures { result ≡ is_arrow_place within }
{
    match within {
        Within::Arrow => true,
        Within::Gap | Within::Word | Within::WordDollar | Within::Comment => false,
        Within::GapEscape | Within::WordEscape | Within::ArrowEscape => false,
        Within::Single | Within::Double | Within::DoubleEscape | Within::DoubleDollar => false,
        Within::WordBrace | Within::DoubleBrace => false,
    }
}

// Whether a word may begin here.
fn is_gap(within: Within) -> bool
    ensures { result ≡ is_gap within }
{
    match within {
        Within::Gap => true,
        Within::Arrow | Within::Word | Within::WordDollar | Within::Comment => false,
        Within::GapEscape | Within::WordEscape | Within::ArrowEscape => false,
        Within::Single | Within::Double | Within::DoubleEscape | Within::DoubleDollar => false,
        Within::WordBrace | Within::DoubleBrace => false,
    }
}

// Whether the command ends before the byte; `alone` says that no parenthesis is open.
fn ends_before(within: Within, alone: bool, byte: u8) -> bool
    ensures { result ≡ ends_before within alone byte }
{
    if !alone || !is_text(within) {
        return false;
    }
    is_end(byte) || byte == b'&' && !is_arrow_place(within) || byte == b'#' && is_gap(within)
}

// Whether what was last may be a blank before the end; `alone` says that no parenthesis is open.
fn is_between(within: Within, alone: bool) -> bool
    ensures { result ≡ is_between within alone }
{
    alone && (is_gap(within) || is_gap_escape(within))
}

// Whether a backslash stands here where a word may begin.
fn is_gap_escape(within: Within) -> bool
    ensures { result ≡ is_gap_escape within }
{
    match within {
        Within::GapEscape => true,
        Within::Gap | Within::Arrow | Within::Word | Within::WordDollar | Within::Comment => false,
        Within::WordEscape | Within::ArrowEscape => false,
        Within::Single | Within::Double | Within::DoubleEscape | Within::DoubleDollar => false,
        Within::WordBrace | Within::DoubleBrace => false,
    }
}
