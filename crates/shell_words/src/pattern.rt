ghost use Rattle.std.specs.Prelude.{◌≡◌, ◌+◌, ◌<◌, ◌≤◌, ◌∷◌, None, false, length, drop, IfOk, IfSome};
ghost use Rattle.std.specs.List.{list_any};
ghost use Rattle.shell_words.specs.Patterns.{Decides, pattern_letters, code, items, item_at, allows, negation_size};
ghost use Rattle.shell_words.specs.Patterns.{closes_at, begins_with, set_size, set_of, ranges, is_within};
ghost use Rattle.shell_words.specs.Patterns.{has_pair, is_split_backslash, is_falling, is_left_out_item};

use crate::fault::WordFault;
use crate::letter::{Letter, is_unquoted, pattern_letters};
use crate::piece::Piece;
use crate::run::run;
use script_names::{List, Memory};
use std::alloc::Global;

/// An item of a pattern: a byte, `?`, `*`, or a set with its letters, negated or not.
#[derive(Drop)]
pub enum Item {
    Byte(u8),
    Any,
    Star,
    Set(bool, List<Letter>),
}

/// Whether a pattern matches a string (POSIX.1-2017, XCU 2.13). Pattern where the pattern has a shape that is left
/// out.
pub fn matches(alloc: Global, pattern: &List<Piece>, subject: &[u8]) -> Result<bool, WordFault>
    ensures { Decides result (pattern_letters pattern.now) subject.now }
{
    let letters = pattern_letters(alloc, pattern.as_slice())?;
    let letters = letters.as_slice();
    if has_pair(letters, b'[', b'^') || has_split_backslash(letters) {
        return Err(WordFault::Pattern);
    }
    let items = items(alloc, letters)?;
    if has_left_out(items.as_slice()) {
        return Err(WordFault::Pattern);
    }
    Ok(run(items.as_slice(), subject))
}

// The items of a pattern. Behind the last unquoted `]` no set is looked for, so that each letter is read a few times
// at most.
fn items(alloc: Global, letters: &[Letter]) -> Result<List<Item>, Memory>
    ensures { IfOk result (λ found. found ≡ items letters.now) }
{
    let last = after_last_close(letters);
    let mut out = List::new(alloc);
    let mut at = 0;
    while at < letters.len() {
        let next = at + 1;
        let (item, taken) = item_at(alloc, &letters[at], &letters[next..], next < last)?;
        out.add(item)?;
        at = next + taken;
    }
    Ok(out)
}

// The item that a letter begins, and how many of the letters behind it the item takes.
fn item_at(
    alloc: Global,
    letter: &Letter,
    rest: &[Letter],
    closes: bool,
) -> Result<(Item, usize), Memory>
    requires { closes ≡ false → closes_at rest.now ≡ None }
    ensures item { IfOk result (λ found. found ≡ item_at letter.now rest.now) }
    ensures within { IfOk result (λ found. found.1 ≤ length rest.now) }
{
    if is_unquoted(letter, b'*') {
        Ok((Item::Star, 0))
    } else if is_unquoted(letter, b'?') {
        Ok((Item::Any, 0))
    } else if is_unquoted(letter, b'[') {
        if closes {
            set_of(alloc, rest)
        } else {
            Ok((Item::Byte(b'['), 0))
        }
    } else {
        Ok((Item::Byte(code(letter)), 0))
    }
}

// The set behind a `[`, and how many letters it takes; or the `[` itself, where no `]` closes it.
fn set_of(alloc: Global, rest: &[Letter]) -> Result<(Item, usize), Memory>
    ensures item { IfOk result (λ found. found ≡ set_of rest.now (set_size (drop (negation_size rest.now) rest.now))) }
    ensures within { IfOk result (λ found. found.1 ≤ length rest.now) }
{
    let negated = begins_with(rest, b'!');
    let begin = if negated { 1 } else { 0 };
    let inside = &rest[begin..];
    match set_size(inside) {
        None => Ok((Item::Byte(b'['), 0)),
        Some(size) => {
            let letters = copied(alloc, &inside[..size])?;
            Ok((Item::Set(negated, letters), begin + size + 1))
        }
    }
}

// How many letters a set has: at least one, and then all before the next unquoted `]`.
fn set_size(inside: &[Letter]) -> Option<usize>
    ensures value { result ≡ set_size inside.now }
    ensures within { IfSome result (λ size. size < length inside.now) }
{
    if inside.is_empty() {
        return None;
    }
    match closes_at(&inside[1..]) {
        None => None,
        Some(at) => Some(at + 1),
    }
}

// Where the first unquoted `]` stands.
fn closes_at(rest: &[Letter]) -> Option<usize>
    ensures value { result ≡ closes_at rest.now }
    ensures within { IfSome result (λ at. at < length rest.now) }
{
    for (at, letter) in rest.iter().enumerate() {
        if is_unquoted(letter, b']') {
            return Some(at);
        }
    }
    None
}

// A place behind which no unquoted `]` stands.
fn after_last_close(letters: &[Letter]) -> usize
    ensures { closes_at (drop result letters.now) ≡ None }
{
    let mut last = letters.len();
    while last > 0 {
        let before = last - 1;
        if is_unquoted(&letters[before], b']') {
            return last;
        }
        last = before;
    }
    0
}

// Whether an unquoted byte comes first.
fn begins_with(rest: &[Letter], byte: u8) -> bool
    ensures { result ≡ begins_with byte rest.now }
{
    match rest {
        [] => false,
        [first, ..] => is_unquoted(first, byte),
    }
}

// The letters, copied.
fn copied(alloc: Global, letters: &[Letter]) -> Result<List<Letter>, Memory>
    ensures { IfOk result (λ twins. twins ≡ letters.now) }
{
    let mut twins = List::new(alloc);
    for letter in letters {
        twins.add(*letter)?;
    }
    Ok(twins)
}

// The byte of a letter.
fn code(letter: &Letter) -> u8
    ensures { result ≡ code letter.now }
{
    match letter {
        Letter::Quote => 0,
        Letter::Quoted(b) | Letter::Plain(b) | Letter::Split(b) => *b,
    }
}

// Whether two unquoted bytes stand side by side somewhere.
fn has_pair(letters: &[Letter], first: u8, second: u8) -> bool
    ensures { result ≡ has_pair first second letters.now }
{
    let mut before = false;
    for letter in letters {
        if before && is_unquoted(letter, second) {
            return true;
        }
        before = is_unquoted(letter, first);
    }
    false
}

// Whether an expansion gave a `\`.
fn has_split_backslash(letters: &[Letter]) -> bool
    ensures { result ≡ list_any is_split_backslash letters.now }
{
    letters.iter().any(|letter| is_split_backslash(letter))
}

fn is_split_backslash(letter: &Letter) -> bool
    ensures { result ≡ is_split_backslash letter.now }
{
    match letter {
        Letter::Quote | Letter::Quoted(_) | Letter::Plain(_) => false,
        Letter::Split(b) => *b == b'\\',
    }
}

// Whether some set is left out.
fn has_left_out(items: &[Item]) -> bool
    ensures { result ≡ list_any is_left_out_item items.now }
{
    items.iter().any(|item| is_left_out_item(item))
}

fn is_left_out_item(item: &Item) -> bool
    ensures { result ≡ is_left_out_item item.now }
{
    match item {
        Item::Byte(_) | Item::Any | Item::Star => false,
        Item::Set(_, letters) => {
            let letters = letters.as_slice();
            has_pair(letters, b'[', b':')
                || has_pair(letters, b'[', b'.')
                || has_pair(letters, b'[', b'=')
                || has_falling(letters)
        }
    }
}

// The range that a set's letters spell at a place, and where the next one begins.
fn range_at(letters: &[Letter], at: usize) -> (u8, u8, usize)
    requires { at < length letters.now }
    ensures read { ranges (drop at letters.now) ≡ (result.0, result.1) ∷ ranges (drop result.2 letters.now) }
    ensures on { at < result.2 }
    ensures within { result.2 ≤ length letters.now }
{
    let low = code(&letters[at]);
    let left = letters.len() - at;
    if left > 2 && is_unquoted(&letters[at + 1], b'-') {
        (low, code(&letters[at + 2]), at + 3)
    } else {
        (low, low, at + 1)
    }
}

// Whether some range ends before it begins.
fn has_falling(letters: &[Letter]) -> bool
    ensures { result ≡ list_any is_falling (ranges letters.now) }
{
    let mut at = 0;
    while at < letters.len() {
        let (low, high, next) = range_at(letters, at);
        if high < low {
            return true;
        }
        at = next;
    }
    false
}

// Whether some range has the byte.
fn has_byte(letters: &[Letter], byte: u8) -> bool
    ensures { result ≡ list_any (is_within byte) (ranges letters.now) }
{
    let mut at = 0;
    while at < letters.len() {
        let (low, high, next) = range_at(letters, at);
        if low <= byte && byte <= high {
            return true;
        }
        at = next;
    }
    false
}

// Whether an item stands for a byte.
pub fn allows(item: &Item, byte: u8) -> bool
    ensures { result ≡ allows item.now byte }
{
    match item {
        Item::Byte(c) => *c == byte,
        Item::Any => true,
        Item::Star => false,
        Item::Set(negated, letters) => {
            if *negated {
                !has_byte(letters.as_slice(), byte)
            } else {
                has_byte(letters.as_slice(), byte)
            }
        }
    }
}
