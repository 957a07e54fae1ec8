//! The text that is shown for bytes.

ghost use Rattle.std.specs.Prelude.{◌≡◌, ◌++◌, OnOk, IfOk};
ghost use Rattle.html_texts.specs.Visible.{stands, stands_at, visible_byte, visible_from, visible};

use script_names::{Bytes, Memory};
use script_places::{passed_behind, shows};
use shown_texts::push_shown;
use std::alloc::Global;

// Whether the first character of a text stands as it is.
fn stands(text: &[u8]) -> bool
    ensures { result ≡ stands text.now }
{
    match text {
        [] => false,
        [byte, ..] => *byte == b'\t' || *byte == b'\n' || shows(text),
    }
}

// Whether the first byte stands as it is, of which so many first bytes are the rest of an earlier character.
fn stands_at(passed: usize, rest: bool, text: &[u8]) -> bool
    ensures { result ≡ stands_at passed rest text.now }
{
    if passed == 0 { stands(text) } else { rest }
}

// Adds a byte as it is, or spelled.
fn push_visible(text: &mut Bytes, as_it_is: bool, byte: u8) -> Result<(), Memory>
    ensures { OnOk result (text.new ≡ text.old ++ visible_byte as_it_is byte) }
{
    if as_it_is {
        return text.push(byte);
    }
    push_shown(text, &[byte])
}

/// The text that is shown for bytes: tabs, newlines and characters that a terminal shows as they are stand for themselves, and
/// each byte of every other character, or of no UTF-8, is `\x` and two lower hexadecimal digits.
pub fn visible(alloc: Global, bytes: &[u8]) -> Result<Bytes, Memory>
    ensures { IfOk result (λ text. text ≡ visible bytes.now) }
{
    let mut text = Bytes::new(alloc);
    let mut passed = 0usize;
    let mut as_it_is = true;
    let mut left = bytes;
    while let [byte, rest @ ..] = left {
        as_it_is = stands_at(passed, as_it_is, left);
        push_visible(&mut text, as_it_is, *byte)?;
        passed = passed_behind(passed, left);
        left = rest;
    }
    Ok(text)
}
