//! A text of `explain` in a page, line by line.

ghost use Rattle.std.specs.Prelude.{◌≡◌, ◌++◌, ◌-◌, length, take, drop, OnOk};
ghost use Rattle.std.specs.List.{flat_map};
ghost use Rattle.explanation_pages.specs.ShownLines.{begins, is_told_above, line_class, line_html, marked_html, plain_html};
ghost use Rattle.explanation_pages.specs.ShownLines.{pre_html};

use crate::cut_lines::{Line, lines_of};
use crate::joined::{put_five, put_two};
use html_texts::push_html;
use script_names::{Bytes, Memory};
use std::alloc::Global;

// The first bytes of a text, as far as there are some.
fn front(text: &[u8], size: usize) -> &[u8]
    ensures { result.now ≡ take size text.now }
{
    if size < text.len() {
        &text[..size]
    } else {
        text
    }
}

// The bytes of a text behind the first ones.
fn behind(text: &[u8], size: usize) -> &[u8]
    ensures { result.now ≡ drop size text.now }
{
    if size < text.len() {
        &text[size..]
    } else {
        &[]
    }
}

// Whether a line begins with this sign of what a run makes of a place.
fn begins(sign: &[u8], line: &[u8]) -> bool
    ensures { result ≡ begins sign.now line.now }
{
    front(line, 6) == sign
}

// Whether the mark of a place that is told above stands at the end of a line.
fn is_told_above(line: &[u8]) -> bool
    ensures { result ≡ is_told_above line.now }
{
    behind(line, line.len().saturating_sub(14)) == b"<-- told above".as_slice()
}

// The class of a line, by the sign in it; no bytes, where it has none.
fn line_class(line: &[u8]) -> &'static [u8]
    ensures { result.now ≡ line_class line.now }
{
    if begins(b"    - ", line) {
        return b"taken";
    }
    if begins(b"    + ", line) {
        return b"made";
    }
    if begins(b"    ~ ", line) {
        return b"changed";
    }
    if is_told_above(line) {
        return b"decides";
    }
    b""
}

// Adds a line without a class.
#[tactic(auto, unfolding(crate::specs::ShownLines::plain_html))]
fn put_plain(alloc: Global, text: &mut Bytes, line: &Line) -> Result<(), Memory>
    ensures { OnOk result (text.new ≡ text.old ++ plain_html line.now) }
{
    let mut shown = Bytes::new(alloc);
    push_html(alloc, &mut shown, line.text.as_slice())?;
    put_two(text, shown.as_slice(), b"\n")
}

// Adds a line with one.
#[tactic(auto, unfolding(crate::specs::ShownLines::marked_html))]
fn put_marked(alloc: Global, text: &mut Bytes, class: &[u8], line: &Line) -> Result<(), Memory>
    ensures { OnOk result (text.new ≡ text.old ++ marked_html class.now line.now) }
{
    let mut shown = Bytes::new(alloc);
    push_html(alloc, &mut shown, line.text.as_slice())?;
    put_five(
        text,
        b"<span class=\"",
        class,
        b"\">",
        shown.as_slice(),
        b"</span>\n",
    )
}

// Adds a line.
fn put_line(alloc: Global, text: &mut Bytes, line: &Line) -> Result<(), Memory>
    ensures { OnOk result (text.new ≡ text.old ++ line_html line.now) }
{
    let class = line_class(line.text.as_slice());
    if class.len() == 0 {
        return put_plain(alloc, text, line);
    }
    put_marked(alloc, text, class, line)
}

// Adds lines.
fn put_lines(alloc: Global, text: &mut Bytes, lines: &[Line]) -> Result<(), Memory>
    ensures { OnOk result (text.new ≡ text.old ++ flat_map line_html lines.now) }
{
    for line in lines {
        put_line(alloc, text, line)?;
    }
    Ok(())
}

/// Adds a text, whose lines stay as they are.
#[tactic(auto, unfolding(crate::specs::ShownLines::pre_html))]
pub fn put_pre(alloc: Global, text: &mut Bytes, shown: &[u8]) -> Result<(), Memory>
    ensures { OnOk result (text.new ≡ text.old ++ pre_html shown.now) }
{
    let lines = lines_of(alloc, shown)?;
    text.extend(b"<pre>")?;
    put_lines(alloc, text, lines.as_slice())?;
    text.extend(b"</pre>\n")
}
