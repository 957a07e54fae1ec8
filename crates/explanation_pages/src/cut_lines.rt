//! The lines of a text.

ghost use Rattle.std.specs.Prelude.{◌≡◌, ◌≤◌, ◌<◌, ◌+◌, ◌-◌, ◌^◌, length, IfOk};
ghost use Rattle.explanation_pages.specs.CutLines.{all_lines, below, begun, cut_from, lines_of, with_byte};
ghost use Rattle.explanation_pages.specs.CutLines.{with_newline, with_other};

use script_names::{Bytes, List, Memory};
use std::alloc::Global;

/// A line of a text, without its newline: its number from 1, the byte of the text at which it begins, and what stands in
/// it.
#[derive(Drop)]
pub struct Line {
    pub number: usize,
    pub begin: usize,
    pub text: Bytes,
}

/// The lines of the first bytes of a text, and the line that is not at its end yet.
#[derive(Drop)]
pub struct Cut {
    pub done: List<Line>,
    pub last: Line,
}

// No line, and an empty first one.
fn begun(alloc: Global) -> Cut
    ensures { result ≡ begun }
{
    Cut {
        done: List::new(alloc),
        last: Line {
            number: 1,
            begin: 0,
            text: Bytes::new(alloc),
        },
    }
}

// The empty line below a line.
fn below(alloc: Global, line: &Line) -> Line
    requires few { line.now.number ≤ line.now.begin + 1 }
    requires short { line.now.begin + length line.now.text < 2 ^ 64 - 2 }
    ensures { result ≡ below line.now }
{
    Line {
        number: line.number + 1,
        begin: line.begin + line.text.len() + 1,
        text: Bytes::new(alloc),
    }
}

// The lines, a newline later.
fn with_newline(alloc: Global, cut: Cut) -> Result<Cut, Memory>
    requires few { cut.last.number ≤ cut.last.begin + 1 }
    requires short { cut.last.begin + length cut.last.text < 2 ^ 64 - 2 }
    ensures value { IfOk result (λ later. later ≡ with_newline cut) }
    ensures few { IfOk result (λ later. later.last.number ≤ later.last.begin + 1) }
    ensures longer { IfOk result (λ later. later.last.begin + length later.last.text
        ≡ cut.last.begin + length cut.last.text + 1) }
{
    let Cut { mut done, last } = cut;
    let next = below(alloc, &last);
    done.add(last)?;
    Ok(Cut { done, last: next })
}

// The lines, a byte later that is no newline.
fn with_other(cut: Cut, byte: u8) -> Result<Cut, Memory>
    ensures value { IfOk result (λ later. later ≡ with_other cut byte) }
    ensures longer { IfOk result (λ later. later.last.begin + length later.last.text
        ≡ cut.last.begin + length cut.last.text + 1) }
{
    let Cut { done, last } = cut;
    let Line {
        number,
        begin,
        mut text,
    } = last;
    text.push(byte)?;
    Ok(Cut {
        done,
        last: Line {
            number,
            begin,
            text,
        },
    })
}

// The lines, a byte later.
fn with_byte(alloc: Global, cut: Cut, byte: u8) -> Result<Cut, Memory>
    requires few { cut.last.number ≤ cut.last.begin + 1 }
    requires short { cut.last.begin + length cut.last.text < 2 ^ 64 - 2 }
    ensures value { IfOk result (λ later. later ≡ with_byte cut byte) }
    ensures few { IfOk result (λ later. later.last.number ≤ later.last.begin + 1) }
    ensures longer { IfOk result (λ later. later.last.begin + length later.last.text
        ≡ cut.last.begin + length cut.last.text + 1) }
{
    if byte == b'\n' {
        return with_newline(alloc, cut);
    }
    with_other(cut, byte)
}

// All lines: also the last, where it has bytes and no newline.
fn all_lines(cut: Cut) -> Result<List<Line>, Memory>
    ensures { IfOk result (λ lines. lines ≡ all_lines cut) }
{
    let Cut { mut done, last } = cut;
    if last.text.len() == 0 {
        return Ok(done);
    }
    done.add(last)?;
    Ok(done)
}

/// The lines of a text, of which the last may lack its newline.
pub fn lines_of(alloc: Global, text: &[u8]) -> Result<List<Line>, Memory>
    ensures { IfOk result (λ lines. lines ≡ lines_of text.now) }
{
    let mut cut = begun(alloc);
    let mut left = text;
    while let [byte, rest @ ..] = left {
        cut = with_byte(alloc, cut, *byte)?;
        left = rest;
    }
    all_lines(cut)
}
