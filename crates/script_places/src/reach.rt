ghost use Rattle.std.specs.Prelude.{◌≡◌, ◌≤◌, ◌++◌, ◌∷◌, length, Some, IfOk};
ghost use Rattle.script_places.specs.Unreached.{begins, command_at, end_of, goes_down, has_done, has_parens};
ghost use Rattle.script_places.specs.Unreached.{is_closed, is_joined, joined, lines_below, lower_end, lowest_end, unreached};

use crate::command_ends::{command_length, is_blank};
use crate::positions::{behind, front, line_count, newlines};
use script_names::{Bytes, Memory};
use std::alloc::Global;

/// How a call of a script ended in a run: the run went on behind it, or it ended there, at the command that begins at
/// this byte.
#[derive(Clone, Copy, Debug, PartialEq, Eq)]
pub enum CallLeft {
    Through,
    EndedAt(u32),
}

/// The lines of a script from one to another, counted from 1.
#[derive(Clone, Copy, Debug, PartialEq, Eq)]
pub struct Lines {
    pub first: usize,
    pub last: usize,
}

/// The last lines of a script that no run of a scenario reaches, by how each call of it ended in each run. None where
/// none is known to be so: where there is no call, one went through or ended at a `case`, or the script may have a loop
/// or a function.
pub fn unreached(alloc: Global, script: &[u8], calls: &[CallLeft]) -> Result<Option<Lines>, Memory>
    ensures { IfOk result (λ lines. lines ≡ unreached script.now calls.now) }
{
    if calls.is_empty() {
        return Ok(None);
    }
    if !goes_down(alloc, script)? {
        return Ok(None);
    }
    let end = lowest_end(alloc, script, calls)?;
    Ok(lines_below(script, end))
}

// The lines below a byte.
fn lines_below(script: &[u8], end: Option<usize>) -> Option<Lines>
    ensures { result ≡ lines_below script.now end }
{
    let end = match end {
        Some(end) => end,
        None => return None,
    };
    let above = newlines(front(script, end));
    let last = line_count(script);
    if last < 2 || above > last - 2 {
        return None;
    }
    Some(Lines {
        first: above + 2,
        last,
    })
}

// The end of the lowest command at which calls ended.
fn lowest_end(alloc: Global, script: &[u8], calls: &[CallLeft]) -> Result<Option<usize>, Memory>
    ensures { IfOk result (λ end. end ≡ lowest_end script.now (Some 0) calls.now) }
{
    let mut low = Some(0usize);
    let mut left = calls;
    while let [call, rest @ ..] = left {
        low = lower_end(end_of(alloc, script, *call)?, low);
        left = rest;
    }
    Ok(low)
}

// The last of two ends, where there are two.
fn lower_end(end: Option<usize>, low: Option<usize>) -> Option<usize>
    ensures { result ≡ lower_end end low }
{
    match (end, low) {
        (Some(end), Some(low)) => Some(low.max(end)),
        (Some(_), None) => None,
        (None, _) => None,
    }
}

// Where the command ends at which a call ended.
fn end_of(alloc: Global, script: &[u8], call: CallLeft) -> Result<Option<usize>, Memory>
    ensures { IfOk result (λ end. end ≡ end_of script.now call) }
{
    let at = match call {
        CallLeft::Through => return Ok(None),
        CallLeft::EndedAt(at) => at as usize,
    };
    let command = command_at(alloc, script, at)?;
    let joined = joined(alloc, command)?;
    if begins(b"case", joined.as_slice()) {
        return Ok(None);
    }
    Ok(Some(at + command.len()))
}

// The command that begins at a byte.
fn command_at(alloc: Global, script: &[u8], at: usize) -> Result<&[u8], Memory>
    ensures { IfOk result (λ command. command.now ≡ command_at script.now at) }
{
    let text = behind(script, at);
    let size = command_length(alloc, text)?;
    Ok(front(text, size))
}

// Whether a script surely has no loop and no function.
fn goes_down(alloc: Global, script: &[u8]) -> Result<bool, Memory>
    ensures { IfOk result (λ down. down ≡ goes_down script.now) }
{
    let joined = joined(alloc, script)?;
    Ok(!has_done(joined.as_slice()) && !has_parens(joined.as_slice()))
}

/// A text without its joined lines.
pub fn joined(alloc: Global, text: &[u8]) -> Result<Bytes, Memory>
    ensures { IfOk result (λ bytes. bytes ≡ joined text.now) }
{
    let mut bytes = Bytes::new(alloc);
    let mut left = text;
    while let [byte, rest @ ..] = left {
        left = push_joined(&mut bytes, *byte, rest)?;
    }
    Ok(bytes)
}

// Adds a byte, unless a joined line stands there; answers what is left behind it.
fn push_joined<'a>(bytes: &mut Bytes, byte: u8, rest: &'a [u8]) -> Result<&'a [u8], Memory>
    ensures same { IfOk result (λ left. bytes.new ++ joined left.now ≡ bytes.old ++ joined (byte ∷ rest.now)) }
    ensures less { IfOk result (λ left. length left.now ≤ length rest.now) }
{
    if is_joined(byte, rest) {
        return Ok(behind(rest, 1));
    }
    bytes.push(byte)?;
    Ok(rest)
}

// Whether a joined line stands at a byte with this behind it.
fn is_joined(byte: u8, rest: &[u8]) -> bool
    ensures { result ≡ is_joined byte rest.now }
{
    match rest {
        [] => false,
        [next, ..] => byte == b'\\' && *next == b'\n',
    }
}

// Whether a text begins with these four bytes.
fn begins(word: &[u8], text: &[u8]) -> bool
    ensures { result ≡ begins word.now text.now }
{
    front(text, 4) == word
}

// Whether the word stands somewhere that ends each loop.
fn has_done(text: &[u8]) -> bool
    ensures { result ≡ has_done text.now }
{
    let mut left = text;
    while let [_, rest @ ..] = left {
        if begins(b"done", left) {
            return true;
        }
        left = rest;
    }
    false
}

// Whether a pair of parentheses with nothing in it stands somewhere.
fn has_parens(text: &[u8]) -> bool
    ensures { result ≡ has_parens text.now }
{
    let mut left = text;
    while let [byte, rest @ ..] = left {
        if *byte == b'(' && is_closed(rest) {
            return true;
        }
        left = rest;
    }
    false
}

// Whether a parenthesis is closed here, perhaps behind blanks.
fn is_closed(text: &[u8]) -> bool
    ensures { result ≡ is_closed text.now }
{
    let mut left = text;
    while let [byte, rest @ ..] = left {
        if *byte == b')' {
            return true;
        }
        if !is_blank(*byte) {
            return false;
        }
        left = rest;
    }
    false
}
