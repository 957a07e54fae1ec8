//! Runs of bytes that count, and fixed bytes.

ghost use Rattle.std.specs.Prelude.{◌≡◌, ◌≤◌, length, drop, IfOk};
ghost use Rattle.shell_lexer.specs.Text as text;
ghost use Rattle.shell_lexer.specs.Seen.{rest_at, OnFrom};

use crate::byte_kind::RunKind;
use crate::bytes::{after, passes, skip};
use script_names::{Bytes, Memory};
use std::alloc::Global;

// The longest run of a kind from a place on, and the place behind it.
pub(crate) fn read_run(
    alloc: Global,
    bytes: &[u8],
    at: usize,
    which: RunKind,
) -> Result<(Bytes, usize), Memory>
    requires { at ≤ length bytes.now }
    ensures within { IfOk result (λ r. (at ≤ r.1) × (r.1 ≤ length bytes.now)) }
    ensures run { IfOk result (λ r. r.0 ≡ text.run which (drop at bytes.now)) }
    ensures behind { IfOk result (λ r. drop r.1 bytes.now ≡ text.behind which (drop at bytes.now)) }
{
    let mut out = Bytes::new(alloc);
    let mut place = at;
    'bytes: loop {
        let here = skip(bytes, place);
        if here >= bytes.len() {
            return Ok((out, place));
        }
        if !passes(which, bytes[here]) {
            return Ok((out, place));
        }
        out.push(bytes[here])?;
        place = here + 1;
    }
}

// The place behind the longest run of a kind.
pub(crate) fn run_end(bytes: &[u8], at: usize, which: RunKind) -> usize
    requires { at ≤ length bytes.now }
    ensures within { result ≤ length bytes.now }
    ensures on { at ≤ result }
    ensures behind { drop result bytes.now ≡ text.behind which (drop at bytes.now) }
{
    let mut place = at;
    'bytes: loop {
        let here = skip(bytes, place);
        if here >= bytes.len() {
            return place;
        }
        if !passes(which, bytes[here]) {
            return place;
        }
        place = here + 1;
    }
}

// The place behind these bytes, where they are the next that count.
pub(crate) fn after_all(bytes: &[u8], at: usize, wanted: &[u8]) -> Option<usize>
    requires { at ≤ length bytes.now }
    ensures behind { rest_at bytes.now result ≡ text.behind_bytes wanted.now (drop at bytes.now) }
    ensures on { OnFrom at (length bytes.now) result }
{
    match wanted {
        [] => Some(at),
        [byte, more @ ..] => match after(bytes, at, *byte) {
            Some(next) => after_all(bytes, next, more),
            None => None,
        },
    }
}
