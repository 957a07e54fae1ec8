//! What stands in a word, and in double quotes.

ghost use Rattle.std.specs.Prelude.{◌≡◌, ◌≤◌, ◌<◌, ◌+◌, ◌-◌, ◌^◌, ℕ, length, drop, take, IfOk, MatchOption, true};
ghost use Rattle.std.specs.Prelude.{false, None, slice_index_or};
ghost use Rattle.shell_lexer.specs.declared.byte_kind.ByteKind.TheVariants as kinds;
ghost use Rattle.shell_syntax.specs.declared.form.Form.TheVariants as form;
ghost use Rattle.shell_lexer.specs.declared.fault.LexFault.TheVariants.{Unsupported};
ghost use Rattle.shell_lexer.specs.declared.sight.Look.TheVariants as shown;
ghost use Rattle.shell_lexer.specs.Text as bytes;
ghost use Rattle.shell_lexer.specs.Parts as table;
ghost use Rattle.shell_lexer.specs.Seen.{seen_look, Shows, FurtherLook, IsQuoteEnd};

use crate::byte_kind::{ByteKind, RunKind};
use crate::bytes::{after, kind_of, skip};
use crate::fault::LexFault;
use crate::runs::read_run;
use crate::sight::Look;
use crate::token::RawPart;
use script_names::{Bytes, Memory};
use shell_syntax::{Form, Key};
use std::alloc::Global;

// A form that is not supported.
fn unsupported(form: Form, at: usize) -> Look
    requires { at < 2 ^ 32 }
    ensures { result ≡ shown.Bad (Unsupported form at) }
{
    Look::Bad(LexFault::Unsupported {
        form,
        at: at as u32,
    })
}

// `${`, a key, perhaps a default, and `}`: the `$` stands at dollar.
fn closed(
    text: &[u8],
    dollar: usize,
    quoted: bool,
    key: Key,
    default: Option<Bytes>,
    at: usize,
) -> Look
    requires small { length text.now < 2 ^ 32 }
    requires on { dollar < at }
    requires within { at ≤ length text.now }
    ensures gives { seen_look text.now result ≡ table.closed quoted dollar key default (bytes.skip (drop at text.now)) }
    ensures further { FurtherLook dollar (length text.now) result }
{
    let here = skip(text, at);
    if here >= text.len() {
        return Look::Bad(LexFault::OpenSubstitution { at: dollar as u32 });
    }
    if text[here] != b'}' {
        return unsupported(Form::Param, dollar);
    }
    let part = RawPart::Param {
        key,
        default,
        quoted,
    };
    Look::Piece(part, here + 1)
}

// Behind `${`, a key and `:`.
fn behind_colon(
    alloc: Global,
    text: &[u8],
    dollar: usize,
    quoted: bool,
    key: Key,
    at: usize,
) -> Result<Look, Memory>
    requires small { length text.now < 2 ^ 32 }
    requires on { dollar < at }
    requires within { at ≤ length text.now }
    ensures gives { Shows text.now (table.behind_colon quoted dollar key (bytes.skip (drop at text.now))) result }
    ensures further { IfOk result (FurtherLook dollar (length text.now)) }
{
    let here = skip(text, at);
    if here >= text.len() {
        return Ok(Look::Bad(LexFault::OpenSubstitution { at: dollar as u32 }));
    }
    if text[here] != b'-' {
        return Ok(unsupported(Form::Param, dollar));
    }
    let (default, end) = read_run(alloc, text, here + 1, RunKind::Defaults)?;
    Ok(closed(text, dollar, quoted, key, Some(default), end))
}

// Behind `${` and a name or a number.
fn behind_key(
    alloc: Global,
    text: &[u8],
    dollar: usize,
    quoted: bool,
    key: Key,
    at: usize,
) -> Result<Look, Memory>
    requires small { length text.now < 2 ^ 32 }
    requires on { dollar < at }
    requires within { at ≤ length text.now }
    ensures gives { Shows text.now (table.behind_key quoted dollar key (bytes.skip (drop at text.now))) result }
    ensures further { IfOk result (FurtherLook dollar (length text.now)) }
{
    match after(text, at, b':') {
        Some(next) => behind_colon(alloc, text, dollar, quoted, key, next),
        None => Ok(closed(text, dollar, quoted, key, None, at)),
    }
}

// Behind `${`.
fn braced(
    alloc: Global,
    text: &[u8],
    dollar: usize,
    quoted: bool,
    at: usize,
) -> Result<Look, Memory>
    requires small { length text.now < 2 ^ 32 }
    requires on { dollar < at }
    requires within { at ≤ length text.now }
    ensures gives { Shows text.now (table.braced quoted dollar (bytes.skip (drop at text.now))) result }
    ensures further { IfOk result (FurtherLook dollar (length text.now)) }
{
    let here = skip(text, at);
    if here >= text.len() {
        return Ok(Look::Bad(LexFault::OpenSubstitution { at: dollar as u32 }));
    }
    match kind_of(text[here]) {
        ByteKind::Name => {
            let (name, end) = read_run(alloc, text, here, RunKind::Names)?;
            behind_key(alloc, text, dollar, quoted, Key::Named(name), end)
        }
        ByteKind::Digit => {
            if text[here] == b'0' {
                return Ok(unsupported(Form::Param, dollar));
            }
            let key = Key::Arg(text[here] - b'0');
            behind_key(alloc, text, dollar, quoted, key, here + 1)
        }
        ByteKind::Hash => Ok(closed(text, dollar, quoted, Key::Count, None, here + 1)),
        _ => Ok(unsupported(Form::Param, dollar)),
    }
}

// `$1` to `$9`.
fn number_part(text: &[u8], dollar: usize, quoted: bool, here: usize) -> Look
    requires small { length text.now < 2 ^ 32 }
    requires on { dollar < here }
    requires within { here < length text.now }
    requires digit { kinds.Digit ≡ bytes.kind (slice_index_or text.now here 0) }
    ensures gives { let digit = slice_index_or text.now here 0 in
        seen_look text.now result ≡ table.number_part quoted dollar digit (drop (here + 1) text.now) }
    ensures further { FurtherLook dollar (length text.now) result }
{
    if text[here] == b'0' {
        return unsupported(Form::Param, dollar);
    }
    let part = RawPart::Param {
        key: Key::Arg(text[here] - b'0'),
        default: None,
        quoted,
    };
    Look::Piece(part, here + 1)
}

// `$` and a name.
fn named_part(
    alloc: Global,
    text: &[u8],
    dollar: usize,
    quoted: bool,
    here: usize,
) -> Result<Look, Memory>
    requires on { dollar < here }
    requires within { here < length text.now }
    ensures gives { Shows text.now (table.named_part quoted (drop here text.now)) result }
    ensures further { IfOk result (FurtherLook dollar (length text.now)) }
{
    let (name, end) = read_run(alloc, text, here, RunKind::Names)?;
    let part = RawPart::Param {
        key: Key::Named(name),
        default: None,
        quoted,
    };
    Ok(Look::Piece(part, end))
}

// `$(`, unless another parenthesis follows.
fn parenthesis(text: &[u8], dollar: usize, at: usize) -> Look
    requires small { length text.now < 2 ^ 32 }
    requires on { dollar < at }
    requires within { at ≤ length text.now }
    ensures gives { seen_look text.now result ≡ table.parenthesis dollar (drop at text.now) }
    ensures further { FurtherLook dollar (length text.now) result }
{
    match after(text, at, b'(') {
        Some(_) => unsupported(Form::Arith, dollar),
        None => Look::Substitution(at),
    }
}

// `$` before a quote.
fn before_quote(text: &[u8], dollar: usize, quoted: bool) -> Look
    requires small { length text.now < 2 ^ 32 }
    requires within { dollar < length text.now }
    ensures gives { seen_look text.now result ≡ table.before_quote quoted dollar (drop (dollar + 1) text.now) }
    ensures further { FurtherLook dollar (length text.now) result }
{
    if quoted {
        Look::Byte(b'$', dollar + 1)
    } else {
        unsupported(Form::Param, dollar)
    }
}

// `$`, by the next byte that counts.
fn dollar_part(alloc: Global, text: &[u8], dollar: usize, quoted: bool) -> Result<Look, Memory>
    requires small { length text.now < 2 ^ 32 }
    requires within { dollar < length text.now }
    ensures gives { let behind = drop (dollar + 1) text.now in
        Shows text.now (table.dollar quoted dollar behind (bytes.skip behind)) result }
    ensures further { IfOk result (FurtherLook dollar (length text.now)) }
{
    let here = skip(text, dollar + 1);
    if here >= text.len() {
        return Ok(Look::Byte(b'$', dollar + 1));
    }
    match kind_of(text[here]) {
        ByteKind::Open => Ok(parenthesis(text, dollar, here + 1)),
        ByteKind::Brace => braced(alloc, text, dollar, quoted, here + 1),
        ByteKind::Name => named_part(alloc, text, dollar, quoted, here),
        ByteKind::Digit => Ok(number_part(text, dollar, quoted, here)),
        ByteKind::Hash => Ok(Look::Piece(
            RawPart::Param {
                key: Key::Count,
                default: None,
                quoted,
            },
            here + 1,
        )),
        ByteKind::At => Ok(Look::AllArgs(here + 1)),
        ByteKind::Special => Ok(unsupported(Form::Param, dollar)),
        ByteKind::Dollar => Ok(unsupported(Form::Param, dollar)),
        ByteKind::Single => Ok(before_quote(text, dollar, quoted)),
        ByteKind::Double => Ok(before_quote(text, dollar, quoted)),
        _ => Ok(Look::Byte(b'$', dollar + 1)),
    }
}

// The place of the closing single quote.
fn quote_end(text: &[u8], at: usize) -> Option<usize>
    requires { at ≤ length text.now }
    ensures { IsQuoteEnd text.now at result }
{
    let mut place = at;
    while place < text.len() {
        if text[place] == b'\'' {
            return Some(place);
        }
        place += 1;
    }
    None
}

// A single quote.
fn single(alloc: Global, text: &[u8], at: usize) -> Result<Look, Memory>
    requires small { length text.now < 2 ^ 32 }
    requires within { at < length text.now }
    ensures gives { let rest = drop (at + 1) text.now in
        IfOk result (λ l. (b : ℕ) → seen_look text.now l ≡ table.look_by at b kinds.Single rest) }
    ensures further { IfOk result (FurtherLook at (length text.now)) }
{
    match quote_end(text, at + 1) {
        Some(end) => {
            let body = Bytes::from_slice(alloc, &text[at + 1..end])?;
            Ok(Look::Piece(RawPart::Quoted(body), end + 1))
        }
        None => Ok(Look::Bad(LexFault::OpenQuote { at: at as u32 })),
    }
}

// A backslash outside quotes.
fn escaped(alloc: Global, text: &[u8], at: usize, byte: u8) -> Result<Look, Memory>
    requires within { at < length text.now }
    ensures gives { Shows text.now (table.escaped byte (drop (at + 1) text.now)) result }
    ensures further { IfOk result (FurtherLook at (length text.now)) }
{
    if at + 1 >= text.len() {
        return Ok(Look::Byte(byte, at + 1));
    }
    let body = Bytes::from_slice(alloc, &text[at + 1..at + 2])?;
    Ok(Look::Piece(RawPart::Quoted(body), at + 2))
}

// What stands in a word, from the next byte that counts on.
pub(crate) fn look(alloc: Global, text: &[u8], at: usize) -> Result<Look, Memory>
    requires small { length text.now < 2 ^ 32 }
    requires within { at ≤ length text.now }
    ensures gives { Shows text.now (table.look_at at (drop at text.now)) result }
    ensures further { IfOk result (FurtherLook at (length text.now)) }
{
    if at >= text.len() {
        return Ok(Look::Ends);
    }
    let byte = text[at];
    match kind_of(byte) {
        ByteKind::Blank => Ok(Look::Ends),
        ByteKind::Newline => Ok(Look::Ends),
        ByteKind::Semi => Ok(Look::Ends),
        ByteKind::Amp => Ok(Look::Ends),
        ByteKind::Bar => Ok(Look::Ends),
        ByteKind::Open => Ok(Look::Ends),
        ByteKind::Close => Ok(Look::Ends),
        ByteKind::Less => Ok(Look::Ends),
        ByteKind::Greater => Ok(Look::Ends),
        ByteKind::Single => single(alloc, text, at),
        ByteKind::Double => Ok(Look::DoubleQuote(at + 1)),
        ByteKind::Back => escaped(alloc, text, at, byte),
        ByteKind::Tick => Ok(unsupported(Form::Backquote, at)),
        ByteKind::Dollar => dollar_part(alloc, text, at, false),
        _ => Ok(Look::Byte(byte, at + 1)),
    }
}

// Whether a backslash escapes the byte in double quotes.
fn is_escapable(kind: ByteKind) -> bool
    ensures { result ≡ table.is_escapable kind }
{
    match kind {
        ByteKind::Double => true,
        ByteKind::Back => true,
        ByteKind::Tick => true,
        ByteKind::Dollar => true,
        _ => false,
    }
}

// A backslash in double quotes.
fn inner_escaped(text: &[u8], at: usize, byte: u8) -> Look
    requires { at < length text.now }
    ensures gives { seen_look text.now result ≡ table.inner_escaped byte (drop (at + 1) text.now) }
    ensures further { FurtherLook at (length text.now) result }
{
    if at + 1 < text.len() && is_escapable(kind_of(text[at + 1])) {
        Look::Byte(text[at + 1], at + 2)
    } else {
        Look::Byte(byte, at + 1)
    }
}

// What stands in double quotes, from the next byte that counts on.
pub(crate) fn inner(alloc: Global, text: &[u8], at: usize) -> Result<Look, Memory>
    requires small { length text.now < 2 ^ 32 }
    requires within { at ≤ length text.now }
    ensures gives { Shows text.now (table.inner_at at (drop at text.now)) result }
    ensures further { IfOk result (FurtherLook at (length text.now)) }
{
    if at >= text.len() {
        return Ok(Look::Ends);
    }
    let byte = text[at];
    match kind_of(byte) {
        ByteKind::Double => Ok(Look::DoubleQuote(at + 1)),
        ByteKind::Back => Ok(inner_escaped(text, at, byte)),
        ByteKind::Tick => Ok(unsupported(Form::Backquote, at)),
        ByteKind::Dollar => dollar_part(alloc, text, at, true),
        _ => Ok(Look::Byte(byte, at + 1)),
    }
}
