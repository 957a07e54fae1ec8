//! What stands where a token may begin.

ghost use Rattle.std.specs.Prelude.{◌≡◌, ◌≢◌, ◌≤◌, ◌<◌, ◌+◌, ◌^◌, ℕ, length, drop, IfOk};
ghost use Rattle.shell_syntax.specs.declared.form.Form.TheVariants as form;
ghost use Rattle.shell_lexer.specs.declared.fault.LexFault.TheVariants.{Unsupported};
ghost use Rattle.shell_lexer.specs.declared.sight.Sight.TheVariants as shown;
ghost use Rattle.shell_lexer.specs.declared.byte_kind.ByteKind.TheVariants.{Digit};
ghost use Rattle.shell_lexer.specs.Text as bytes;
ghost use Rattle.shell_lexer.specs.Operators as table;
ghost use Rattle.shell_lexer.specs.Seen.{seen, Sees, Further, rest_at, OnFrom};

use crate::byte_kind::{ByteKind, RunKind};
use crate::bytes::{after, ends_word, kind_of, skip};
use crate::fault::LexFault;
use crate::runs::{after_all, read_run, run_end};
use crate::sight::{Sight, Sign};
use script_names::Memory;
use shell_syntax::{Form, Redirect};
use std::alloc::Global;

// The end of the line.
fn after_line(text: &[u8], at: usize) -> usize
    requires { at ≤ length text.now }
    ensures within { result ≤ length text.now }
    ensures on { at ≤ result }
    ensures line { drop result text.now ≡ table.after_line (drop at text.now) }
{
    let mut place = at;
    while place < text.len() {
        if text[place] == b'\n' {
            return place;
        }
        place += 1;
    }
    place
}

// What the number before `>` redirects.
fn out_to(number: &[u8]) -> Option<Redirect>
    ensures { result ≡ table.out_to number.now }
{
    if number == b"".as_slice() || number == b"1".as_slice() {
        Some(Redirect::OutNull)
    } else if number == b"2".as_slice() {
        Some(Redirect::ErrNull)
    } else {
        None
    }
}

// What the number before `<` redirects.
fn in_from(number: &[u8]) -> Option<Redirect>
    ensures { result ≡ table.in_from number.now }
{
    if number == b"".as_slice() || number == b"0".as_slice() {
        Some(Redirect::InNull)
    } else {
        None
    }
}

// What the number before `>&` and the digit behind it copy.
fn copy_of(number: &[u8], digit: u8) -> Option<Redirect>
    ensures { result ≡ table.copy_of number.now digit }
{
    if (number == b"".as_slice() || number == b"1".as_slice()) && digit == b'2' {
        Some(Redirect::OutToErr)
    } else if number == b"2".as_slice() && digit == b'1' {
        Some(Redirect::ErrToOut)
    } else {
        None
    }
}

// The place, where a word ends there.
fn whole_word(text: &[u8], end: Option<usize>) -> Option<usize>
    requires { OnFrom 0 (length text.now) end }
    ensures whole { rest_at text.now result ≡ table.whole_word (rest_at text.now end) }
    ensures on { (at : ℕ) → OnFrom at (length text.now) end → OnFrom at (length text.now) result }
{
    match end {
        None => None,
        Some(place) => {
            if ends_word(text, place) {
                Some(place)
            } else {
                None
            }
        }
    }
}

// The place behind the word `/dev/null`, which may stand behind blanks.
fn null_word(text: &[u8], at: usize) -> Option<usize>
    requires { at ≤ length text.now }
    ensures word { rest_at text.now result ≡ table.null_word (drop at text.now) }
    ensures on { OnFrom at (length text.now) result }
{
    let begin = run_end(text, at, RunKind::Blanks);
    whole_word(text, after_all(text, begin, b"/dev/null"))
}

// The redirection where it is one and its word is whole, else the form that is not supported.
fn redirected(text: &[u8], angle: usize, which: Option<Redirect>, end: Option<usize>) -> Sight
    requires small { angle < 2 ^ 32 }
    requires on { OnFrom (angle + 1) (length text.now) end }
    ensures gives { seen text.now result ≡ table.redirected angle which (rest_at text.now end) }
    ensures further { Further angle (length text.now) result }
{
    match which {
        None => wrong_redirect(angle),
        Some(which) => match end {
            None => wrong_redirect(angle),
            Some(end) => Sight::Operator(Sign::Redirect(which), end),
        },
    }
}

fn wrong_redirect(angle: usize) -> Sight
    requires { angle < 2 ^ 32 }
    ensures { result ≡ shown.Wrong (Unsupported form.Redirect angle) }
{
    Sight::Wrong(LexFault::Unsupported {
        form: Form::Redirect,
        at: angle as u32,
    })
}

// Behind `>&`, of which the `>` stands at angle.
fn copied(text: &[u8], angle: usize, number: &[u8], at: usize) -> Sight
    requires small { length text.now < 2 ^ 32 }
    requires on { angle < at }
    requires within { at ≤ length text.now }
    ensures gives { seen text.now result ≡ table.copied angle number.now (bytes.skip (drop at text.now)) }
    ensures further { Further angle (length text.now) result }
{
    let here = skip(text, at);
    if here >= text.len() {
        return wrong_redirect(angle);
    }
    let end = whole_word(text, Some(here + 1));
    redirected(text, angle, copy_of(number, text[here]), end)
}

// Behind `<`, which stands at angle.
fn less(text: &[u8], angle: usize, number: &[u8]) -> Sight
    requires small { length text.now < 2 ^ 32 }
    requires within { angle < length text.now }
    ensures gives { seen text.now result ≡ table.less angle number.now (drop (angle + 1) text.now) }
    ensures further { Further angle (length text.now) result }
{
    match after(text, angle + 1, b'<') {
        Some(_) => Sight::Wrong(LexFault::Unsupported {
            form: Form::Heredoc,
            at: angle as u32,
        }),
        None => redirected(text, angle, in_from(number), null_word(text, angle + 1)),
    }
}

// Behind `>`, which stands at angle.
fn greater(text: &[u8], angle: usize, number: &[u8]) -> Sight
    requires small { length text.now < 2 ^ 32 }
    requires within { angle < length text.now }
    ensures gives { seen text.now result ≡ table.greater angle number.now (drop (angle + 1) text.now) }
    ensures further { Further angle (length text.now) result }
{
    match after(text, angle + 1, b'>') {
        Some(next) => redirected(text, angle, out_to(number), null_word(text, next)),
        None => match after(text, angle + 1, b'&') {
            Some(next) => copied(text, angle, number, next),
            None => redirected(text, angle, out_to(number), null_word(text, angle + 1)),
        },
    }
}

// What digits begin: a redirection where `<` or `>` stands directly behind them, else a word.
fn numbered(alloc: Global, text: &[u8], at: usize) -> Result<Sight, Memory>
    requires small { length text.now < 2 ^ 32 }
    requires within { at < length text.now }
    ensures gives { Sees text.now (table.after_digits (length text.now) (drop at text.now)) result }
    ensures further { IfOk result (Further at (length text.now)) }
{
    let (number, end) = read_run(alloc, text, at, RunKind::Digits)?;
    let angle = skip(text, end);
    if angle >= text.len() {
        return Ok(Sight::Word);
    }
    match kind_of(text[angle]) {
        ByteKind::Less => Ok(less(text, angle, number.as_slice())),
        ByteKind::Greater => Ok(greater(text, angle, number.as_slice())),
        _ => Ok(Sight::Word),
    }
}

// What stands where a token may begin, from the next byte that counts on.
pub(crate) fn sight(alloc: Global, text: &[u8], at: usize) -> Result<Sight, Memory>
    requires small { length text.now < 2 ^ 32 }
    requires within { at ≤ length text.now }
    ensures gives { Sees text.now (table.sight_at (length text.now) at (drop at text.now)) result }
    ensures further { IfOk result (Further at (length text.now)) }
{
    if at >= text.len() {
        return Ok(Sight::End);
    }
    let kind = kind_of(text[at]);
    match kind {
        ByteKind::Digit => numbered(alloc, text, at),
        _ => Ok(sight_by(text, at, kind)),
    }
}

// What stands where a token may begin, by the kind of the byte there, which is no digit.
fn sight_by(text: &[u8], at: usize, kind: ByteKind) -> Sight
    requires small { length text.now < 2 ^ 32 }
    requires within { at < length text.now }
    requires other { kind ≢ Digit }
    ensures gives { let rest = drop (at + 1) text.now in
        (b : ℕ) → seen text.now result ≡ table.sight_by (length text.now) at b kind rest }
    ensures further { Further at (length text.now) result }
{
    match kind {
        ByteKind::Blank => Sight::Passed(at + 1),
        ByteKind::Hash => Sight::Passed(after_line(text, at + 1)),
        ByteKind::Newline => Sight::Operator(Sign::Newline, at + 1),
        ByteKind::Semi => match after(text, at + 1, b';') {
            Some(end) => Sight::Operator(Sign::DoubleSemi, end),
            None => Sight::Operator(Sign::Semi, at + 1),
        },
        ByteKind::Amp => match after(text, at + 1, b'&') {
            Some(end) => Sight::Operator(Sign::AndAnd, end),
            None => Sight::Wrong(LexFault::Unsupported {
                form: Form::Background,
                at: at as u32,
            }),
        },
        ByteKind::Bar => match after(text, at + 1, b'|') {
            Some(end) => Sight::Operator(Sign::OrOr, end),
            None => Sight::Operator(Sign::Bar, at + 1),
        },
        ByteKind::Open => match after(text, at + 1, b'(') {
            Some(_) => Sight::Wrong(LexFault::Unsupported {
                form: Form::Arith,
                at: at as u32,
            }),
            None => Sight::Operator(Sign::LeftParen, at + 1),
        },
        ByteKind::Close => Sight::Operator(Sign::RightParen, at + 1),
        ByteKind::Less => less(text, at, &[]),
        ByteKind::Greater => greater(text, at, &[]),
        _ => Sight::Word,
    }
}
