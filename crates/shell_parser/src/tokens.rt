//! Single tokens, and newlines.

ghost use Rattle.std.specs.Prelude.{◌≡◌, ◌↔◌, ◌≤◌, ◌<◌, cond, length, drop, IsTrue, OnOk, OnSome, IfSome, IfNone};
ghost use Rattle.std.specs.Prelude.{Ok as Done, Some as Found, None as Absent};
ghost use Rattle.shell_grammar.specs.Look.{look as look_of, place as place_of, word as word_of};
ghost use Rattle.shell_grammar.specs.Forms.{is_token, is_some, is_separator as is_separator_of, link_and as link_and_of};
ghost use Rattle.shell_grammar.specs.Grammar.{Is, Opens, Newlines, ForWords, Tree};
ghost use Rattle.shell_grammar.specs.declared.look.Look.TheVariants.{Keyword};
ghost use Rattle.shell_grammar.specs.declared.look.Reserved.TheVariants.{In};
ghost use Rattle.shell_parser.specs.Reads.{Reads, Takes, Separates, ArmBegins};
ghost use Rattle.shell_parser.specs.Rooms.{words_in_row};

use crate::forms::{is_separator, link_and, same_look};
use crate::looks::look;
use shell_grammar::{Look, ParseFault, Reserved};
use shell_lexer::{RawPart, Token, TokenKind};

/// How many levels of compound commands and substitutions may stand inside one another.
pub const MAX_LEVELS: usize = 64;

/// The byte offset at which the token at a place begins; behind the last token that is `end`.
pub fn place(ts: &[Token], at: usize, end: u32) -> u32
    requires { at ≤ length ts.now }
    ensures { result ≡ place_of end (drop at ts.now) }
{
    match ts.get(at) {
        Some(token) => token.at,
        None => end,
    }
}

/// Whether the token at a place looks so.
pub fn stands(ts: &[Token], at: usize, want: Look) -> bool
    requires within { at ≤ length ts.now }
    requires token { IsTrue (is_token want) }
    ensures looks { IsTrue result ↔ (look_of (drop at ts.now) ≡ want) }
    ensures inside { IsTrue result → (at < length ts.now) }
{
    at < ts.len() && same_look(look(ts, at), want)
}

/// The place behind the token at a place, which has to look so; else the fault there.
pub fn take(
    level: usize,
    end: u32,
    ts: &[Token],
    at: usize,
    want: Look,
) -> Result<usize, ParseFault>
    requires within { at ≤ length ts.now }
    requires token { IsTrue (is_token want) }
    ensures { Takes level end (Is want) (place_of end (drop at ts.now)) ts.now at result }
{
    if stands(ts, at, want) {
        return Ok(at + 1);
    }
    Err(ParseFault::Syntax {
        at: place(ts, at, end),
    })
}

/// The place behind the token at a place, which has to look so and opens a level; else the fault there, also where
/// that level is one too many.
pub fn opens(
    level: usize,
    end: u32,
    ts: &[Token],
    at: usize,
    want: Look,
) -> Result<usize, ParseFault>
    requires within { at ≤ length ts.now }
    requires shallow { level ≤ MAX_LEVELS }
    requires token { IsTrue (is_token want) }
    ensures below { OnOk result (level < MAX_LEVELS) }
    ensures takes { Takes level end (Opens want) (place_of end (drop at ts.now)) ts.now at result }
{
    if !stands(ts, at, want) {
        return Err(ParseFault::Syntax {
            at: place(ts, at, end),
        });
    }
    if level == MAX_LEVELS {
        return Err(ParseFault::Deep {
            at: place(ts, at, end),
        });
    }
    Ok(at + 1)
}

/// The parts of the word at a place; None where no word stands there.
pub fn word_parts(ts: &[Token], at: usize) -> Option<&[RawPart]>
    requires { at ≤ length ts.now }
    ensures within { OnSome result (at < length ts.now) }
    ensures some { IfSome result (λ raws. word_of (drop at ts.now) ≡ Found raws.now) }
    ensures none { IfNone result (word_of (drop at ts.now) ≡ Absent) }
{
    match ts.get(at) {
        Some(token) => match &token.kind {
            TokenKind::Word(raws) => Some(raws.as_slice()),
            _ => None,
        },
        None => None,
    }
}

/// The place behind the newlines that stand from a place on.
pub fn newlines(level: usize, end: u32, ts: &[Token], at: usize) -> usize
    requires { at ≤ length ts.now }
    ensures { Reads level end Newlines ts.now at (Done (tt, result)) }
{
    let mut now = at;
    while stands(ts, now, Look::Newline) {
        now += 1;
    }
    now
}

/// Whether a separator of commands stands there.
pub fn separates(ts: &[Token], at: usize) -> bool
    requires { at ≤ length ts.now }
    ensures looks { result ≡ is_separator_of (look_of (drop at ts.now)) }
    ensures inside { IsTrue result → (at < length ts.now) }
{
    is_separator(look(ts, at))
}

/// Takes a separator, and the newlines behind it.
pub fn apart(level: usize, end: u32, ts: &[Token], at: usize) -> Result<usize, ParseFault>
    requires { at ≤ length ts.now }
    ensures { Separates level end ts.now at result }
{
    if separates(ts, at) {
        return Ok(newlines(level, end, ts, at + 1));
    }
    Err(ParseFault::Syntax {
        at: place(ts, at, end),
    })
}

/// Passes over what may stand behind the name of a `for` without `in`: `;` and newlines.
pub fn no_words(level: usize, end: u32, ts: &[Token], at: usize) -> usize
    requires within { at ≤ length ts.now }
    requires looks { (look_of (drop at ts.now) ≡ Keyword In) → ⊥ }
    ensures { Reads level end ForWords ts.now at (Done (Absent, result)) }
{
    if stands(ts, at, Look::Semi) {
        return newlines(level, end, ts, at + 1);
    }
    at
}

/// Passes over the `(` of an arm of `case`, if there is one.
pub fn arm_begin(level: usize, end: u32, ts: &[Token], at: usize) -> usize
    requires { at ≤ length ts.now }
    ensures { ArmBegins level end ts.now at result }
{
    if stands(ts, at, Look::LeftParen) {
        return at + 1;
    }
    at
}

/// How many words stand there in a row: so many are to have room in a simple command.
pub(crate) fn words_from(ts: &[Token], at: usize) -> usize
    requires { at ≤ length ts.now }
    ensures { result ≡ words_in_row (drop at ts.now) }
{
    let mut now = at;
    while word_parts(ts, now).is_some() {
        now += 1;
    }
    now - at
}

/// How many commands are to have room in a list whose first one ends there: where a separator stands, two.
pub(crate) fn list_room(ts: &[Token], at: usize) -> usize
    requires { at ≤ length ts.now }
    ensures { result ≡ cond (is_separator_of (look_of (drop at ts.now))) 2 1 }
{
    if separates(ts, at) {
        return 2;
    }
    1
}

/// How many commands are to have room behind the first of an and-or list, where that ends there.
pub(crate) fn link_room(ts: &[Token], at: usize) -> usize
    requires { at ≤ length ts.now }
    ensures { result ≡ cond (is_some (link_and_of (look_of (drop at ts.now)))) 1 0 }
{
    match link_and(look(ts, at)) {
        Some(_) => 1,
        None => 0,
    }
}
