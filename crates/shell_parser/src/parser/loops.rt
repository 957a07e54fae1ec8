//! `while`, `until` and `for` (XCU 2.9.4.2, 2.9.4.5, 2.9.4.6).

ghost use Rattle.std.specs.Prelude.{◌≡◌, ◌≤◌, length, drop};
ghost use Rattle.shell_grammar.specs.Look.{look as look_of};
ghost use Rattle.shell_grammar.specs.Forms.{compound_form as compound_form_of};
ghost use Rattle.shell_grammar.specs.Grammar.{Compound, Loop, ForRest, ForName, ForWords, Each};
ghost use Rattle.shell_grammar.specs.declared.form.CompoundForm.TheVariants as a_compound;
ghost use Rattle.shell_parser.specs.Reads.{Reads};

use crate::forms::{is_name_word, is_word, loop_word};
use crate::looks::look;
use crate::parser::lists::block;
use crate::parser::words::word;
use crate::tokens::{MAX_LEVELS, apart, newlines, no_words, opens, place, stands, take};
use crate::trees::name_of;
use script_names::{Boxed, Bytes, List};
use shell_grammar::{Look, ParseFault, Reserved};
use shell_lexer::Token;
use shell_syntax::{Command, Word};
use std::alloc::Global;

/// `( while | until ) block do block done`
#[cycle(parser)]
pub(super) fn turns(
    alloc: Global,
    level: usize,
    end: u32,
    ts: &[Token],
    at: usize,
    until: bool,
) -> Result<(Boxed<Command>, usize), ParseFault>
    requires within { at ≤ length ts.now }
    requires shallow { level ≤ MAX_LEVELS }
    requires form { compound_form_of (look_of (drop at ts.now)) ≡ a_compound.Loop until }
    ensures { Reads level end Compound ts.now at result }
{
    let want = loop_word(until);
    let first = match opens(level, end, ts, at, want) {
        Ok(next) => next,
        Err(fault) => return Err(fault),
    };
    let ((cond, body), behind) = match turn(alloc, level + 1, end, ts, first) {
        Ok(found) => found,
        Err(fault) => return Err(fault),
    };
    let next = match take(level, end, ts, behind, Look::Keyword(Reserved::Done)) {
        Ok(next) => next,
        Err(fault) => return Err(fault),
    };
    let tree = Boxed::new(
        alloc,
        Command::While {
            at: place(ts, at, end),
            until,
            cond,
            body,
        },
    )?;
    Ok((tree, next))
}

/// `block do block`
#[cycle(parser)]
fn turn(
    alloc: Global,
    level: usize,
    end: u32,
    ts: &[Token],
    at: usize,
) -> Result<((Boxed<Command>, Boxed<Command>), usize), ParseFault>
    requires within { at ≤ length ts.now }
    requires shallow { level ≤ MAX_LEVELS }
    ensures { Reads level end Loop ts.now at result }
{
    let (cond, behind) = match block(alloc, level, end, ts, at) {
        Ok(found) => found,
        Err(fault) => return Err(fault),
    };
    let next = match take(level, end, ts, behind, Look::Keyword(Reserved::Do)) {
        Ok(next) => next,
        Err(fault) => return Err(fault),
    };
    let (body, last) = match block(alloc, level, end, ts, next) {
        Ok(found) => found,
        Err(fault) => return Err(fault),
    };
    Ok(((cond, body), last))
}

/// `for NAME nl* [ in word* ] [ ; ] nl* do block done`
#[cycle(parser)]
pub(super) fn for_loop(
    alloc: Global,
    level: usize,
    end: u32,
    ts: &[Token],
    at: usize,
) -> Result<(Boxed<Command>, usize), ParseFault>
    requires within { at ≤ length ts.now }
    requires shallow { level ≤ MAX_LEVELS }
    requires form { compound_form_of (look_of (drop at ts.now)) ≡ a_compound.For }
    ensures { Reads level end Compound ts.now at result }
{
    let first = match opens(level, end, ts, at, Look::Keyword(Reserved::For)) {
        Ok(next) => next,
        Err(fault) => return Err(fault),
    };
    let ((name, words, body), behind) = match for_rest(alloc, level + 1, end, ts, first) {
        Ok(found) => found,
        Err(fault) => return Err(fault),
    };
    let next = match take(level, end, ts, behind, Look::Keyword(Reserved::Done)) {
        Ok(next) => next,
        Err(fault) => return Err(fault),
    };
    let tree = Boxed::new(
        alloc,
        Command::For {
            at: place(ts, at, end),
            name,
            words,
            body,
        },
    )?;
    Ok((tree, next))
}

/// `NAME nl* [ in word* ] [ ; ] nl* do block`
#[cycle(parser)]
fn for_rest(
    alloc: Global,
    level: usize,
    end: u32,
    ts: &[Token],
    at: usize,
) -> Result<((Bytes, Option<List<Word>>, Boxed<Command>), usize), ParseFault>
    requires within { at ≤ length ts.now }
    requires shallow { level ≤ MAX_LEVELS }
    ensures { Reads level end ForRest ts.now at result }
{
    let (name, behind) = match for_name(alloc, level, end, ts, at) {
        Ok(found) => found,
        Err(fault) => return Err(fault),
    };
    let next = newlines(level, end, ts, behind);
    let (words, last) = match for_words(alloc, level, end, ts, next) {
        Ok(found) => found,
        Err(fault) => return Err(fault),
    };
    let first = match take(level, end, ts, last, Look::Keyword(Reserved::Do)) {
        Ok(next) => next,
        Err(fault) => return Err(fault),
    };
    let (body, stop) = match block(alloc, level, end, ts, first) {
        Ok(found) => found,
        Err(fault) => return Err(fault),
    };
    Ok(((name, words, body), stop))
}

/// The NAME of a `for`.
#[cycle(parser)]
fn for_name(
    alloc: Global,
    level: usize,
    end: u32,
    ts: &[Token],
    at: usize,
) -> Result<(Bytes, usize), ParseFault>
    requires within { at ≤ length ts.now }
    requires shallow { level ≤ MAX_LEVELS }
    ensures { Reads level end ForName ts.now at result }
{
    if !is_name_word(look(ts, at)) {
        return Err(ParseFault::Syntax {
            at: place(ts, at, end),
        });
    }
    let (name, behind) = match word(alloc, level, end, ts, at) {
        Ok(found) => found,
        Err(fault) => return Err(fault),
    };
    let text = name_of(alloc, &name)?;
    Ok((text, behind))
}

/// `[ in word* ] [ ; ] nl*`; a separator must follow the words.
#[cycle(parser)]
fn for_words(
    alloc: Global,
    level: usize,
    end: u32,
    ts: &[Token],
    at: usize,
) -> Result<(Option<List<Word>>, usize), ParseFault>
    requires within { at ≤ length ts.now }
    requires shallow { level ≤ MAX_LEVELS }
    ensures { Reads level end ForWords ts.now at result }
{
    if !stands(ts, at, Look::Keyword(Reserved::In)) {
        return Ok((None, no_words(level, end, ts, at)));
    }
    let (words, behind) = match each(alloc, level, end, ts, at + 1) {
        Ok(found) => found,
        Err(fault) => return Err(fault),
    };
    let next = match apart(level, end, ts, behind) {
        Ok(next) => next,
        Err(fault) => return Err(fault),
    };
    Ok((Some(words), next))
}

/// `word*`
#[cycle(parser)]
fn each(
    alloc: Global,
    level: usize,
    end: u32,
    ts: &[Token],
    at: usize,
) -> Result<(List<Word>, usize), ParseFault>
    requires within { at ≤ length ts.now }
    requires shallow { level ≤ MAX_LEVELS }
    ensures { Reads level end Each ts.now at result }
{
    let mut words = List::new(alloc);
    let mut now = at;
    while is_word(look(ts, now)) {
        let (next, behind) = match word(alloc, level, end, ts, now) {
            Ok(found) => found,
            Err(fault) => return Err(fault),
        };
        words.add(next)?;
        now = behind;
    }
    Ok((words, now))
}
