//! Lists of commands, and-or lists and pipelines (XCU 2.9.2 Pipelines, 2.9.3 Lists).

ghost use Rattle.std.specs.Prelude.{◌≤◌, length};
ghost use Rattle.shell_grammar.specs.Grammar.{Block, Members, AndOr, Pipeline, Piped};
ghost use Rattle.shell_parser.specs.Reads.{Reads, Parses};

use crate::forms::{link_and, same_look, starts};
use crate::looks::look;
use crate::parser::commands::command;
use crate::tokens::{MAX_LEVELS, link_room, list_room, newlines, place, separates, stands};
use crate::trees::{chain_of, one_command, pipe_of, seq_of};
use script_names::{Boxed, List};
use shell_grammar::{Look, ParseFault, Reserved};
use shell_lexer::Token;
use shell_syntax::{Command, with_command, with_link};
use std::alloc::Global;

/// All tokens as a script.
#[cycle(parser)]
pub fn script(
    alloc: Global,
    level: usize,
    end: u32,
    ts: &[Token],
) -> Result<Boxed<Command>, ParseFault>
    requires shallow { level ≤ MAX_LEVELS }
    ensures { Parses level end ts.now result }
{
    let first = newlines(level, end, ts, 0);
    if same_look(look(ts, first), Look::AtEnd) {
        let none = seq_of(alloc, List::new(alloc))?;
        return Ok(none);
    }
    let (tree, behind) = match members(alloc, level, end, ts, first) {
        Ok(found) => found,
        Err(fault) => return Err(fault),
    };
    if same_look(look(ts, behind), Look::AtEnd) {
        return Ok(tree);
    }
    Err(ParseFault::Syntax {
        at: place(ts, behind, end),
    })
}

/// `nl* list`
#[cycle(parser)]
pub(super) fn block(
    alloc: Global,
    level: usize,
    end: u32,
    ts: &[Token],
    at: usize,
) -> Result<(Boxed<Command>, usize), ParseFault>
    requires within { at ≤ length ts.now }
    requires shallow { level ≤ MAX_LEVELS }
    ensures { Reads level end Block ts.now at result }
{
    let first = newlines(level, end, ts, at);
    members(alloc, level, end, ts, first)
}

/// `andor ( sep andor )* [ sep ]`
#[cycle(parser)]
pub(super) fn members(
    alloc: Global,
    level: usize,
    end: u32,
    ts: &[Token],
    at: usize,
) -> Result<(Boxed<Command>, usize), ParseFault>
    requires within { at ≤ length ts.now }
    requires shallow { level ≤ MAX_LEVELS }
    ensures { Reads level end Members ts.now at result }
{
    let (first, behind) = match and_or(alloc, level, end, ts, at) {
        Ok(found) => found,
        Err(fault) => return Err(fault),
    };
    let mut trees = one_command(alloc, list_room(ts, behind), first)?;
    let mut now = behind;
    while separates(ts, now) {
        now = newlines(level, end, ts, now + 1);
        if !starts(look(ts, now)) {
            return Ok((seq_of(alloc, trees)?, now));
        }
        let (next, behind) = match and_or(alloc, level, end, ts, now) {
            Ok(found) => found,
            Err(fault) => return Err(fault),
        };
        trees = with_command(trees, next)?;
        now = behind;
    }
    Ok((seq_of(alloc, trees)?, now))
}

/// `pipe ( ( && | || ) nl* pipe )*`
#[cycle(parser)]
fn and_or(
    alloc: Global,
    level: usize,
    end: u32,
    ts: &[Token],
    at: usize,
) -> Result<(Boxed<Command>, usize), ParseFault>
    requires within { at ≤ length ts.now }
    requires shallow { level ≤ MAX_LEVELS }
    ensures { Reads level end AndOr ts.now at result }
{
    let (first, behind) = match pipeline(alloc, level, end, ts, at) {
        Ok(found) => found,
        Err(fault) => return Err(fault),
    };
    let mut links = List::with_room(alloc, link_room(ts, behind))?;
    let mut now = behind;
    while now < ts.len() {
        let and = match link_and(look(ts, now)) {
            Some(and) => and,
            None => return Ok((chain_of(alloc, first, links)?, now)),
        };
        now = newlines(level, end, ts, now + 1);
        let (command, behind) = match pipeline(alloc, level, end, ts, now) {
            Ok(found) => found,
            Err(fault) => return Err(fault),
        };
        links = with_link(links, and, command)?;
        now = behind;
    }
    Ok((chain_of(alloc, first, links)?, now))
}

/// `[ ! ] command ( | nl* command )*`
#[cycle(parser)]
fn pipeline(
    alloc: Global,
    level: usize,
    end: u32,
    ts: &[Token],
    at: usize,
) -> Result<(Boxed<Command>, usize), ParseFault>
    requires within { at ≤ length ts.now }
    requires shallow { level ≤ MAX_LEVELS }
    ensures { Reads level end Pipeline ts.now at result }
{
    if stands(ts, at, Look::Keyword(Reserved::Bang)) {
        let (body, behind) = match piped(alloc, level, end, ts, at + 1) {
            Ok(found) => found,
            Err(fault) => return Err(fault),
        };
        let turned = Boxed::new(
            alloc,
            Command::Not {
                at: place(ts, at, end),
                body,
            },
        )?;
        return Ok((turned, behind));
    }
    piped(alloc, level, end, ts, at)
}

/// `command ( | nl* command )*`
#[cycle(parser)]
fn piped(
    alloc: Global,
    level: usize,
    end: u32,
    ts: &[Token],
    at: usize,
) -> Result<(Boxed<Command>, usize), ParseFault>
    requires within { at ≤ length ts.now }
    requires shallow { level ≤ MAX_LEVELS }
    ensures { Reads level end Piped ts.now at result }
{
    let (first, behind) = match command(alloc, level, end, ts, at) {
        Ok(found) => found,
        Err(fault) => return Err(fault),
    };
    if !stands(ts, behind, Look::Bar) {
        return Ok((first, behind));
    }
    let mut parts = one_command(alloc, 2, first)?;
    let mut now = behind;
    while stands(ts, now, Look::Bar) {
        now = newlines(level, end, ts, now + 1);
        let (part, behind) = match command(alloc, level, end, ts, now) {
            Ok(found) => found,
            Err(fault) => return Err(fault),
        };
        parts = with_command(parts, part)?;
        now = behind;
    }
    Ok((pipe_of(alloc, place(ts, at, end), parts)?, now))
}
