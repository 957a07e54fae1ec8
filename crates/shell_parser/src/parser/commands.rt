//! Commands by their first token, and groups (XCU 2.9.4 Compound Commands, 2.9.4.1 Grouping Commands).

ghost use Rattle.std.specs.Prelude.{◌≡◌, ◌≤◌, length, drop, Some as Found};
ghost use Rattle.shell_grammar.specs.Look.{look as look_of};
ghost use Rattle.shell_grammar.specs.Forms.{command_form as command_form_of, compound_form as compound_form_of};
ghost use Rattle.shell_grammar.specs.Grammar.{ACommand, Compound, Braces, Redirects};
ghost use Rattle.shell_grammar.specs.declared.form.CommandForm.TheVariants as a_command;
ghost use Rattle.shell_grammar.specs.declared.form.CompoundForm.TheVariants as a_compound;
ghost use Rattle.shell_parser.specs.Reads.{Reads};

use crate::forms::{command_form, compound_form, redirection};
use crate::looks::look;
use crate::parser::cases::choice;
use crate::parser::conditionals::branches;
use crate::parser::lists::block;
use crate::parser::loops::{for_loop, turns};
use crate::parser::simple_commands::{named, simple};
use crate::tokens::{MAX_LEVELS, opens, place, take};
use crate::trees::redirected;
use script_names::{Boxed, List};
use shell_grammar::{CommandForm, CompoundForm, Look, ParseFault, Reserved};
use shell_lexer::Token;
use shell_syntax::{Command, Redirect};
use std::alloc::Global;

/// `simple | compound redirect* | define`
#[cycle(parser)]
pub(super) fn command(
    alloc: Global,
    level: usize,
    end: u32,
    ts: &[Token],
    at: usize,
) -> Result<(Boxed<Command>, usize), ParseFault>
    requires within { at ≤ length ts.now }
    requires shallow { level ≤ MAX_LEVELS }
    ensures { Reads level end ACommand ts.now at result }
{
    let form = match command_form(look(ts, at)) {
        Some(form) => form,
        None => return Err(ParseFault::Syntax {
            at: place(ts, at, end),
        }),
    };
    match form {
        CommandForm::Compound => compound_command(alloc, level, end, ts, at),
        CommandForm::Named => named(alloc, level, end, ts, at),
        CommandForm::Simple => simple(alloc, level, end, ts, at),
    }
}

/// `compound redirect*`
#[cycle(parser)]
fn compound_command(
    alloc: Global,
    level: usize,
    end: u32,
    ts: &[Token],
    at: usize,
) -> Result<(Boxed<Command>, usize), ParseFault>
    requires within { at ≤ length ts.now }
    requires shallow { level ≤ MAX_LEVELS }
    requires form { command_form_of (look_of (drop at ts.now)) ≡ Found a_command.Compound }
    ensures { Reads level end ACommand ts.now at result }
{
    let (body, behind) = match compound(alloc, level, end, ts, at) {
        Ok(found) => found,
        Err(fault) => return Err(fault),
    };
    let (redirects, last) = match redirects(alloc, level, end, ts, behind) {
        Ok(found) => found,
        Err(fault) => return Err(fault),
    };
    Ok((
        redirected(alloc, place(ts, at, end), body, redirects)?,
        last,
    ))
}

/// `redirect*`
fn redirects(
    alloc: Global,
    level: usize,
    end: u32,
    ts: &[Token],
    at: usize,
) -> Result<(List<Redirect>, usize), ParseFault>
    requires { at ≤ length ts.now }
    ensures { Reads level end Redirects ts.now at result }
{
    let mut all = List::new(alloc);
    let mut now = at;
    while now < ts.len() {
        let which = match redirection(look(ts, now)) {
            Some(which) => which,
            None => return Ok((all, now)),
        };
        all.add(which)?;
        now += 1;
    }
    Ok((all, now))
}

/// `{ block } | ( block ) | if | for | while | case`
#[cycle(parser)]
fn compound(
    alloc: Global,
    level: usize,
    end: u32,
    ts: &[Token],
    at: usize,
) -> Result<(Boxed<Command>, usize), ParseFault>
    requires within { at ≤ length ts.now }
    requires shallow { level ≤ MAX_LEVELS }
    ensures { Reads level end Compound ts.now at result }
{
    match compound_form(look(ts, at)) {
        CompoundForm::Subshell => subshell(alloc, level, end, ts, at),
        CompoundForm::If => branches(alloc, level, end, ts, at),
        CompoundForm::For => for_loop(alloc, level, end, ts, at),
        CompoundForm::Case => choice(alloc, level, end, ts, at),
        CompoundForm::Loop { until } => turns(alloc, level, end, ts, at, until),
        CompoundForm::Braces => group(alloc, level, end, ts, at),
    }
}

/// `( block )`
#[cycle(parser)]
fn subshell(
    alloc: Global,
    level: usize,
    end: u32,
    ts: &[Token],
    at: usize,
) -> Result<(Boxed<Command>, usize), ParseFault>
    requires within { at ≤ length ts.now }
    requires shallow { level ≤ MAX_LEVELS }
    requires form { compound_form_of (look_of (drop at ts.now)) ≡ a_compound.Subshell }
    ensures { Reads level end Compound ts.now at result }
{
    let first = match opens(level, end, ts, at, Look::LeftParen) {
        Ok(next) => next,
        Err(fault) => return Err(fault),
    };
    let (body, behind) = match block(alloc, level + 1, end, ts, first) {
        Ok(found) => found,
        Err(fault) => return Err(fault),
    };
    let next = match take(level, end, ts, behind, Look::RightParen) {
        Ok(next) => next,
        Err(fault) => return Err(fault),
    };
    let tree = Boxed::new(
        alloc,
        Command::Sub {
            at: place(ts, at, end),
            body,
        },
    )?;
    Ok((tree, next))
}

/// `{ block }`, with nothing of its own in the tree
#[cycle(parser)]
fn group(
    alloc: Global,
    level: usize,
    end: u32,
    ts: &[Token],
    at: usize,
) -> Result<(Boxed<Command>, usize), ParseFault>
    requires within { at ≤ length ts.now }
    requires shallow { level ≤ MAX_LEVELS }
    requires form { compound_form_of (look_of (drop at ts.now)) ≡ a_compound.Braces }
    ensures { Reads level end Compound ts.now at result }
{
    braces(alloc, level, end, ts, at)
}

/// `{ block }`
#[cycle(parser)]
pub(super) fn braces(
    alloc: Global,
    level: usize,
    end: u32,
    ts: &[Token],
    at: usize,
) -> Result<(Boxed<Command>, usize), ParseFault>
    requires within { at ≤ length ts.now }
    requires shallow { level ≤ MAX_LEVELS }
    ensures { Reads level end Braces ts.now at result }
{
    let first = match opens(level, end, ts, at, Look::Keyword(Reserved::Open)) {
        Ok(next) => next,
        Err(fault) => return Err(fault),
    };
    let (tree, behind) = match block(alloc, level + 1, end, ts, first) {
        Ok(found) => found,
        Err(fault) => return Err(fault),
    };
    let next = match take(level, end, ts, behind, Look::Keyword(Reserved::Close)) {
        Ok(next) => next,
        Err(fault) => return Err(fault),
    };
    Ok((tree, next))
}
