//! Simple commands and definitions of functions (XCU 2.9.1 Simple Commands, 2.9.5 Function Definition Command).

ghost use Rattle.std.specs.Prelude.{◌≡◌, ◌≤◌, ◌<◌, length, drop, Some as Found};
ghost use Rattle.shell_grammar.specs.Look.{look as look_of};
ghost use Rattle.shell_grammar.specs.Forms.{command_form as command_form_of, item as item_of};
ghost use Rattle.shell_grammar.specs.Grammar.{ACommand};
ghost use Rattle.shell_grammar.specs.declared.look.Look.TheVariants.{LeftParen};
ghost use Rattle.shell_grammar.specs.declared.form.CommandForm.TheVariants as a_command;
ghost use Rattle.shell_parser.specs.Reads.{Reads, ItemsRead, ItemRead, DefinitionReads};

use crate::forms::{has_word, item};
use crate::looks::look;
use crate::parser::commands::braces;
use crate::parser::words::{assignment, word};
use crate::tokens::{MAX_LEVELS, newlines, place, stands, take, words_from};
use crate::trees::{
    defined, first_item, no_items, simple_of, with_assign, with_redirect, with_word,
};
use script_names::Boxed;
use shell_grammar::{Item, Items, Look, ParseFault};
use shell_lexer::Token;
use shell_syntax::Command;
use std::alloc::Global;

/// A command that begins with a name: the definition of a function, or a simple command.
#[cycle(parser)]
pub(super) fn named(
    alloc: Global,
    level: usize,
    end: u32,
    ts: &[Token],
    at: usize,
) -> Result<(Boxed<Command>, usize), ParseFault>
    requires within { at ≤ length ts.now }
    requires shallow { level ≤ MAX_LEVELS }
    requires form { command_form_of (look_of (drop at ts.now)) ≡ Found a_command.Named }
    ensures { Reads level end ACommand ts.now at result }
{
    let (first, behind) = match word(alloc, level, end, ts, at) {
        Ok(found) => found,
        Err(fault) => return Err(fault),
    };
    if stands(ts, behind, Look::LeftParen) {
        let (body, last) = match definition(alloc, level, end, ts, behind) {
            Ok(found) => found,
            Err(fault) => return Err(fault),
        };
        let tree = defined(alloc, place(ts, at, end), first, body)?;
        return Ok((tree, last));
    }
    let begun = first_item(alloc, words_from(ts, at), first)?;
    let (all, last) = match items(alloc, level, end, ts, behind, true, begun) {
        Ok(found) => found,
        Err(fault) => return Err(fault),
    };
    Ok((simple_of(alloc, place(ts, at, end), all)?, last))
}

/// `( ) nl* { block }`
#[cycle(parser)]
fn definition(
    alloc: Global,
    level: usize,
    end: u32,
    ts: &[Token],
    at: usize,
) -> Result<(Boxed<Command>, usize), ParseFault>
    requires within { at ≤ length ts.now }
    requires shallow { level ≤ MAX_LEVELS }
    requires looks { look_of (drop at ts.now) ≡ LeftParen }
    ensures { DefinitionReads level end ts.now at result }
{
    let first = match take(level, end, ts, at, Look::LeftParen) {
        Ok(next) => next,
        Err(fault) => return Err(fault),
    };
    let next = match take(level, end, ts, first, Look::RightParen) {
        Ok(next) => next,
        Err(fault) => return Err(fault),
    };
    let start = newlines(level, end, ts, next);
    let (tree, stop) = match braces(alloc, level, end, ts, start) {
        Ok(found) => found,
        Err(fault) => return Err(fault),
    };
    Ok((tree, stop))
}

/// A simple command that does not begin with a name.
#[cycle(parser)]
pub(super) fn simple(
    alloc: Global,
    level: usize,
    end: u32,
    ts: &[Token],
    at: usize,
) -> Result<(Boxed<Command>, usize), ParseFault>
    requires within { at ≤ length ts.now }
    requires shallow { level ≤ MAX_LEVELS }
    requires form { command_form_of (look_of (drop at ts.now)) ≡ Found a_command.Simple }
    ensures { Reads level end ACommand ts.now at result }
{
    let none = no_items(alloc, words_from(ts, at))?;
    let (all, last) = match items(alloc, level, end, ts, at, false, none) {
        Ok(found) => found,
        Err(fault) => return Err(fault),
    };
    Ok((simple_of(alloc, place(ts, at, end), all)?, last))
}

/// `( assign | redirect )*` and words with redirections, behind the items begun.
#[cycle(parser)]
fn items(
    alloc: Global,
    level: usize,
    end: u32,
    ts: &[Token],
    at: usize,
    behind_word: bool,
    begun: Items,
) -> Result<(Items, usize), ParseFault>
    requires within { at ≤ length ts.now }
    requires shallow { level ≤ MAX_LEVELS }
    ensures { ItemsRead level end behind_word begun ts.now at result }
{
    let mut all = begun;
    let mut now = at;
    let mut worded = behind_word;
    while now < ts.len() {
        let which = match item(worded, look(ts, now)) {
            Some(which) => which,
            None => return Ok((all, now)),
        };
        let (next, behind) = match one_item(alloc, level, end, ts, now, worded, which, all) {
            Ok(found) => found,
            Err(fault) => return Err(fault),
        };
        all = next;
        now = behind;
        worded = has_word(worded, which);
    }
    Ok((all, now))
}

/// The items begun and the item that stands there.
#[cycle(parser)]
fn one_item(
    alloc: Global,
    level: usize,
    end: u32,
    ts: &[Token],
    at: usize,
    behind_word: bool,
    which: Item,
    begun: Items,
) -> Result<(Items, usize), ParseFault>
    requires inside { at < length ts.now }
    requires shallow { level ≤ MAX_LEVELS }
    requires item { item_of behind_word (look_of (drop at ts.now)) ≡ Found which }
    ensures { ItemRead level end behind_word which begun ts.now at result }
{
    match which {
        Item::Assignment => {
            let (value, behind) = match assignment(alloc, level, end, ts, at) {
                Ok(found) => found,
                Err(fault) => return Err(fault),
            };
            Ok((with_assign(begun, value)?, behind))
        }
        Item::Redirection(redirect) => Ok((with_redirect(begun, redirect)?, at + 1)),
        Item::Word => {
            let (value, behind) = match word(alloc, level, end, ts, at) {
                Ok(found) => found,
                Err(fault) => return Err(fault),
            };
            Ok((with_word(begun, value)?, behind))
        }
    }
}
