//! `if` (XCU 2.9.4.4 The if Conditional Construct).

ghost use Rattle.std.specs.Prelude.{◌≡◌, ◌≤◌, length, drop};
ghost use Rattle.shell_grammar.specs.Look.{look as look_of};
ghost use Rattle.shell_grammar.specs.Forms.{compound_form as compound_form_of};
ghost use Rattle.shell_grammar.specs.Grammar.{Compound, Clause};
ghost use Rattle.shell_grammar.specs.declared.form.CompoundForm.TheVariants as a_compound;
ghost use Rattle.shell_parser.specs.Reads.{Reads, ArmRead};

use crate::parser::lists::block;
use crate::tokens::{MAX_LEVELS, opens, place, stands, take};
use crate::trees::one_if_arm;
use script_names::{Boxed, List};
use shell_grammar::{Look, ParseFault, Reserved};
use shell_lexer::Token;
use shell_syntax::{Command, IfArm, with_if_arm};
use std::alloc::Global;

/// `if block then block ( elif block then block )* [ else block ] fi`
#[cycle(parser)]
pub(super) fn branches(
    alloc: Global,
    level: usize,
    end: u32,
    ts: &[Token],
    at: usize,
) -> Result<(Boxed<Command>, usize), ParseFault>
    requires within { at ≤ length ts.now }
    requires shallow { level ≤ MAX_LEVELS }
    requires form { compound_form_of (look_of (drop at ts.now)) ≡ a_compound.If }
    ensures { Reads level end Compound ts.now at result }
{
    let first = match opens(level, end, ts, at, Look::Keyword(Reserved::If)) {
        Ok(next) => next,
        Err(fault) => return Err(fault),
    };
    let ((arms, otherwise), behind) = match clause(alloc, level + 1, end, ts, first) {
        Ok(found) => found,
        Err(fault) => return Err(fault),
    };
    let next = match take(level, end, ts, behind, Look::Keyword(Reserved::Fi)) {
        Ok(next) => next,
        Err(fault) => return Err(fault),
    };
    let tree = Boxed::new(
        alloc,
        Command::If {
            at: place(ts, at, end),
            arms,
            otherwise,
        },
    )?;
    Ok((tree, next))
}

/// The arms of an `if` behind its first word, and what is behind `else`.
#[cycle(parser)]
fn clause(
    alloc: Global,
    level: usize,
    end: u32,
    ts: &[Token],
    at: usize,
) -> Result<((List<IfArm>, Option<Boxed<Command>>), usize), ParseFault>
    requires within { at ≤ length ts.now }
    requires shallow { level ≤ MAX_LEVELS }
    ensures { Reads level end Clause ts.now at result }
{
    let ((cond, body), behind) = match if_arm(alloc, level, end, ts, at) {
        Ok(found) => found,
        Err(fault) => return Err(fault),
    };
    let mut arms = one_if_arm(alloc, cond, body)?;
    let mut now = behind;
    while stands(ts, now, Look::Keyword(Reserved::Elif)) {
        let ((cond, body), behind) = match if_arm(alloc, level, end, ts, now + 1) {
            Ok(found) => found,
            Err(fault) => return Err(fault),
        };
        arms = with_if_arm(arms, cond, body)?;
        now = behind;
    }
    if stands(ts, now, Look::Keyword(Reserved::Else)) {
        let (otherwise, behind) = match block(alloc, level, end, ts, now + 1) {
            Ok(found) => found,
            Err(fault) => return Err(fault),
        };
        return Ok(((arms, Some(otherwise)), behind));
    }
    Ok(((arms, None), now))
}

/// `block then block`: an arm's condition and its body.
#[cycle(parser)]
fn if_arm(
    alloc: Global,
    level: usize,
    end: u32,
    ts: &[Token],
    at: usize,
) -> Result<((Boxed<Command>, Boxed<Command>), usize), ParseFault>
    requires within { at ≤ length ts.now }
    requires shallow { level ≤ MAX_LEVELS }
    ensures { ArmRead level end ts.now at result }
{
    let (cond, behind) = match block(alloc, level, end, ts, at) {
        Ok(found) => found,
        Err(fault) => return Err(fault),
    };
    let next = match take(level, end, ts, behind, Look::Keyword(Reserved::Then)) {
        Ok(next) => next,
        Err(fault) => return Err(fault),
    };
    let (body, last) = match block(alloc, level, end, ts, next) {
        Ok(found) => found,
        Err(fault) => return Err(fault),
    };
    Ok(((cond, body), last))
}
