//! `case` (XCU 2.9.4.3 Case Conditional Construct).

ghost use Rattle.std.specs.Prelude.{◌≡◌, ◌≤◌, length, drop};
ghost use Rattle.shell_grammar.specs.Look.{look as look_of};
ghost use Rattle.shell_grammar.specs.Forms.{compound_form as compound_form_of};
ghost use Rattle.shell_grammar.specs.Grammar.{Compound, CaseRest, CaseArms, Patterns, ArmBody};
ghost use Rattle.shell_grammar.specs.declared.form.CompoundForm.TheVariants as a_compound;
ghost use Rattle.shell_parser.specs.Reads.{Reads, CaseArmRead};

use crate::forms::ends_arm;
use crate::looks::look;
use crate::parser::lists::members;
use crate::parser::words::word;
use crate::tokens::{MAX_LEVELS, arm_begin, newlines, opens, place, stands, take};
use crate::trees::{one_word, seq_of};
use script_names::{Boxed, List};
use shell_grammar::{Look, ParseFault, Reserved};
use shell_lexer::Token;
use shell_syntax::{CaseArm, Command, Word, with_case_arm};
use std::alloc::Global;

/// `case word nl* in nl* ( arm ;; nl* )* [ arm ] esac`
#[cycle(parser)]
pub(super) fn choice(
    alloc: Global,
    level: usize,
    end: u32,
    ts: &[Token],
    at: usize,
) -> Result<(Boxed<Command>, usize), ParseFault>
    requires within { at ≤ length ts.now }
    requires shallow { level ≤ MAX_LEVELS }
    requires form { compound_form_of (look_of (drop at ts.now)) ≡ a_compound.Case }
    ensures { Reads level end Compound ts.now at result }
{
    let first = match opens(level, end, ts, at, Look::Keyword(Reserved::Case)) {
        Ok(next) => next,
        Err(fault) => return Err(fault),
    };
    let ((subject, arms), behind) = match case_rest(alloc, level + 1, end, ts, first) {
        Ok(found) => found,
        Err(fault) => return Err(fault),
    };
    let next = match take(level, end, ts, behind, Look::Keyword(Reserved::Esac)) {
        Ok(next) => next,
        Err(fault) => return Err(fault),
    };
    let tree = Boxed::new(
        alloc,
        Command::Case {
            at: place(ts, at, end),
            subject,
            arms,
        },
    )?;
    Ok((tree, next))
}

/// `word nl* in nl* ( arm ;; nl* )* [ arm ]`
#[cycle(parser)]
fn case_rest(
    alloc: Global,
    level: usize,
    end: u32,
    ts: &[Token],
    at: usize,
) -> Result<((Word, List<CaseArm>), usize), ParseFault>
    requires within { at ≤ length ts.now }
    requires shallow { level ≤ MAX_LEVELS }
    ensures { Reads level end CaseRest ts.now at result }
{
    let (subject, behind) = match word(alloc, level, end, ts, at) {
        Ok(found) => found,
        Err(fault) => return Err(fault),
    };
    let next = newlines(level, end, ts, behind);
    let first = match take(level, end, ts, next, Look::Keyword(Reserved::In)) {
        Ok(next) => next,
        Err(fault) => return Err(fault),
    };
    let start = newlines(level, end, ts, first);
    let (arms, stop) = match case_arms(alloc, level, end, ts, start) {
        Ok(found) => found,
        Err(fault) => return Err(fault),
    };
    Ok(((subject, arms), stop))
}

/// `( arm ;; nl* )* [ arm ]`, before `esac`
#[cycle(parser)]
fn case_arms(
    alloc: Global,
    level: usize,
    end: u32,
    ts: &[Token],
    at: usize,
) -> Result<(List<CaseArm>, usize), ParseFault>
    requires within { at ≤ length ts.now }
    requires shallow { level ≤ MAX_LEVELS }
    ensures { Reads level end CaseArms ts.now at result }
{
    let mut arms = List::new(alloc);
    let mut now = at;
    while !stands(ts, now, Look::Keyword(Reserved::Esac)) {
        let ((patterns, body), behind) = match case_arm(alloc, level, end, ts, now) {
            Ok(found) => found,
            Err(fault) => return Err(fault),
        };
        arms = with_case_arm(arms, patterns, body)?;
        if !stands(ts, behind, Look::DoubleSemi) {
            return Ok((arms, behind));
        }
        now = newlines(level, end, ts, behind + 1);
    }
    Ok((arms, now))
}

/// `[ ( ] word ( | word )* ) nl* [ list ]`: an arm's patterns and its body.
#[cycle(parser)]
fn case_arm(
    alloc: Global,
    level: usize,
    end: u32,
    ts: &[Token],
    at: usize,
) -> Result<((List<Word>, Boxed<Command>), usize), ParseFault>
    requires within { at ≤ length ts.now }
    requires shallow { level ≤ MAX_LEVELS }
    ensures { CaseArmRead level end ts.now at result }
{
    let first = arm_begin(level, end, ts, at);
    let (patterns, behind) = match patterns(alloc, level, end, ts, first) {
        Ok(found) => found,
        Err(fault) => return Err(fault),
    };
    let next = match take(level, end, ts, behind, Look::RightParen) {
        Ok(next) => next,
        Err(fault) => return Err(fault),
    };
    let start = newlines(level, end, ts, next);
    let (body, stop) = match arm_body(alloc, level, end, ts, start) {
        Ok(found) => found,
        Err(fault) => return Err(fault),
    };
    Ok(((patterns, body), stop))
}

/// `word ( | word )*`
#[cycle(parser)]
fn patterns(
    alloc: Global,
    level: usize,
    end: u32,
    ts: &[Token],
    at: usize,
) -> Result<(List<Word>, usize), ParseFault>
    requires within { at ≤ length ts.now }
    requires shallow { level ≤ MAX_LEVELS }
    ensures { Reads level end Patterns ts.now at result }
{
    let (first, behind) = match word(alloc, level, end, ts, at) {
        Ok(found) => found,
        Err(fault) => return Err(fault),
    };
    let mut words = one_word(alloc, first)?;
    let mut now = behind;
    while stands(ts, now, Look::Bar) {
        let (next, behind) = match word(alloc, level, end, ts, now + 1) {
            Ok(found) => found,
            Err(fault) => return Err(fault),
        };
        words.add(next)?;
        now = behind;
    }
    Ok((words, now))
}

/// `[ list ]`, before `;;` or `esac`
#[cycle(parser)]
fn arm_body(
    alloc: Global,
    level: usize,
    end: u32,
    ts: &[Token],
    at: usize,
) -> Result<(Boxed<Command>, usize), ParseFault>
    requires within { at ≤ length ts.now }
    requires shallow { level ≤ MAX_LEVELS }
    ensures { Reads level end ArmBody ts.now at result }
{
    if ends_arm(look(ts, at)) {
        let none = seq_of(alloc, List::new(alloc))?;
        return Ok((none, at));
    }
    members(alloc, level, end, ts, at)
}
