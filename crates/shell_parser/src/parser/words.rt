//! Words and assignments, with the scripts of their substitutions (XCU 2.6.3 Command Substitution, 2.9.1).

ghost use Rattle.std.specs.Prelude.{◌≡◌, ◌≤◌, length, drop};
ghost use Rattle.shell_grammar.specs.Look.{look as look_of};
ghost use Rattle.shell_grammar.specs.declared.look.Look.TheVariants.{Assignment};
ghost use Rattle.shell_parser.specs.Reads.{PartsRead, PartRead, WordRead, AssignRead};

use crate::assignments::{behind_equals, plain_part, raw_text, rest_of, up_to_equals};
use crate::parser::lists::script;
use crate::tokens::{MAX_LEVELS, place, word_parts};
use crate::trees::param_of;
use script_names::{Bytes, Copied, List};
use shell_grammar::ParseFault;
use shell_lexer::{RawPart, Token};
use shell_syntax::{Assign, Part, Word};
use std::alloc::Global;

/// A word NAME=.. as an assignment.
#[cycle(parser)]
pub(super) fn assignment(
    alloc: Global,
    level: usize,
    end: u32,
    ts: &[Token],
    at: usize,
) -> Result<(Assign, usize), ParseFault>
    requires within { at ≤ length ts.now }
    requires shallow { level ≤ MAX_LEVELS }
    requires looks { look_of (drop at ts.now) ≡ Assignment }
    ensures { AssignRead level end ts.now at result }
{
    let raws = match word_parts(ts, at) {
        Some(raws) => raws,
        None => return Err(ParseFault::Syntax {
            at: place(ts, at, end),
        }),
    };
    let text = raw_text(raws);
    let begun = plain_part(alloc, behind_equals(text), raws.len())?;
    let parts = match parts(alloc, level, rest_of(raws), begun) {
        Ok(parts) => parts,
        Err(fault) => return Err(fault),
    };
    let name = Bytes::from_slice(alloc, up_to_equals(text))?;
    let first = place(ts, at, end);
    let value = Word { at: first, parts };
    Ok((Assign { name, value }, at + 1))
}

/// A word, with the scripts of its substitutions.
#[cycle(parser)]
pub(super) fn word(
    alloc: Global,
    level: usize,
    end: u32,
    ts: &[Token],
    at: usize,
) -> Result<(Word, usize), ParseFault>
    requires within { at ≤ length ts.now }
    requires shallow { level ≤ MAX_LEVELS }
    ensures { WordRead level end ts.now at result }
{
    let raws = match word_parts(ts, at) {
        Some(raws) => raws,
        None => return Err(ParseFault::Syntax {
            at: place(ts, at, end),
        }),
    };
    let begun = List::with_room(alloc, raws.len())?;
    let parts = match parts(alloc, level, raws, begun) {
        Ok(parts) => parts,
        Err(fault) => return Err(fault),
    };
    let first = place(ts, at, end);
    Ok((Word { at: first, parts }, at + 1))
}

/// The parts of a word, behind those begun.
#[cycle(parser)]
fn parts(
    alloc: Global,
    level: usize,
    raws: &[RawPart],
    begun: List<Part>,
) -> Result<List<Part>, ParseFault>
    requires shallow { level ≤ MAX_LEVELS }
    ensures { PartsRead level begun raws.now result }
{
    let mut parts = begun;
    for raw in raws {
        let part = match part(alloc, level, raw) {
            Ok(part) => part,
            Err(fault) => return Err(fault),
        };
        parts.add(part)?;
    }
    Ok(parts)
}

/// A part of a word; the tokens of a substitution are a script one level further in, and end at its own offset.
#[cycle(parser)]
fn part(alloc: Global, level: usize, raw: &RawPart) -> Result<Part, ParseFault>
    requires shallow { level ≤ MAX_LEVELS }
    ensures { PartRead level raw.now result }
{
    match raw {
        RawPart::Plain(bytes) => Ok(Part::Plain(bytes.copy(alloc)?)),
        RawPart::Quoted(bytes) => Ok(Part::Quoted(bytes.copy(alloc)?)),
        RawPart::Param {
            key,
            default,
            quoted,
        } => Ok(param_of(alloc, key, default, *quoted)?),
        RawPart::All => Ok(Part::All),
        RawPart::Run { at, tokens, quoted } => {
            if level == MAX_LEVELS {
                return Err(ParseFault::Deep { at: *at });
            }
            let body = match script(alloc, level + 1, *at, tokens.as_slice()) {
                Ok(body) => body,
                Err(fault) => return Err(fault),
            };
            Ok(Part::Run {
                at: *at,
                body,
                quoted: *quoted,
            })
        }
    }
}
