// The clause of a value.
ghost use Rattle.std.specs.Prelude.{◌≡◌, IfOk};
ghost use Rattle.std.specs.Option.{option_and_then};
ghost use Rattle.serde_json.specs.Find.{get};
ghost use Rattle.serde_json.specs.View.{view};
ghost use Rattle.report_reader.specs.ReportRead.{clause_with, clause_from, clause_in};

use crate::members::{lines_at, number_at};
use report_text::is_representable_clause;
use script_names::{List, Memory};
use serde_json::Value;
use std::alloc::Global;
use tree_clauses::{Clause, ClauseFault, Var, print_clause, read_clause};

// The clause that this text tells.
fn clause_with(alloc: Global, text: &[u8]) -> Result<Option<Clause>, Memory>
    ensures { IfOk result (λ found. found ≡ clause_with text.now) }
{
    match read_clause(alloc, text) {
        Ok(clause) => {
            is_representable_clause(&clause);
            Ok(Some(clause))
        }
        Err(ClauseFault::Bad) => Ok(None),
        Err(ClauseFault::Memory) => Err(Memory),
    }
}

// The clause of two variables and the lines of its literals.
fn clause_from(alloc: Global, start: u32, now: u32, lines: &[u8]) -> Result<Option<Clause>, Memory>
    ensures { IfOk result (λ found. found ≡ clause_from start now lines.now) }
{
    let head = Clause {
        literals: List::new(alloc),
        start: Var(start),
        now: Var(now),
    };
    let mut text = print_clause(alloc, &head)?;
    text.extend(lines)?;
    clause_with(alloc, text.as_slice())
}

// The clause of a value.
fn clause_in(alloc: Global, value: &Value) -> Result<Option<Clause>, Memory>
    ensures { IfOk result (λ found. found ≡ clause_in (view value.now)) }
{
    let start = match number_at(value, "start") {
        Some(start) => start,
        None => return Ok(None),
    };
    let now = match number_at(value, "now") {
        Some(now) => now,
        None => return Ok(None),
    };
    match lines_at(alloc, value, "literals")? {
        Some(lines) => clause_from(alloc, start, now, lines.as_slice()),
        None => Ok(None),
    }
}

// The clause at a key.
pub(crate) fn clause_at(alloc: Global, value: &Value, key: &str) -> Result<Option<Clause>, Memory>
    ensures { IfOk result
        (λ found. found ≡ option_and_then clause_in (get key.now (view value.now))) }
{
    match value.get(key) {
        Some(clause) => clause_in(alloc, clause),
        None => Ok(None),
    }
}
