// Outcomes, the parts of a report, and the report, from their values.
ghost use Rattle.std.specs.Prelude.{◌≡◌, [], IfOk};
ghost use Rattle.std.specs.Option.{option_and_then};
ghost use Rattle.serde_json.specs.View.{view, items_view};
ghost use Rattle.report_text.specs.Whole.{scenario_place};
ghost use Rattle.report_reader.specs.ReportRead.{outcome_in, replay_in, entry_in, entries_onto, part_in, from_place};
ghost use Rattle.report_reader.specs.ReportRead.{list_at, parts_onto, report_in};

use crate::clauses::clause_at;
use crate::members::{list_at, short, text_at};
use crate::pieces::{calls_at, ending_at, trace_at, tree_at};
use dpkg_scenarios::{Scenario, columns_of, scenario_named};
use outcome_report::{Replay, Report, ReportEntry, ReportPart};
use scenario_outcomes::Outcome;
use script_names::{List, Memory};
use serde_json::Value;
use std::alloc::Global;

// The outcome of a value, with its number.
fn outcome_in(alloc: Global, number: u32, value: &Value) -> Result<Option<Outcome>, Memory>
    ensures { IfOk result (λ found. found ≡ outcome_in number (view value.now)) }
{
    let ending = match ending_at(alloc, value, "result")? {
        Some(ending) => ending,
        None => return Ok(None),
    };
    let trace = match trace_at(alloc, value, "trace")? {
        Some(trace) => trace,
        None => return Ok(None),
    };
    let clause = match clause_at(alloc, value, "clause")? {
        Some(clause) => clause,
        None => return Ok(None),
    };
    match tree_at(alloc, value, "shown")? {
        Some(shown) => Ok(Some(Outcome {
            number,
            ending,
            trace,
            clause,
            shown,
        })),
        None => Ok(None),
    }
}

// The replay of a value: the ending and the trace are those of its outcome.
fn replay_in(alloc: Global, value: &Value) -> Result<Option<Replay>, Memory>
    ensures { IfOk result (λ found. found ≡ replay_in (view value.now)) }
{
    let ending = match ending_at(alloc, value, "result")? {
        Some(ending) => ending,
        None => return Ok(None),
    };
    let trace = match trace_at(alloc, value, "trace")? {
        Some(trace) => trace,
        None => return Ok(None),
    };
    let after = match tree_at(alloc, value, "after")? {
        Some(after) => after,
        None => return Ok(None),
    };
    match calls_at(alloc, value, "calls")? {
        Some(calls) => Ok(Some(Replay {
            ending,
            trace,
            after,
            calls,
        })),
        None => Ok(None),
    }
}

// The entry of a value, with its number.
fn entry_in(alloc: Global, number: u32, value: &Value) -> Result<Option<ReportEntry>, Memory>
    ensures { IfOk result (λ found. found ≡ entry_in number (view value.now)) }
{
    let outcome = match outcome_in(alloc, number, value)? {
        Some(outcome) => outcome,
        None => return Ok(None),
    };
    match replay_in(alloc, value)? {
        Some(replayed) => Ok(Some(ReportEntry {
            outcome,
            replayed,
            confirmed: true,
        })),
        None => Ok(None),
    }
}

// The entries of values, numbered from 1 on.
fn entries_of(alloc: Global, list: &[Value]) -> Result<Option<List<ReportEntry>>, Memory>
    ensures { IfOk result (λ found. found ≡ entries_onto 1 [] (items_view list.now)) }
{
    let mut entries = List::new(alloc);
    let mut number: u64 = 1;
    for value in list {
        let place = match short(number) {
            Some(place) => place,
            None => return Ok(None),
        };
        match entry_in(alloc, place, value)? {
            Some(entry) => entries.add(entry)?,
            None => return Ok(None),
        }
        number = u64::from(place) + 1;
    }
    Ok(Some(entries))
}

// The part of a value.
fn part_in(alloc: Global, value: &Value) -> Result<Option<ReportPart>, Memory>
    ensures { IfOk result (λ found. found ≡ part_in (view value.now)) }
{
    let name = match text_at(value, "name") {
        Some(name) => name,
        None => return Ok(None),
    };
    let scenario = match scenario_named(name) {
        Some(scenario) => scenario,
        None => return Ok(None),
    };
    let list = match list_at(value, "outcomes") {
        Some(list) => list,
        None => return Ok(None),
    };
    match entries_of(alloc, list)? {
        Some(entries) => Ok(Some(ReportPart { scenario, entries })),
        None => Ok(None),
    }
}

// The place of a scenario among all of them.
fn scenario_place(scenario: Scenario) -> u8
    ensures { result ≡ scenario_place scenario }
{
    columns_of(scenario).place
}

// The part of a value, where its scenario has this place or a later one.
fn part_from(alloc: Global, least: u32, value: &Value) -> Result<Option<ReportPart>, Memory>
    ensures { IfOk result
        (λ found. found ≡ option_and_then (from_place least) (part_in (view value.now))) }
{
    match part_in(alloc, value)? {
        Some(part) => {
            if least <= u32::from(scenario_place(part.scenario)) {
                Ok(Some(part))
            } else {
                Ok(None)
            }
        }
        None => Ok(None),
    }
}

// The parts of values, whose scenarios are different and in their order.
fn parts_of(alloc: Global, list: &[Value]) -> Result<Option<List<ReportPart>>, Memory>
    ensures { IfOk result (λ found. found ≡ parts_onto 0 [] (items_view list.now)) }
{
    let mut parts = List::new(alloc);
    let mut least: u32 = 0;
    for value in list {
        match part_from(alloc, least, value)? {
            Some(part) => {
                least = u32::from(scenario_place(part.scenario)) + 1;
                parts.add(part)?;
            }
            None => return Ok(None),
        }
    }
    Ok(Some(parts))
}

// The report of a value.
pub(crate) fn report_in(alloc: Global, value: &Value) -> Result<Option<Report>, Memory>
    ensures { IfOk result (λ found. found ≡ report_in (view value.now)) }
{
    let list = match list_at(value, "scenarios") {
        Some(list) => list,
        None => return Ok(None),
    };
    match parts_of(alloc, list)? {
        Some(parts) => Ok(Some(Report { parts })),
        None => Ok(None),
    }
}
