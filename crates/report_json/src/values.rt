// The JSON value of a report, from the bottom up.
ghost use Rattle.std.specs.Prelude.{◌≡◌, All, IfOk, IsUtf8, map};
ghost use Rattle.serde_json.specs.Data.{array};
ghost use Rattle.serde_json.specs.View.{view, items_of};
ghost use Rattle.feature_trees.specs.TreeText.{first_version_line};
ghost use Rattle.tree_clauses.specs.ClauseText.{literal_content};
ghost use Rattle.report_text.specs.ReportText.{call_content};
ghost use Rattle.report_json.specs.ReportJson.{texts_json, clause_json, version_lines, entry_json, part_json};
ghost use Rattle.report_json.specs.ReportJson.{version_number, json_of};

use crate::texts::{call_value, literal_value, result_value, text_value, trace_value};
use dpkg_scenarios::scenario_name;
use feature_trees::{Value as Tree, Version, first_version_line, tree_lines};
use outcome_report::{Report, ReportEntry, ReportPart, verdict};
use report_text::is_representable_tree;
use scenario_runs::ScriptCall;
use script_names::{Bytes, List, Memory};
use serde_json::{Map, Value, put};
use std::alloc::Global;
use tree_clauses::{Clause, Literal};

// Texts.
fn texts_value(alloc: Global, texts: &[Bytes]) -> Result<Value, Memory>
    requires { All IsUtf8 texts.now }
    ensures { IfOk result (λ value. view value ≡ texts_json texts.now) }
{
    let mut list = Vec::new(alloc);
    for text in texts {
        let value = text_value(alloc, text.as_slice())?;
        list.push(value)?;
    }
    Ok(Value::Array(list))
}

// The lines of a tree, as the first version has them.
fn first_lines(alloc: Global, lines: &[Bytes]) -> Result<List<Bytes>, Memory>
    ensures { IfOk result (λ found. found ≡ map first_version_line lines.now) }
{
    let mut found = List::new(alloc);
    for line in lines {
        let first = first_version_line(alloc, line.as_slice())?;
        found.add(first)?;
    }
    Ok(found)
}

// The lines of a tree, as a version has them.
fn version_lines(alloc: Global, version: Version, tree: &Tree) -> Result<List<Bytes>, Memory>
    ensures { IfOk result (λ lines. lines ≡ version_lines version tree.now) }
{
    let lines = tree_lines(alloc, tree)?;
    match version {
        Version::First => first_lines(alloc, lines.as_slice()),
        Version::Second => Ok(lines),
    }
}

// A tree.
fn tree_value(alloc: Global, version: Version, tree: &Tree) -> Result<Value, Memory>
    ensures { IfOk result (λ value. view value ≡ texts_json (version_lines version tree.now)) }
{
    is_representable_tree(tree);
    let lines = version_lines(alloc, version, tree)?;
    let value = texts_value(alloc, lines.as_slice())?;
    Ok(value)
}

// Calls.
fn calls_value(alloc: Global, calls: &[ScriptCall]) -> Result<Value, Memory>
    ensures { IfOk result (λ value. view value ≡ texts_json (map call_content calls.now)) }
{
    let mut list = Vec::new(alloc);
    for call in calls {
        let value = call_value(alloc, call)?;
        list.push(value)?;
    }
    Ok(Value::Array(list))
}

// The literals of a clause.
fn literals_value(alloc: Global, version: Version, literals: &[Literal]) -> Result<Value, Memory>
    ensures { IfOk result
        (λ value. view value ≡ texts_json (map (literal_content version) literals.now)) }
{
    let mut list = Vec::new(alloc);
    for literal in literals {
        let value = literal_value(alloc, version, literal)?;
        list.push(value)?;
    }
    Ok(Value::Array(list))
}

// A clause.
#[tactic(auto, unfolding(crate::specs::ReportJson::clause_json))]
fn clause_value(alloc: Global, version: Version, clause: &Clause) -> Result<Value, Memory>
    ensures { IfOk result (λ value. view value ≡ clause_json version clause.entry.now) }
{
    let literals = literals_value(alloc, version, clause.literals.as_slice())?;
    let mut map = Map::new(alloc);
    put(&mut map, alloc, "literals", literals)?;
    put(&mut map, alloc, "now", Value::from(clause.now.0))?;
    put(&mut map, alloc, "start", Value::from(clause.start.0))?;
    Ok(Value::Object(map))
}

// An outcome and its replay.
#[tactic(auto, unfolding(crate::specs::ReportJson::entry_json))]
fn entry_value(alloc: Global, version: Version, entry: &ReportEntry) -> Result<Value, Memory>
    ensures { IfOk result (λ value. view value ≡ entry_json version entry.now) }
{
    let after = tree_value(alloc, version, &entry.replayed.after)?;
    let calls = calls_value(alloc, entry.replayed.calls.as_slice())?;
    let clause = clause_value(alloc, version, &entry.outcome.clause)?;
    let ending = result_value(alloc, entry.outcome.ending)?;
    let shown = tree_value(alloc, version, &entry.outcome.shown)?;
    let trace = trace_value(alloc, entry.outcome.trace.as_slice())?;
    let mut map = Map::new(alloc);
    put(&mut map, alloc, "after", after)?;
    put(&mut map, alloc, "calls", calls)?;
    put(&mut map, alloc, "clause", clause)?;
    put(&mut map, alloc, "confirmed", Value::from(entry.confirmed))?;
    put(&mut map, alloc, "number", Value::from(entry.outcome.number))?;
    put(&mut map, alloc, "result", ending)?;
    put(&mut map, alloc, "shown", shown)?;
    put(&mut map, alloc, "trace", trace)?;
    Ok(Value::Object(map))
}

// Outcomes and their replays.
fn entries_value(alloc: Global, version: Version, entries: &[ReportEntry]) -> Result<Value, Memory>
    ensures { IfOk result
        (λ value. view value ≡ array (items_of (map (entry_json version) entries.now))) }
{
    let mut list = Vec::new(alloc);
    for entry in entries {
        let value = entry_value(alloc, version, entry)?;
        list.push(value)?;
    }
    Ok(Value::Array(list))
}

// A scenario and its outcomes.
#[tactic(auto, unfolding(crate::specs::ReportJson::part_json))]
fn part_value(alloc: Global, version: Version, part: &ReportPart) -> Result<Value, Memory>
    ensures { IfOk result (λ value. view value ≡ part_json version part.now) }
{
    let name = Value::try_from_str(alloc, scenario_name(part.scenario))?;
    let outcomes = entries_value(alloc, version, part.entries.as_slice())?;
    let mut map = Map::new(alloc);
    put(&mut map, alloc, "name", name)?;
    put(&mut map, alloc, "outcomes", outcomes)?;
    Ok(Value::Object(map))
}

// Scenarios.
fn parts_value(alloc: Global, version: Version, parts: &[ReportPart]) -> Result<Value, Memory>
    ensures { IfOk result
        (λ value. view value ≡ array (items_of (map (part_json version) parts.now))) }
{
    let mut list = Vec::new(alloc);
    for part in parts {
        let value = part_value(alloc, version, part)?;
        list.push(value)?;
    }
    Ok(Value::Array(list))
}

// The number of a version.
fn version_number(version: Version) -> u32
    ensures { result ≡ version_number version }
{
    match version {
        Version::First => 1,
        Version::Second => 2,
    }
}

/// The JSON value of a report in a version.
#[tactic(auto, unfolding(crate::specs::ReportJson::json_of))]
pub fn report_value(alloc: Global, version: Version, report: &Report) -> Result<Value, Memory>
    ensures { IfOk result (λ value. view value ≡ json_of version report.now) }
{
    let scenarios = parts_value(alloc, version, report.parts.as_slice())?;
    let mut map = Map::new(alloc);
    put(
        &mut map,
        alloc,
        "colis",
        Value::from(version_number(version)),
    )?;
    put(&mut map, alloc, "scenarios", scenarios)?;
    put(&mut map, alloc, "verdict", Value::from(verdict(report)))?;
    Ok(Value::Object(map))
}
