ghost use Rattle.std.specs.Prelude.{◌≡◌, ◌++◌, length, take, IfOk, OnOk, OnErr};
ghost use Rattle.std.specs.List.{flat_map};
ghost use Rattle.report_text.specs.ReportText.{stop_text, result_text, outcome_line, trace_mark, trace_line};
ghost use Rattle.report_text.specs.ReportText.{confirmed_line, call_word, call_content, call_line, trees_text};
ghost use Rattle.report_text.specs.ReportText.{entry_text, heading, scenario_line, part_text, line_of_verdict};
ghost use Rattle.report_text.specs.ReportText.{verdict_line, report_text, pair_text};

use crate::place_text::put_places;
use crate::report_names::{call_end_name, confirmed_name, side_name, state_name};
use dpkg_scenarios::{Ending, Scenario, scenario_name, script_name};
use feature_trees::put_tree;
use outcome_report::{Report, ReportEntry, ReportPart, verdict};
use scenario_runs::ScriptCall;
use script_names::{Bytes, Mark, Memory, Reason, Site};
use shown_texts::{push_line, push_mark, push_number, push_reason, push_shown, push_site};
use std::alloc::Global;
use tree_clauses::put_clause;

/// Adds the line of a trace.
#[tactic(auto, unfolding(crate::specs::ReportText::trace_line))]
pub(crate) fn put_trace(text: &mut Bytes, trace: &[Mark]) -> Result<(), Memory>
    ensures { OnOk result (text.new ≡ text.old ++ trace_line trace.now) }
{
    text.extend(b"trace")?;
    for mark in trace {
        text.extend(b" ")?;
        push_mark(text, *mark)?;
    }
    text.extend(b"\n")
}

// Adds a reason and the site where it came.
fn put_stop(text: &mut Bytes, reason: Reason, site: Site) -> Result<(), Memory>
    ensures ok { OnOk result (text.new ≡ text.old ++ stop_text reason site) }
    ensures begins { OnErr result (take (length text.old) text.new ≡ text.old) }
{
    push_reason(text, reason)?;
    text.extend(b" ")?;
    push_site(text, site)
}

// Adds how a scenario ended, piece by piece.
fn put_ending(text: &mut Bytes, ending: Ending) -> Result<(), Memory>
    ensures ok { OnOk result (text.new ≡ text.old ++ result_text ending) }
    ensures begins { OnErr result (take (length text.old) text.new ≡ text.old) }
{
    match ending {
        Ending::Done(state) => {
            text.extend(b"done ")?;
            text.extend(state_name(state))
        }
        Ending::Failed(state) => {
            text.extend(b"failed ")?;
            text.extend(state_name(state))
        }
        Ending::Incomplete(reason, site) => {
            text.extend(b"incomplete ")?;
            put_stop(text, reason, site)
        }
        Ending::Bound(site) => {
            text.extend(b"bound ")?;
            push_site(text, site)
        }
    }
}

/// Adds how a scenario ended; for want of memory the text is as before.
pub fn put_result(text: &mut Bytes, ending: Ending) -> Result<(), Memory>
    ensures ok { OnOk result (text.new ≡ text.old ++ result_text ending) }
    ensures kept { OnErr result (text.new ≡ text.old) }
{
    let before = text.len();
    match put_ending(text, ending) {
        Ok(()) => Ok(()),
        Err(_) => {
            text.truncate(before);
            Err(Memory)
        }
    }
}

// Adds words, each behind a space.
fn put_words(text: &mut Bytes, words: &[Bytes]) -> Result<(), Memory>
    ensures ok { OnOk result (text.new ≡ text.old ++ flat_map call_word words.now) }
    ensures begins { OnErr result (take (length text.old) text.new ≡ text.old) }
{
    for word in words {
        text.extend(b" ")?;
        push_shown(text, word.as_slice())?;
    }
    Ok(())
}

// Adds a call, without the newline of its line.
fn put_call(text: &mut Bytes, call: &ScriptCall) -> Result<(), Memory>
    ensures ok { OnOk result (text.new ≡ text.old ++ call_content call.now) }
    ensures begins { OnErr result (take (length text.old) text.new ≡ text.old) }
{
    text.extend(b"call ")?;
    text.extend(side_name(call.side))?;
    text.extend(b" ")?;
    text.extend(script_name(call.script).as_bytes())?;
    put_words(text, call.words.as_slice())?;
    text.extend(b" ")?;
    text.extend(call_end_name(call.how))
}

/// A call of a script, without the newline of its line: whose it is, its name, its words, and how it ended.
pub fn print_call(alloc: Global, call: &ScriptCall) -> Result<Bytes, Memory>
    ensures { IfOk result (λ text. text ≡ call_content call.now) }
{
    let mut text = Bytes::new(alloc);
    put_call(&mut text, call)?;
    Ok(text)
}

// Adds the line of a call.
#[tactic(auto, unfolding(crate::specs::ReportText::call_line))]
fn put_call_line(text: &mut Bytes, call: &ScriptCall) -> Result<(), Memory>
    ensures ok { OnOk result (text.new ≡ text.old ++ call_line call.now) }
    ensures begins { OnErr result (take (length text.old) text.new ≡ text.old) }
{
    put_call(text, call)?;
    text.extend(b"\n")
}

// Adds the line of each call.
fn put_each_call(text: &mut Bytes, calls: &[ScriptCall]) -> Result<(), Memory>
    ensures ok { OnOk result (text.new ≡ text.old ++ flat_map call_line calls.now) }
    ensures begins { OnErr result (take (length text.old) text.new ≡ text.old) }
{
    for call in calls {
        put_call_line(text, call)?;
    }
    Ok(())
}

/// Adds the lines of calls of scripts; for want of memory the text is as before.
pub fn put_calls(text: &mut Bytes, calls: &[ScriptCall]) -> Result<(), Memory>
    ensures ok { OnOk result (text.new ≡ text.old ++ flat_map call_line calls.now) }
    ensures kept { OnErr result (text.new ≡ text.old) }
{
    let len = text.len();
    match put_each_call(text, calls) {
        Ok(()) => Ok(()),
        Err(_) => {
            text.truncate(len);
            Err(Memory)
        }
    }
}

/// Adds the line of an outcome's number and ending.
#[tactic(auto, unfolding(crate::specs::ReportText::outcome_line))]
pub(crate) fn put_outcome(text: &mut Bytes, entry: &ReportEntry) -> Result<(), Memory>
    ensures { OnOk result (text.new ≡ text.old ++ outcome_line entry.now) }
{
    text.extend(b"outcome ")?;
    push_number(text, u64::from(entry.outcome.number))?;
    text.extend(b" ")?;
    put_result(text, entry.outcome.ending)?;
    text.extend(b"\n")
}

#[tactic(auto, unfolding(crate::specs::ReportText::confirmed_line))]
fn put_confirmed(text: &mut Bytes, confirmed: bool) -> Result<(), Memory>
    ensures { OnOk result (text.new ≡ text.old ++ confirmed_line confirmed) }
{
    text.extend(b"confirmed ")?;
    push_line(text, confirmed_name(confirmed))
}

#[tactic(auto, unfolding(crate::specs::ReportText::trees_text))]
fn put_trees(alloc: Global, text: &mut Bytes, entry: &ReportEntry) -> Result<(), Memory>
    ensures { OnOk result (text.new ≡ text.old ++ trees_text entry.now) }
{
    push_line(text, b"shown")?;
    put_tree(alloc, text, &entry.outcome.shown)?;
    push_line(text, b"after")?;
    put_tree(alloc, text, &entry.replayed.after)
}

/// Adds the lines of an outcome and its replay.
#[tactic(auto, unfolding(crate::specs::ReportText::entry_text))]
pub(crate) fn put_entry(alloc: Global, text: &mut Bytes, entry: &ReportEntry) -> Result<(), Memory>
    ensures { OnOk result (text.new ≡ text.old ++ entry_text entry.now) }
{
    put_outcome(text, entry)?;
    put_trace(text, entry.outcome.trace.as_slice())?;
    put_confirmed(text, entry.confirmed)?;
    put_calls(text, entry.replayed.calls.as_slice())?;
    put_clause(alloc, text, &entry.outcome.clause)?;
    put_trees(alloc, text, entry)
}

fn put_entries(alloc: Global, text: &mut Bytes, entries: &[ReportEntry]) -> Result<(), Memory>
    ensures { OnOk result (text.new ≡ text.old ++ flat_map entry_text entries.now) }
{
    for entry in entries {
        put_entry(alloc, text, entry)?;
    }
    Ok(())
}

/// Adds the line of a scenario's name and how many outcomes it has.
pub(crate) fn put_heading(
    text: &mut Bytes,
    scenario: Scenario,
    outcomes: usize,
) -> Result<(), Memory>
    ensures { OnOk result (text.new ≡ text.old ++ heading scenario outcomes) }
{
    text.extend(b"scenario ")?;
    text.extend(scenario_name(scenario).as_bytes())?;
    text.extend(b" outcomes ")?;
    push_number(text, outcomes as u64)?;
    text.extend(b"\n")
}

/// Adds the same line of a part.
#[tactic(auto, unfolding(crate::specs::ReportText::scenario_line))]
pub(crate) fn put_scenario(text: &mut Bytes, part: &ReportPart) -> Result<(), Memory>
    ensures { OnOk result (text.new ≡ text.old ++ scenario_line part.now) }
{
    put_heading(text, part.scenario, part.entries.len())
}

#[tactic(auto, unfolding(crate::specs::ReportText::part_text))]
fn put_part(alloc: Global, text: &mut Bytes, part: &ReportPart) -> Result<(), Memory>
    ensures { OnOk result (text.new ≡ text.old ++ part_text part.now) }
{
    put_scenario(text, part)?;
    put_entries(alloc, text, part.entries.as_slice())?;
    put_places(alloc, text, part.entries.as_slice())
}

/// Adds the lines of scenarios, one after another.
pub(crate) fn put_parts(alloc: Global, text: &mut Bytes, parts: &[ReportPart]) -> Result<(), Memory>
    ensures { OnOk result (text.new ≡ text.old ++ flat_map part_text parts.now) }
{
    for part in parts {
        put_part(alloc, text, part)?;
    }
    Ok(())
}

/// Adds the line of a verdict.
pub(crate) fn put_verdict_line(text: &mut Bytes, verdict: u8) -> Result<(), Memory>
    ensures { OnOk result (text.new ≡ text.old ++ line_of_verdict verdict) }
{
    text.extend(b"verdict ")?;
    push_number(text, u64::from(verdict))?;
    text.extend(b"\n")
}

/// Adds the line of a report's verdict.
#[tactic(auto, unfolding(crate::specs::ReportText::verdict_line))]
pub(crate) fn put_verdict(text: &mut Bytes, report: &Report) -> Result<(), Memory>
    ensures { OnOk result (text.new ≡ text.old ++ verdict_line report.now) }
{
    put_verdict_line(text, verdict(report))
}

/// The text of a report.
#[tactic(auto, unfolding(crate::specs::ReportText::report_text))]
pub fn render_text(alloc: Global, report: &Report) -> Result<Bytes, Memory>
    ensures { IfOk result (λ text. text ≡ report_text report.now) }
{
    let mut text = Bytes::new(alloc);
    push_line(&mut text, b"colis report 2")?;
    put_parts(alloc, &mut text, report.parts.as_slice())?;
    put_verdict(&mut text, report)?;
    Ok(text)
}

/// The text of a report on a pair of packages, or on a package that is configured twice: that of a report, but for its
/// first line.
#[tactic(auto, unfolding(crate::specs::ReportText::pair_text))]
pub fn render_pair(alloc: Global, report: &Report) -> Result<Bytes, Memory>
    ensures { IfOk result (λ text. text ≡ pair_text report.now) }
{
    let mut text = Bytes::new(alloc);
    push_line(&mut text, b"colis pair 1")?;
    put_parts(alloc, &mut text, report.parts.as_slice())?;
    put_verdict(&mut text, report)?;
    Ok(text)
}
