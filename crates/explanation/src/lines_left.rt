// The lines of scripts that no outcome of a part reaches.
ghost use Rattle.std.specs.Prelude.{◌≡◌, ◌++◌, IfOk, OnOk};
ghost use Rattle.std.specs.List.{flat_map};
ghost use Rattle.explanation.specs.LinesLeft.{between, call_left, calls_left, entry_left, is_alone, is_call_of, left_at, left_by};
ghost use Rattle.explanation.specs.LinesLeft.{lines_line, lines_text, lines_words};
ghost use Rattle.explanation.specs.LinesLeft.{script_lines, side_lines, unreached_head, unreached_lines, unreached_text};

use crate::scripts::{put_script_file, script_text};
use checker_input::Sources;
use dpkg_scenarios::{Ending, Scenario, ScriptKind, Scripts, Side, scenario_name};
use outcome_groups::{same_script, same_side};
use outcome_report::ReportEntry;
use scenario_runs::{CallEnd, ScriptCall};
use script_names::{Bytes, List, Memory};
use script_places::{CallLeft, Lines, unreached};
use shown_texts::push_number;
use std::alloc::Global;

// Where a call ended that has no status, in an outcome that ends so.
fn left_at(ending: Ending) -> CallLeft
    ensures { result ≡ left_at ending }
{
    match ending {
        Ending::Done(_) | Ending::Failed(_) => CallLeft::Through,
        Ending::Incomplete(_, site) => CallLeft::EndedAt(site.at),
        Ending::Bound(site) => CallLeft::EndedAt(site.at),
    }
}

// How a call ended in an outcome that ends so.
fn left_by(ending: Ending, how: CallEnd) -> CallLeft
    ensures { result ≡ left_by ending how }
{
    match how {
        CallEnd::Ok | CallEnd::Failed => CallLeft::Through,
        CallEnd::Ended => left_at(ending),
    }
}

/// Whether there is no old package.
pub fn is_alone(texts: &Option<Scripts<Bytes>>) -> bool
    ensures { result ≡ is_alone texts.now }
{
    match texts {
        Some(_) => false,
        None => true,
    }
}

// Whether a call is one of this script of one of the packages.
fn is_call_of(sources: &Sources, side: Side, script: ScriptKind, call: &ScriptCall) -> bool
    ensures { result ≡ is_call_of sources.now side script call.now }
{
    same_script(script, call.script) && (is_alone(&sources.old_texts) || same_side(side, call.side))
}

// Adds how a call ended, if it is one of this script.
fn add_call(
    calls: &mut List<CallLeft>,
    sources: &Sources,
    side: Side,
    script: ScriptKind,
    ending: Ending,
    call: &ScriptCall,
) -> Result<(), Memory>
    ensures { OnOk result (calls.new ≡ calls.old ++ call_left sources.now side script ending call.now) }
{
    if is_call_of(sources, side, script, call) {
        return calls.add(left_by(ending, call.how));
    }
    Ok(())
}

// Adds how the calls of a script ended in an outcome.
fn add_entry(
    calls: &mut List<CallLeft>,
    sources: &Sources,
    side: Side,
    script: ScriptKind,
    entry: &ReportEntry,
) -> Result<(), Memory>
    ensures { OnOk result (calls.new ≡ calls.old ++ entry_left sources.now side script entry.now) }
{
    for call in entry.replayed.calls.as_slice() {
        add_call(calls, sources, side, script, entry.outcome.ending, call)?;
    }
    Ok(())
}

// How the calls of a script ended in all outcomes.
fn calls_left(
    alloc: Global,
    sources: &Sources,
    side: Side,
    script: ScriptKind,
    entries: &[ReportEntry],
) -> Result<List<CallLeft>, Memory>
    ensures { IfOk result (λ calls. calls ≡ calls_left sources.now side script entries.now) }
{
    let mut calls = List::new(alloc);
    for entry in entries {
        add_entry(&mut calls, sources, side, script, entry)?;
    }
    Ok(calls)
}

// Adds one line, or several.
#[tactic(auto, unfolding(crate::specs::LinesLeft::lines_words))]
fn put_lines_words(text: &mut Bytes, lines: Lines) -> Result<(), Memory>
    ensures { OnOk result (text.new ≡ text.old ++ lines_words lines) }
{
    if lines.first == lines.last {
        text.extend(b"line ")?;
        return push_number(text, lines.first as u64);
    }
    text.extend(b"lines ")?;
    push_number(text, lines.first as u64)?;
    text.extend(b" to ")?;
    push_number(text, lines.last as u64)
}

// Adds a text between two others.
#[tactic(auto, unfolding(crate::specs::LinesLeft::between))]
fn put_between(text: &mut Bytes, before: &[u8], said: &[u8], behind: &[u8]) -> Result<(), Memory>
    ensures { OnOk result (text.new ≡ text.old ++ between before.now said.now behind.now) }
{
    text.extend(before)?;
    text.extend(said)?;
    text.extend(behind)
}

// Adds that something is not reached in a scenario.
#[tactic(auto, unfolding(crate::specs::LinesLeft::unreached_head))]
fn put_unreached_head(text: &mut Bytes, scenario: Scenario) -> Result<(), Memory>
    ensures { OnOk result (text.new ≡ text.old ++ unreached_head scenario) }
{
    put_between(
        text,
        b"Not reached in any outcome of ",
        scenario_name(scenario).as_bytes(),
        b": ",
    )
}

// Adds that lines are not reached.
#[tactic(auto, unfolding(crate::specs::LinesLeft::lines_line))]
fn put_lines_line(
    text: &mut Bytes,
    sources: &Sources,
    scenario: Scenario,
    side: Side,
    script: ScriptKind,
    lines: Lines,
) -> Result<(), Memory>
    ensures { OnOk result (text.new ≡ text.old ++ lines_line sources.now scenario side script lines) }
{
    text.extend(b"\n")?;
    put_unreached_head(text, scenario)?;
    put_script_file(text, sources, side, script)?;
    text.extend(b", ")?;
    put_lines_words(text, lines)?;
    text.extend(b"\n")
}

// Adds the same, where some lines are known to be so.
fn put_lines(
    text: &mut Bytes,
    sources: &Sources,
    scenario: Scenario,
    side: Side,
    script: ScriptKind,
    lines: Option<Lines>,
) -> Result<(), Memory>
    ensures { OnOk result (text.new ≡ text.old ++ lines_text sources.now scenario side script lines) }
{
    match lines {
        Some(lines) => put_lines_line(text, sources, scenario, side, script, lines),
        None => Ok(()),
    }
}

/// The lines of one script that are not reached, where some are known to be so.
pub fn unreached_lines(
    alloc: Global,
    sources: &Sources,
    entries: &[ReportEntry],
    side: Side,
    script: ScriptKind,
) -> Result<Option<Lines>, Memory>
    ensures { IfOk result (λ lines. lines ≡ unreached_lines sources.now entries.now side script) }
{
    let calls = calls_left(alloc, sources, side, script, entries)?;
    unreached(alloc, script_text(sources, side, script), calls.as_slice())
}

// Adds the lines of one script that are not reached.
#[tactic(auto, unfolding(crate::specs::LinesLeft::script_lines))]
fn put_script_lines(
    alloc: Global,
    text: &mut Bytes,
    sources: &Sources,
    scenario: Scenario,
    entries: &[ReportEntry],
    side: Side,
    script: ScriptKind,
) -> Result<(), Memory>
    ensures { OnOk result (text.new ≡ text.old ++ script_lines sources.now scenario entries.now side script) }
{
    let lines = unreached_lines(alloc, sources, entries, side, script)?;
    put_lines(text, sources, scenario, side, script, lines)
}

// Adds those of the scripts of a package.
#[tactic(auto, unfolding(crate::specs::LinesLeft::side_lines))]
fn put_side_lines(
    alloc: Global,
    text: &mut Bytes,
    sources: &Sources,
    scenario: Scenario,
    entries: &[ReportEntry],
    side: Side,
) -> Result<(), Memory>
    ensures { OnOk result (text.new ≡ text.old ++ side_lines sources.now scenario entries.now side) }
{
    put_script_lines(
        alloc,
        text,
        sources,
        scenario,
        entries,
        side,
        ScriptKind::Preinst,
    )?;
    put_script_lines(
        alloc,
        text,
        sources,
        scenario,
        entries,
        side,
        ScriptKind::Postinst,
    )?;
    put_script_lines(
        alloc,
        text,
        sources,
        scenario,
        entries,
        side,
        ScriptKind::Prerm,
    )?;
    put_script_lines(
        alloc,
        text,
        sources,
        scenario,
        entries,
        side,
        ScriptKind::Postrm,
    )
}

/// Adds the lines of all scripts that no outcome reaches.
#[tactic(auto, unfolding(crate::specs::LinesLeft::unreached_text))]
pub fn put_unreached(
    alloc: Global,
    text: &mut Bytes,
    sources: &Sources,
    scenario: Scenario,
    entries: &[ReportEntry],
) -> Result<(), Memory>
    ensures { OnOk result (text.new ≡ text.old ++ unreached_text sources.now scenario entries.now) }
{
    put_side_lines(alloc, text, sources, scenario, entries, Side::New)?;
    if is_alone(&sources.old_texts) {
        return Ok(());
    }
    put_side_lines(alloc, text, sources, scenario, entries, Side::Old)
}
