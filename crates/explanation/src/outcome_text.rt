// What is said of one outcome of a scenario, by its number.
ghost use Rattle.std.specs.Prelude.{◌≡◌, ◌==◌, ◌++◌, OnOk};
ghost use Rattle.std.specs.Option.{option_copied};
ghost use Rattle.scenario_runs.specs.Runs.{scenario_run};
ghost use Rattle.explanation.specs.OutcomeTexts.{numbered, count_line, no_outcome, where_words, deed_line, mark_line};
ghost use Rattle.explanation.specs.OutcomeTexts.{all_acts, calls_text, acts_behind, course_text, trees_text};
ghost use Rattle.explanation.specs.OutcomeTexts.{ended_text, outcome_text};

use crate::counting::{put_counted, put_numbered};
use crate::courses::{put_calls, put_deed};
use crate::groups_text::{deeds_of, put_ending, put_settling, shown_run};
use crate::scripts::script_text;
use crate::spots::{Spot, put_spot, put_written, spot_of};
use crate::text_words::word_at;
use checker_input::Sources;
use dpkg_scenarios::Scenario;
use feature_trees::Value;
use outcome_groups::{GroupEnd, end_of};
use outcome_report::{ReportEntry, ReportPart};
use scenario_runs::{Job, ScriptCall};
use script_names::{Bytes, Mark, Memory};
use script_places::{deed_of_mark, position_of, script_words, work_words};
use shown_texts::push_number;
use std::alloc::Global;
use tree_pictures::{put_picture, put_shell_lines, put_whole_tree};
use utility_calls::deeds::Deed;

// The outcome of a number.
fn numbered(number: u32, entries: &[ReportEntry]) -> Option<&ReportEntry>
    ensures { option_copied result ≡ numbered number entries.now }
{
    entries.iter().find(|entry| entry.outcome.number == number)
}

// Adds how many outcomes there are, as the end of a line.
#[tactic(auto, unfolding(crate::specs::OutcomeTexts::count_line))]
fn put_count_line(text: &mut Bytes, entries: &[ReportEntry]) -> Result<(), Memory>
    ensures { OnOk result (text.new ≡ text.old ++ count_line entries.now) }
{
    put_counted(text, entries.len() as u64)?;
    text.extend(b"\n")
}

// Adds that there is no outcome of a number.
fn put_no_outcome(text: &mut Bytes, number: u32, entries: &[ReportEntry]) -> Result<(), Memory>
    ensures { OnOk result (text.new ≡ text.old ++ no_outcome number entries.now) }
{
    put_numbered(text, b"There is no outcome ", number, b" here: there are ")?;
    put_count_line(text, entries)
}

// Adds where an act is: in a script by its line, else in a step of dpkg.
fn put_where(text: &mut Bytes, sources: &Sources, spot: Spot) -> Result<(), Memory>
    ensures { OnOk result (text.new ≡ text.old ++ where_words sources.now spot) }
{
    match spot {
        Spot::InScript { side, script, at } => {
            let place = position_of(script_text(sources, side, script), at as usize);
            text.extend(script_words(side, script))?;
            text.extend(b", line ")?;
            push_number(text, place.line as u64)?;
            text.extend(b": ")
        }
        Spot::InFiles { work, .. } => {
            text.extend(work_words(work))?;
            text.extend(b": ")
        }
        Spot::Nowhere => Ok(()),
    }
}

// Adds the line of an act.
#[tactic(auto, unfolding(crate::specs::OutcomeTexts::deed_line))]
fn put_deed_line(
    text: &mut Bytes,
    sources: &Sources,
    scenario: Scenario,
    mark: Mark,
    deed: &Deed,
) -> Result<(), Memory>
    ensures { OnOk result (text.new ≡ text.old ++ deed_line sources.now scenario mark deed.now) }
{
    text.extend(b"      ")?;
    let spot = spot_of(scenario, Some(mark.site));
    put_where(text, sources, spot)?;
    put_deed(text, word_at(sources, spot), deed, mark.row)?;
    text.extend(b"\n")
}

// Adds the line of a mark, where its deed is known.
#[tactic(auto, unfolding(crate::specs::OutcomeTexts::mark_line))]
fn put_mark_line(
    text: &mut Bytes,
    sources: &Sources,
    scenario: Scenario,
    mark: Mark,
    deed: Option<&Deed>,
) -> Result<(), Memory>
    ensures { OnOk result (text.new ≡ text.old ++ mark_line sources.now scenario mark (option_copied deed.entry)) }
{
    match deed {
        Some(deed) => put_deed_line(text, sources, scenario, mark, deed),
        None => Ok(()),
    }
}

// Adds the lines of all acts.
fn put_all_acts(
    text: &mut Bytes,
    sources: &Sources,
    scenario: Scenario,
    trace: &[Mark],
    deeds: &[Deed],
) -> Result<(), Memory>
    ensures { OnOk result (text.new ≡ text.old ++ all_acts sources.now scenario deeds.now 0 trace.now) }
{
    for (i, mark) in trace.iter().enumerate() {
        put_mark_line(text, sources, scenario, *mark, deed_of_mark(deeds, i))?;
    }
    Ok(())
}

// Adds the calls behind a title.
#[tactic(auto, unfolding(crate::specs::OutcomeTexts::calls_text))]
fn put_titled_calls(text: &mut Bytes, title: &[u8], calls: &[ScriptCall]) -> Result<(), Memory>
    ensures { OnOk result (text.new ≡ text.old ++ calls_text title.now calls.now) }
{
    text.extend(title)?;
    put_calls(text, calls)
}

// Adds the acts behind a title.
#[tactic(auto, unfolding(crate::specs::OutcomeTexts::acts_behind))]
fn put_titled_acts(
    text: &mut Bytes,
    title: &[u8],
    sources: &Sources,
    scenario: Scenario,
    trace: &[Mark],
    deeds: &[Deed],
) -> Result<(), Memory>
    ensures { OnOk result
        (text.new ≡ text.old ++ acts_behind title.now sources.now scenario trace.now deeds.now) }
{
    text.extend(title)?;
    put_all_acts(text, sources, scenario, trace, deeds)
}

// Adds the calls and the acts.
fn put_course(
    text: &mut Bytes,
    sources: &Sources,
    scenario: Scenario,
    entry: &ReportEntry,
    deeds: &[Deed],
) -> Result<(), Memory>
    ensures { OnOk result (text.new ≡ text.old ++ course_text sources.now scenario entry.now deeds.now) }
{
    let calls = entry.replayed.calls.as_slice();
    let trace = entry.outcome.trace.as_slice();
    put_titled_calls(text, b"  The scripts that are called:\n", calls)?;
    put_titled_acts(text, b"  What is done:\n", sources, scenario, trace, deeds)
}

// Adds what the run makes of the tree, both trees, and how the first is made.
#[tactic(auto, unfolding(crate::specs::OutcomeTexts::trees_text))]
fn put_trees(alloc: Global, text: &mut Bytes, before: &Value, after: &Value) -> Result<(), Memory>
    ensures { OnOk result (text.new ≡ text.old ++ trees_text before.now after.now) }
{
    text.extend(b"  What the run makes of the tree (- taken away, ~ changed, + made):\n")?;
    put_picture(alloc, text, &[], before, after)?;
    text.extend(b"  The tree before:\n")?;
    put_whole_tree(alloc, text, before)?;
    text.extend(b"  The tree behind:\n")?;
    put_whole_tree(alloc, text, after)?;
    text.extend(
        b"  Shell lines that make the tree before in an empty folder, whose path is in root:\n",
    )?;
    put_shell_lines(alloc, text, before)
}

// Adds one outcome, by its end.
#[tactic(auto, unfolding(crate::specs::OutcomeTexts::ended_text))]
fn put_ended(
    alloc: Global,
    text: &mut Bytes,
    sources: &Sources,
    job: &Job,
    scenario: Scenario,
    end: GroupEnd,
    entry: &ReportEntry,
) -> Result<(), Memory>
    ensures { OnOk result
        (text.new ≡ text.old ++ ended_text sources.now (scenario_run job.now) scenario end entry.now) }
{
    let spot = spot_of(scenario, end.site);
    put_spot(text, sources, spot)?;
    put_ending(text, end.ending)?;
    text.extend(b"\n")?;
    put_written(alloc, text, sources, spot)?;
    put_settling(text, word_at(sources, spot), end.ending)?;
    let replayed = shown_run(alloc, job, &entry.outcome.shown)?;
    put_course(text, sources, scenario, entry, deeds_of(&replayed))?;
    put_trees(alloc, text, &entry.outcome.shown, &entry.replayed.after)
}

/// Adds what is said of the outcome of a number, or that there is none.
pub fn put_outcome(
    alloc: Global,
    text: &mut Bytes,
    sources: &Sources,
    job: &Job,
    part: &ReportPart,
    number: u32,
) -> Result<(), Memory>
    ensures { OnOk result
        (text.new ≡ text.old ++ outcome_text sources.now (scenario_run job.now) part.now number) }
{
    match numbered(number, part.entries.as_slice()) {
        None => put_no_outcome(text, number, part.entries.as_slice()),
        Some(entry) => {
            let end = end_of(alloc, part.scenario, entry)?;
            put_ended(alloc, text, sources, job, part.scenario, end, entry)
        }
    }
}
