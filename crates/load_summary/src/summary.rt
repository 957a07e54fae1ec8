ghost use Rattle.std.specs.Prelude.{◌≡◌, ◌++◌, IfOk, OnOk};
ghost use Rattle.std.specs.List.{flat_map};
ghost use Rattle.std.specs.Fmt.{decimal};
ghost use Rattle.shown_texts.specs.Lines.{line};
ghost use Rattle.outcome_report.specs.declared.outcome_report.Report.{Report};
ghost use Rattle.load_summary.specs.Counts.{way_name};
ghost use Rattle.load_summary.specs.Endings.{HasEndings, endings_verdict};
ghost use Rattle.load_summary.specs.Summary.{count_text, counts_text, scenario_line, lines_text, summary_text};

use crate::counts::{EndWay, count};
use crate::endings::{ScenarioEndings, endings_verdict};
use dpkg_scenarios::{Ending, scenario_name};
use script_names::{Bytes, List, Memory};
use shown_texts::push_number;
use std::alloc::Global;

// The name of a way to end.
fn way_name(way: EndWay) -> &'static [u8]
    ensures { result.now ≡ way_name way }
{
    match way {
        EndWay::Done => b"done",
        EndWay::Failed => b"failed",
        EndWay::Incomplete => b"incomplete",
        EndWay::Bound => b"bound",
    }
}

// Adds a way to end, and how many of the endings are of it.
#[tactic(auto, unfolding(crate::specs::Summary::count_text))]
fn put_count(text: &mut Bytes, way: EndWay, endings: &[Ending]) -> Result<(), Memory>
    ensures { OnOk result (text.new ≡ text.old ++ count_text way endings.now) }
{
    text.extend(b" ")?;
    text.extend(way_name(way))?;
    text.extend(b" ")?;
    push_number(text, count(way, endings))
}

// Adds each way to end.
#[tactic(auto, unfolding(crate::specs::Summary::counts_text))]
fn put_counts(text: &mut Bytes, endings: &[Ending]) -> Result<(), Memory>
    ensures { OnOk result (text.new ≡ text.old ++ counts_text endings.now) }
{
    put_count(text, EndWay::Done, endings)?;
    put_count(text, EndWay::Failed, endings)?;
    put_count(text, EndWay::Incomplete, endings)?;
    put_count(text, EndWay::Bound, endings)
}

// Adds the line of a scenario.
#[tactic(auto, unfolding(crate::specs::Summary::scenario_line))]
fn put_scenario(text: &mut Bytes, scenario: &ScenarioEndings) -> Result<(), Memory>
    ensures { OnOk result (text.new ≡ text.old ++ scenario_line scenario.now) }
{
    text.extend(scenario_name(scenario.scenario).as_bytes())?;
    text.extend(b" outcomes ")?;
    push_number(text, scenario.endings.len() as u64)?;
    put_counts(text, scenario.endings.as_slice())?;
    text.extend(b"\n")
}

// Adds the line of each scenario.
fn put_scenarios(text: &mut Bytes, scenarios: &[ScenarioEndings]) -> Result<(), Memory>
    ensures { OnOk result (text.new ≡ text.old ++ flat_map scenario_line scenarios.now) }
{
    for scenario in scenarios {
        put_scenario(text, scenario)?;
    }
    Ok(())
}

// Adds the line of a word with a number behind it.
fn put_numbered(text: &mut Bytes, word: &[u8], number: u32) -> Result<(), Memory>
    ensures { OnOk result (text.new ≡ text.old ++ line (word.now ++ decimal number)) }
{
    text.extend(word)?;
    push_number(text, u64::from(number))?;
    text.extend(b"\n")
}

// The summary, by the endings.
#[tactic(auto, unfolding(crate::specs::Summary::lines_text))]
fn render_endings(
    alloc: Global,
    number: u32,
    scenarios: &[ScenarioEndings],
) -> Result<Bytes, Memory>
    ensures { IfOk result (λ text. text ≡ lines_text number scenarios.now (endings_verdict scenarios.now)) }
{
    let mut text = Bytes::new(alloc);
    put_numbered(&mut text, b"load ", number)?;
    put_scenarios(&mut text, scenarios)?;
    put_numbered(&mut text, b"status ", u32::from(endings_verdict(scenarios)))?;
    Ok(text)
}

/// The summary of each report on the made package of this number that has these endings: the number, a line for each
/// scenario, and the verdict.
pub fn render_load(
    alloc: Global,
    number: u32,
    scenarios: &List<ScenarioEndings>,
) -> Result<Bytes, Memory>
    ensures { IfOk result (λ text. (report : Report) → HasEndings report scenarios.now
        → text ≡ summary_text number report) }
{
    let text = render_endings(alloc, number, scenarios.as_slice())?;
    Ok(text)
}
