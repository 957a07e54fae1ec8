//! What is said of a scenario: of the part of a report on it, or of why there is none.

ghost use Rattle.std.specs.Prelude.{◌≡◌, ◌++◌, OnOk};
ghost use Rattle.std.specs.List.{flat_map};
ghost use Rattle.scenario_runs.specs.Runs.{scenario_run};
ghost use Rattle.explanation.specs.GroupTexts.{place_unless};
ghost use Rattle.explanation.specs.Sections.{all_groups, part_verdict, whole_text, part_text, no_start_text, over_text};
ghost use Rattle.explanation.specs.Sections.{one_text, is_places, unexamined_text};

use crate::counting::put_numbered;
use crate::groups_text::{put_groups, put_places};
use crate::head::{put_counts, put_head, verdict_words};
use crate::lines_left::put_unreached;
use crate::outcome_text::put_outcome;
use checker_input::{Packages, Sources};
use command_words::View;
use dpkg_scenarios::{Judged, Scenario, joint_verdict};
use outcome_groups::{Group, groups};
use outcome_report::ReportPart;
use scenario_runs::Job;
use script_names::{Bytes, Memory};
use std::alloc::Global;

/// What the outcomes of a part make of the status.
pub fn part_verdict(part: &ReportPart) -> u8
    ensures { result ≡ part_verdict part.now }
{
    joint_verdict(part.has_failed(), part.is_unfinished())
}

// Adds what is said of groups, failures first.
#[tactic(auto, unfolding(crate::specs::Sections::all_groups))]
fn put_all_groups(
    alloc: Global,
    text: &mut Bytes,
    sources: &Sources,
    job: &Job,
    part: &ReportPart,
    groups: &[Group],
) -> Result<(), Memory>
    ensures { OnOk result
        (text.new ≡ text.old ++ all_groups sources.now (scenario_run job.now) part.now groups.now) }
{
    put_groups(alloc, text, sources, job, part, 1, groups)?;
    put_groups(alloc, text, sources, job, part, 2, groups)?;
    put_groups(alloc, text, sources, job, part, 0, groups)
}

// Adds all that is said of a part, whose outcomes are in these groups.
#[tactic(auto, unfolding(crate::specs::Sections::whole_text))]
fn put_whole(
    alloc: Global,
    text: &mut Bytes,
    sources: &Sources,
    packages: &Packages,
    job: &Job,
    part: &ReportPart,
    groups: &[Group],
) -> Result<(), Memory>
    ensures { OnOk result
        (text.new ≡ text.old ++ whole_text sources.now packages.now (scenario_run job.now) part.now groups.now) }
{
    put_head(
        text,
        sources,
        packages,
        part.scenario,
        verdict_words(part_verdict(part)),
    )?;
    put_counts(text, part.entries.as_slice())?;
    put_all_groups(alloc, text, sources, job, part, groups)?;
    put_unreached(alloc, text, sources, part.scenario, part.entries.as_slice())?;
    text.extend(b"\n")
}

// Adds one outcome, behind the first line of its scenario.
#[tactic(auto, unfolding(crate::specs::Sections::one_text))]
fn put_one(
    alloc: Global,
    text: &mut Bytes,
    sources: &Sources,
    packages: &Packages,
    job: &Job,
    part: &ReportPart,
    number: u32,
) -> Result<(), Memory>
    ensures { OnOk result
        (text.new ≡ text.old ++ one_text sources.now packages.now (scenario_run job.now) part.now number) }
{
    put_head(
        text,
        sources,
        packages,
        part.scenario,
        verdict_words(part_verdict(part)),
    )?;
    put_outcome(alloc, text, sources, job, part, number)?;
    text.extend(b"\n")
}

/// Adds what is said of a part of a report, whose runs are those of the job: all, which a page shows too; a line for each
/// place alone; or one outcome.
pub fn put_part(
    alloc: Global,
    text: &mut Bytes,
    sources: &Sources,
    packages: &Packages,
    view: View,
    job: &Job,
    part: &ReportPart,
) -> Result<(), Memory>
    ensures { OnOk result
        (text.new ≡ text.old ++ part_text sources.now packages.now view (scenario_run job.now) part.now) }
{
    match view {
        View::Text | View::Html => {
            let groups = groups(alloc, part)?;
            put_whole(alloc, text, sources, packages, job, part, groups.as_slice())
        }
        View::Places => {
            let groups = groups(alloc, part)?;
            put_places(text, sources, part.scenario, groups.as_slice())
        }
        View::Outcome { number } => put_one(alloc, text, sources, packages, job, part, number),
    }
}

// Whether a view is of places alone.
fn is_places(view: View) -> bool
    ensures { result ≡ is_places view }
{
    match view {
        View::Places => true,
        View::Text | View::Html | View::Outcome { .. } => false,
    }
}

// Adds that a scenario was not examined, and why.
#[tactic(auto, unfolding(crate::specs::Sections::unexamined_text))]
fn put_unexamined(
    text: &mut Bytes,
    sources: &Sources,
    packages: &Packages,
    view: View,
    scenario: Scenario,
    why: &[u8],
) -> Result<(), Memory>
    ensures { OnOk result
        (text.new ≡ text.old ++ unexamined_text sources.now packages.now view scenario why.now) }
{
    if is_places(view) {
        return Ok(());
    }
    put_head(text, sources, packages, scenario, b"NOT EXAMINED")?;
    text.extend(why)?;
    text.extend(b"\n")
}

/// Adds that a scenario has no start tree.
pub fn put_no_start(
    text: &mut Bytes,
    sources: &Sources,
    packages: &Packages,
    view: View,
    scenario: Scenario,
) -> Result<(), Memory>
    ensures { OnOk result (text.new ≡ text.old ++ no_start_text sources.now packages.now view scenario) }
{
    put_unexamined(
        text,
        sources,
        packages,
        view,
        scenario,
        b"No tree of files has what the premises say and the package needs.\n",
    )
}

/// Adds that the runs of a scenario have more different traces than the limit.
pub fn put_over(
    alloc: Global,
    text: &mut Bytes,
    sources: &Sources,
    packages: &Packages,
    view: View,
    scenario: Scenario,
    limit: u32,
) -> Result<(), Memory>
    ensures { OnOk result
        (text.new ≡ text.old ++ over_text sources.now packages.now view scenario limit) }
{
    let mut why = Bytes::new(alloc);
    put_numbered(
        &mut why,
        b"There are more than ",
        limit,
        b" outcomes. More are looked at with --limit; a base that says more leaves fewer.\n",
    )?;
    put_unexamined(text, sources, packages, view, scenario, why.as_slice())
}
