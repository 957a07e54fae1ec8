//! What a page says of a scenario.

ghost use Rattle.std.specs.Prelude.{◌≡◌, ◌++◌, OnOk};
ghost use Rattle.scenario_runs.specs.Runs.{scenario_run};
ghost use Rattle.explanation_pages.specs.Parts.{counts_html, page_no_start, page_over, page_part, part_html, section_begin};
ghost use Rattle.explanation_pages.specs.Parts.{part_begin, unexamined_html};

use crate::details::{put_details, verdict_class};
use crate::joined::{put_five, put_nine, put_three};
use crate::scripts::put_tables;
use crate::shown_lines::put_pre;
use checker_input::{Packages, Sources};
use command_words::View;
use dpkg_scenarios::{Scenario, scenario_name};
use explanation::{part_verdict, put_counts, put_no_start, put_over, verdict_words};
use html_texts::push_html;
use outcome_groups::{Group, groups};
use outcome_report::{ReportEntry, ReportPart};
use scenario_runs::Job;
use script_names::{Bytes, Memory};
use std::alloc::Global;

// Adds the heading of a scenario, which ends in these words.
#[tactic(auto, unfolding(crate::specs::Parts::section_begin))]
fn put_section_begin(
    text: &mut Bytes,
    scenario: Scenario,
    class: &[u8],
    words: &[u8],
) -> Result<(), Memory>
    ensures { OnOk result (text.new ≡ text.old ++ section_begin scenario class.now words.now) }
{
    put_nine(
        text,
        b"<section id=\"",
        scenario_name(scenario).as_bytes(),
        b"\">\n<h2 class=\"",
        class,
        b"\">",
        scenario_name(scenario).as_bytes(),
        b": ",
        words,
        b"</h2>\n",
    )
}

// Adds the heading of a part.
#[tactic(auto, unfolding(crate::specs::Parts::part_begin))]
fn put_part_begin(text: &mut Bytes, part: &ReportPart) -> Result<(), Memory>
    ensures { OnOk result (text.new ≡ text.old ++ part_begin part.now) }
{
    let verdict = part_verdict(part);
    put_section_begin(
        text,
        part.scenario,
        verdict_class(verdict),
        verdict_words(verdict),
    )
}

// Adds how many outcomes there are, and how many end in each way.
#[tactic(auto, unfolding(crate::specs::Parts::counts_html))]
fn put_counts_line(alloc: Global, text: &mut Bytes, entries: &[ReportEntry]) -> Result<(), Memory>
    ensures { OnOk result (text.new ≡ text.old ++ counts_html entries.now) }
{
    let mut counts = Bytes::new(alloc);
    put_counts(&mut counts, entries)?;
    text.extend(b"<p>")?;
    push_html(alloc, text, counts.as_slice())?;
    text.extend(b"</p>\n")
}

// Adds all that is said of a part, whose outcomes are in these groups.
#[tactic(auto, unfolding(crate::specs::Parts::part_html))]
fn put_part(
    alloc: Global,
    text: &mut Bytes,
    sources: &Sources,
    turns: u32,
    job: &Job,
    part: &ReportPart,
    groups: &[Group],
) -> Result<(), Memory>
    ensures { OnOk result
        (text.new ≡ text.old ++ part_html sources.now turns (scenario_run job.now) part.now groups.now) }
{
    let mut begin = Bytes::new(alloc);
    put_part_begin(&mut begin, part)?;
    let mut counts = Bytes::new(alloc);
    put_counts_line(alloc, &mut counts, part.entries.as_slice())?;
    let mut details = Bytes::new(alloc);
    put_details(alloc, &mut details, sources, turns, job, part, groups)?;
    let mut tables = Bytes::new(alloc);
    put_tables(alloc, &mut tables, sources, part, groups)?;
    put_five(
        text,
        begin.as_slice(),
        counts.as_slice(),
        details.as_slice(),
        tables.as_slice(),
        b"</section>\n",
    )
}

/// Adds what is said of a part of a report, whose runs are those of the job, with so many turns of loops.
pub fn put_page_part(
    alloc: Global,
    text: &mut Bytes,
    sources: &Sources,
    turns: u32,
    job: &Job,
    part: &ReportPart,
) -> Result<(), Memory>
    ensures { OnOk result
        (text.new ≡ text.old ++ page_part sources.now turns (scenario_run job.now) part.now) }
{
    let groups = groups(alloc, part)?;
    put_part(alloc, text, sources, turns, job, part, groups.as_slice())
}

// Adds that a scenario was not examined, and why.
#[tactic(auto, unfolding(crate::specs::Parts::unexamined_html))]
fn put_unexamined(
    alloc: Global,
    text: &mut Bytes,
    scenario: Scenario,
    said: &[u8],
) -> Result<(), Memory>
    ensures { OnOk result (text.new ≡ text.old ++ unexamined_html scenario said.now) }
{
    let mut begin = Bytes::new(alloc);
    put_section_begin(&mut begin, scenario, b"undecided", b"NOT EXAMINED")?;
    let mut shown = Bytes::new(alloc);
    put_pre(alloc, &mut shown, said)?;
    put_three(text, begin.as_slice(), shown.as_slice(), b"</section>\n")
}

/// Adds that a scenario has no start tree.
pub fn put_page_no_start(
    alloc: Global,
    text: &mut Bytes,
    sources: &Sources,
    packages: &Packages,
    scenario: Scenario,
) -> Result<(), Memory>
    ensures { OnOk result (text.new ≡ text.old ++ page_no_start sources.now packages.now scenario) }
{
    let mut said = Bytes::new(alloc);
    put_no_start(&mut said, sources, packages, View::Text, scenario)?;
    put_unexamined(alloc, text, scenario, said.as_slice())
}

/// Adds that the runs of a scenario have more different traces than the limit.
pub fn put_page_over(
    alloc: Global,
    text: &mut Bytes,
    sources: &Sources,
    packages: &Packages,
    scenario: Scenario,
    limit: u32,
) -> Result<(), Memory>
    ensures { OnOk result
        (text.new ≡ text.old ++ page_over sources.now packages.now scenario limit) }
{
    let mut said = Bytes::new(alloc);
    put_over(
        alloc,
        &mut said,
        sources,
        packages,
        View::Text,
        scenario,
        limit,
    )?;
    put_unexamined(alloc, text, scenario, said.as_slice())
}
