//! A group in a page.

ghost use Rattle.std.specs.Prelude.{◌≡◌, ◌++◌, IfOk, OnOk, length};
ghost use Rattle.std.specs.List.{flat_map};
ghost use Rattle.scenario_runs.specs.Runs.{scenario_run};
ghost use Rattle.explanation_pages.specs.Details.{all_details, body_html, details_head, details_if, first_command};
ghost use Rattle.explanation_pages.specs.Details.{further_words, group_class, group_html, heading_html, is_told_in, members_if};
ghost use Rattle.explanation_pages.specs.Details.{place_html, place_if, place_link, row_link, title_html, verdict_class};

use crate::anchors::{group_number, put_group_anchor, put_row_anchor};
use crate::commands::{put_command, put_outcome_line};
use crate::joined::{put_five, put_seven, put_three, put_two};
use crate::shown_lines::put_pre;
use crate::tables::{add_places, table_of};
use checker_input::Sources;
use dpkg_scenarios::{Scenario, ending_verdict};
use explanation::{
    Spot, has_verdict, is_first, is_further, put_counted, put_group_body, put_group_title,
    put_spot, script_text, spot_of,
};
use html_texts::push_html;
use outcome_groups::{Group, same_end};
use outcome_report::ReportPart;
use scenario_runs::Job;
use script_names::{Bytes, List, Memory};
use script_places::position_of;
use std::alloc::Global;

/// The class of what has this verdict.
pub fn verdict_class(verdict: u8) -> &'static [u8]
    ensures { result.now ≡ verdict_class verdict }
{
    match verdict {
        0 => b"well",
        1 => b"failing",
        _ => b"undecided",
    }
}

/// The class of a group.
pub fn group_class(group: &Group) -> &'static [u8]
    ensures { result.now ≡ group_class group.now }
{
    verdict_class(ending_verdict(group.end.ending))
}

// Adds a link to the line of a place in its table, where it is in a script.
fn put_row_link(
    text: &mut Bytes,
    sources: &Sources,
    scenario: Scenario,
    spot: Spot,
) -> Result<(), Memory>
    ensures { OnOk result (text.new ≡ text.old ++ row_link sources.now scenario spot) }
{
    match spot {
        Spot::InScript { side, script, at } => {
            let place = position_of(script_text(sources, side, script), at as usize);
            text.extend(b" href=\"#")?;
            put_row_anchor(text, table_of(sources, scenario, side, script), place.line)?;
            text.extend(b"\"")
        }
        Spot::InFiles { .. } | Spot::Nowhere => Ok(()),
    }
}

// Adds where a group's outcomes end, as a link that has the group's name.
#[tactic(auto, unfolding(crate::specs::Details::place_link))]
fn put_place_link(
    alloc: Global,
    text: &mut Bytes,
    sources: &Sources,
    part: &ReportPart,
    group: &Group,
) -> Result<(), Memory>
    ensures { OnOk result (text.new ≡ text.old ++ place_link sources.now part.now group.now) }
{
    let spot = spot_of(part.scenario, group.end.site);
    let mut place = Bytes::new(alloc);
    put_spot(&mut place, sources, spot)?;
    text.extend(b"<a id=\"")?;
    put_group_anchor(text, part.scenario, part.entries.as_slice(), group)?;
    text.extend(b"\"")?;
    put_row_link(text, sources, part.scenario, spot)?;
    text.extend(b">")?;
    push_html(alloc, text, place.as_slice())?;
    text.extend(b"</a>")
}

// Adds the command line that shows the first outcome of a group.
#[tactic(auto, unfolding(crate::specs::Details::first_command))]
fn put_first_command(
    alloc: Global,
    text: &mut Bytes,
    sources: &Sources,
    turns: u32,
    part: &ReportPart,
    group: &Group,
) -> Result<(), Memory>
    ensures { OnOk result
        (text.new ≡ text.old ++ first_command sources.now turns part.now group.now) }
{
    let number = group_number(part.entries.as_slice(), group);
    let mut line = Bytes::new(alloc);
    put_outcome_line(alloc, &mut line, sources, turns, part.scenario, number)?;
    put_command(alloc, text, line.as_slice())
}

// Adds the place of a group.
#[tactic(auto, unfolding(crate::specs::Details::place_html))]
fn put_place(
    alloc: Global,
    text: &mut Bytes,
    sources: &Sources,
    turns: u32,
    part: &ReportPart,
    group: &Group,
) -> Result<(), Memory>
    ensures { OnOk result (text.new ≡ text.old ++ place_html sources.now turns part.now group.now) }
{
    let mut link = Bytes::new(alloc);
    put_place_link(alloc, &mut link, sources, part, group)?;
    let mut command = Bytes::new(alloc);
    put_first_command(alloc, &mut command, sources, turns, part, group)?;
    put_five(
        text,
        b"<li>",
        link.as_slice(),
        b": ",
        command.as_slice(),
        b"</li>\n",
    )
}

// Whether a group is told where this one is.
fn is_told_in(sources: &Sources, scenario: Scenario, group: &Group, other: &Group) -> bool
    ensures { result ≡ is_told_in sources.now scenario group.now other.now }
{
    same_end(&group.end, &other.end) || is_further(sources, scenario, group, other)
}

// Adds the place of a group, if it is told where this one is.
#[tactic(auto, unfolding(crate::specs::Details::place_if))]
fn put_place_if(
    alloc: Global,
    text: &mut Bytes,
    sources: &Sources,
    turns: u32,
    part: &ReportPart,
    group: &Group,
    other: &Group,
) -> Result<(), Memory>
    ensures { OnOk result
        (text.new ≡ text.old ++ place_if sources.now turns part.now group.now other.now) }
{
    if is_told_in(sources, part.scenario, group, other) {
        return put_place(alloc, text, sources, turns, part, other);
    }
    Ok(())
}

// Adds the places of the groups that are told where this one is.
fn put_places(
    alloc: Global,
    text: &mut Bytes,
    sources: &Sources,
    turns: u32,
    part: &ReportPart,
    groups: &[Group],
    group: &Group,
) -> Result<(), Memory>
    ensures { OnOk result
        (text.new ≡ text.old ++ flat_map (place_if sources.now turns part.now group.now) groups.now) }
{
    for other in groups {
        put_place_if(alloc, text, sources, turns, part, group, other)?;
    }
    Ok(())
}

// Adds the first line of a group.
#[tactic(auto, unfolding(crate::specs::Details::title_html))]
fn put_title(
    alloc: Global,
    text: &mut Bytes,
    sources: &Sources,
    scenario: Scenario,
    group: &Group,
) -> Result<(), Memory>
    ensures { OnOk result (text.new ≡ text.old ++ title_html sources.now scenario group.now) }
{
    let mut title = Bytes::new(alloc);
    put_group_title(&mut title, sources, scenario, group)?;
    push_html(alloc, text, title.as_slice())
}

// Adds what stands below it.
#[tactic(auto, unfolding(crate::specs::Details::body_html))]
fn put_body(
    alloc: Global,
    text: &mut Bytes,
    sources: &Sources,
    job: &Job,
    part: &ReportPart,
    groups: &[Group],
    group: &Group,
) -> Result<(), Memory>
    ensures { OnOk result
        (text.new ≡ text.old ++ body_html sources.now (scenario_run job.now) part.now groups.now group.now) }
{
    let mut body = Bytes::new(alloc);
    put_group_body(alloc, &mut body, sources, job, part, groups, group)?;
    put_pre(alloc, text, body.as_slice())
}

// Adds the outcomes of a group, by their places in the part, if it is told together with this one.
fn add_members_if(
    places: &mut List<usize>,
    sources: &Sources,
    scenario: Scenario,
    group: &Group,
    other: &Group,
) -> Result<(), Memory>
    ensures { OnOk result
        (places.new ≡ places.old ++ members_if sources.now scenario group.now other.now) }
{
    if is_further(sources, scenario, group, other) {
        return add_places(places, other.members.as_slice());
    }
    Ok(())
}

// All outcomes that end at the further places.
fn further_members(
    alloc: Global,
    sources: &Sources,
    scenario: Scenario,
    groups: &[Group],
    group: &Group,
) -> Result<List<usize>, Memory>
    ensures { IfOk result
        (λ places. places ≡ flat_map (members_if sources.now scenario group.now) groups.now) }
{
    let mut places = List::new(alloc);
    for other in groups {
        add_members_if(&mut places, sources, scenario, group, other)?;
    }
    Ok(places)
}

// Adds how many outcomes end at the further places.
#[tactic(auto, unfolding(crate::specs::Details::further_words))]
fn put_further_words(alloc: Global, text: &mut Bytes, count: usize) -> Result<(), Memory>
    ensures { OnOk result (text.new ≡ text.old ++ further_words count) }
{
    if count == 0 {
        return Ok(());
    }
    let mut all = Bytes::new(alloc);
    put_counted(&mut all, count as u64)?;
    put_two(text, b"and the same elsewhere: ", all.as_slice())
}

// Adds the first line of a group, with what is told together.
#[tactic(auto, unfolding(crate::specs::Details::heading_html))]
fn put_heading(
    alloc: Global,
    text: &mut Bytes,
    sources: &Sources,
    scenario: Scenario,
    groups: &[Group],
    group: &Group,
) -> Result<(), Memory>
    ensures { OnOk result
        (text.new ≡ text.old ++ heading_html sources.now scenario groups.now group.now) }
{
    put_title(alloc, text, sources, scenario, group)?;
    let members = further_members(alloc, sources, scenario, groups, group)?;
    put_further_words(alloc, text, members.len())
}

// Adds the first line of a group, behind which the rest is folded, and the places of it.
#[tactic(auto, unfolding(crate::specs::Details::details_head))]
fn put_head(
    alloc: Global,
    text: &mut Bytes,
    sources: &Sources,
    turns: u32,
    part: &ReportPart,
    groups: &[Group],
    group: &Group,
) -> Result<(), Memory>
    ensures { OnOk result
        (text.new ≡ text.old ++ details_head sources.now turns part.now groups.now group.now) }
{
    let mut title = Bytes::new(alloc);
    put_heading(alloc, &mut title, sources, part.scenario, groups, group)?;
    let mut places = Bytes::new(alloc);
    put_places(alloc, &mut places, sources, turns, part, groups, group)?;
    put_seven(
        text,
        b"<details class=\"",
        group_class(group),
        b"\"><summary>",
        title.as_slice(),
        b"</summary>\n<p>Places where it ends so, each with the command line that shows its first outcome:</p>\n<ul>\n",
        places.as_slice(),
        b"</ul>\n",
    )
}

// Adds a group.
#[tactic(auto, unfolding(crate::specs::Details::group_html))]
fn put_group(
    alloc: Global,
    text: &mut Bytes,
    sources: &Sources,
    turns: u32,
    job: &Job,
    part: &ReportPart,
    groups: &[Group],
    group: &Group,
) -> Result<(), Memory>
    ensures { OnOk result
        (text.new ≡ text.old ++ group_html sources.now turns (scenario_run job.now) part.now groups.now group.now) }
{
    let mut head = Bytes::new(alloc);
    put_head(alloc, &mut head, sources, turns, part, groups, group)?;
    let mut body = Bytes::new(alloc);
    put_body(alloc, &mut body, sources, job, part, groups, group)?;
    put_three(text, head.as_slice(), body.as_slice(), b"</details>\n")
}

// Adds a group, if it has this verdict, and is not told together with one that stands before it.
#[tactic(auto, unfolding(crate::specs::Details::details_if))]
fn put_group_if(
    alloc: Global,
    text: &mut Bytes,
    sources: &Sources,
    turns: u32,
    job: &Job,
    part: &ReportPart,
    verdict: u8,
    groups: &[Group],
    group: &Group,
) -> Result<(), Memory>
    ensures { OnOk result (text.new ≡ text.old
        ++ details_if sources.now turns (scenario_run job.now) part.now verdict groups.now group.now) }
{
    if has_verdict(verdict, group) && is_first(sources, part.scenario, groups, group) {
        return put_group(alloc, text, sources, turns, job, part, groups, group);
    }
    Ok(())
}

// Adds the groups that have this verdict.
fn put_groups(
    alloc: Global,
    text: &mut Bytes,
    sources: &Sources,
    turns: u32,
    job: &Job,
    part: &ReportPart,
    verdict: u8,
    groups: &[Group],
) -> Result<(), Memory>
    ensures { OnOk result (text.new ≡ text.old
        ++ flat_map (details_if sources.now turns (scenario_run job.now) part.now verdict groups.now) groups.now) }
{
    for group in groups {
        put_group_if(
            alloc, text, sources, turns, job, part, verdict, groups, group,
        )?;
    }
    Ok(())
}

/// Adds all groups, failures first.
#[tactic(auto, unfolding(crate::specs::Details::all_details))]
pub fn put_details(
    alloc: Global,
    text: &mut Bytes,
    sources: &Sources,
    turns: u32,
    job: &Job,
    part: &ReportPart,
    groups: &[Group],
) -> Result<(), Memory>
    ensures { OnOk result
        (text.new ≡ text.old ++ all_details sources.now turns (scenario_run job.now) part.now groups.now) }
{
    put_groups(alloc, text, sources, turns, job, part, 1, groups)?;
    put_groups(alloc, text, sources, turns, job, part, 2, groups)?;
    put_groups(alloc, text, sources, turns, job, part, 0, groups)
}
