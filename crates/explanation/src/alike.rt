// Groups that differ in the place alone are told together.
ghost use Rattle.std.specs.Prelude.{◌≡◌, ◌++◌, length, OnOk};
ghost use Rattle.std.specs.List.{flat_map};
ghost use Rattle.explanation.specs.AlikeGroups.{further_line, further_text, further_texts, further_unless, is_first};
ghost use Rattle.explanation.specs.AlikeGroups.{count_end, is_further, place_text, titled_place, together, word_of};

use crate::counting::put_counted;
use crate::scripts::script_text;
use crate::spots::{Spot, put_written, spot_of};
use crate::text_words::word_at;
use crate::told_text::put_told;
use checker_input::Sources;
use dpkg_scenarios::Scenario;
use outcome_groups::{Group, end_alike, same_end};
use script_names::{Bytes, Memory};
use script_places::position_of;
use shown_texts::push_number;
use std::alloc::Global;

/// The first word of the command at a group's place.
pub fn word_of<'a>(sources: &'a Sources, scenario: Scenario, group: &Group) -> &'a [u8]
    ensures { result.now ≡ word_of sources.now scenario group.now }
{
    word_at(sources, spot_of(scenario, group.end.site))
}

// Whether the outcomes of groups end alike at commands of the same name in the same step.
fn together(sources: &Sources, scenario: Scenario, a: &Group, b: &Group) -> bool
    ensures { result ≡ together sources.now scenario a.now b.now }
{
    end_alike(&a.end, &b.end) && word_of(sources, scenario, a) == word_of(sources, scenario, b)
}

/// Whether no group that is told together with this one stands before it.
pub fn is_first(sources: &Sources, scenario: Scenario, groups: &[Group], group: &Group) -> bool
    ensures { result ≡ is_first sources.now scenario groups.now group.now }
{
    let mut left = groups;
    while let [other, rest @ ..] = left {
        if together(sources, scenario, other, group) {
            return same_end(&other.end, &group.end);
        }
        left = rest;
    }
    true
}

/// Whether another group is told together with this one.
pub fn is_further(sources: &Sources, scenario: Scenario, group: &Group, other: &Group) -> bool
    ensures { result ≡ is_further sources.now scenario group.now other.now }
{
    together(sources, scenario, group, other) && !same_end(&group.end, &other.end)
}

// Adds where it is in its script, or which act among those on files.
fn put_place(text: &mut Bytes, sources: &Sources, spot: Spot) -> Result<(), Memory>
    ensures { OnOk result (text.new ≡ text.old ++ place_text sources.now spot) }
{
    match spot {
        Spot::InScript { side, script, at } => {
            let place = position_of(script_text(sources, side, script), at as usize);
            push_number(text, place.line as u64)?;
            text.extend(b":")?;
            push_number(text, place.column as u64)
        }
        Spot::InFiles { at, .. } => {
            text.extend(b"act ")?;
            push_number(text, u64::from(at))
        }
        Spot::Nowhere => Ok(()),
    }
}

// Adds a place behind a title.
#[tactic(auto, unfolding(crate::specs::AlikeGroups::titled_place))]
fn put_titled_place(
    text: &mut Bytes,
    title: &[u8],
    sources: &Sources,
    spot: Spot,
) -> Result<(), Memory>
    ensures { OnOk result (text.new ≡ text.old ++ titled_place title.now sources.now spot) }
{
    text.extend(title)?;
    put_place(text, sources, spot)
}

// Adds how many outcomes end there, as the end of a line.
#[tactic(auto, unfolding(crate::specs::AlikeGroups::count_end))]
fn put_count_end(text: &mut Bytes, count: u64) -> Result<(), Memory>
    ensures { OnOk result (text.new ≡ text.old ++ count_end count) }
{
    text.extend(b" (")?;
    put_counted(text, count)?;
    text.extend(b"):\n")
}

// Adds the line of a further place.
fn put_further_line(
    text: &mut Bytes,
    sources: &Sources,
    spot: Spot,
    count: u64,
) -> Result<(), Memory>
    ensures { OnOk result (text.new ≡ text.old ++ further_line sources.now spot count) }
{
    put_titled_place(text, b"  The same at ", sources, spot)?;
    put_count_end(text, count)
}

// Adds a further place: what is written there, and on which systems.
#[tactic(auto, unfolding(crate::specs::AlikeGroups::further_text))]
fn put_further(
    alloc: Global,
    text: &mut Bytes,
    sources: &Sources,
    scenario: Scenario,
    group: &Group,
) -> Result<(), Memory>
    ensures { OnOk result (text.new ≡ text.old ++ further_text sources.now scenario group.now) }
{
    let spot = spot_of(scenario, group.end.site);
    put_further_line(text, sources, spot, group.members.len() as u64)?;
    put_written(alloc, text, sources, spot)?;
    put_told(alloc, text, group.exactly, group.boxes.as_slice())
}

// Adds the same, if it is told together with a group.
#[tactic(auto, unfolding(crate::specs::AlikeGroups::further_unless))]
fn put_unless(
    alloc: Global,
    text: &mut Bytes,
    sources: &Sources,
    scenario: Scenario,
    group: &Group,
    other: &Group,
) -> Result<(), Memory>
    ensures { OnOk result
        (text.new ≡ text.old ++ further_unless sources.now scenario group.now other.now) }
{
    if is_further(sources, scenario, group, other) {
        return put_further(alloc, text, sources, scenario, other);
    }
    Ok(())
}

/// Adds all further places of a group.
pub fn put_all_further(
    alloc: Global,
    text: &mut Bytes,
    sources: &Sources,
    scenario: Scenario,
    group: &Group,
    groups: &[Group],
) -> Result<(), Memory>
    ensures { OnOk result
        (text.new ≡ text.old ++ further_texts sources.now scenario group.now groups.now) }
{
    for other in groups {
        put_unless(alloc, text, sources, scenario, group, other)?;
    }
    Ok(())
}
