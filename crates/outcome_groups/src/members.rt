// Which outcomes end alike.
ghost use Rattle.std.specs.Prelude.{◌≡◌, [], ◌++◌, IfOk, OnOk};
ghost use Rattle.std.specs.List.{list_any};
ghost use Rattle.outcome_groups.specs.Ends.{same_end};
ghost use Rattle.outcome_groups.specs.Groups.{different, ends_of, members_from, others_from, place_if, with_end};

use crate::ends::{GroupEnd, end_of, same_end};
use dpkg_scenarios::Scenario;
use outcome_report::ReportEntry;
use script_names::{List, Memory};
use std::alloc::Global;

/// How the outcomes of entries end.
pub(crate) fn ends_of(
    alloc: Global,
    scenario: Scenario,
    entries: &[ReportEntry],
) -> Result<List<GroupEnd>, Memory>
    ensures { IfOk result (λ ends. ends ≡ ends_of scenario entries.now) }
{
    let mut ends = List::with_room(alloc, entries.len())?;
    for entry in entries {
        ends.add(end_of(alloc, scenario, entry)?)?;
    }
    Ok(ends)
}

// Whether an end is there.
fn has_end(ends: &[GroupEnd], end: &GroupEnd) -> bool
    ensures { result ≡ list_any (same_end end.now) ends.now }
{
    let mut left = ends;
    while let [other, rest @ ..] = left {
        if same_end(end, other) {
            return true;
        }
        left = rest;
    }
    false
}

// One end more, unless it is there.
fn add_end(found: &mut List<GroupEnd>, end: &GroupEnd) -> Result<(), Memory>
    ensures { OnOk result (found.new ≡ with_end found.old end.now) }
{
    if has_end(found.as_slice(), end) {
        return Ok(());
    }
    found.add(*end)
}

/// The different ends, in the order in which they first come.
pub(crate) fn different(alloc: Global, ends: &[GroupEnd]) -> Result<List<GroupEnd>, Memory>
    ensures { IfOk result (λ found. found ≡ different [] ends.now) }
{
    let mut found = List::new(alloc);
    let mut left = ends;
    while let [end, rest @ ..] = left {
        add_end(&mut found, end)?;
        left = rest;
    }
    Ok(found)
}

/// The places of the outcomes that end so.
pub(crate) fn members_of(
    alloc: Global,
    end: &GroupEnd,
    ends: &[GroupEnd],
) -> Result<List<usize>, Memory>
    ensures { IfOk result (λ places. places ≡ members_from 0 end.now ends.now) }
{
    let mut places = List::new(alloc);
    for k in 0usize..ends.len() {
        add_if(&mut places, same_end(end, &ends[k]), k)?;
    }
    Ok(places)
}

/// The places of the outcomes that do not end so.
pub(crate) fn others_of(
    alloc: Global,
    end: &GroupEnd,
    ends: &[GroupEnd],
) -> Result<List<usize>, Memory>
    ensures { IfOk result (λ places. places ≡ others_from 0 end.now ends.now) }
{
    let mut places = List::new(alloc);
    for k in 0usize..ends.len() {
        add_if(&mut places, !same_end(end, &ends[k]), k)?;
    }
    Ok(places)
}

// One place more, where that is so.
fn add_if(places: &mut List<usize>, wanted: bool, k: usize) -> Result<(), Memory>
    ensures { OnOk result (places.new ≡ places.old ++ place_if wanted k []) }
{
    if wanted {
        return places.add(k);
    }
    Ok(())
}
