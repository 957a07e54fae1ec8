// The places where the outcomes of a scenario end that aren't done, counted.
ghost use Rattle.std.specs.Prelude.{◌≡◌, ◌<◌, ◌-◌, ◌^◌, ◌++◌, IfOk, OnOk};
ghost use Rattle.std.specs.List.{filter_map};
ghost use Rattle.report_text.specs.Places.{unsited, sited, failed_at, end_place, entry_place, end_places};
ghost use Rattle.report_text.specs.Places.{place_counts};
ghost use Rattle.report_text.specs.Counting.{as_list, count_in, add_place};

use dpkg_scenarios::Ending;
use indexmap::IndexMap;
use outcome_report::ReportEntry;
use script_names::{Copied, List, Mark, Memory, Site};
use std::alloc::Global;

/// How an outcome ends that isn't done.
#[derive(Clone, Copy, Debug, PartialEq, Eq, PartialOrd, Ord, Hash)]
pub enum EndKind {
    Failed,
    Incomplete,
    Bound,
}

impl Copied for EndKind {
    fn copy(&self, _alloc: Global) -> Result<EndKind, Memory> {
        Ok(*self)
    }
}

/// Where an outcome ends that isn't done: how, and the site; where `sited` is not set there is none, and its numbers
/// are 0.
#[derive(Clone, Copy, Debug, PartialEq, Eq, PartialOrd, Ord, Hash)]
pub struct EndPlace {
    pub kind: EndKind,
    pub sited: bool,
    pub step: u16,
    pub at: u32,
}

impl Copied for EndPlace {
    fn copy(&self, _alloc: Global) -> Result<EndPlace, Memory> {
        Ok(*self)
    }
}

// The place of no site.
fn unsited(kind: EndKind) -> EndPlace
    ensures { result ≡ unsited kind }
{
    EndPlace {
        kind,
        sited: false,
        step: 0,
        at: 0,
    }
}

// The place of a site.
fn sited(kind: EndKind, site: Site) -> EndPlace
    ensures { result ≡ sited kind site }
{
    EndPlace {
        kind,
        sited: true,
        step: site.step,
        at: site.at,
    }
}

// The place of a failure behind these marks: the last one's site.
fn failed_at(trace: &[Mark]) -> EndPlace
    ensures { result ≡ failed_at trace.now }
{
    match trace.last() {
        Some(mark) => sited(EndKind::Failed, mark.site),
        None => unsited(EndKind::Failed),
    }
}

/// The place of an ending behind these marks, unless it is done.
pub(crate) fn end_place(ending: Ending, trace: &[Mark]) -> Option<EndPlace>
    ensures { result ≡ end_place ending trace.now }
{
    match ending {
        Ending::Done(_) => None,
        Ending::Failed(_) => Some(failed_at(trace)),
        Ending::Incomplete(_, site) => Some(sited(EndKind::Incomplete, site)),
        Ending::Bound(site) => Some(sited(EndKind::Bound, site)),
    }
}

/// Adds a place, where there is one.
pub(crate) fn add_some(places: &mut List<EndPlace>, place: Option<EndPlace>) -> Result<(), Memory>
    ensures { OnOk result (places.new ≡ places.old ++ as_list place) }
{
    match place {
        Some(place) => places.add(place),
        None => Ok(()),
    }
}

/// The places where the outcomes end that aren't done.
pub(crate) fn end_places(alloc: Global, entries: &[ReportEntry]) -> Result<List<EndPlace>, Memory>
    ensures { IfOk result (λ places. places ≡ end_places entries.now) }
{
    let mut places = List::new(alloc);
    for entry in entries {
        let place = end_place(entry.outcome.ending, entry.outcome.trace.as_slice());
        add_some(&mut places, place)?;
    }
    Ok(places)
}

// How often the place was counted.
fn count_of(counts: &IndexMap<EndPlace, u64>, place: &EndPlace) -> u64
    ensures { result ≡ count_in counts.now.entries place.now }
{
    match counts.get(place) {
        Some(count) => *count,
        None => 0,
    }
}

// Counts the place once more.
fn count_one(counts: &mut IndexMap<EndPlace, u64>, place: EndPlace) -> Result<(), Memory>
    requires { count_in counts.old.entries place < 2 ^ 64 - 1 }
    ensures { OnOk result (counts.new.entries ≡ add_place counts.old.entries place) }
{
    let count = count_of(counts, &place);
    counts.insert(place, count + 1)?;
    Ok(())
}

/// The different places in the order in which they first appear, with their counts.
pub(crate) fn count_places(
    alloc: Global,
    places: &[EndPlace],
) -> Result<IndexMap<EndPlace, u64>, Memory>
    ensures { IfOk result (λ counts. counts.entries ≡ place_counts places.now) }
{
    let mut counts: IndexMap<EndPlace, u64> = IndexMap::new(alloc);
    for place in places {
        count_one(&mut counts, *place)?;
    }
    Ok(counts)
}
