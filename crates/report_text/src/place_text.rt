// The lines of the places where outcomes end.
ghost use Rattle.std.specs.Prelude.{◌≡◌, ◌++◌, OnOk};
ghost use Rattle.std.specs.List.{flat_map};
ghost use Rattle.report_text.specs.PlaceText.{kind_name, place_site, place_line, places_text};
ghost use Rattle.report_text.specs.Places.{place_counts};

use crate::places::{EndKind, EndPlace, count_places, end_places};
use indexmap::IndexMap;
use outcome_report::ReportEntry;
use script_names::{Bytes, Memory, Site};
use shown_texts::{push_number, push_site};
use std::alloc::Global;

// The name of how an outcome ends that isn't done.
fn kind_name(kind: EndKind) -> &'static [u8]
    ensures { result.now ≡ kind_name kind }
{
    match kind {
        EndKind::Failed => b"failed",
        EndKind::Incomplete => b"incomplete",
        EndKind::Bound => b"bound",
    }
}

// The site of a place, or that it has none.
fn put_place_site(text: &mut Bytes, place: EndPlace) -> Result<(), Memory>
    ensures { OnOk result (text.new ≡ text.old ++ place_site place) }
{
    if place.sited {
        let site = Site {
            step: place.step,
            at: place.at,
        };
        return push_site(text, site);
    }
    text.extend(b"-")
}

#[tactic(auto, unfolding(crate::specs::PlaceText::place_line))]
fn put_place(text: &mut Bytes, place: EndPlace, count: u64) -> Result<(), Memory>
    ensures { OnOk result (text.new ≡ text.old ++ place_line (place, count)) }
{
    text.extend(b"place ")?;
    text.extend(kind_name(place.kind))?;
    text.extend(b" ")?;
    put_place_site(text, place)?;
    text.extend(b" ")?;
    push_number(text, count)?;
    text.extend(b"\n")
}

fn put_counts(text: &mut Bytes, counts: &IndexMap<EndPlace, u64>) -> Result<(), Memory>
    ensures { OnOk result (text.new ≡ text.old ++ flat_map place_line counts.now.entries) }
{
    for i in 0usize..counts.len() {
        let (place, count) = match counts.get_index(i) {
            Some((place, count)) => (*place, *count),
            None => unreachable!(),
        };
        put_place(text, place, count)?;
    }
    Ok(())
}

/// Adds the lines of the different ones of some places, in the order in which they first appear.
pub(crate) fn put_counted_places(
    alloc: Global,
    text: &mut Bytes,
    places: &[EndPlace],
) -> Result<(), Memory>
    ensures { OnOk result (text.new ≡ text.old ++ flat_map place_line (place_counts places.now)) }
{
    let counts = count_places(alloc, places)?;
    put_counts(text, &counts)
}

/// Adds the lines of the places where the outcomes of a scenario end that aren't done.
pub(crate) fn put_places(
    alloc: Global,
    text: &mut Bytes,
    entries: &[ReportEntry],
) -> Result<(), Memory>
    ensures { OnOk result (text.new ≡ text.old ++ places_text entries.now) }
{
    let places = end_places(alloc, entries)?;
    put_counted_places(alloc, text, places.as_slice())
}
