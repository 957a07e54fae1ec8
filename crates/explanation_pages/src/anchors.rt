//! What is named in a page, so that a link leads there.

ghost use Rattle.std.specs.Prelude.{◌≡◌, ◌++◌, OnOk};
ghost use Rattle.explanation_pages.specs.Anchors.{group_anchor, group_number, row_anchor, side_words};

use crate::tables::Table;
use dpkg_scenarios::{Scenario, Side, scenario_name, script_name};
use explanation::first_entry;
use outcome_groups::Group;
use outcome_report::ReportEntry;
use script_names::{Bytes, Memory};
use shown_texts::push_number;

// How the old package's scripts are named apart.
fn side_words(side: Side) -> &'static [u8]
    ensures { result.now ≡ side_words side }
{
    match side {
        Side::New => b"-",
        Side::Old => b"-old-",
    }
}

/// Adds the name of a line of a table.
#[tactic(auto, unfolding(crate::specs::Anchors::row_anchor))]
pub fn put_row_anchor(text: &mut Bytes, table: Table, number: usize) -> Result<(), Memory>
    ensures { OnOk result (text.new ≡ text.old ++ row_anchor table number) }
{
    text.extend(scenario_name(table.scenario).as_bytes())?;
    text.extend(side_words(table.side))?;
    text.extend(script_name(table.script).as_bytes())?;
    text.extend(b"-")?;
    push_number(text, number as u64)
}

/// The number of a group: that of its first outcome.
pub fn group_number(entries: &[ReportEntry], group: &Group) -> u32
    ensures { result ≡ group_number entries.now group.now }
{
    match first_entry(group.members.as_slice(), entries) {
        Some(entry) => entry.outcome.number,
        None => 0,
    }
}

/// Adds the name of a group: the scenario, and the number of its first outcome.
#[tactic(auto, unfolding(crate::specs::Anchors::group_anchor))]
pub fn put_group_anchor(
    text: &mut Bytes,
    scenario: Scenario,
    entries: &[ReportEntry],
    group: &Group,
) -> Result<(), Memory>
    ensures { OnOk result (text.new ≡ text.old ++ group_anchor scenario entries.now group.now) }
{
    text.extend(scenario_name(scenario).as_bytes())?;
    text.extend(b"-")?;
    push_number(text, u64::from(group_number(entries, group)))
}
