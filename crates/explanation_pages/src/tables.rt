//! Which places and which outcomes belong to the script that a table shows.

ghost use Rattle.std.specs.Prelude.{◌≡◌, ◌++◌, IfOk, OnOk};
ghost use Rattle.explanation_pages.specs.Tables.{ender_count, enders, enders_if, ends_in, entry_sites, is_of, listed, mark_site};
ghost use Rattle.explanation_pages.specs.Tables.{side_of, site_in, sites_of, spot_site, table_of};

use checker_input::Sources;
use dpkg_scenarios::{Scenario, ScriptKind, Side, ending_verdict};
use explanation::{Spot, is_alone, spot_of};
use outcome_groups::{Group, same_script, same_side};
use outcome_report::ReportEntry;
use script_names::{List, Memory, Site};
use std::alloc::Global;

/// Which script of which package a table shows, in which scenario.
#[derive(Clone, Copy, Debug, PartialEq, Eq)]
pub struct Table {
    pub scenario: Scenario,
    pub side: Side,
    pub script: ScriptKind,
}

// The package in whose table a script stands: without an old package the new one.
fn side_of(sources: &Sources, side: Side) -> Side
    ensures { result ≡ side_of sources.now side }
{
    if is_alone(&sources.old_texts) {
        Side::New
    } else {
        side
    }
}

/// The table of a script of one of the packages.
pub fn table_of(sources: &Sources, scenario: Scenario, side: Side, script: ScriptKind) -> Table
    ensures { result ≡ table_of sources.now scenario side script }
{
    Table {
        scenario,
        side: side_of(sources, side),
        script,
    }
}

// Whether a script stands in a table.
fn is_of(sources: &Sources, table: Table, side: Side, script: ScriptKind) -> bool
    ensures { result ≡ is_of sources.now table side script }
{
    same_script(table.script, script) && same_side(table.side, side_of(sources, side))
}

// The byte of the table's script that a place is, if it is one.
fn spot_site(sources: &Sources, table: Table, spot: Spot) -> Option<u32>
    ensures { result ≡ spot_site sources.now table spot }
{
    match spot {
        Spot::InScript { side, script, at } => {
            if is_of(sources, table, side, script) {
                return Some(at);
            }
            None
        }
        Spot::InFiles { .. } | Spot::Nowhere => None,
    }
}

/// The byte of the table's script at which a site is, if it is there.
pub fn site_in(sources: &Sources, table: Table, site: Option<Site>) -> Option<u32>
    ensures { result ≡ site_in sources.now table site }
{
    spot_site(sources, table, spot_of(table.scenario, site))
}

// Adds the byte, where there is one.
fn add_site(sites: &mut List<u32>, site: Option<u32>) -> Result<(), Memory>
    ensures { OnOk result (sites.new ≡ sites.old ++ listed site) }
{
    match site {
        Some(at) => sites.add(at),
        None => Ok(()),
    }
}

// The bytes of the table's script at which acts of an outcome are.
fn entry_sites(
    alloc: Global,
    sources: &Sources,
    table: Table,
    entry: &ReportEntry,
) -> Result<List<u32>, Memory>
    ensures { IfOk result (λ sites. sites ≡ entry_sites sources.now table entry.now) }
{
    let mut sites = List::new(alloc);
    for mark in entry.outcome.trace.as_slice() {
        add_site(&mut sites, site_in(sources, table, Some(mark.site)))?;
    }
    Ok(sites)
}

/// The same of each outcome.
pub fn sites_of(
    alloc: Global,
    sources: &Sources,
    table: Table,
    entries: &[ReportEntry],
) -> Result<List<List<u32>>, Memory>
    ensures { IfOk result (λ sites. sites ≡ sites_of sources.now table entries.now) }
{
    let mut all = List::new(alloc);
    let mut left = entries;
    while let [entry, rest @ ..] = left {
        let own = entry_sites(alloc, sources, table, entry)?;
        all.add(own)?;
        left = rest;
    }
    Ok(all)
}

// Whether the outcomes of a group end in the table's script, and with this verdict.
fn ends_in(sources: &Sources, table: Table, verdict: u8, group: &Group) -> bool
    ensures { result ≡ ends_in sources.now table verdict group.now }
{
    site_in(sources, table, group.end.site).is_some() && ending_verdict(group.end.ending) == verdict
}

/// Adds places.
pub fn add_places(places: &mut List<usize>, more: &[usize]) -> Result<(), Memory>
    ensures { OnOk result (places.new ≡ places.old ++ more.now) }
{
    for place in more {
        places.add(*place)?;
    }
    Ok(())
}

// Adds the outcomes of a group, by their places in the part, if they end there so.
fn add_enders_if(
    places: &mut List<usize>,
    sources: &Sources,
    table: Table,
    verdict: u8,
    group: &Group,
) -> Result<(), Memory>
    ensures { OnOk result (places.new ≡ places.old ++ enders_if sources.now table verdict group.now) }
{
    if ends_in(sources, table, verdict, group) {
        return add_places(places, group.members.as_slice());
    }
    Ok(())
}

// All outcomes that end there so.
fn enders(
    alloc: Global,
    sources: &Sources,
    table: Table,
    verdict: u8,
    groups: &[Group],
) -> Result<List<usize>, Memory>
    ensures { IfOk result (λ places. places ≡ enders sources.now table verdict groups.now) }
{
    let mut places = List::new(alloc);
    for group in groups {
        add_enders_if(&mut places, sources, table, verdict, group)?;
    }
    Ok(places)
}

/// How many outcomes end in the table's script with this verdict: 0 where they end well, 1 where they fail, 2 where they
/// are undecided.
pub fn ender_count(
    alloc: Global,
    sources: &Sources,
    table: Table,
    verdict: u8,
    groups: &[Group],
) -> Result<usize, Memory>
    ensures { IfOk result (λ count. count ≡ ender_count sources.now table verdict groups.now) }
{
    let places = enders(alloc, sources, table, verdict, groups)?;
    Ok(places.len())
}
