// Neighbours of which one ends so and the other, which did the same before, does not.
ghost use Rattle.std.specs.Prelude.{◌≡◌, ◌+◌, ◌<◌, ◌^◌, [], ◌∷◌, ◌++◌, length, take, IfOk, OnOk};
ghost use Rattle.std.specs.List.{filter};
ghost use Rattle.outcome_groups.specs.Ends.{end_of};
ghost use Rattle.outcome_groups.specs.Groups.{begins_with, decides, marks_before, pair_if, pairs_from, pairs_with};
ghost use Rattle.outcome_groups.specs.Groups.{ends_so, has_more, parts, same_mark};

use crate::ends::{GroupEnd, end_of, same_end, same_site, up_to_end};
use dpkg_scenarios::Scenario;
use fact_boxes::{Cell, cell_at, row_at, within};
use outcome_report::ReportEntry;
use script_names::{Copied, List, Mark, Memory};
use std::alloc::Global;

/// An outcome and another one, by their places, and how the first ends.
#[derive(Clone, Copy, Debug, PartialEq, Eq)]
pub(crate) struct Pair {
    pub(crate) end: GroupEnd,
    pub(crate) member: usize,
    pub(crate) other: usize,
}

impl Copied for Pair {
    fn copy(&self, _alloc: Global) -> Result<Pair, Memory> {
        Ok(*self)
    }
}

// The same mark.
fn same_mark(a: &Mark, b: &Mark) -> bool
    ensures { result ≡ same_mark a.now b.now }
{
    same_site(a.site, b.site) && a.row == b.row
}

// Whether a trace begins with these marks.
fn begins_with(marks: &[Mark], trace: &[Mark]) -> bool
    ensures { result ≡ begins_with marks.now trace.now }
{
    let mut marks = marks;
    let mut trace = trace;
    while let [mark, more @ ..] = marks {
        match trace {
            [] => return false,
            [other, rest @ ..] => {
                if !same_mark(mark, other) {
                    return false;
                }
                marks = more;
                trace = rest;
            }
        }
    }
    true
}

// Whether a trace begins with the marks before the one at which an entry's outcome came to its end.
fn did_the_same(
    alloc: Global,
    scenario: Scenario,
    entry: &ReportEntry,
    trace: &[Mark],
) -> Result<bool, Memory>
    ensures { IfOk result (λ is. is ≡ begins_with (marks_before scenario entry.now) trace.now) }
{
    let marks = entry.outcome.trace.as_slice();
    let calls = entry.replayed.calls.as_slice();
    let n = up_to_end(alloc, scenario, entry.outcome.ending, calls, marks)?;
    Ok(begins_with(first_marks(marks, n.saturating_sub(1)), trace))
}

// So many of the first marks.
fn first_marks(marks: &[Mark], n: usize) -> &[Mark]
    ensures { result.now ≡ take n marks.now }
{
    match marks.get(..n) {
        Some(first) => first,
        None => marks,
    }
}

// Adds the pair of an outcome and another one, by their places, where the other ends otherwise, but did the same before.
fn add_pair(
    alloc: Global,
    scenario: Scenario,
    member: usize,
    entry: &ReportEntry,
    other: usize,
    another: &ReportEntry,
    pairs: &mut List<Pair>,
) -> Result<(), Memory>
    ensures { OnOk result (pairs.new ≡ pairs.old
        ++ pair_if (parts scenario entry.now another.now) (end_of scenario entry.now) member other) }
{
    let end = end_of(alloc, scenario, entry)?;
    let other_end = end_of(alloc, scenario, another)?;
    if same_end(&end, &other_end) {
        return Ok(());
    }
    let same = did_the_same(alloc, scenario, entry, another.outcome.trace.as_slice())?;
    if !same {
        return Ok(());
    }
    pairs.add(Pair { end, member, other })
}

// The two pairs of an entry at k and the one behind it.
fn add_pairs(
    alloc: Global,
    scenario: Scenario,
    k: usize,
    entry: &ReportEntry,
    behind: &[ReportEntry],
    pairs: &mut List<Pair>,
) -> Result<(), Memory>
    requires { k + length behind.now < 2 ^ 64 }
    ensures { OnOk result (pairs.new ≡ pairs.old ++ pairs_with scenario k entry.now behind.now) }
{
    match behind {
        [] => Ok(()),
        [next, ..] => {
            add_pair(alloc, scenario, k, entry, k + 1, next, pairs)?;
            add_pair(alloc, scenario, k + 1, next, k, entry, pairs)?;
            Ok(())
        }
    }
}

/// Neighbours of which the other ends otherwise, but did the same before.
pub(crate) fn pairs_of(
    alloc: Global,
    scenario: Scenario,
    entries: &[ReportEntry],
) -> Result<List<Pair>, Memory>
    ensures { IfOk result (λ pairs. pairs ≡ pairs_from 0 scenario entries.now) }
{
    let mut pairs = List::new(alloc);
    for k in 0usize..entries.len() {
        let behind = &entries[k + 1..];
        add_pairs(alloc, scenario, k, &entries[k], behind, &mut pairs)?;
    }
    Ok(pairs)
}

/// The pairs of which the first outcome ends so.
pub(crate) fn pairs_ending(
    alloc: Global,
    pairs: &[Pair],
    end: &GroupEnd,
) -> Result<List<Pair>, Memory>
    ensures { IfOk result (λ own. own ≡ filter (ends_so end.now) pairs.now) }
{
    let mut own = List::new(alloc);
    let mut left = pairs;
    while let [pair, rest @ ..] = left {
        add_ending(&mut own, end, pair)?;
        left = rest;
    }
    Ok(own)
}

// Whether the first outcome of a pair ends so.
#[tactic(auto, unfolding(crate::specs::Groups::ends_so))]
fn ends_so(end: &GroupEnd, pair: &Pair) -> bool
    ensures { result ≡ ends_so end.now pair.now }
{
    same_end(end, &pair.end)
}

// One pair more, if its first outcome ends so.
fn add_ending(own: &mut List<Pair>, end: &GroupEnd, pair: &Pair) -> Result<(), Memory>
    ensures { OnOk result (own.new ≡ own.old ++ filter (ends_so end.now) (pair.now ∷ [])) }
{
    if !ends_so(end, pair) {
        return Ok(());
    }
    own.add(*pair)
}

// Whether the row of the other outcome has more in a column.
fn has_more(rows: &[List<Cell>], k: usize, pair: &Pair) -> bool
    ensures { result ≡ has_more rows.now k pair.now }
{
    let other = cell_at(row_at(rows, pair.other), k);
    let member = cell_at(row_at(rows, pair.member), k);
    !within(other, member)
}

/// Whether a column decides for the outcomes that end so.
pub(crate) fn decides(rows: &[List<Cell>], pairs: &[Pair], end: &GroupEnd, k: usize) -> bool
    ensures { result ≡ decides rows.now pairs.now end.now k }
{
    let mut left = pairs;
    while let [pair, rest @ ..] = left {
        if same_end(end, &pair.end) && has_more(rows, k, pair) {
            return true;
        }
        left = rest;
    }
    false
}
