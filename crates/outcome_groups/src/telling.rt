// What is told of groups.
ghost use Rattle.std.specs.Prelude.{◌≡◌, ◌++◌, map, IfOk, OnOk};
ghost use Rattle.outcome_groups.specs.Groups.{box_of, decides, facts_if, facts_unless, group_of, groups_of, is_as, part_columns};
ghost use Rattle.fact_boxes.specs.Cells.{is_anything, told};
ghost use Rattle.outcome_groups.specs.Groups.{rows_in, told_where};

use crate::ends::GroupEnd;
use crate::group::{FactBox, Group};
use crate::members::{different, ends_of, members_of, others_of};
use crate::pairs::{Pair, decides, pairs_ending, pairs_of};
use fact_boxes::{Cell, Column, add_facts, all_tell, boxes_of, is_anything, row_of, tell};
use outcome_report::{ReportEntry, ReportPart};
use script_names::{List, Memory};
use start_facts::{PlaceFact, facts};
use std::alloc::Global;

// The columns of the outcomes of entries.
fn part_columns(alloc: Global, entries: &[ReportEntry]) -> Result<List<Column>, Memory>
    ensures { IfOk result (λ columns. columns ≡ part_columns entries.now) }
{
    let mut columns = List::new(alloc);
    let mut left = entries;
    while let [entry, rest @ ..] = left {
        let said = facts(alloc, &entry.outcome.clause)?;
        add_facts(alloc, &mut columns, said.as_slice())?;
        left = rest;
    }
    Ok(columns)
}

// A row for each of the outcomes of entries.
fn part_rows(
    alloc: Global,
    columns: &[Column],
    entries: &[ReportEntry],
) -> Result<List<List<Cell>>, Memory>
    ensures { IfOk result (λ rows. rows ≡ rows_in columns.now entries.now) }
{
    let mut rows = List::with_room(alloc, entries.len())?;
    let mut left = entries;
    while let [entry, rest @ ..] = left {
        let said = facts(alloc, &entry.outcome.clause)?;
        let row = row_of(alloc, columns, said.as_slice())?;
        rows.add(row)?;
        left = rest;
    }
    Ok(rows)
}

// Adds the facts of a cell in a column, where that one decides, or where it does not.
fn add_told(
    alloc: Global,
    decides: bool,
    wanted: bool,
    column: &Column,
    cell: Cell,
    facts: &mut List<PlaceFact>,
) -> Result<(), Memory>
    ensures { OnOk result (facts.new ≡ facts.old ++ facts_if (is_as wanted decides) (told column.now cell)) }
{
    if decides != wanted {
        return Ok(());
    }
    tell(alloc, column, cell, facts)
}

// Adds the facts of a cell in column k, where that one decides for the outcomes that end so, or where it does not,
// unless everything is left.
fn add_cell(
    alloc: Global,
    rows: &[List<Cell>],
    pairs: &[Pair],
    end: &GroupEnd,
    wanted: bool,
    k: usize,
    column: &Column,
    cell: Cell,
    facts: &mut List<PlaceFact>,
) -> Result<(), Memory>
    ensures { OnOk result (facts.new ≡ facts.old ++ facts_unless (is_anything cell)
        (is_as wanted (decides rows.now pairs.now end.now k)) column.now cell) }
{
    if is_anything(cell) {
        return Ok(());
    }
    let decides = decides(rows, pairs, end, k);
    add_told(alloc, decides, wanted, column, cell, facts)?;
    Ok(())
}

// The facts of a row in the columns that decide for the outcomes that end so, or in those that do not.
fn told_where(
    alloc: Global,
    rows: &[List<Cell>],
    pairs: &[Pair],
    end: &GroupEnd,
    wanted: bool,
    row: &[Cell],
    columns: &[Column],
) -> Result<List<PlaceFact>, Memory>
    ensures { IfOk result (λ facts. facts
        ≡ told_where wanted (decides rows.now pairs.now end.now) 0 row.now columns.now) }
{
    let mut facts = List::new(alloc);
    let mut left = row;
    for k in 0usize..columns.len() {
        match left {
            [] => return Ok(facts),
            [cell, rest @ ..] => {
                add_cell(
                    alloc,
                    rows,
                    pairs,
                    end,
                    wanted,
                    k,
                    &columns[k],
                    *cell,
                    &mut facts,
                )?;
                left = rest;
            }
        }
    }
    Ok(facts)
}

// The facts of a row.
fn box_of(
    alloc: Global,
    rows: &[List<Cell>],
    pairs: &[Pair],
    end: &GroupEnd,
    columns: &[Column],
    row: &[Cell],
) -> Result<FactBox, Memory>
    ensures { IfOk result (λ told. told ≡ box_of columns.now (decides rows.now pairs.now end.now) row.now) }
{
    let deciding = told_where(alloc, rows, pairs, end, true, row, columns)?;
    let others = told_where(alloc, rows, pairs, end, false, row, columns)?;
    Ok(FactBox { deciding, others })
}

// The facts of each of some rows.
fn boxes_told(
    alloc: Global,
    rows: &[List<Cell>],
    pairs: &[Pair],
    end: &GroupEnd,
    columns: &[Column],
    boxes: &[List<Cell>],
) -> Result<List<FactBox>, Memory>
    ensures { IfOk result (λ told. told
        ≡ map (box_of columns.now (decides rows.now pairs.now end.now)) boxes.now) }
{
    let mut told = List::new(alloc);
    let mut left = boxes;
    while let [row, rest @ ..] = left {
        told.add(box_of(alloc, rows, pairs, end, columns, row.as_slice())?)?;
        left = rest;
    }
    Ok(told)
}

// The same, for which the pairs of other ends are not looked at.
fn group_boxes(
    alloc: Global,
    rows: &[List<Cell>],
    pairs: &[Pair],
    end: &GroupEnd,
    columns: &[Column],
    boxes: &[List<Cell>],
) -> Result<List<FactBox>, Memory>
    ensures { IfOk result (λ told. told
        ≡ map (box_of columns.now (decides rows.now pairs.now end.now)) boxes.now) }
{
    let own = pairs_ending(alloc, pairs, end)?;
    let told = boxes_told(alloc, rows, own.as_slice(), end, columns, boxes)?;
    Ok(told)
}

// The group of the outcomes that end so.
fn group_of(
    alloc: Global,
    ends: &[GroupEnd],
    pairs: &[Pair],
    columns: &[Column],
    rows: &[List<Cell>],
    end: &GroupEnd,
) -> Result<Group, Memory>
    ensures { IfOk result (λ group. group ≡ group_of ends.now pairs.now columns.now rows.now end.now) }
{
    let members = members_of(alloc, end, ends)?;
    let outs = others_of(alloc, end, ends)?;
    let boxes = boxes_of(alloc, rows, members.as_slice(), outs.as_slice())?;
    let exactly = all_tell(rows, outs.as_slice(), boxes.as_slice());
    let boxes = group_boxes(alloc, rows, pairs, end, columns, boxes.as_slice())?;
    Ok(Group {
        end: *end,
        members,
        boxes,
        exactly,
    })
}

// The groups of the outcomes that end in each of these ways.
fn groups_in(
    alloc: Global,
    ends: &[GroupEnd],
    pairs: &[Pair],
    columns: &[Column],
    rows: &[List<Cell>],
    found: &[GroupEnd],
) -> Result<List<Group>, Memory>
    ensures { IfOk result (λ groups. groups
        ≡ map (group_of ends.now pairs.now columns.now rows.now) found.now) }
{
    let mut groups = List::new(alloc);
    let mut left = found;
    while let [end, rest @ ..] = left {
        groups.add(group_of(alloc, ends, pairs, columns, rows, end)?)?;
        left = rest;
    }
    Ok(groups)
}

/// The groups of a part's outcomes, in the order of their first ones, each outcome in one of them.
pub fn groups(alloc: Global, part: &ReportPart) -> Result<List<Group>, Memory>
    ensures { IfOk result (λ groups. groups ≡ groups_of part.now) }
{
    let entries = part.entries.as_slice();
    let ends = ends_of(alloc, part.scenario, entries)?;
    let pairs = pairs_of(alloc, part.scenario, entries)?;
    let columns = part_columns(alloc, entries)?;
    let rows = part_rows(alloc, columns.as_slice(), entries)?;
    let found = different(alloc, ends.as_slice())?;
    let groups = groups_in(
        alloc,
        ends.as_slice(),
        pairs.as_slice(),
        columns.as_slice(),
        rows.as_slice(),
        found.as_slice(),
    )?;
    Ok(groups)
}
