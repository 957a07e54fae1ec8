ghost use Rattle.std.specs.Prelude.{◌≡◌, IfOk, OnOk};
ghost use Rattle.std.specs.List.{list_any};
ghost use Rattle.fact_boxes.specs.Cells.{anything, behind};
ghost use Rattle.fact_boxes.specs.Rows.{are_same, beside_column, clashes, columns_onto, fact_columns, joined};
ghost use Rattle.fact_boxes.specs.Rows.{narrowed, names_of, row_of, same_column, with_column};
ghost use Rattle.fact_boxes.specs.Rows.{with_columns};

use crate::cells::{Cell, Column, anything, behind, clash, join, narrow};
use script_names::{List, Memory, Name};
use start_facts::{Fact, PlaceFact};
use std::alloc::Global;

// Whether these are the same names in the same order.
fn same_names(a: &[Name], b: &[Name]) -> bool
    ensures { result ≡ are_same (behind a.now b.now) }
{
    match behind(a, b) {
        None => false,
        Some([]) => true,
        Some([_, ..]) => false,
    }
}

// Whether it is the column of this place beside these names.
fn is_column(place: &[Name], but: &[Name], other: &Column) -> bool
    ensures { result ≡ same_column (record { place = place.now; but = but.now }) other.now }
{
    same_names(place, other.place.as_slice()) && same_names(but, other.but.as_slice())
}

// Whether the column of a place beside names is there.
fn has_column(columns: &[Column], place: &[Name], but: &[Name]) -> bool
    ensures { result ≡ list_any (same_column (record { place = place.now; but = but.now })) columns.now }
{
    let mut left = columns;
    while let [other, rest @ ..] = left {
        if is_column(place, but, other) {
            return true;
        }
        left = rest;
    }
    false
}

// The column of a place beside names, unless it is there.
fn add_column(
    alloc: Global,
    columns: &mut List<Column>,
    place: &[Name],
    but: &[Name],
) -> Result<(), Memory>
    ensures { OnOk result
        (columns.new ≡ with_column columns.old (record { place = place.now; but = but.now })) }
{
    if has_column(columns.as_slice(), place, but) {
        return Ok(());
    }
    let place = List::copies(alloc, place)?;
    let but = List::copies(alloc, but)?;
    columns.add(Column { place, but })
}

// The names that a fact is beside.
fn names_of(said: &Fact) -> &[Name]
    ensures { result.now ≡ names_of said.now }
{
    match said {
        Fact::Kinds(_) => &[],
        Fact::Fence(names) => names.as_slice(),
        Fact::Beside(names) => names.as_slice(),
        Fact::Target(_) => &[],
    }
}

// The column of entries under other names than these, unless it is there, where there are any.
fn add_beside(
    alloc: Global,
    columns: &mut List<Column>,
    place: &[Name],
    but: &[Name],
) -> Result<(), Memory>
    ensures { OnOk result (columns.new ≡ with_columns columns.old (beside_column place.now but.now)) }
{
    match but {
        [] => Ok(()),
        [_, ..] => add_column(alloc, columns, place, but),
    }
}

// The columns of a fact, unless they are there.
fn add_fact(alloc: Global, columns: &mut List<Column>, said: &PlaceFact) -> Result<(), Memory>
    ensures { OnOk result (columns.new ≡ with_columns columns.old (fact_columns said.now)) }
{
    let place = said.place.as_slice();
    add_column(alloc, columns, place, &[])?;
    add_beside(alloc, columns, place, names_of(&said.fact))
}

/// The columns of facts, each unless it is there.
pub fn add_facts(
    alloc: Global,
    columns: &mut List<Column>,
    said: &[PlaceFact],
) -> Result<(), Memory>
    ensures { OnOk result (columns.new ≡ columns_onto columns.old said.now) }
{
    let mut left = said;
    while let [fact, rest @ ..] = left {
        add_fact(alloc, columns, fact)?;
        left = rest;
    }
    Ok(())
}

/// What one or the other row leaves.
pub fn joined(alloc: Global, a: &[Cell], b: &[Cell]) -> Result<List<Cell>, Memory>
    ensures { IfOk result (λ row. row ≡ joined a.now b.now) }
{
    let mut row = List::with_room(alloc, a.len())?;
    let mut a = a;
    let mut b = b;
    while let [x, more @ ..] = a {
        match b {
            [] => return Ok(row),
            [y, rest @ ..] => {
                row.add(join(*x, *y))?;
                a = more;
                b = rest;
            }
        }
    }
    Ok(row)
}

/// Whether nothing is left by both rows in some column.
pub fn clashes(a: &[Cell], b: &[Cell]) -> bool
    ensures { result ≡ clashes a.now b.now }
{
    let mut a = a;
    let mut b = b;
    while let [x, more @ ..] = a {
        match b {
            [] => return false,
            [y, rest @ ..] => {
                if clash(*x, *y) {
                    return true;
                }
                a = more;
                b = rest;
            }
        }
    }
    false
}

// What facts leave to a column.
fn narrowed(column: &Column, said: &[PlaceFact]) -> Cell
    ensures { result ≡ narrowed column.now anything said.now }
{
    let mut cell = anything();
    let mut left = said;
    while let [fact, rest @ ..] = left {
        cell = narrow(cell, fact, column);
        left = rest;
    }
    cell
}

/// What facts leave to each column.
pub fn row_of(alloc: Global, columns: &[Column], said: &[PlaceFact]) -> Result<List<Cell>, Memory>
    ensures { IfOk result (λ row. row ≡ row_of columns.now said.now) }
{
    let mut row = List::with_room(alloc, columns.len())?;
    for column in columns {
        row.add(narrowed(column, said))?;
    }
    Ok(row)
}
