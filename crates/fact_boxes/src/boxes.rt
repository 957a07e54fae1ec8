ghost use Rattle.std.specs.Prelude.{◌≡◌, ℕ, List as AnyList, [], ◌∷◌, ◌++◌, not, IfOk, OnOk};
ghost use Rattle.std.specs.List.{filter, list_all, list_any};
ghost use Rattle.fact_boxes.specs.Boxes.{all_shortened, boxes_beside, boxes_else, boxes_of, boxes_onto, differs};
ghost use Rattle.fact_boxes.specs.Boxes.{hull_of, is_needed, needed, numbers_below, numbers_to, shortened, tells};
ghost use Rattle.fact_boxes.specs.Boxes.{with_row, without};
ghost use Rattle.fact_boxes.specs.Rows.{cell_at, row_at};

use crate::cells::{Cell, anything, clash, is_anything};
use crate::rows::{clashes, joined};
use script_names::{Copied, List, Memory};
use std::alloc::Global;

/// How many boxes a group is told by at most, beside its hull alone.
pub const MOST_BOXES: usize = 8;

/// Of how many outcomes a group has at most for which boxes are looked for beside its hull.
pub const MOST_MEMBERS: usize = 1000;

/// The row at a place.
pub fn row_at(rows: &[List<Cell>], place: usize) -> &[Cell]
    ensures { result.now ≡ row_at rows.now place }
{
    match rows.get(place) {
        Some(row) => row.as_slice(),
        None => &[],
    }
}

/// The cell at a place.
pub fn cell_at(row: &[Cell], k: usize) -> Cell
    ensures { result ≡ cell_at row.now k }
{
    match row.get(k) {
        Some(cell) => *cell,
        None => anything(),
    }
}

/// Whether no outsider lies in the row.
pub fn tells(rows: &[List<Cell>], outs: &[usize], row: &[Cell]) -> bool
    ensures { result ≡ tells rows.now outs.now row.now }
{
    let mut left = outs;
    while let [o, rest @ ..] = left {
        if !clashes(row, row_at(rows, *o)) {
            return false;
        }
        left = rest;
    }
    true
}

/// Whether none of the outsiders lies in one of these rows.
pub fn all_tell(rows: &[List<Cell>], outs: &[usize], boxes: &[List<Cell>]) -> bool
    ensures { result ≡ list_all (tells rows.now outs.now) boxes.now }
{
    let mut left = boxes;
    while let [row, rest @ ..] = left {
        if !tells(rows, outs, row.as_slice()) {
            return false;
        }
        left = rest;
    }
    true
}

// A row and the rows of these members, joined.
fn hull_of(
    alloc: Global,
    rows: &[List<Cell>],
    row: &[Cell],
    members: &[usize],
) -> Result<List<Cell>, Memory>
    ensures { IfOk result (λ hull. hull ≡ hull_of rows.now row.now members.now) }
{
    let mut hull = List::copies(alloc, row)?;
    let mut left = members;
    while let [m, rest @ ..] = left {
        hull = joined(alloc, hull.as_slice(), row_at(rows, *m))?;
        left = rest;
    }
    Ok(hull)
}

// One row more: joined to the first box with which it still tells the outsiders apart, else a box of its own.
fn with_row(
    alloc: Global,
    rows: &[List<Cell>],
    outs: &[usize],
    row: &[Cell],
    boxes: List<List<Cell>>,
) -> Result<List<List<Cell>>, Memory>
    ensures { IfOk result (λ more. more ≡ with_row rows.now outs.now row.now boxes) }
{
    let mut more = List::with_room(alloc, boxes.len() + 1)?;
    let mut left = boxes.as_slice();
    while let [first, rest @ ..] = left {
        let both = joined(alloc, first.as_slice(), row)?;
        if tells(rows, outs, both.as_slice()) {
            more.add(both)?;
            return with_others(alloc, more, rest);
        }
        more.add(first.copy(alloc)?)?;
        left = rest;
    }
    more.add(List::copies(alloc, row)?)?;
    Ok(more)
}

// Rows, and behind them copies of others.
fn with_others(
    alloc: Global,
    rows: List<List<Cell>>,
    others: &[List<Cell>],
) -> Result<List<List<Cell>>, Memory>
    ensures { IfOk result (λ all. all ≡ rows ++ others.now) }
{
    let mut all = rows;
    let mut left = others;
    while let [row, rest @ ..] = left {
        all.add(row.copy(alloc)?)?;
        left = rest;
    }
    Ok(all)
}

// The rows of these members, one after the other, while the boxes are few.
fn boxes_onto(
    alloc: Global,
    rows: &[List<Cell>],
    outs: &[usize],
    members: &[usize],
) -> Result<List<List<Cell>>, Memory>
    ensures { IfOk result (λ boxes. boxes ≡ boxes_onto rows.now outs.now [] members.now) }
{
    let mut boxes = List::new(alloc);
    let mut left = members;
    while let [m, rest @ ..] = left {
        if boxes.len() > MOST_BOXES {
            return Ok(boxes);
        }
        boxes = with_row(alloc, rows, outs, row_at(rows, *m), boxes)?;
        left = rest;
    }
    Ok(boxes)
}

// The cell of an outsider in this column has nothing of the row's.
#[tactic(auto, unfolding(crate::specs::Boxes::differs))]
fn differs(rows: &[List<Cell>], row: &[Cell], k: usize, o: usize) -> bool
    ensures { result ≡ differs rows.now row.now k o }
{
    clash(cell_at(row, k), cell_at(row_at(rows, o), k))
}

// Those of the outsiders that the column does not tell apart.
fn undecided(rows: &[List<Cell>], row: &[Cell], k: usize, outs: Vec<usize>) -> Vec<usize>
    ensures { result.items ≡ filter (λ o. not (differs rows.now row.now k o)) outs.items }
{
    let mut outs = outs;
    outs.retain(|o| !differs(rows, row, k, *o));
    outs
}

// Whether a column tells one of these outsiders apart.
fn one_differs(rows: &[List<Cell>], row: &[Cell], k: usize, outs: &[usize]) -> bool
    ensures { result ≡ list_any (λ o. differs rows.now row.now k o) outs.now }
{
    let mut left = outs;
    while let [o, rest @ ..] = left {
        if differs(rows, row, k, *o) {
            return true;
        }
        left = rest;
    }
    false
}

// Whether something is told in a column, and that by it one of these outsiders is told apart.
#[tactic(auto, unfolding(crate::specs::Boxes::is_needed))]
fn is_needed(rows: &[List<Cell>], outs: &[usize], row: &[Cell], k: usize) -> bool
    ensures { result ≡ is_needed rows.now outs.now row.now k }
{
    !is_anything(cell_at(row, k)) && one_differs(rows, row, k, outs)
}

// The outsiders that no column so far told apart, and the row.
#[derive(Drop)]
struct Left {
    outs: Vec<usize>,
    row: Vec<Cell>,
}

// Looks at one column.
fn look_at(rows: &[List<Cell>], left: Left, k: usize) -> Left
    ensures { (ks : AnyList ℕ) →
        needed rows.now result.outs.items ks result.row.items
        ≡ needed rows.now left.outs.items (k ∷ ks) left.row.items }
{
    let Left { outs, row } = left;
    if is_needed(rows, outs.as_slice(), row.as_slice(), k) {
        let outs = undecided(rows, row.as_slice(), k, outs);
        return Left { outs, row };
    }
    let row = without(row, k);
    Left { outs, row }
}

// The row with everything left in a column.
fn without(row: Vec<Cell>, k: usize) -> Vec<Cell>
    ensures { result.items ≡ without row.items k }
{
    let mut row = row;
    if k < row.len() {
        row[k] = anything();
    }
    row
}

// Looks at these columns, one after the other.
fn needed(
    alloc: Global,
    rows: &[List<Cell>],
    outs: &[usize],
    order: &[usize],
    row: Vec<Cell>,
) -> Result<Vec<Cell>, Memory>
    ensures { IfOk result (λ less. less.items ≡ needed rows.now outs.now order.now row.items) }
{
    let outs = List::copies(alloc, outs)?;
    let outs = outs.into_vec();
    let mut left = Left { outs, row };
    let mut columns = order;
    while let [k, rest @ ..] = columns {
        left = look_at(rows, left, *k);
        columns = rest;
    }
    let Left { outs: _, row } = left;
    Ok(row)
}

// So many numbers, from 0 on.
fn numbers(alloc: Global, n: usize) -> Result<List<usize>, Memory>
    ensures { IfOk result (λ numbers. numbers ≡ numbers_to n) }
{
    let mut numbers = List::with_room(alloc, n)?;
    for k in 0usize..n {
        numbers.add(k)?;
    }
    Ok(numbers)
}

// The numbers below one, from the last on.
fn numbers_below(alloc: Global, n: usize) -> Result<List<usize>, Memory>
    ensures { IfOk result (λ numbers. numbers ≡ numbers_below n) }
{
    let mut numbers = List::with_room(alloc, n)?;
    let mut k = n;
    while k > 0 {
        k -= 1;
        numbers.add(k)?;
    }
    Ok(numbers)
}

// What is needed of a row.
fn shortened(
    alloc: Global,
    rows: &[List<Cell>],
    outs: &[usize],
    row: &[Cell],
) -> Result<List<Cell>, Memory>
    ensures { IfOk result (λ less. less ≡ shortened rows.now outs.now row.now) }
{
    let up = numbers(alloc, row.len())?;
    let down = numbers_below(alloc, row.len())?;
    let row = List::copies(alloc, row)?;
    let row = needed(alloc, rows, outs, up.as_slice(), row.into_vec())?;
    let row = needed(alloc, rows, outs, down.as_slice(), row)?;
    List::copies(alloc, row.as_slice())
}

// The rows, each shortened.
fn all_shortened(
    alloc: Global,
    rows: &[List<Cell>],
    outs: &[usize],
    boxes: &[List<Cell>],
) -> Result<List<List<Cell>>, Memory>
    ensures { IfOk result (λ less. less ≡ all_shortened rows.now outs.now boxes.now) }
{
    let mut less = List::with_room(alloc, boxes.len())?;
    let mut left = boxes;
    while let [row, rest @ ..] = left {
        less.add(shortened(alloc, rows, outs, row.as_slice())?)?;
        left = rest;
    }
    Ok(less)
}

// The hull alone, where these boxes do not tell the outsiders apart.
fn boxes_else(
    alloc: Global,
    rows: &[List<Cell>],
    outs: &[usize],
    hull: List<Cell>,
    boxes: List<List<Cell>>,
) -> Result<List<List<Cell>>, Memory>
    ensures { IfOk result (λ chosen. chosen ≡ boxes_else rows.now outs.now hull boxes) }
{
    if boxes.len() <= MOST_BOXES && all_tell(rows, outs, boxes.as_slice()) {
        return Ok(boxes);
    }
    one_box(alloc, hull)
}

// One box alone.
fn one_box(alloc: Global, hull: List<Cell>) -> Result<List<List<Cell>>, Memory>
    ensures { IfOk result (λ boxes. boxes ≡ hull ∷ []) }
{
    let mut boxes = List::new(alloc);
    boxes.add(hull)?;
    Ok(boxes)
}

// Boxes of members, where the hull does not tell the outsiders apart.
fn boxes_beside(
    alloc: Global,
    rows: &[List<Cell>],
    members: &[usize],
    outs: &[usize],
    hull: List<Cell>,
) -> Result<List<List<Cell>>, Memory>
    ensures { IfOk result (λ boxes. boxes ≡ boxes_beside rows.now members.now outs.now hull) }
{
    if tells(rows, outs, hull.as_slice()) {
        return one_box(alloc, hull);
    }
    if members.len() > MOST_MEMBERS {
        return one_box(alloc, hull);
    }
    let boxes = boxes_onto(alloc, rows, outs, members)?;
    boxes_else(alloc, rows, outs, hull, boxes)
}

/// The boxes of the outcomes at these places beside those at others.
pub fn boxes_of(
    alloc: Global,
    rows: &[List<Cell>],
    members: &[usize],
    outs: &[usize],
) -> Result<List<List<Cell>>, Memory>
    ensures { IfOk result (λ boxes. boxes ≡ boxes_of rows.now members.now outs.now) }
{
    match members {
        [] => Ok(List::new(alloc)),
        [m, rest @ ..] => {
            let hull = hull_of(alloc, rows, row_at(rows, *m), rest)?;
            let boxes = boxes_beside(alloc, rows, members, outs, hull)?;
            all_shortened(alloc, rows, outs, boxes.as_slice())
        }
    }
}
