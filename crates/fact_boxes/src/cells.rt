ghost use Rattle.std.specs.Prelude.{◌≡◌, ◌++◌, OnOk, Some};
ghost use Rattle.std.specs.Option.{option_copied};
ghost use Rattle.fact_boxes.specs.Cells.{anything, are_all, are_among, beside, clash, join, leaves};
ghost use Rattle.fact_boxes.specs.Cells.{left_below, left_here, meet, nothing, share, shuts, told, unless, within};
ghost use Rattle.fact_boxes.specs.Cells.{behind, follows, is_anything};
ghost use Rattle.start_facts.specs.declared.fact.Fact.TheVariants as Fact;
ghost use Rattle.tree_clauses.specs.NameSets.{is_among};

use feature_trees::{Kind, Kinds};
use script_names::{Copied, List, Memory, Name};
use start_facts::{Fact, PlaceFact};
use std::alloc::Global;

/// What is asked of start trees: which kind of thing stands at a place, and whether it has an entry under another name
/// than some.
#[derive(Debug, Drop)]
pub struct Column {
    pub place: List<Name>,
    pub but: List<Name>,
}

impl Copied for Column {
    fn copy(&self, alloc: Global) -> Result<Column, Memory> {
        let place = self.place.copy(alloc)?;
        let but = self.but.copy(alloc)?;
        Ok(Column { place, but })
    }
}

/// What is left to a column: the kinds, and whether it may have no such entry, and whether it may have some.
#[derive(Clone, Copy, Debug, PartialEq, Eq)]
pub struct Cell {
    pub kinds: Kinds,
    pub none: bool,
    pub some: bool,
}

impl Copied for Cell {
    fn copy(&self, _alloc: Global) -> Result<Cell, Memory> {
        Ok(*self)
    }
}

/// Everything is left.
pub fn anything() -> Cell
    ensures { result ≡ anything }
{
    Cell {
        kinds: Kinds::all(),
        none: true,
        some: true,
    }
}

// Nothing stands there.
fn nothing() -> Cell
    ensures { result ≡ nothing }
{
    Cell {
        kinds: Kinds::of(Kind::Absent),
        none: true,
        some: false,
    }
}

// Whether a name is among these.
fn is_among(names: &[Name], f: &Name) -> bool
    ensures { result ≡ is_among names.now f.now }
{
    let mut left = names;
    while let [g, rest @ ..] = left {
        if g.as_slice() == f.as_slice() {
            return true;
        }
        left = rest;
    }
    false
}

// Whether each of the names is among others.
fn are_among(others: &[Name], names: &[Name]) -> bool
    ensures { result ≡ are_among others.now names.now }
{
    let mut left = names;
    while let [f, rest @ ..] = left {
        if !is_among(others, f) {
            return false;
        }
        left = rest;
    }
    true
}

// What a fact leaves to its own place, and to entries there under other names than these.
fn left_here(said: &Fact, but: &[Name]) -> Cell
    ensures { result ≡ left_here said.now but.now }
{
    match said {
        Fact::Kinds(kinds) => Cell {
            kinds: *kinds,
            none: true,
            some: kinds.dir,
        },
        Fact::Fence(names) => Cell {
            kinds: Kinds::all(),
            none: true,
            some: !are_among(but, names.as_slice()),
        },
        Fact::Beside(names) => Cell {
            kinds: Kinds::of(Kind::Dir),
            none: !are_among(names.as_slice(), but),
            some: true,
        },
        Fact::Target(_) => Cell {
            kinds: Kinds::of(Kind::Link),
            none: true,
            some: false,
        },
    }
}

// Whether nothing can stand under this name.
fn shuts(said: &Fact, f: &Name) -> bool
    ensures { result ≡ shuts said.now f.now }
{
    match said {
        Fact::Kinds(kinds) => !kinds.dir,
        Fact::Fence(names) => !is_among(names.as_slice(), f),
        Fact::Beside(_) => false,
        Fact::Target(_) => true,
    }
}

// What is left to the place behind these names of a fact's place, if it is there or below.
fn left_below(said: &Fact, but: &[Name], below: Option<&[Name]>) -> Cell
    ensures { result ≡ left_below said.now but.now (option_copied below.entry) }
{
    match below {
        None => anything(),
        Some(names) => match names {
            [] => left_here(said, but),
            [f, ..] => {
                if shuts(said, f) {
                    return nothing();
                }
                anything()
            }
        },
    }
}

/// The names that follow others.
pub(crate) fn behind<'a>(above: &[Name], names: &'a [Name]) -> Option<&'a [Name]>
    ensures { option_copied result ≡ behind above.now names.now }
{
    let mut above = above;
    let mut names = names;
    while let [f, more @ ..] = above {
        match names {
            [] => return None,
            [g, rest @ ..] => {
                if f.as_slice() != g.as_slice() {
                    return None;
                }
                above = more;
                names = rest;
            }
        }
    }
    Some(names)
}

/// What a fact leaves to a column.
pub fn leaves(said: &PlaceFact, column: &Column) -> Cell
    ensures { result ≡ leaves said.now column.now }
{
    let below = behind(said.place.as_slice(), column.place.as_slice());
    let cell = left_below(&said.fact, column.but.as_slice(), below);
    beside(column.but.as_slice(), cell)
}

/// What a fact leaves of what is left to a column: all of it, where the column's place is neither the fact's nor below.
pub(crate) fn narrow(cell: Cell, said: &PlaceFact, column: &Column) -> Cell
    ensures { result ≡ meet cell (leaves said.now column.now) }
{
    match behind(said.place.as_slice(), column.place.as_slice()) {
        None => cell,
        Some(_) => meet(cell, leaves(said, column)),
    }
}

// Kinds are told beside no names alone.
fn beside(but: &[Name], cell: Cell) -> Cell
    ensures { result ≡ beside but.now cell }
{
    match but {
        [] => cell,
        [_, ..] => Cell {
            kinds: Kinds::all(),
            none: cell.none,
            some: cell.some,
        },
    }
}

/// What both leave.
pub fn meet(a: Cell, b: Cell) -> Cell
    ensures { result ≡ meet a b }
{
    Cell {
        kinds: Kinds::both(a.kinds, b.kinds),
        none: a.none && b.none,
        some: a.some && b.some,
    }
}

/// What one or the other leaves.
pub fn join(a: Cell, b: Cell) -> Cell
    ensures { result ≡ join a b }
{
    Cell {
        kinds: Kinds::either(a.kinds, b.kinds),
        none: a.none || b.none,
        some: a.some || b.some,
    }
}

// Whether a kind is in both sets.
fn share(a: Kinds, b: Kinds) -> bool
    ensures { result ≡ share a b }
{
    (a.absent && b.absent)
        || (a.reg && b.reg)
        || (a.link && b.link)
        || (a.fifo && b.fifo)
        || (a.socket && b.socket)
        || (a.block && b.block)
        || (a.char && b.char)
        || (a.dir && b.dir)
}

/// Whether nothing is left by both.
pub fn clash(a: Cell, b: Cell) -> bool
    ensures { result ≡ clash a b }
{
    !share(a.kinds, b.kinds) || !((a.none && b.none) || (a.some && b.some))
}

// The second, if the first.
fn follows(a: bool, b: bool) -> bool
    ensures { result ≡ follows a b }
{
    !a || b
}

/// Whether the second leaves what the first leaves.
pub fn within(a: Cell, b: Cell) -> bool
    ensures { result ≡ within a b }
{
    follows(a.kinds.absent, b.kinds.absent)
        && follows(a.kinds.reg, b.kinds.reg)
        && follows(a.kinds.link, b.kinds.link)
        && follows(a.kinds.fifo, b.kinds.fifo)
        && follows(a.kinds.socket, b.kinds.socket)
        && follows(a.kinds.block, b.kinds.block)
        && follows(a.kinds.char, b.kinds.char)
        && follows(a.kinds.dir, b.kinds.dir)
        && follows(a.none, b.none)
        && follows(a.some, b.some)
}

// Whether these are all kinds.
fn are_all(s: Kinds) -> bool
    ensures { result ≡ are_all s }
{
    s.absent && s.reg && s.link && s.fifo && s.socket && s.block && s.char && s.dir
}

/// Whether everything is left.
pub fn is_anything(cell: Cell) -> bool
    ensures { result ≡ is_anything cell }
{
    are_all(cell.kinds) && cell.none && cell.some
}

// Adds the fact that the kinds are these, unless they are all.
fn tell_kinds(
    alloc: Global,
    column: &Column,
    kinds: Kinds,
    facts: &mut List<PlaceFact>,
) -> Result<(), Memory>
    ensures { OnOk result (facts.new ≡ facts.old ++ unless (are_all kinds) column.now (Fact.Kinds kinds)) }
{
    if are_all(kinds) {
        return Ok(());
    }
    let place = column.place.copy(alloc)?;
    facts.add(PlaceFact {
        place,
        fact: Fact::Kinds(kinds),
    })
}

// Adds the fact that there is no entry beside the column's names, unless there may be some.
fn tell_none(
    alloc: Global,
    column: &Column,
    some: bool,
    facts: &mut List<PlaceFact>,
) -> Result<(), Memory>
    ensures { OnOk result (facts.new ≡ facts.old ++ unless some column.now (Fact.Fence column.now.but)) }
{
    if some {
        return Ok(());
    }
    let place = column.place.copy(alloc)?;
    let names = column.but.copy(alloc)?;
    facts.add(PlaceFact {
        place,
        fact: Fact::Fence(names),
    })
}

// Adds the fact that there is an entry beside the column's names, unless there may be none.
fn tell_some(
    alloc: Global,
    column: &Column,
    none: bool,
    facts: &mut List<PlaceFact>,
) -> Result<(), Memory>
    ensures { OnOk result (facts.new ≡ facts.old ++ unless none column.now (Fact.Beside column.now.but)) }
{
    if none {
        return Ok(());
    }
    let place = column.place.copy(alloc)?;
    let names = column.but.copy(alloc)?;
    facts.add(PlaceFact {
        place,
        fact: Fact::Beside(names),
    })
}

/// Adds the facts that leave so much to a column.
pub fn tell(
    alloc: Global,
    column: &Column,
    cell: Cell,
    facts: &mut List<PlaceFact>,
) -> Result<(), Memory>
    ensures { OnOk result (facts.new ≡ facts.old ++ told column.now cell) }
{
    tell_kinds(alloc, column, cell.kinds, facts)?;
    tell_none(alloc, column, cell.some, facts)?;
    tell_some(alloc, column, cell.none, facts)?;
    Ok(())
}
