ghost use Rattle.std.specs.Prelude.{◌≡◌, IsTrue};
ghost use Rattle.script_names.specs.Names.{is_name};

use feature_trees::{Entries, Value};
use script_names::{Bytes, List, Name};

/// A name of a directory, and the place of the value that it has there.
#[derive(Drop)]
pub(crate) struct Edit {
    pub(crate) name: Name,
    pub(crate) place: usize,
    ghost named: { IsTrue (is_name name) },
}

/// A value by itself, or a directory by the places of others, so that no entry is copied.
#[derive(Drop)]
pub(crate) enum Cell<'a> {
    /// It stands in the tree.
    Seen(&'a Value),
    Absent,
    Reg,
    Link(Bytes),
    /// The directory without entries.
    Empty,
    /// The directory with the entries of the value at a place, but for the edits.
    Edited(usize, List<Edit>),
}

/// What stands under a name.
#[derive(Drop)]
pub(crate) enum Found<'a> {
    Absent,
    /// It stands in the tree.
    Seen(&'a Value),
    /// It is the value at a place.
    At(usize),
}

/// What a literal makes: a value that is new, or one that has its place already.
#[derive(Drop)]
pub(crate) enum Made<'a> {
    New(Cell<'a>),
    Old(usize),
}

/// A value with all its entries: one of the tree, or a copy.
#[derive(Drop)]
pub(crate) enum Whole<'a> {
    Seen(&'a Value),
    Built(Value),
}

/// The entries of a value, or the place of a value whose entries they are but for edits.
#[derive(Drop)]
pub(crate) enum Source<'b> {
    Entries(Entries),
    Edits(usize, &'b [Edit]),
}

/// Entries, and the edits that they are still to have, from the last ones to the first.
#[derive(Drop)]
pub(crate) struct Chain<'b> {
    pub(crate) entries: Entries,
    pub(crate) edits: Vec<&'b [Edit]>,
}
