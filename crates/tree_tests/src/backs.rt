//! What is put back for an act of an unpacking that failed, by the tree that was kept before it.

use crate::trials::{answer_text, place};
use concrete_utils::backs::put_back;
use feature_trees::{Value, read_tree};
use script_names::{Boxed, Copied, Path, PathFault};
use std::alloc::Global;
use utility_calls::acts::Act;
use utility_calls::backs::{Back, back_of};

// An act as it was listed, the path at which it was done, the text of the kept tree, and that of the tree; the row that
// is taken, and the text of the tree that is left.
type Row = (
    &'static str,
    &'static str,
    &'static [u8],
    &'static [u8],
    u8,
    &'static [u8],
);

// The act of this name at a path.
fn act_at(alloc: Global, name: &str, path: &str) -> Result<Boxed<Act>, PathFault> {
    let p = Path::read(alloc, path.as_bytes())?;
    Ok(place(alloc, name, p)?)
}

// What is put back for the act of a row, which was listed with another path.
fn back(alloc: Global, row: &Row) -> Result<Boxed<Back>, PathFault> {
    let listed = act_at(alloc, row.0, "/listed")?;
    let done = act_at(alloc, row.0, row.1)?;
    let back = back_of(alloc, listed.get(), done.get())?;
    Ok(Boxed::new(alloc, back)?)
}

// The tree of a text.
fn tree_of(alloc: Global, text: &[u8]) -> Result<Value, PathFault> {
    match read_tree(alloc, text) {
        Ok(tree) => Ok(tree),
        Err(_) => Err(PathFault::Empty),
    }
}

// Whether a tree is that of a text.
fn is_tree(alloc: Global, tree: &Value, text: &[u8]) -> Result<bool, PathFault> {
    let left = tree_of(alloc, text)?;
    Ok(tree.equal(&left))
}

// Whether putting back takes the row on a tree, answers so, and leaves the row's tree.
fn changes(
    alloc: Global,
    b: &Back,
    tree: &mut Value,
    row: &Row,
    answers: &str,
) -> Result<bool, PathFault> {
    if b.path().names().is_empty() {
        return Ok(false);
    }
    let kept = tree_of(alloc, row.2)?;
    let (number, answer) = put_back(alloc, b, tree, &kept)?;
    Ok(number == row.4 && answer_text(answer) == answers)
}

// Whether putting back takes the row, answers so, and leaves the row's tree.
fn leaves(alloc: Global, b: &Back, row: &Row, answers: &str) -> Result<bool, PathFault> {
    let mut tree = tree_of(alloc, row.3)?;
    Ok(changes(alloc, b, &mut tree, row, answers)? && is_tree(alloc, &tree, row.5)?)
}

// Whether what is put back for the act of a row, and a copy of it, takes the row, answers so, and leaves the row's
// tree.
fn is_put_back(alloc: Global, row: &Row, answers: &str) -> Result<bool, PathFault> {
    let b = back(alloc, row)?;
    let twin = b.copy(alloc)?;
    Ok(leaves(alloc, b.get(), row, answers)? && leaves(alloc, twin.get(), row, answers)?)
}

const PUT_BACK: &[Row] = &[
    // a directory that may have been made
    // Something stood there: what is there stays.
    ("EnsureDir", "/a", b"d /a", b"d /a", 66, b"d /a"),
    ("EnsureDir", "/a", b"f /a", b"d /a", 66, b"d /a"),
    ("EnsureDir", "/a", b"l /a t", b"", 66, b""),
    ("EnsureDir", "/a", b"p /a", b"f /a", 66, b"f /a"),
    (
        "EnsureDir",
        "/a",
        b"c /a",
        b"d /a\nf /a/x",
        66,
        b"d /a\nf /a/x",
    ),
    // Nothing stood there, and no directory is there.
    ("EnsureDir", "/a", b"", b"", 67, b""),
    ("EnsureDir", "/a", b"", b"f /a", 67, b"f /a"),
    ("EnsureDir", "/a", b"", b"l /a t", 67, b"l /a t"),
    ("EnsureDir", "/a", b"", b"b /a", 67, b"b /a"),
    ("EnsureDir", "/a/b", b"f /a", b"f /a", 67, b"f /a"),
    // Nothing stood there, and there is a directory with an entry.
    ("EnsureDir", "/a", b"", b"d /a\nf /a/x", 68, b"d /a\nf /a/x"),
    (
        "EnsureDir",
        "/a/",
        b"",
        b"d /a\nd /a/b",
        68,
        b"d /a\nd /a/b",
    ),
    // Nothing stood there, and there is a directory without entries.
    ("EnsureDir", "/a", b"", b"d /a", 69, b""),
    ("EnsureDir", "/a/", b"f /z", b"d /a\nl /z t", 69, b"l /z t"),
    (
        "EnsureDir",
        "/a/b",
        b"d /a",
        b"d /a\nd /a/b\nd /a/c",
        69,
        b"d /a\nd /a/c",
    ),
    ("EnsureDir", "/a/b", b"l /a t", b"d /a\nd /a/b", 69, b"d /a"),
    // what may have been replaced by a file or a link
    // What held its name is no directory.
    ("PlaceFile", "/a/b", b"d /a\nf /a/b", b"f /a", 66, b"f /a"),
    ("PlaceConf", "/a/b", b"d /a\nf /a/b", b"s /a", 66, b"s /a"),
    ("PlaceLink", "/a/b", b"", b"", 66, b""),
    // A directory is there.
    ("PlaceFile", "/a", b"f /a", b"d /a", 67, b"d /a"),
    ("PlaceFile", "/a", b"", b"d /a\nf /a/x", 67, b"d /a\nf /a/x"),
    ("PlaceLink", "/a", b"d /a\nf /a/x", b"d /a", 67, b"d /a"),
    // What stood there is put back.
    ("PlaceFile", "/a", b"", b"f /a", 68, b""),
    ("PlaceFile", "/a", b"", b"", 68, b""),
    ("PlaceFile", "/a", b"f /a", b"f /a", 68, b"f /a"),
    ("PlaceFile", "/a", b"l /a old", b"f /a", 68, b"l /a old"),
    ("PlaceLink", "/a", b"f /a", b"l /a new", 68, b"f /a"),
    ("PlaceLink", "/a", b"l /a old", b"l /a new", 68, b"l /a old"),
    ("PlaceConf", "/a", b"c /a", b"", 68, b"c /a"),
    ("PlaceConf", "/a/", b"s /a", b"b /a", 68, b"s /a"),
    (
        "PlaceFile",
        "/a/b",
        b"d /a\np /a/b",
        b"d /a\nf /a/b\nf /a/c",
        68,
        b"d /a\np /a/b\nf /a/c",
    ),
    ("PlaceFile", "/a/b", b"", b"d /a\nf /a/b", 68, b"d /a"),
    ("PlaceFile", "/a/b", b"l /a t", b"d /a\nf /a/b", 68, b"d /a"),
    // A directory stood there, and none is there.
    ("PlaceFile", "/a", b"d /a\nf /a/x", b"f /a", 69, b"f /a"),
    ("PlaceLink", "/a", b"d /a", b"l /a new", 69, b"l /a new"),
    ("PlaceConf", "/a", b"d /a", b"", 69, b""),
];

// A link stands on the way.
const ON_THE_WAY: &[Row] = &[
    (
        "EnsureDir",
        "/a/b",
        b"d /a\nd /a/b",
        b"l /a t",
        1,
        b"l /a t",
    ),
    ("EnsureDir", "/a/b", b"", b"l /a t", 1, b"l /a t"),
    (
        "EnsureDir",
        "/a/b/c",
        b"",
        b"d /a\nl /a/b t",
        2,
        b"d /a\nl /a/b t",
    ),
    (
        "PlaceFile",
        "/a/b",
        b"d /a\nf /a/b",
        b"l /a t",
        1,
        b"l /a t",
    ),
    ("PlaceLink", "/a/b/c/d", b"", b"l /a t", 1, b"l /a t"),
    (
        "PlaceConf",
        "/a/b/c/d",
        b"",
        b"d /a\nd /a/b\nl /a/b/c t",
        3,
        b"d /a\nd /a/b\nl /a/b/c t",
    ),
];

#[test]
fn all_is_put_back_by_each_row(rt: HostRuntime) {
    for row in PUT_BACK {
        assert!(rt;
            matches!(is_put_back(rt.alloc(), row, "ok"), Ok(true)),
            "{} {}",
            row.0,
            row.1
        );
    }
}

#[test]
fn a_link_on_the_way_stops(rt: HostRuntime) {
    for row in ON_THE_WAY {
        assert!(rt;
            matches!(is_put_back(rt.alloc(), row, "link"), Ok(true)),
            "{} {}",
            row.0,
            row.1
        );
    }
}
