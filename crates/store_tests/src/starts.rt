//! What is needed at two paths, and whether a tree has both.

use feature_trees::{Kind, Kinds};
use script_names::{List, Path, PathFault};
use start_trees::{Need, Wanted, start_store};
use std::alloc::Global;

// What is needed at one path and at another, and whether a tree has both.
type Row = (&'static [u8], Kind, &'static [u8], Kind, bool);

const ROWS: &[Row] = &[
    (b"/a", Kind::Dir, b"/a/b", Kind::Absent, true),
    (b"/a", Kind::Dir, b"/a/b", Kind::Link, true),
    (b"/a", Kind::Absent, b"/a/b", Kind::Absent, true),
    (b"/a", Kind::Reg, b"/a/b", Kind::Absent, true),
    (b"/a", Kind::Absent, b"/a/b", Kind::Reg, false),
    (b"/a", Kind::Link, b"/a/b", Kind::Dir, false),
    (b"/a/b", Kind::Dir, b"/a", Kind::Reg, false),
    (b"/a/b", Kind::Dir, b"/c", Kind::Reg, true),
];

// What is needed at a path.
fn need(alloc: Global, path: &[u8], kind: Kind) -> Result<Need, PathFault> {
    Ok(Need {
        path: Path::read(alloc, path)?,
        wanted: Wanted::Kinds(Kinds::of(kind)),
    })
}

// What is needed at both paths of a row.
fn needs(alloc: Global, row: &Row) -> Result<List<Need>, PathFault> {
    let mut needs = List::new(alloc);
    needs.add(need(alloc, row.0, row.1)?)?;
    needs.add(need(alloc, row.2, row.3)?)?;
    Ok(needs)
}

// Whether a tree has all that is needed, or none has, as it is wanted.
fn is_found(alloc: Global, needs: &List<Need>, wanted: bool) -> bool {
    match start_store(alloc, needs) {
        Ok(found) => found.is_some() == wanted,
        Err(_) => false,
    }
}

// Whether a row's answer is that of what is needed at both its paths.
fn is_answered(alloc: Global, row: &Row) -> bool {
    match needs(alloc, row) {
        Ok(needs) => is_found(alloc, &needs, row.4),
        Err(_) => false,
    }
}

#[test]
fn what_is_needed_together(rt: HostRuntime) {
    for row in ROWS {
        assert!(rt; is_answered(rt.alloc(), row), "{row:?}");
    }
}
