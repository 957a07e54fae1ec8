//! The row that each copying takes on a tree, its answer, and what it leaves there.

use crate::trials::{Taken, Trial, copy_takes, is_left, perform, placed, placed_takes, sample};
use feature_trees::Value;
use script_names::PathFault;
use std::alloc::Global;

// What stands on the tree of the tests, by the letters of the tests of all acts. The names in `/s` and `/t` stand in
// `/d` too, as a link, a socket, a directory and a regular file.
const SAMPLE: &str = "d /d
l /d/l
s /d/o
d /d/g
f /d/f
d /s
f /s/l
f /s/o
f /s/g
f /s/f
d /t
d /t/l
d /t/o
d /t/g
f /t/g/a
l /t/g/y
d /t/f
d /e
f /f
l /l
p /p";

const COPIES: &[Taken] = &[
    ("Copy /l/a /n", 1, "link", ""),
    ("Copy /f/ /n", 64, "slash", ""),
    ("Copy /l /n", 65, "link", ""),
    ("Copy /l /l/a", 65, "link", ""),
    ("Copy /n /m", 66, "failed", ""),
    ("Copy /n /l/a", 66, "failed", ""),
    ("Copy /e /n", 67, "failed", ""),
    ("Copy /t/g /n", 67, "failed", ""),
    ("Copy /d /l/a", 67, "failed", ""),
    ("Copy /f /l/a", 129, "link", ""),
    ("Copy /f /d/l/a", 130, "link", ""),
    ("Copy /f /p/a", 68, "failed", ""),
    ("Copy /f /n/a", 68, "failed", ""),
    ("Copy /f /n", 69, "ok", "f /n"),
    ("Copy /f /n/", 69, "ok", "f /n"),
    ("Copy /s/f /e/b", 69, "ok", "f /e/b"),
    ("Copy /s/f /f", 69, "ok", ""),
    ("Copy /f /l", 70, "link", ""),
    ("Copy /f /p", 71, "run", ""),
    ("Copy /f /e", 72, "ok", "f /e/f"),
    ("Copy /f /d", 72, "ok", ""),
    ("Copy /s/l /d", 73, "link", ""),
    ("Copy /s/o /d", 74, "run", ""),
    ("Copy /s/g /d", 75, "failed", ""),
    ("Copy /p /n", 82, "run", ""),
    ("Copy /d/o /l/a", 82, "run", ""),
    // with `-r`
    ("CopyDeep /l/a /n", 1, "link", ""),
    ("CopyDeep /f/ /n", 64, "slash", ""),
    ("CopyDeep /l /n", 65, "link", ""),
    ("CopyDeep /n /l/a", 66, "failed", ""),
    ("CopyDeep /f /l/a", 129, "link", ""),
    ("CopyDeep /e /l/a", 129, "link", ""),
    ("CopyDeep /e /d/l/a", 130, "link", ""),
    ("CopyDeep /f /p/a", 68, "failed", ""),
    ("CopyDeep /f /n", 69, "ok", "f /n"),
    ("CopyDeep /f /l", 70, "link", ""),
    ("CopyDeep /f /p", 71, "run", ""),
    ("CopyDeep /f /e", 72, "ok", "f /e/f"),
    ("CopyDeep /s/l /d", 73, "link", ""),
    ("CopyDeep /s/o /d", 74, "run", ""),
    ("CopyDeep /s/g /d", 75, "failed", ""),
    ("CopyDeep /e /f/a", 76, "failed", ""),
    ("CopyDeep /e /n/a", 76, "failed", ""),
    ("CopyDeep /e /n", 77, "ok", "d /n"),
    ("CopyDeep /t/g /n", 77, "ok", "d /n,f /n/a,l /n/y"),
    ("CopyDeep /t/g/ /n", 77, "ok", "d /n,f /n/a,l /n/y"),
    ("CopyDeep /t/g /e/b", 77, "ok", "d /e/b,f /e/b/a,l /e/b/y"),
    ("CopyDeep /e /f", 78, "failed", ""),
    ("CopyDeep /e /p", 78, "failed", ""),
    ("CopyDeep /e /l", 79, "link", ""),
    ("CopyDeep /t/g /e", 80, "ok", "d /e/g,f /e/g/a,l /e/g/y"),
    ("CopyDeep /t/g /d", 81, "call", ""),
    ("CopyDeep /p /n", 82, "run", ""),
    ("CopyDeep /d/o /l/a", 82, "run", ""),
    ("CopyDeep /t/f /d", 83, "failed", ""),
    ("CopyDeep /t/o /d", 83, "failed", ""),
    ("CopyDeep /t/l /d", 84, "link", ""),
];

#[test]
fn copies_take_each_row(rt: HostRuntime) {
    for row in COPIES {
        let trial = Trial::Whole(SAMPLE, row);
        assert!(rt;
            matches!(placed_takes(rt.alloc(), row.0, &trial), Ok(true)),
            "{}",
            row.0
        );
        assert!(rt;
            matches!(copy_takes(rt.alloc(), row.0, &trial), Ok(true)),
            "{}",
            row.0
        );
    }
}

// Does the acts that a text names, one behind a comma.
fn do_all(alloc: Global, tree: &mut Value, texts: &str) -> Result<bool, PathFault> {
    for text in texts.split(',') {
        let a = placed(alloc, text)?;
        if perform(alloc, a.get(), tree)?.is_none() {
            return Ok(false);
        }
    }
    Ok(true)
}

// Whether acts that a text names leave this tree.
fn all_leave(alloc: Global, texts: &str, left: &str) -> Result<bool, PathFault> {
    let mut tree = sample(alloc, SAMPLE)?;
    Ok(do_all(alloc, &mut tree, texts)? && is_left(alloc, &tree, SAMPLE, left)?)
}

// Acts, and what is put on the tree of the tests then.
const APART: &[(&str, &str)] = &[
    (
        "CopyDeep /t/g /n,Discard /t/g/a",
        "d /n,f /n/a,l /n/y,- /t/g/a",
    ),
    ("CopyDeep /t/g /n,Discard /n/a", "d /n,l /n/y"),
    (
        "CopyDeep /t/g /n,PlaceFile /t/g/b",
        "d /n,f /n/a,l /n/y,f /t/g/b",
    ),
    ("Copy /f /n,Discard /f", "f /n,- /f"),
];

#[test]
fn a_copy_stays_where_its_source_changes(rt: HostRuntime) {
    for row in APART {
        assert!(rt;
            matches!(all_leave(rt.alloc(), row.0, row.1), Ok(true)),
            "{}",
            row.0
        );
    }
}
