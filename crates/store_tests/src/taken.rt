//! On a tree exactly one case of an act holds, and it is that of the row that the act takes there. Each row that an act
//! has of its own stands here at least once; of the general rows that of a slash, for each act whose path can end in
//! one, and some of links on the way.

use crate::call_words::{call_cases, placed_cases};
use crate::clause_texts::clause_of;
use feature_trees::{Value, read_tree};
use script_names::Memory;
use std::alloc::Global;
use std::process::Abort;
use tree_clauses::{Case, meets};

// The tree of these tests: `d` is a directory, `f` a file, `l` a link, `p` a pipe, `s` a socket, `b` a
// block device, `c` a character device.
const SAMPLE: &str = "d /d
d /d/e
f /d/f
l /d/l t
s /d/o
d /d/g
d /d/g/g
d /e
f /f
f /h
l /l t
b /o
p /p
c /c
d /g
d /x
d /x/f
d /x/l
d /x/g
f /x/g/a
l /x/o t
d /y
f /y/g
f /y/l
f /y/o";

// A call, or an act of a package manager, and the row that its last act takes on that tree.
type Taken = (&'static str, u8);

// Questions.
const QUESTIONS: &[Taken] = &[
    ("test -e /l/a", 1),
    ("test -e /d/l/a", 2),
    ("test -e /f/", 64),
    ("test -e /l", 65),
    ("test -e /n", 66),
    ("test -e /f", 67),
    ("test -f /f/", 64),
    ("test -f /l", 65),
    ("test -f /d", 66),
    ("test -f /f", 67),
    ("test -d /o/", 64),
    ("test -d /l", 65),
    ("test -d /f", 66),
    ("test -d /d/", 67),
    ("test -h /l/", 64),
    ("test -h /f", 66),
    ("test -h /l", 67),
    ("test -p /f/", 64),
    ("test -p /l", 65),
    ("test -p /d/o", 66),
    ("test -p /p", 67),
    ("test -S /o", 66),
    ("test -S /d/o", 67),
    ("test -b /c", 66),
    ("test -b /o", 67),
    ("test -c /n", 66),
    ("test -c /c", 67),
    ("test -x /f/", 64),
    ("test -x /l", 65),
    ("test -x /n", 66),
    ("test -x /d", 67),
    ("test -x /f", 68),
];

// Directories that are made or taken away, and what is removed.
const PLACES: &[Taken] = &[
    ("mkdir /l/a", 1),
    ("mkdir /f/", 64),
    ("mkdir /f/a", 66),
    ("mkdir /l", 67),
    ("mkdir /n", 68),
    ("mkdir -p /l/", 64),
    ("mkdir -p /l", 65),
    ("mkdir -p /f/a", 66),
    ("mkdir -p /f", 67),
    ("mkdir -p /d", 68),
    ("rmdir /f/", 64),
    ("rmdir /f", 66),
    ("rmdir /d", 67),
    ("rmdir /e", 68),
    ("rm /f/", 64),
    ("rm /n", 66),
    ("rm /d", 67),
    ("rm /l", 68),
    ("rm -r /f/", 64),
    ("rm -r /n", 66),
    ("rm -r /d", 69),
    ("rm -f /f/", 64),
    ("rm -f /d", 67),
    ("rm -f /f/a", 70),
    ("rm -f /f", 71),
    ("rm -rf /f/", 64),
    ("rm -rf /f/a", 70),
    ("rm -rf /n", 72),
];

// Files and links that are made.
const MADE: &[Taken] = &[
    ("touch /d/l/a", 2),
    ("touch /l", 65),
    ("touch /f/a", 66),
    ("touch /n", 67),
    ("touch /d", 68),
    ("ln -s t /l/a", 1),
    ("ln -s t /l", 65),
    ("ln -s t /f/a", 66),
    ("ln -s t /f", 67),
    ("ln -s t /n", 68),
    ("ln -s f /d", 70),
    ("ln -s t /e", 71),
    ("ln -sf t /l", 65),
    ("ln -sf t /f/a", 66),
    ("ln -sf t /f", 69),
    ("ln -sf e /d", 72),
    ("ln -sf t /e", 73),
];

// Moves; those of `/d` and `/l` to a path below them come last.
const MOVED: &[Taken] = &[
    ("mv /l/a /n", 1),
    ("mv /f /l/a", 129),
    ("mv /f /d/l/a", 130),
    ("mv /f /l", 65),
    ("mv /n /l/a", 66),
    ("mv /f /h/a", 67),
    ("mv /f /n", 68),
    ("mv /e /n", 69),
    ("mv /e /f", 70),
    ("mv /f /e", 71),
    ("mv /f /x", 72),
    ("mv /g /e", 73),
    ("mv /x/f /d", 74),
    ("mv /g /d", 75),
    ("mv /x/g /d/g", 76),
    ("mv /f /h", 77),
    ("mv /l /f", 78),
    ("mv /f /d", 79),
    ("mv /l /d", 80),
    ("mv /o /x", 81),
    ("mv /d /d/l", 65),
    ("mv /d /d/n", 66),
    ("mv /l /l/a", 129),
    ("mv /d /d/l/a", 130),
];

// Modes and owners that are set.
const ATTRS: &[Taken] = &[
    ("chmod 755 /l/a", 1),
    ("chmod 755 /f/", 64),
    ("chown root /l", 65),
    ("chgrp 0 /n", 66),
    ("chmod u+x /d", 67),
    ("chown 0:0 /f", 67),
    ("chmod 644 /d/o", 67),
];

// Copies of what is no directory, or of one without `-r`.
const COPIED: &[Taken] = &[
    ("cp /l/a /n", 1),
    ("cp /f /l/a", 129),
    ("cp /f /d/l/a", 130),
    ("cp /l /n", 65),
    ("cp /n /l/a", 66),
    ("cp /d /l/a", 67),
    ("cp /d /d/n", 67),
    ("cp /f /h/a", 68),
    ("cp /f /f/a", 68),
    ("cp /f /n", 69),
    ("cp /f /h", 69),
    ("cp /f /l", 70),
    ("cp /f /p", 71),
    ("cp /f /e", 72),
    ("cp /f /d", 72),
    ("cp /y/l /d", 73),
    ("cp /y/o /d", 74),
    ("cp /y/g /d", 75),
    ("cp /p /n", 82),
    ("cp /d/o /l/a", 82),
];

// Copies with `-r`.
const COPIED_DEEP: &[Taken] = &[
    ("cp -r /d/l/a /n", 2),
    ("cp -r /f /l/a", 129),
    ("cp -r /e /l/a", 129),
    ("cp -r /e /d/l/a", 130),
    ("cp -r /l /n", 65),
    ("cp -r /n /l/a", 66),
    ("cp -r /f /h/a", 68),
    ("cp -r /f /n", 69),
    ("cp -r /f /l", 70),
    ("cp -r /f /o", 71),
    ("cp -r /f /e", 72),
    ("cp -r /y/l /d", 73),
    ("cp -r /y/o /d", 74),
    ("cp -r /f /x", 75),
    ("cp -r /e /h/a", 76),
    ("cp -r /d /n", 77),
    ("cp -r /e /f", 78),
    ("cp -r /e /c", 78),
    ("cp -r /e /l", 79),
    ("cp -r /g /e", 80),
    ("cp -r /g /d", 81),
    ("cp -r /c /n", 82),
    ("cp -r /x/f /d", 83),
    ("cp -r /x/l /d", 84),
];

// What a package manager places and discards.
const PLACED: &[Taken] = &[
    ("PlaceFile /l/a", 1),
    ("PlaceFile /f/", 64),
    ("PlaceFile /f/a", 66),
    ("PlaceFile /d", 67),
    ("PlaceFile /l", 68),
    ("PlaceLink /f/", 64),
    ("PlaceLink /f/a", 66),
    ("PlaceLink /d", 67),
    ("PlaceLink /f", 68),
    ("PlaceConf /f/", 64),
    ("PlaceConf /f/a", 66),
    ("PlaceConf /d", 67),
    ("PlaceConf /n", 68),
    ("PlaceConf /l", 69),
    ("Discard /f/", 64),
    ("Discard /f/a", 66),
    ("Discard /d", 67),
    ("Discard /f", 68),
    ("DiscardDir /d/l/a", 2),
    ("DiscardDir /f/", 64),
    ("DiscardDir /f", 66),
    ("DiscardDir /d", 67),
    ("DiscardDir /e", 68),
];

// Whether the case holds on a tree.
fn holds(alloc: Global, made: &Case, tree: &Value) -> Result<bool, Memory> {
    let clause = clause_of(alloc, made)?;
    Ok(meets(alloc, clause.get(), tree)? == Some(true))
}

// Whether of these cases one holds on the tree, that of the row.
fn one_holds(alloc: Global, list: &[Case], tree: &Value, row: u8) -> Result<bool, Memory> {
    let mut found = false;
    for made in list {
        let here = holds(alloc, made, tree)?;
        if here != (made.row == row) || (here && found) {
            return Ok(false);
        }
        found = found || here;
    }
    Ok(found)
}

// Whether of these cases one holds on the tree of the tests, that of the row.
fn is_taken(alloc: Global, list: &[Case], row: u8) -> bool {
    match read_tree(alloc, SAMPLE.as_bytes()) {
        Ok(tree) => matches!(one_holds(alloc, list, &tree, row), Ok(true)),
        Err(_) => false,
    }
}

// Whether a call takes its row.
fn call_takes(alloc: Global, row: &Taken) -> bool {
    match call_cases(alloc, row.0) {
        Ok(list) => is_taken(alloc, list.as_slice(), row.1),
        Err(_) => false,
    }
}

// Whether an act of a package manager takes its row.
fn placed_takes(alloc: Global, row: &Taken) -> bool {
    match placed_cases(alloc, row.0) {
        Ok(list) => is_taken(alloc, list.as_slice(), row.1),
        Err(_) => false,
    }
}

// Each call of a table takes its row.
fn expect_calls<R: Abort + AllocGlobal>(rt: &R, rows: &[Taken]) {
    for row in rows {
        assert!(rt; call_takes(rt.alloc(), row), "{}", row.0);
    }
}

#[test]
fn one_case_of_a_call_holds(rt: HostRuntime) {
    expect_calls(&rt, QUESTIONS);
    expect_calls(&rt, PLACES);
    expect_calls(&rt, MADE);
    expect_calls(&rt, MOVED);
    expect_calls(&rt, ATTRS);
    expect_calls(&rt, COPIED);
    expect_calls(&rt, COPIED_DEEP);
}

#[test]
fn one_case_of_a_package_manager_holds(rt: HostRuntime) {
    for row in PLACED {
        assert!(rt; placed_takes(rt.alloc(), row), "{}", row.0);
    }
}
