//! Cases of the last act of a call, of acts of a package manager, and of backs: the row, its answer, and the clause of
//! the trees that take it.

use crate::call_words::{call_cases, placed_cases, returned_cases};
use crate::clause_texts::{clause_of, has_text};
use crate::copied::COPIES;
use script_names::{Done, Reason};
use std::alloc::Global;
use std::process::Abort;
use tree_clauses::Case;

/// A call or an act of a package manager, a row of its last act, the answer there, how many further variables the case
/// has, and its clause.
pub(crate) type Printed = (&'static str, u8, &'static str, u32, &'static str);

// Questions.
const QUESTIONS: &[Printed] = &[
    (
        "test -e /a/b",
        66,
        "failed",
        2,
        "clause start v0 now v0
kind v0 dir
kind v0 absent,reg,fifo,socket,block,char,dir
entry v0 a v1
kind v1 absent,reg,fifo,socket,block,char,dir
entry v1 b v2
kind v2 absent
",
    ),
    (
        "test -h /a",
        67,
        "ok",
        1,
        "clause start v0 now v0
kind v0 dir
kind v0 dir
entry v0 a v1
kind v1 link
",
    ),
    (
        "test -S /a",
        66,
        "failed",
        1,
        "clause start v0 now v0
kind v0 dir
kind v0 absent,reg,fifo,socket,block,char,dir
entry v0 a v1
kind v1 absent,reg,fifo,block,char,dir
",
    ),
    (
        "test -S /a",
        67,
        "ok",
        1,
        "clause start v0 now v0
kind v0 dir
kind v0 dir
entry v0 a v1
kind v1 socket
",
    ),
    (
        "test -x /a",
        68,
        "run",
        1,
        "clause start v0 now v0
kind v0 dir
kind v0 dir
entry v0 a v1
kind v1 reg,fifo,socket,block,char
",
    ),
    (
        "test -f /a/b",
        1,
        "link",
        1,
        "clause start v0 now v0
kind v0 dir
kind v0 dir
entry v0 a v1
kind v1 link
",
    ),
    (
        "test -f /a/b/",
        66,
        "failed",
        2,
        "clause start v0 now v0
kind v0 dir
kind v0 absent,reg,fifo,socket,block,char,dir
entry v0 a v1
kind v1 absent,reg,fifo,socket,block,char,dir
entry v1 b v2
kind v2 absent,dir
",
    ),
    (
        "test -f /a/b/",
        67,
        "ok",
        2,
        "clause start v0 now v0
kind v0 dir
kind v0 dir
entry v0 a v1
kind v1 dir
entry v1 b v2
kind v2 -
",
    ),
    (
        "test -d /",
        67,
        "ok",
        0,
        "clause start v0 now v0
kind v0 dir
kind v0 dir
",
    ),
];

// Changes at one path.
const CHANGES: &[Printed] = &[
    (
        "mkdir /a/b",
        66,
        "failed",
        2,
        "clause start v0 now v0
kind v0 dir
kind v0 absent,reg,fifo,socket,block,char,dir
entry v0 a v1
kind v1 absent,reg,fifo,socket,block,char
entry v1 b v2
kind v2 absent,reg,link,fifo,socket,block,char,dir
",
    ),
    (
        "mkdir /a/b",
        68,
        "ok",
        5,
        "clause start v0 now v5
kind v0 dir
kind v0 dir
entry v0 a v1
kind v1 dir
entry v1 b v2
kind v2 absent
kind v3 dir
fence v3 {}
similar v4 {b} v1
entry v4 b v3
similar v5 {a} v0
entry v5 a v4
",
    ),
    (
        "mkdir -p /a",
        68,
        "ok",
        3,
        "clause start v0 now v3
kind v0 dir
kind v0 dir
entry v0 a v1
kind v1 absent,dir
similar v2 {} v1
similar v3 {a} v0
entry v3 a v2
",
    ),
    (
        "rmdir /a/",
        64,
        "slash",
        1,
        "clause start v0 now v0
kind v0 dir
kind v0 dir
entry v0 a v1
kind v1 reg,link,fifo,socket,block,char
",
    ),
    (
        "rmdir /a/",
        67,
        "failed",
        1,
        "clause start v0 now v0
kind v0 dir
kind v0 dir
entry v0 a v1
kind v1 dir
notempty v1
",
    ),
    (
        "rmdir /a/",
        68,
        "ok",
        3,
        "clause start v0 now v3
kind v0 dir
kind v0 dir
entry v0 a v1
kind v1 dir
fence v1 {}
kind v2 absent
similar v3 {a} v0
entry v3 a v2
",
    ),
    (
        "rm /a",
        68,
        "ok",
        3,
        "clause start v0 now v3
kind v0 dir
kind v0 dir
entry v0 a v1
kind v1 reg,link,fifo,socket,block,char
kind v2 absent
similar v3 {a} v0
entry v3 a v2
",
    ),
    (
        "rm -rf /a/b",
        70,
        "ok",
        2,
        "clause start v0 now v0
kind v0 dir
kind v0 absent,reg,fifo,socket,block,char,dir
entry v0 a v1
kind v1 absent,reg,fifo,socket,block,char
entry v1 b v2
kind v2 absent,reg,link,fifo,socket,block,char,dir
",
    ),
    (
        "touch /a",
        67,
        "ok",
        3,
        "clause start v0 now v3
kind v0 dir
kind v0 dir
entry v0 a v1
kind v1 absent,reg
kind v2 reg
similar v3 {a} v0
entry v3 a v2
",
    ),
    (
        "ln -s /x/t /a",
        68,
        "ok",
        3,
        "clause start v0 now v3
kind v0 dir
kind v0 dir
entry v0 a v1
kind v1 absent
target v2 /x/t
similar v3 {a} v0
entry v3 a v2
",
    ),
    (
        "ln -sf ../t /a/b",
        69,
        "ok",
        5,
        "clause start v0 now v5
kind v0 dir
kind v0 dir
entry v0 a v1
kind v1 dir
entry v1 b v2
kind v2 absent,reg,fifo,socket,block,char
target v3 ../t
similar v4 {b} v1
entry v4 b v3
similar v5 {a} v0
entry v5 a v4
",
    ),
    (
        "ln -s /x/t /a",
        71,
        "ok",
        5,
        "clause start v0 now v5
kind v0 dir
kind v0 dir
entry v0 a v1
kind v1 dir
entry v1 t v2
kind v2 absent
target v3 /x/t
similar v4 {t} v1
entry v4 t v3
similar v5 {a} v0
entry v5 a v4
",
    ),
];

// Moves: to the place, to one beside a directory on the way of what is moved, below the place, below what is moved,
// and past a link on the way of the place.
const MOVES: &[Printed] = &[
    (
        "mv /a /b",
        66,
        "failed",
        1,
        "clause start v0 now v0
kind v0 dir
kind v0 absent,reg,fifo,socket,block,char,dir
entry v0 a v1
kind v1 absent
kind v0 absent,reg,link,fifo,socket,block,char,dir
",
    ),
    (
        "mv /a /b",
        68,
        "ok",
        6,
        "clause start v0 now v6
kind v0 dir
kind v0 dir
entry v0 a v1
kind v1 reg,link,fifo,socket,block,char
kind v0 dir
entry v0 b v2
kind v2 absent
kind v3 absent
similar v4 {a} v0
entry v4 a v3
kind v4 dir
entry v4 b v5
kind v5 absent,reg,link,fifo,socket,block,char,dir
similar v6 {b} v4
entry v6 b v1
",
    ),
    (
        "mv /a/b /c",
        68,
        "ok",
        8,
        "clause start v0 now v8
kind v0 dir
kind v0 dir
entry v0 a v1
kind v1 dir
entry v1 b v2
kind v2 reg,link,fifo,socket,block,char
kind v0 dir
entry v0 c v3
kind v3 absent
kind v4 absent
similar v5 {b} v1
entry v5 b v4
similar v6 {a} v0
entry v6 a v5
kind v6 dir
entry v6 c v7
kind v7 absent,reg,link,fifo,socket,block,char,dir
similar v8 {c} v6
entry v8 c v2
",
    ),
    (
        "mv /a /b",
        76,
        "ok",
        9,
        "clause start v0 now v9
kind v0 dir
kind v0 dir
entry v0 a v1
kind v1 dir
kind v0 dir
entry v0 b v2
kind v2 dir
entry v2 a v3
kind v3 dir
fence v3 {}
kind v4 absent
similar v5 {a} v0
entry v5 a v4
kind v5 dir
entry v5 b v6
kind v6 dir
entry v6 a v7
kind v7 absent,reg,link,fifo,socket,block,char,dir
similar v8 {a} v6
entry v8 a v1
similar v9 {b} v5
entry v9 b v8
",
    ),
    (
        "mv /a /a/b",
        66,
        "failed",
        3,
        "clause start v0 now v0
kind v0 dir
kind v0 absent,reg,fifo,socket,block,char,dir
entry v0 a v1
kind v1 absent,reg,link,fifo,socket,block,char,dir
kind v0 absent,reg,fifo,socket,block,char,dir
entry v0 a v2
kind v2 absent,reg,fifo,socket,block,char,dir
entry v2 b v3
kind v3 absent,reg,fifo,socket,block,char,dir
",
    ),
    (
        "mv /a /b/c",
        129,
        "link",
        2,
        "clause start v0 now v0
kind v0 dir
kind v0 dir
entry v0 a v1
kind v1 reg,link,fifo,socket,block,char,dir
kind v0 dir
entry v0 b v2
kind v2 link
",
    ),
];

// Acts of a package manager.
const PLACED: &[Printed] = &[
    (
        "PlaceFile /a",
        68,
        "ok",
        3,
        "clause start v0 now v3
kind v0 dir
kind v0 dir
entry v0 a v1
kind v1 absent,reg,link,fifo,socket,block,char
kind v2 reg
similar v3 {a} v0
entry v3 a v2
",
    ),
    (
        "PlaceLink /a/b",
        68,
        "ok",
        5,
        "clause start v0 now v5
kind v0 dir
kind v0 dir
entry v0 a v1
kind v1 dir
entry v1 b v2
kind v2 absent,reg,link,fifo,socket,block,char
target v3 t
similar v4 {b} v1
entry v4 b v3
similar v5 {a} v0
entry v5 a v4
",
    ),
    (
        "PlaceConf /a",
        69,
        "conffile",
        1,
        "clause start v0 now v0
kind v0 dir
kind v0 dir
entry v0 a v1
kind v1 link,fifo,socket,block,char
",
    ),
    (
        "Discard /a/b",
        66,
        "ok",
        2,
        "clause start v0 now v0
kind v0 dir
kind v0 absent,reg,fifo,socket,block,char,dir
entry v0 a v1
kind v1 absent,reg,fifo,socket,block,char
entry v1 b v2
kind v2 absent,reg,link,fifo,socket,block,char,dir
",
    ),
    (
        "DiscardDir /a",
        68,
        "ok",
        3,
        "clause start v0 now v3
kind v0 dir
kind v0 dir
entry v0 a v1
kind v1 dir
fence v1 {}
kind v2 absent
similar v3 {a} v0
entry v3 a v2
",
    ),
];

// Backs; variable 1 is the kept tree.
const BACKS: &[Printed] = &[
    (
        "File /a",
        66,
        "ok",
        1,
        "clause start v0 now v0
kind v0 dir
kind v1 absent,reg,link,fifo,socket,block,char,dir
kind v0 absent,reg,fifo,socket,block,char
entry v0 a v2
kind v2 absent,reg,link,fifo,socket,block,char,dir
",
    ),
    (
        "File /a/b",
        68,
        "ok",
        6,
        "clause start v0 now v7
kind v0 dir
kind v1 absent,reg,link,fifo,socket,block,char,dir
entry v1 a v2
kind v2 absent,reg,link,fifo,socket,block,char,dir
entry v2 b v3
kind v3 absent,reg,link,fifo,socket,block,char
kind v0 dir
entry v0 a v4
kind v4 dir
entry v4 b v5
kind v5 absent,reg,link,fifo,socket,block,char
similar v6 {b} v4
entry v6 b v3
similar v7 {a} v0
entry v7 a v6
",
    ),
    (
        "Folder /a",
        69,
        "ok",
        4,
        "clause start v0 now v5
kind v0 dir
kind v1 absent,reg,link,fifo,socket,block,char,dir
entry v1 a v2
kind v2 absent
kind v0 dir
entry v0 a v3
kind v3 dir
fence v3 {}
kind v4 absent
similar v5 {a} v0
entry v5 a v4
",
    ),
];

fn answer_text(answer: Done) -> &'static str {
    match answer {
        Done::Ok => "ok",
        Done::Failed => "failed",
        Done::Stopped(Reason::Link) => "link",
        Done::Stopped(Reason::Slash) => "slash",
        Done::Stopped(Reason::Run) => "run",
        Done::Stopped(Reason::Conffile) => "conffile",
        Done::Stopped(_) => "another",
    }
}

// Whether the case is the row's, and its clause is read as it was printed.
fn is_case(alloc: Global, made: &Case, row: &Printed) -> bool {
    if answer_text(made.done) != row.2 || made.locals != row.3 {
        return false;
    }
    match clause_of(alloc, made) {
        Ok(clause) => has_text(alloc, clause.get(), row.4.as_bytes()),
        Err(_) => false,
    }
}

// Whether one of the cases is the row's.
fn one_is(alloc: Global, list: &[Case], row: &Printed) -> bool {
    let mut found = false;
    for made in list {
        if made.row == row.1 {
            if found || !is_case(alloc, made, row) {
                return false;
            }
            found = true;
        }
    }
    found
}

// Whether one of the cases of a call is the row's.
fn call_has(alloc: Global, row: &Printed) -> bool {
    match call_cases(alloc, row.0) {
        Ok(list) => one_is(alloc, list.as_slice(), row),
        Err(_) => false,
    }
}

// Whether one of the cases of an act of a package manager is the row's.
fn placed_has(alloc: Global, row: &Printed) -> bool {
    match placed_cases(alloc, row.0) {
        Ok(list) => one_is(alloc, list.as_slice(), row),
        Err(_) => false,
    }
}

// Whether one of the cases of a back is the row's.
fn back_has(alloc: Global, row: &Printed) -> bool {
    match returned_cases(alloc, row.0) {
        Ok(list) => one_is(alloc, list.as_slice(), row),
        Err(_) => false,
    }
}

// Each call of a table has its case.
fn expect_calls<R: Abort + AllocGlobal>(rt: &R, rows: &[Printed]) {
    for row in rows {
        assert!(rt; call_has(rt.alloc(), row), "{}", row.0);
    }
}

#[test]
fn cases_of_calls(rt: HostRuntime) {
    expect_calls(&rt, QUESTIONS);
    expect_calls(&rt, CHANGES);
    expect_calls(&rt, MOVES);
    expect_calls(&rt, COPIES);
}

#[test]
fn cases_of_a_package_manager(rt: HostRuntime) {
    for row in PLACED {
        assert!(rt; placed_has(rt.alloc(), row), "{}", row.0);
    }
}

#[test]
fn cases_of_backs(rt: HostRuntime) {
    for row in BACKS {
        assert!(rt; back_has(rt.alloc(), row), "{}", row.0);
    }
}
