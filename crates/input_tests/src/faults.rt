//! Reads that fail, and files that are too long.

use crate::answers::{File, Wanted, answer, is_stopped};
use checker_input::FileFault;
use std::process::Abort;
use std::test::Fail;

const RUN: &str = "run p --old o --base b --scenario upgrade --tree t";

// The files of a run in the order in which they are read.
const ORDER: &[&str] = &[
    "b",
    "o/control",
    "o/list",
    "o/conffiles",
    "o/preinst",
    "o/postinst",
    "o/prerm",
    "o/postrm",
    "p/control",
    "p/list",
    "p/conffiles",
    "p/preinst",
    "p/postinst",
    "p/prerm",
    "p/postrm",
    "t",
];

// The files of a pair in the order in which they are read.
const PAIRED: &[&str] = &[
    "b",
    "p/control",
    "p/list",
    "p/conffiles",
    "p/preinst",
    "p/postinst",
    "p/prerm",
    "p/postrm",
    "o/control",
    "o/list",
    "o/conffiles",
    "o/preinst",
    "o/postinst",
    "o/prerm",
    "o/postrm",
];

const PROGRAM: &[&str] = &["s"];

// The words of a request, and its files: those of a list between two places.
const REQUESTS: &[(&str, &[&str], usize, usize)] = &[
    (RUN, ORDER, 0, 16),
    ("check p --old o --base b", ORDER, 0, 15),
    ("check p --old o", ORDER, 1, 15),
    ("check p", ORDER, 8, 15),
    ("translate s", PROGRAM, 0, 1),
    ("load 7", PROGRAM, 0, 0),
    (
        "pair p --with o --base b --scenario in-favour",
        PAIRED,
        0,
        15,
    ),
    ("twice p", PAIRED, 1, 8),
];

// The files that have to be there.
const NEEDED: &[File<'static>] = &[
    ("b", b""),
    ("o/list", b"/a"),
    ("p/list", b"/a"),
    ("t", b""),
    ("s", b"#!/bin/sh"),
];

// A request whose read of that number fails, counted from 1, is stopped at the file in that place, and there are no
// further reads.
fn fails<R: Abort + AllocGlobal>(rt: &R, line: &str, files: &[&str]) {
    let mut number = 0u32;
    for name in files {
        number = number.saturating_add(1);
        let failed = is_stopped(rt.alloc(), line, NEEDED, number, Wanted::ReadFailed(*name));
        assert!(rt; failed, "{line}: {name}");
    }
    let last = answer(rt.alloc(), line, NEEDED, number.saturating_add(1));
    assert!(rt; last.is_ok(), "{line}");
}

#[test]
fn reads_that_fail(rt: HostRuntime) -> Result<(), Fail> {
    for row in REQUESTS {
        let files = row.1.get(row.2..row.3).ok_or("no files")?;
        fails(&rt, row.0, files);
    }
    Ok(())
}

// One file of each package and the tree.
const SOME: &[&str] = &["o/control", "p/postinst", "t"];

// With this text in the place of each of them in turn, whether it is too long.
fn too_long<R: Abort + AllocGlobal>(rt: &R, text: &[u8], want: bool) {
    for name in SOME {
        let files: [File<'_>; 5] = [
            ("b", b""),
            ("o/list", b"/a"),
            ("p/list", b"/a"),
            ("t", b""),
            (*name, text),
        ];
        let refused = Wanted::Refused(*name, FileFault::TooLong { most: 1_048_576 });
        let is_long = is_stopped(rt.alloc(), RUN, &files, 0, refused);
        assert!(rt; is_long == want, "{name}");
    }
}

#[test]
fn the_longest_files(rt: HostRuntime) -> Result<(), Fail> {
    let mut text = Vec::new(rt.alloc());
    for _ in 0..16_384u32 {
        text.extend_from_slice(
            b"................................................................",
        )?;
    }
    assert_eq!(rt; text.len(), 1_048_576);
    too_long(&rt, text.as_slice(), false);
    text.push(b'.')?;
    too_long(&rt, text.as_slice(), true);
    Ok(())
}
