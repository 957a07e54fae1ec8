//! Calls that are refused, and reads and writes that fail.

use super::scripts_made::Script;
use super::seen::Seen;
use super::{Case, Failing, File, QUIET, Row, Wanted, installation, see, see_all};
use std::test::Fail;

// A package that is on no system of the base, and whose script has four outcomes.
const UNFIT: &[File] = &[
    ("p/list", b"/.\n/usr\n/usr/bin\n/usr/bin/x\n"),
    (
        "p/postrm",
        b"#!/bin/sh\n[ \"$1\" != purge ] || [ -e /srv/a ]\n",
    ),
    ("b", b"file /usr\n"),
];

// The words, the files, and the one line on standard error; the status is 3.
struct Refused(&'static [&'static str], &'static [File], &'static [u8]);

impl Row for Refused {
    fn case(&self) -> Case {
        Case {
            words: self.0,
            files: self.1,
            script: None,
            failing: QUIET,
            status: 3,
            seen: Seen::Whole(b"", self.2),
        }
    }
}

const REFUSED: &[Refused] = &[
    Refused(&[], &[], b"colis: usage: word 1\n"),
    Refused(&["check"], &[], b"colis: usage: word 2\n"),
    Refused(
        &["check", "p", "--turns", "10001"],
        &[],
        b"colis: usage: word 4\n",
    ),
    Refused(&["check", "p"], &[], b"colis: p/list: missing\n"),
    Refused(&["check", "p", "--base", "b"], &[], b"colis: b: missing\n"),
    Refused(
        &["check", "p", "--old", "o"],
        &[("p/list", b"/.\n")],
        b"colis: o/list: missing\n",
    ),
    Refused(
        &["run", "p", "--scenario", "purge", "--tree", "t"],
        &[("p/list", b"/.\n")],
        b"colis: t: missing\n",
    ),
    Refused(&["translate", "s"], &[], b"colis: s: missing\n"),
    Refused(&["load", "501"], &[], b"colis: usage: word 2\n"),
    Refused(
        &["load", "2", "--limit", "4"],
        &[],
        b"colis: more than 4 outcomes in install\n",
    ),
    Refused(
        &["check", "p"],
        &[("p/control", b"Package: p\nVersion: \n")],
        b"colis: p/control: bad version in line 2\n",
    ),
    Refused(
        &["check", "p"],
        &[("p/list", b"/.\n/a\n/a\n")],
        b"colis: p/list: line 3: fault 2\n",
    ),
    Refused(
        &["check", "p"],
        &[
            ("p/list", b"/.\n/a\n"),
            ("p/conffiles", b"/a\nremove-on-upgrade /a\n"),
        ],
        b"colis: p/conffiles: line 2: fault 4\n",
    ),
    Refused(
        &["check", "p", "--base", "b"],
        &[("b", b"dir /a\ndirectory /b\n")],
        b"colis: b: line 2: fault 1\n",
    ),
    Refused(
        &["run", "p", "--scenario", "purge", "--tree", "t"],
        &[("p/list", b"/.\n"), ("t", b"d /a\nf /b/c\n")],
        b"colis: t: line 2: fault 3\n",
    ),
    Refused(
        &["check", "p", "--base", "b", "--scenario", "upgrade"],
        &[
            ("p/list", b"/.\n/usr\n/usr/bin\n/usr/bin/x\n"),
            ("b", b"file /usr\n"),
        ],
        b"colis: no start tree for upgrade\n",
    ),
    // All scenarios: the first that has no start tree.
    Refused(
        &["check", "p", "--base", "b"],
        &[
            ("p/list", b"/.\n/usr\n/usr/bin\n/usr/bin/x\n"),
            ("b", b"file /usr\n"),
        ],
        b"colis: no start tree for upgrade\n",
    ),
    Refused(
        &["check", "p", "--limit", "2"],
        &[
            ("p/list", b"/.\n"),
            (
                "p/prerm",
                b"#!/bin/sh\nset -e\n[ -e /srv/a ] || mkdir /srv/a\n",
            ),
        ],
        b"colis: more than 2 outcomes in upgrade\n",
    ),
    // One scenario has no start tree, a later one too many outcomes, and what is told is the former.
    Refused(
        &[
            "check",
            "p",
            "--base",
            "b",
            "--limit",
            "2",
            "--scenario",
            "purge-later",
        ],
        UNFIT,
        b"colis: more than 2 outcomes in purge-later\n",
    ),
    Refused(
        &["check", "p", "--base", "b", "--limit", "2"],
        UNFIT,
        b"colis: no start tree for upgrade\n",
    ),
    // And the other way round.
    Refused(
        &["check", "p", "--base", "b", "--limit", "2"],
        &[
            ("p/list", b"/.\n/usr\n/usr/bin\n/usr/bin/x\n"),
            ("p/preinst", b"#!/bin/sh\n[ -e /srv/a ]\n"),
            ("b", b"file /usr\n"),
        ],
        b"colis: more than 2 outcomes in install\n",
    ),
];

#[test]
fn calls_that_are_refused(rt: HostRuntime) -> Result<(), Fail> {
    see_all(&rt, REFUSED)
}

// The words of a report that may have as many outcomes as this script has, and the status.
struct Limited(&'static [&'static str], &'static [u8], u8);

impl Row for Limited {
    fn case(&self) -> Case {
        installation(self.0, Script::Joined(self.1, b""), self.2, Seen::Any)
    }
}

const LIMITED: Limited = Limited(
    &[
        "check",
        "p",
        "--scenario",
        "install",
        "--limit",
        "3",
        "--brief",
    ],
    b"#!/bin/sh\nset -e\n[ -e /srv/a ] || mkdir /srv/a\n",
    2,
);

// The limit itself is not passed.
#[test]
fn as_many_outcomes_as_the_limit(rt: HostRuntime) -> Result<(), Fail> {
    see(&rt, &LIMITED, 0)
}

const CHECK: &[&str] = &["check", "p"];

const RUN: &[&str] = &["run", "p", "--scenario", "install", "--tree", "t"];

// What a check, a run and a translation find.
const FOUND: &[File] = &[("p/list", b"/.\n"), ("t", b""), ("s", b"#!/bin/sh\n:\n")];

// The words, what fails (the read, the write and the line, by their numbers, and how much of that write is taken), and
// what has to come of the call.
struct Fails(&'static [&'static str], u32, u32, u32, u32, Wanted);

impl Row for Fails {
    fn case(&self) -> Case {
        Case {
            words: self.0,
            files: FOUND,
            script: None,
            failing: Failing {
                read: self.1,
                write: self.2,
                line: self.3,
                taken: self.4,
            },
            status: self.5.0,
            seen: Seen::Whole(self.5.1, self.5.2),
        }
    }
}

const FAILING: &[Fails] = &[
    Fails(
        CHECK,
        1,
        0,
        0,
        0,
        (4, b"", b"colis: p/control: read failed\n"),
    ),
    Fails(
        CHECK,
        3,
        0,
        0,
        0,
        (4, b"", b"colis: p/conffiles: read failed\n"),
    ),
    Fails(
        CHECK,
        7,
        0,
        0,
        0,
        (4, b"", b"colis: p/postrm: read failed\n"),
    ),
    Fails(CHECK, 3, 0, 1, 7, (5, b"", b"colis: ")),
    Fails(
        CHECK,
        0,
        1,
        0,
        10,
        (5, b"colis repo", b"colis: write failed\n"),
    ),
    Fails(CHECK, 0, 1, 0, 1, (5, b"c", b"colis: write failed\n")),
    Fails(CHECK, 0, 1, 0, 0, (5, b"", b"colis: write failed\n")),
    Fails(CHECK, 0, 1, 1, 10, (5, b"colis repo", b"colis: wri")),
    Fails(&["check"], 0, 0, 1, 7, (5, b"", b"colis: ")),
    // What else is read, and what else is written.
    Fails(
        &["check", "p", "--base", "b"],
        1,
        0,
        0,
        0,
        (4, b"", b"colis: b: read failed\n"),
    ),
    Fails(
        &["check", "p", "--old", "o"],
        1,
        0,
        0,
        0,
        (4, b"", b"colis: o/control: read failed\n"),
    ),
    Fails(RUN, 8, 0, 0, 0, (4, b"", b"colis: t: read failed\n")),
    Fails(
        &["translate", "s"],
        1,
        0,
        0,
        0,
        (4, b"", b"colis: s: read failed\n"),
    ),
    Fails(
        &["check", "p", "--brief"],
        0,
        1,
        0,
        10,
        (5, b"colis brie", b"colis: write failed\n"),
    ),
    Fails(
        &["check", "p", "--json"],
        0,
        1,
        0,
        10,
        (5, b"{\"colis\":2", b"colis: write failed\n"),
    ),
    Fails(
        RUN,
        0,
        1,
        0,
        10,
        (5, b"result don", b"colis: write failed\n"),
    ),
    Fails(
        &["translate", "s"],
        0,
        1,
        0,
        10,
        (5, b"(program l", b"colis: write failed\n"),
    ),
    Fails(
        &["load", "1"],
        0,
        1,
        0,
        10,
        (5, b"load 1\nins", b"colis: write failed\n"),
    ),
    Fails(&["translate", "x"], 0, 0, 1, 7, (5, b"", b"colis: ")),
    Fails(RUN, 8, 0, 1, 7, (5, b"", b"colis: ")),
];

#[test]
fn reads_and_writes_that_fail(rt: HostRuntime) -> Result<(), Fail> {
    see_all(&rt, FAILING)
}
