//! What each file is refused for, and which refusal comes first.

use crate::answers::{File, Wanted, answer, is_stopped};
use checker_input::{FileFault, ScriptFault};
use shell_syntax::Form;
use std::test::Fail;

const RUN: &str = "run p --old o --base b --scenario upgrade --tree t";

// The files of a package, first each with a fault, then the same files without.
const ORDERED: &[File<'static>] = &[
    ("p/control", b"Version: \n"),
    ("p/list", b"/etc/a\nx\n"),
    ("p/conffiles", b"/etc/a\n/etc/c\n"),
    ("p/preinst", b"#!/bin/sh\n\0"),
    ("p/postinst", b"#!/bin/sh\nfi\n"),
    ("p/prerm", b"#!/bin/sh\nset -u\n"),
    ("p/postrm", b"#!/usr/bin/perl\n"),
    ("p/control", b"Version: 1\n"),
    ("p/list", b"/etc/a\n/etc/b\n"),
    ("p/conffiles", b"/etc/a\n"),
    ("p/preinst", b"#!/bin/sh\n"),
    ("p/postinst", b"#!/bin/sh\n"),
    ("p/prerm", b"#!/bin/sh\n"),
    ("p/postrm", b"#!/bin/sh\n"),
];

// What the package is refused for, where so many of its first files have no fault.
const FIRST: &[Wanted<'static>] = &[
    Wanted::Refused("p/control", FileFault::Version { line: 1 }),
    Wanted::Refused("p/list", FileFault::Line { line: 2, why: 1 }),
    Wanted::Refused("p/conffiles", FileFault::Line { line: 2, why: 3 }),
    Wanted::Refused("p/preinst", FileFault::Script(ScriptFault::Nul { at: 10 })),
    Wanted::Refused(
        "p/postinst",
        FileFault::Script(ScriptFault::Syntax { at: 10 }),
    ),
    Wanted::Refused(
        "p/prerm",
        FileFault::Script(ScriptFault::Form {
            form: Form::Option,
            at: 10,
        }),
    ),
    Wanted::Refused(
        "p/postrm",
        FileFault::Script(ScriptFault::Interpreter { at: 0 }),
    ),
];

#[test]
fn the_first_file_at_fault(rt: HostRuntime) -> Result<(), Fail> {
    for place in 0..7usize {
        let want = FIRST.get(place).ok_or("no refusal")?;
        let files = ORDERED.get(..7 + place).ok_or("no files")?;
        let stopped = is_stopped(rt.alloc(), "check p", files, 0, *want);
        assert!(rt; stopped, "{place}");
    }
    let last = answer(rt.alloc(), "check p", ORDERED, 0);
    assert!(rt; last.is_ok());
    Ok(())
}

// The words of a request, its files, and what it is refused for.
const ROWS: &[(&str, &[File<'static>], Wanted<'static>)] = &[
    (
        "check p",
        &[],
        Wanted::Refused("p/list", FileFault::Missing),
    ),
    (
        "check p",
        &[("p/control", b"A: b\nVersion: 1_2\n")],
        Wanted::Refused("p/control", FileFault::Version { line: 2 }),
    ),
    (
        "check p",
        &[("p/control", b""), ("p/conffiles", b"/etc/a")],
        Wanted::Refused("p/list", FileFault::Missing),
    ),
    (
        "twice p",
        &[("p/control", b"Package: a_b\nVersion: 1_2\n")],
        Wanted::Refused("p/control", FileFault::Version { line: 2 }),
    ),
    (
        "twice p",
        &[("p/control", b"Version: 1\nPackage: \t\nPackage: a\n")],
        Wanted::Refused("p/control", FileFault::Version { line: 2 }),
    ),
    (
        "pair p --with q --scenario in-favour",
        &[("p/control", b"Version: 1\n\nPackage: A\n")],
        Wanted::Refused("p/control", FileFault::Version { line: 3 }),
    ),
    (
        "pair p --with q --scenario in-favour",
        &[("p/list", b"x\n"), ("q/control", b"Package: A\n")],
        Wanted::Refused("p/list", FileFault::Line { line: 1, why: 1 }),
    ),
    (
        "pair p --with q --scenario in-favour",
        &[("p/list", b""), ("q/control", b"Package: A\n")],
        Wanted::Refused("q/list", FileFault::Missing),
    ),
    (
        "check p",
        &[("p/control", b"Package: A_\n"), ("p/list", b"x\n")],
        Wanted::Refused("p/list", FileFault::Line { line: 1, why: 1 }),
    ),
    (
        "check p",
        &[("p/list", b"/etc/a\n/etc/a\n")],
        Wanted::Refused("p/list", FileFault::Line { line: 2, why: 2 }),
    ),
    (
        "check p",
        &[("p/list", b"/etc/a -> b\n/etc/a/c\n")],
        Wanted::Refused("p/list", FileFault::Line { line: 2, why: 3 }),
    ),
    (
        "check p",
        &[("p/list", b"/etc/a\n"), ("p/conffiles", b"etc/a\n")],
        Wanted::Refused("p/conffiles", FileFault::Line { line: 1, why: 1 }),
    ),
    (
        "check p",
        &[
            ("p/list", b"/etc/a\n"),
            ("p/conffiles", b"/etc/a\n/etc/a\n"),
        ],
        Wanted::Refused("p/conffiles", FileFault::Line { line: 2, why: 2 }),
    ),
    (
        "check p",
        &[
            ("p/list", b"/etc/a\n"),
            ("p/conffiles", b"remove-on-upgrade /etc/a\n"),
        ],
        Wanted::Refused("p/conffiles", FileFault::Line { line: 1, why: 4 }),
    ),
    (
        "check p",
        &[("p/list", b""), ("p/postrm", b"#!/bin/sh\na && ;\n")],
        Wanted::Refused(
            "p/postrm",
            FileFault::Script(ScriptFault::Syntax { at: 15 }),
        ),
    ),
    (
        "check p",
        &[("p/list", b""), ("p/postinst", b"#!/bin/sh\necho 'a\n")],
        Wanted::Refused(
            "p/postinst",
            FileFault::Script(ScriptFault::OpenQuote { at: 15 }),
        ),
    ),
    (RUN, &[], Wanted::Refused("b", FileFault::Missing)),
    (
        RUN,
        &[("b", b"fits\n# x\nlink /a\n"), ("o/control", b"Version:")],
        Wanted::Refused("b", FileFault::Line { line: 3, why: 1 }),
    ),
    (
        RUN,
        &[("b", b"link /a b\nlink /a /\n"), ("o/control", b"Version:")],
        Wanted::Refused("b", FileFault::Line { line: 2, why: 2 }),
    ),
    (
        RUN,
        &[
            ("b", b""),
            ("o/control", b"Version:"),
            ("p/control", b"Version:"),
        ],
        Wanted::Refused("o/control", FileFault::Version { line: 1 }),
    ),
    (
        RUN,
        &[("b", b""), ("p/list", b"/a")],
        Wanted::Refused("o/list", FileFault::Missing),
    ),
    (
        RUN,
        &[
            ("b", b""),
            ("o/list", b"/a"),
            ("o/postrm", b""),
            ("p/control", b"Version:"),
        ],
        Wanted::Refused(
            "o/postrm",
            FileFault::Script(ScriptFault::Interpreter { at: 0 }),
        ),
    ),
    (
        RUN,
        &[("b", b""), ("o/list", b"/a"), ("t", b"x")],
        Wanted::Refused("p/list", FileFault::Missing),
    ),
    (
        RUN,
        &[
            ("b", b""),
            ("o/list", b"/a"),
            ("p/list", b"/a"),
            ("p/postrm", b""),
            ("t", b"x"),
        ],
        Wanted::Refused(
            "p/postrm",
            FileFault::Script(ScriptFault::Interpreter { at: 0 }),
        ),
    ),
    (
        RUN,
        &[("b", b""), ("o/list", b"/a"), ("p/list", b"/a")],
        Wanted::Refused("t", FileFault::Missing),
    ),
    (
        RUN,
        &[
            ("b", b""),
            ("o/list", b"/a"),
            ("p/list", b"/a"),
            ("t", b"d /a\nf /a\n"),
        ],
        Wanted::Refused("t", FileFault::Line { line: 2, why: 2 }),
    ),
    (
        RUN,
        &[
            ("b", b""),
            ("o/list", b"/a"),
            ("p/list", b"/a"),
            ("t", b"d /a\nf /b/c\n"),
        ],
        Wanted::Refused("t", FileFault::Line { line: 2, why: 3 }),
    ),
    (
        RUN,
        &[
            ("b", b""),
            ("o/list", b"/a"),
            ("p/list", b"/a"),
            ("t", b"x"),
        ],
        Wanted::Refused("t", FileFault::Line { line: 1, why: 1 }),
    ),
    ("translate s", &[], Wanted::Refused("s", FileFault::Missing)),
    (
        "translate s",
        &[("s", b"")],
        Wanted::Refused("s", FileFault::Script(ScriptFault::Interpreter { at: 0 })),
    ),
    (
        "translate s",
        &[("s", b"#!/bin/sh\nif true; fi\n")],
        Wanted::Refused("s", FileFault::Script(ScriptFault::Syntax { at: 19 })),
    ),
    (
        "translate s",
        &[("s", b"#!/bin/sh\nbreak\n")],
        Wanted::Refused(
            "s",
            FileFault::Script(ScriptFault::Form {
                form: Form::LoopExit,
                at: 10,
            }),
        ),
    ),
    (
        "translate s",
        &[("s", b"#!/bin/sh\nx=$(true\n")],
        Wanted::Refused(
            "s",
            FileFault::Script(ScriptFault::OpenSubstitution { at: 12 }),
        ),
    ),
    (
        "translate s",
        &[("s", b"#!/bin/sh\ncat <<EOF\nx\nEOF\n")],
        Wanted::Refused(
            "s",
            FileFault::Script(ScriptFault::Unsupported {
                form: Form::Heredoc,
                at: 14,
            }),
        ),
    ),
];

#[test]
fn files_at_fault(rt: HostRuntime) -> Result<(), Fail> {
    for row in ROWS {
        let stopped = is_stopped(rt.alloc(), row.0, row.1, 0, row.2);
        assert!(rt; stopped, "{}", row.0);
    }
    Ok(())
}
