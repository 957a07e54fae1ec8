//! The limits of scripts and of made packages: each at its last value, and one beyond.

use super::scripts_made::Script;
use super::seen::Seen;
use super::{Called, Case, INSTALL, Row, Wanted, installation, see, see_all};
use std::test::Fail;

// Nothing is done, with success.
const DONE: &[u8] = b"colis brief 2
scenario install outcomes 1
outcome 1 done Installed
trace
verdict 0
";

// The pieces of a script, how often the second and the last stand in it, the status, and what is written.
struct Repeated(
    &'static [&'static [u8]; 4],
    usize,
    u8,
    &'static [u8],
    &'static [u8],
);

impl Row for Repeated {
    fn case(&self) -> Case {
        installation(
            INSTALL,
            Script::Repeated(self.0, self.1),
            self.2,
            Seen::Whole(self.3, self.4),
        )
    }
}

const SCRIPTS: &[Repeated] = &[
    // The bytes of a file: 1,048,576, of which the first line, `#` and the last newline have 12.
    Repeated(&[b"#", b"a", b"", b""], 1_048_564, 0, DONE, b""),
    Repeated(
        &[b"#", b"a", b"", b""],
        1_048_565,
        3,
        b"",
        b"colis: p/postinst: longer than 1048576 bytes\n",
    ),
    // Compound commands and substitutions that are open at one place: 64.
    Repeated(&[b"", b"{ ", b":", b"; }"], 64, 0, DONE, b""),
    Repeated(
        &[b"", b"{ ", b":", b"; }"],
        65,
        3,
        b"",
        b"colis: p/postinst: nested too deep at 138\n",
    ),
    Repeated(&[b"x=", b"$(", b":", b")"], 64, 0, DONE, b""),
    Repeated(
        &[b"x=", b"$(", b":", b")"],
        65,
        3,
        b"",
        b"colis: p/postinst: nested too deep at 140\n",
    ),
    // The bytes of a string: 65,536.
    Repeated(&[b"x=a\n", b"x=\"$x$x\"\n", b"", b""], 16, 0, DONE, b""),
    Repeated(
        &[b"x=a\n", b"x=\"$x$x\"\n", b"", b""],
        17,
        2,
        b"colis brief 2
scenario install outcomes 1
outcome 1 incomplete long 3:158
trace
verdict 2
",
        b"",
    ),
    // The names of a path: 64. With 64 there are outcomes for each of them, below.
    Repeated(
        &[b"test -e ", b"/a", b"", b""],
        65,
        2,
        b"colis brief 2
scenario install outcomes 1
outcome 1 incomplete long 3:10
trace
verdict 2
",
        b"",
    ),
];

#[test]
fn limits_of_scripts(rt: HostRuntime) -> Result<(), Fail> {
    see_all(&rt, SCRIPTS)
}

// The words, and how the report on a path of 64 names has to begin.
struct Named(&'static [&'static str], Wanted);

impl Row for Named {
    fn case(&self) -> Case {
        installation(
            self.0,
            Script::Repeated(&[b"test -e ", b"/a", b"", b""], 64),
            self.1.0,
            Seen::Begun(self.1.1, self.1.2),
        )
    }
}

const NAMES: &[Named] = &[
    Named(
        &[
            "check",
            "p",
            "--scenario",
            "install",
            "--limit",
            "65",
            "--brief",
        ],
        (3, b"", b"colis: more than 65 outcomes in install\n"),
    ),
    Named(
        &[
            "check",
            "p",
            "--scenario",
            "install",
            "--limit",
            "66",
            "--brief",
        ],
        (
            1,
            b"colis brief 2
scenario install outcomes 66
",
            b"",
        ),
    ),
];

// A path of 64 names has 66 outcomes: a link at each name, nothing there, and something.
#[test]
fn as_many_outcomes_as_names(rt: HostRuntime) -> Result<(), Fail> {
    see_all(&rt, NAMES)
}

// The letters of the questions, the words, and the line on standard error.
struct Asked(&'static [u8], &'static [&'static str], &'static [u8]);

impl Row for Asked {
    fn case(&self) -> Case {
        installation(
            self.1,
            Script::Questions(self.0),
            3,
            Seen::Whole(b"", self.2),
        )
    }
}

const FORTY: Asked = Asked(
    b"abcdefghijklmnopqrstuvwxyzABCDEFGHIJKLMN",
    &["check", "p", "--scenario", "install", "--limit", "100"],
    b"colis: more than 100 outcomes in install\n",
);

// Forty questions of different paths have more than 2^40 outcomes: the limit is passed without looking at them all.
#[test]
fn forty_questions(rt: HostRuntime) -> Result<(), Fail> {
    see(&rt, &FORTY, 0)
}

const TURNS: Called = Called(
    &[
        "check",
        "p",
        "--scenario",
        "install",
        "--turns",
        "10000",
        "--brief",
    ],
    &[
        ("p/list", b"/.\n"),
        ("p/postinst", b"#!/bin/sh\nwhile :; do :; done\n"),
    ],
    (
        2,
        b"colis brief 2
scenario install outcomes 1
outcome 1 bound 3:10
trace
verdict 2
",
        b"",
    ),
);

// The most turns of loops that can be asked for.
#[test]
fn ten_thousand_turns(rt: HostRuntime) -> Result<(), Fail> {
    see(&rt, &TURNS, 0)
}

// How many outcomes a scenario of the largest made package may have, and what comes of the call.
const LARGEST: &[Called] = &[
    Called(
        &["load", "500", "--limit", "1000"],
        &[],
        (3, b"", b"colis: more than 1000 outcomes in install\n"),
    ),
    Called(
        &["load", "500", "--limit", "1001"],
        &[],
        (
            1,
            b"load 500\ninstall outcomes 1001 done 1 failed 500 incomplete 500 bound 0\n\
            install-again outcomes 1001 done 1 failed 500 incomplete 500 bound 0\n\
            upgrade outcomes 1001 done 1 failed 500 incomplete 500 bound 0\n\
            remove outcomes 1 done 1 failed 0 incomplete 0 bound 0\n\
            purge outcomes 1 done 1 failed 0 incomplete 0 bound 0\n\
            purge-later outcomes 1 done 1 failed 0 incomplete 0 bound 0\nstatus 1\n",
            b"",
        ),
    ),
];

// The largest made package, at the limit and one below.
#[test]
fn the_largest_made_package(rt: HostRuntime) -> Result<(), Fail> {
    see_all(&rt, LARGEST)
}
