//! The words `translate FILE`: programs, refusals in their order, and reads and writes that fail.

use super::scripts_made::Script;
use super::seen::Seen;
use super::{Case, Failing, QUIET, Row, Wanted, see_all};
use std::test::Fail;

const TRANSLATE: &[&str] = &["translate", "s"];

fn translation(script: Script, failing: Failing, wanted: &Wanted) -> Case {
    Case {
        words: TRANSLATE,
        files: &[],
        script: Some(("s", script)),
        failing,
        status: wanted.0,
        seen: Seen::Whole(wanted.1, wanted.2),
    }
}

// A script, and what has to come of it.
struct Translated(&'static [u8], Wanted);

impl Row for Translated {
    fn case(&self) -> Case {
        translation(Script::Joined(self.0, b""), QUIET, &self.1)
    }
}

const SCRIPTS: &[Translated] = &[
    Translated(b"#!/bin/sh", (0, b"(program lax (skip))\n", b"")),
    Translated(
        b"#!/bin/sh\n:\n",
        (0, b"(program lax (call 10 (word (p =:))))\n", b""),
    ),
    Translated(
        b"#!/bin/sh -e\n:",
        (0, b"(program strict (call 13 (word (p =:))))\n", b""),
    ),
    Translated(
        b"#!/bin/sh\nf() { exit; }; f \"$@\"\n",
        (
            0,
            b"(program lax (def f (exit 16)) (seq (skip) (fun 25 f (args))))\n",
            b"",
        ),
    ),
    Translated(
        b"#!/bin/sh\nuntil exit; do exit; done\n",
        (
            0,
            b"(program lax (while 10 (not (exit 16)) (seq (not (skip)) (exit 25))))\n",
            b"",
        ),
    ),
    // Several faults: the first in the order of bytes, interpreter, tokens, grammar, forms.
    Translated(
        b"#!/bin/zsh\nset -u\nfi\necho 'a\0",
        (3, b"", b"colis: s: NUL byte at 28\n"),
    ),
    Translated(
        b"#!/bin/zsh\nset -u\nfi\necho 'a",
        (3, b"", b"colis: s: interpreter not accepted\n"),
    ),
    Translated(
        b"#!/bin/sh\nset -u\nfi\necho 'a",
        (3, b"", b"colis: s: open quote at 25\n"),
    ),
    Translated(
        b"#!/bin/sh\nset -u\nfi\n",
        (3, b"", b"colis: s: syntax at 17\n"),
    ),
    Translated(
        b"#!/bin/sh\nset -u\nset -e\n",
        (3, b"", b"colis: s: unsupported option at 10\n"),
    ),
];

#[test]
fn scripts_become_programs(rt: HostRuntime) -> Result<(), Fail> {
    see_all(&rt, SCRIPTS)
}

// The script, what fails (the read, the write and the line, by their numbers, and how much of that write is taken), and
// what has to come of the call.
struct Fails(&'static [u8], u32, u32, u32, u32, Wanted);

impl Row for Fails {
    fn case(&self) -> Case {
        let failing = Failing {
            read: self.1,
            write: self.2,
            line: self.3,
            taken: self.4,
        };
        translation(Script::Joined(self.0, b""), failing, &self.5)
    }
}

const FAILING: &[Fails] = &[
    Fails(
        b"#!/bin/sh\n",
        1,
        0,
        0,
        0,
        (4, b"", b"colis: s: read failed\n"),
    ),
    Fails(b"#!/bin/sh\n", 1, 0, 1, 0, (5, b"", b"")),
    Fails(
        b"#!/bin/sh\n",
        0,
        1,
        0,
        0,
        (5, b"", b"colis: write failed\n"),
    ),
    Fails(
        b"#!/bin/sh\n",
        0,
        1,
        0,
        10,
        (5, b"(program l", b"colis: write failed\n"),
    ),
    Fails(
        b"#!/bin/sh\n",
        0,
        1,
        1,
        10,
        (5, b"(program l", b"colis: wri"),
    ),
    Fails(b"#!/bin/sh\nfi\n", 0, 1, 1, 7, (5, b"", b"colis: ")),
];

#[test]
fn translations_that_fail(rt: HostRuntime) -> Result<(), Fail> {
    see_all(&rt, FAILING)
}

// A first line with the beginning of a comment, how many bytes the script has with it, and what has to come of it.
struct Longest(&'static [u8], usize, Wanted);

impl Row for Longest {
    fn case(&self) -> Case {
        translation(Script::Commented(self.0, self.1), QUIET, &self.2)
    }
}

const LONGEST: &[Longest] = &[
    Longest(
        b"#!/bin/sh\n#",
        1_048_576,
        (0, b"(program lax (skip))\n", b""),
    ),
    Longest(
        b"#!/bin/zsh\n#",
        1_048_577,
        (3, b"", b"colis: s: longer than 1048576 bytes\n"),
    ),
];

// A script has at most 1,048,576 bytes. One that is longer is not looked at.
#[test]
fn the_longest_script(rt: HostRuntime) -> Result<(), Fail> {
    see_all(&rt, LONGEST)
}
