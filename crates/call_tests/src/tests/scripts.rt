//! The ways in which one script can end, which is the postinst of a package that is installed and lists nothing.

use super::scripts_made::{STRICT, Script};
use super::seen::Seen;
use super::{Case, Failing, INSTALL, NOTHING, Row, installation, see, see_all};
use std::test::Fail;

// The usual template of a maintainer script, behind its first two lines.
pub const TEMPLATE: &[u8] = b"case \"$1\" in\n  configure)\n    mkdir -p /var/lib/foo\n  ;;\n  \
    abort-upgrade|abort-remove|abort-deconfigure)\n  ;;\n  *)\n    \
    echo \"postinst called with unknown argument \\`$1'\" >&2\n    exit 1\n  ;;\nesac\nexit 0\n";

// A script behind its first two lines, the status, and the report, from the number of outcomes on.
struct Strict(&'static [u8], u8, &'static [u8]);

impl Row for Strict {
    fn case(&self) -> Case {
        installation(
            INSTALL,
            Script::Joined(STRICT, self.0),
            self.1,
            Seen::Report(self.2),
        )
    }
}

const SCRIPTS: &[Strict] = &[
    // Nothing but the two lines.
    Strict(b"", 0, b"1\noutcome 1 done Installed\ntrace\nverdict 0\n"),
    // The base says that the directory is there.
    Strict(
        b"test -d /etc\n",
        0,
        b"1\noutcome 1 done Installed\ntrace 3:17:67\nverdict 0\n",
    ),
    Strict(
        b"[ -e /srv/a ] || mkdir /srv/a\n",
        2,
        b"3\noutcome 1 incomplete link 3:17\ntrace 3:17:65\noutcome 2 done Installed\ntrace 3:17:66 3:34:68\n\
        outcome 3 done Installed\ntrace 3:17:67\nverdict 2\n",
    ),
    Strict(
        b"mkdir /srv/a/b\n",
        1,
        b"4\noutcome 1 incomplete link 3:17\ntrace 3:17:2\noutcome 2 failed Half-Configured\ntrace 3:17:66\n\
        outcome 3 failed Half-Configured\ntrace 3:17:67\noutcome 4 done Installed\ntrace 3:17:68\nverdict 1\n",
    ),
    // Of what stands somewhere the next question asks more.
    Strict(
        b"test -e /srv/a\ntest -d /srv/a\n",
        1,
        b"4\noutcome 1 incomplete link 3:17\ntrace 3:17:65\noutcome 2 failed Half-Configured\ntrace 3:17:66\n\
        outcome 3 failed Half-Configured\ntrace 3:17:67 3:32:66\noutcome 4 done Installed\n\
        trace 3:17:67 3:32:67\nverdict 1\n",
    ),
    // What was taken away is not there.
    Strict(
        b"rm -f /srv/a\ntest -e /srv/a\n",
        1,
        b"2\noutcome 1 failed Half-Configured\ntrace 3:17:67\noutcome 2 failed Half-Configured\n\
        trace 3:17:71 3:30:66\nverdict 1\n",
    ),
    // A directory in which something was made is not empty.
    Strict(
        b"touch /srv/a\nrmdir /srv\n",
        1,
        b"3\noutcome 1 incomplete link 3:17\ntrace 3:17:65\noutcome 2 failed Half-Configured\ntrace 3:17:67 3:30:67\n\
        outcome 3 failed Half-Configured\ntrace 3:17:68 3:30:67\nverdict 1\n",
    ),
    Strict(
        b"rm -f /srv/d/x\nrmdir /srv/d\n",
        1,
        b"5\noutcome 1 incomplete link 3:17\ntrace 3:17:2\noutcome 2 failed Half-Configured\ntrace 3:17:67\n\
        outcome 3 failed Half-Configured\ntrace 3:17:70 3:32:66\noutcome 4 failed Half-Configured\n\
        trace 3:17:71 3:32:67\noutcome 5 done Installed\ntrace 3:17:71 3:32:68\nverdict 1\n",
    ),
    // Two paths of which one is part of the other, or that are the same.
    Strict(
        b"mv /srv/a /srv/a/b\n",
        1,
        b"3\noutcome 1 incomplete link 3:17\ntrace 3:17:65\noutcome 2 failed Half-Configured\ntrace 3:17:66\n\
        outcome 3 incomplete link 3:17\ntrace 3:17:130\nverdict 1\n",
    ),
    Strict(
        b"mv /srv/a /srv/a\n",
        2,
        b"1\noutcome 1 incomplete same 3:17\ntrace\nverdict 2\n",
    ),
    Strict(
        b"mv /srv/a/b /srv/a\n",
        2,
        b"1\noutcome 1 incomplete same 3:17\ntrace\nverdict 2\n",
    ),
    Strict(
        b"mv /srv/a/a /srv\n",
        1,
        b"4\noutcome 1 incomplete link 3:17\ntrace 3:17:2\noutcome 2 failed Half-Configured\ntrace 3:17:66\n\
        outcome 3 failed Half-Configured\ntrace 3:17:72\noutcome 4 failed Half-Configured\ntrace 3:17:75\nverdict 1\n",
    ),
    // Failures that `set -e` passes over (POSIX.1-2017, XCU 2.14, set).
    Strict(
        b"if false; then :; fi\nfalse || true\n! true\nfalse\n",
        1,
        b"1\noutcome 1 failed Half-Configured\ntrace\nverdict 1\n",
    ),
    Strict(
        TEMPLATE,
        1,
        b"3\noutcome 1 incomplete link 3:47\ntrace 3:47:68 3:47:68 3:47:65\noutcome 2 failed Half-Configured\n\
        trace 3:47:68 3:47:68 3:47:67\noutcome 3 done Installed\ntrace 3:47:68 3:47:68 3:47:68\nverdict 1\n",
    ),
    // What no standard specifies.
    Strict(
        b"update-rc.d foo defaults >/dev/null\n",
        2,
        b"1\noutcome 1 incomplete call 3:17\ntrace\nverdict 2\n",
    ),
    Strict(
        b"echo a | cat\n",
        2,
        b"1\noutcome 1 incomplete pipe 3:17\ntrace\nverdict 2\n",
    ),
    Strict(
        b"echo \"$PWD\"\n",
        2,
        b"1\noutcome 1 incomplete call 3:17\ntrace\nverdict 2\n",
    ),
    Strict(
        b"rm -rf /var/lib/foo/\n",
        2,
        b"2\noutcome 1 incomplete slash 3:17\ntrace 3:17:64\noutcome 2 done Installed\ntrace 3:17:72\nverdict 2\n",
    ),
];

#[test]
fn scripts_that_are_strict(rt: HostRuntime) -> Result<(), Fail> {
    see_all(&rt, SCRIPTS)
}

// A script that is refused, and what the one line on standard error says of it.
struct Refused(&'static [u8], &'static [u8]);

impl Row for Refused {
    fn case(&self) -> Case {
        installation(
            INSTALL,
            Script::Joined(self.0, b""),
            3,
            Seen::Refusal(self.1),
        )
    }
}

const REFUSED: &[Refused] = &[
    Refused(b"", b"interpreter not accepted\n"),
    Refused(b"#!/bin/zsh\0\n", b"NUL byte at 10\n"),
    Refused(b"#!/bin/sh\nset -e\ntrue\0\n", b"NUL byte at 21\n"),
    Refused(b"#!/bin/sh\necho 'a\n", b"open quote at 15\n"),
    Refused(b"#!/bin/sh\nset -e\ntrue 'a\n", b"open quote at 22\n"),
    Refused(b"#!/bin/sh\nx=$(true\n", b"open substitution at 12\n"),
    Refused(
        b"#!/bin/sh\ncat <<EOF\nx\nEOF\n",
        b"unsupported heredoc at 14\n",
    ),
    Refused(b"#!/bin/sh\nx=$((1))\n", b"unsupported arith at 12\n"),
    Refused(b"#!/bin/sh\ntrue &\n", b"unsupported background at 15\n"),
    Refused(b"#!/bin/sh\nx=`a`\n", b"unsupported backquote at 12\n"),
    Refused(b"#!/bin/sh\necho ${x%a}\n", b"unsupported param at 15\n"),
    Refused(b"#!/bin/sh\necho $@\n", b"unsupported all-args at 15\n"),
    Refused(b"#!/bin/sh\necho >x\n", b"unsupported redirect at 15\n"),
    Refused(b"#!/bin/sh\necho ~\n", b"unsupported tilde at 15\n"),
    Refused(b"#!/bin/sh\necho {a,b}\n", b"unsupported brace at 15\n"),
    Refused(
        b"#!/bin/sh\necho $(case)\n",
        b"unsupported subst-case at 17\n",
    ),
    Refused(
        b"#!/bin/sh\nset -e\nls; set -u\n",
        b"unsupported option at 21\n",
    ),
    Refused(b"#!/bin/sh\nfi\n", b"syntax at 10\n"),
    Refused(b"#!/bin/sh\nset -e\ntrue ;; true\n", b"syntax at 22\n"),
    Refused(b"#!/bin/sh\nif true; fi\n", b"syntax at 19\n"),
    Refused(b"#!/bin/sh\nif true; then :\n", b"syntax at 26\n"),
    Refused(b"#!/bin/sh\na && ;\n", b"syntax at 15\n"),
    Refused(b"#!/bin/sh\nf() true\n", b"syntax at 14\n"),
    Refused(b"#!/bin/sh\n(true\n", b"syntax at 16\n"),
    Refused(b"#!/bin/sh\necho $(fi)\n", b"syntax at 17\n"),
    Refused(b"#!/bin/sh\necho $(if true)\n", b"syntax at 15\n"),
    Refused(b"#!/bin/sh\nset -u\n", b"unsupported option at 10\n"),
    Refused(b"#!/bin/sh\nIFS=x\n", b"unsupported ifs at 10\n"),
    Refused(b"#!/bin/sh\nx=1 set -e\n", b"unsupported prefix at 10\n"),
    Refused(b"#!/bin/sh\nexport $x\n", b"unsupported export at 10\n"),
    Refused(b"#!/bin/sh\nbreak\n", b"unsupported loop-exit at 10\n"),
    Refused(b"#!/bin/sh\nreturn\n", b"unsupported return at 10\n"),
    Refused(
        b"#!/bin/sh\ntrue && f() { true; }\n",
        b"unsupported function-place at 18\n",
    ),
    Refused(
        b"#!/bin/sh\nf() { true; }; f() { true; }\n",
        b"unsupported function-twice at 25\n",
    ),
    Refused(
        b"#!/bin/sh\nrm() { true; }\n",
        b"unsupported function-name at 10\n",
    ),
    Refused(
        b"#!/bin/sh\nf() { f; }\n",
        b"unsupported call-order at 16\n",
    ),
    // Several faults, and the first of them in the order of refusals.
    Refused(b"#!/bin/zsh\nset -u\nfi\necho 'a\0", b"NUL byte at 28\n"),
    Refused(
        b"#!/bin/zsh\nset -u\nfi\necho 'a",
        b"interpreter not accepted\n",
    ),
    Refused(b"#!/bin/sh\nset -u\nfi\necho 'a", b"open quote at 25\n"),
    Refused(b"#!/bin/sh\nset -u\nfi\n", b"syntax at 17\n"),
];

fn all_refused() -> &'static [Refused] {
    REFUSED
}

#[test]
fn scripts_that_are_refused(rt: HostRuntime) -> Result<(), Fail> {
    see_all(&rt, all_refused())
}

// A script that is refused, in a line of which standard error takes only the first bytes.
#[derive(Clone, Copy)]
struct NotTaken(&'static [u8]);

impl Row for NotTaken {
    fn case(&self) -> Case {
        Case {
            words: INSTALL,
            files: NOTHING,
            script: Some(("p/postinst", Script::Joined(self.0, b""))),
            failing: Failing {
                read: 0,
                write: 0,
                line: 1,
                taken: 7,
            },
            status: 5,
            seen: Seen::Whole(b"", b"colis: "),
        }
    }
}

#[test]
fn refusals_that_are_not_taken(rt: HostRuntime) -> Result<(), Fail> {
    for (number, row) in all_refused().iter().enumerate() {
        see(&rt, &NotTaken(row.0), number)?;
    }
    Ok(())
}

// How many bytes the name of the file has that the script touches, and the report.
struct Touching(usize, &'static [u8]);

impl Row for Touching {
    fn case(&self) -> Case {
        installation(
            INSTALL,
            Script::Repeated(&[b"touch /srv/", b"a", b"", b""], self.0),
            2,
            Seen::Whole(self.1, b""),
        )
    }
}

const NAMES: &[Touching] = &[
    Touching(
        256,
        b"colis brief 2
scenario install outcomes 1
outcome 1 incomplete long 3:10
trace
verdict 2
",
    ),
    Touching(
        255,
        b"colis brief 2
scenario install outcomes 3
outcome 1 incomplete link 3:10
trace 3:10:65
outcome 2 done Installed
trace 3:10:67
outcome 3 done Installed
trace 3:10:68
verdict 2
",
    ),
];

// A name has at most 255 bytes.
#[test]
fn long_names(rt: HostRuntime) -> Result<(), Fail> {
    see_all(&rt, NAMES)
}
