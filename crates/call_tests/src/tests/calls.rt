//! Whole calls: reports on packages, the summary of one, runs, and a program.

use super::seen::Seen;
use super::{Called, Case, File, NOTHING, QUIET, Row, see_all};
use std::test::Fail;

// A package that asks one question, and a base that says nothing.
const QUESTION: &[File] = &[
    ("p/list", b"/.\n"),
    ("p/postinst", b"#!/bin/sh\nset -e\n[ -d /a ]\n"),
    ("b", b""),
];

// Its report: a link is not followed, nothing and a file are no directory, and a directory is one.
const REPORT: &[u8] = b"colis report 2
scenario install outcomes 3
outcome 1 incomplete link 3:17
trace 3:17:65
confirmed yes
call new postinst configure \\e ended
clause start v0 now v0
kind v0 dir
entry v0 a v1
kind v1 link
shown
l /a x
after
l /a x
outcome 2 failed Half-Configured
trace 3:17:66
confirmed yes
call new postinst configure \\e failed
clause start v0 now v0
kind v0 dir
entry v0 a v1
kind v1 absent,reg,fifo,socket,block,char
shown
after
outcome 3 done Installed
trace 3:17:67
confirmed yes
call new postinst configure \\e ok
clause start v0 now v0
kind v0 dir
entry v0 a v1
kind v1 dir
shown
d /a
after
d /a
place incomplete 3:17 1
place failed 3:17 1
verdict 1
";

// The same as JSON.
const REPORT_AS_JSON: &[u8] = b"{\"colis\":2,\"scenarios\":[{\"name\":\"install\",\"outcomes\":[\
    {\"after\":[\"l /a x\"],\"calls\":[\"call new postinst configure \\\\e ended\"],\
    \"clause\":{\"literals\":[\"kind v0 dir\",\"entry v0 a v1\",\"kind v1 link\"],\"now\":0,\"start\":0},\
    \"confirmed\":true,\"number\":1,\"result\":\"incomplete link 3:17\",\"shown\":[\"l /a x\"],\
    \"trace\":\"3:17:65\"},\
    {\"after\":[],\"calls\":[\"call new postinst configure \\\\e failed\"],\
    \"clause\":{\"literals\":[\"kind v0 dir\",\"entry v0 a v1\",\"kind v1 absent,reg,fifo,socket,block,char\"],\"now\":0,\"start\":0},\
    \"confirmed\":true,\"number\":2,\"result\":\"failed Half-Configured\",\"shown\":[],\
    \"trace\":\"3:17:66\"},\
    {\"after\":[\"d /a\"],\"calls\":[\"call new postinst configure \\\\e ok\"],\
    \"clause\":{\"literals\":[\"kind v0 dir\",\"entry v0 a v1\",\"kind v1 dir\"],\"now\":0,\"start\":0},\
    \"confirmed\":true,\"number\":3,\"result\":\"done Installed\",\"shown\":[\"d /a\"],\
    \"trace\":\"3:17:67\"}]}],\"verdict\":1}\n";

// The report on a script that asks for a pipe, where `/srv` is a directory: a link is not followed, another kind is no
// pipe, and a pipe is one.
const PIPE: &[u8] = b"colis report 2
scenario install outcomes 3
outcome 1 incomplete link 3:10
trace 3:10:65
confirmed yes
call new postinst configure \\e ended
clause start v0 now v0
kind v0 dir
entry v0 srv v1
kind v1 dir
entry v1 a v2
kind v2 link
shown
d /srv
l /srv/a x
after
d /srv
l /srv/a x
outcome 2 failed Half-Configured
trace 3:10:66
confirmed yes
call new postinst configure \\e failed
clause start v0 now v0
kind v0 dir
entry v0 srv v1
kind v1 dir
entry v1 a v2
kind v2 absent,reg,socket,block,char,dir
shown
d /srv
after
d /srv
outcome 3 done Installed
trace 3:10:67
confirmed yes
call new postinst configure \\e ok
clause start v0 now v0
kind v0 dir
entry v0 srv v1
kind v1 dir
entry v1 a v2
kind v2 fifo
shown
d /srv
p /srv/a
after
d /srv
p /srv/a
place incomplete 3:10 1
place failed 3:10 1
verdict 1
";

// The words, the files, and what has to come of the call.
const CALLS: &[Called] = &[
    // A package of nothing.
    Called(
        &["check", "p", "--brief"],
        &[("p/list", b"/.\n")],
        (
            0,
            b"colis brief 2
scenario install outcomes 1
outcome 1 done Installed
trace
scenario install-again outcomes 1
outcome 1 done Installed
trace
scenario upgrade outcomes 1
outcome 1 done Installed
trace
scenario remove outcomes 1
outcome 1 done Not-Installed
trace
scenario purge outcomes 1
outcome 1 done Not-Installed
trace
scenario purge-later outcomes 1
outcome 1 done Not-Installed
trace
verdict 0
",
            b"",
        ),
    ),
    // A whole report, for people and for programs.
    Called(
        &["check", "p", "--base", "b", "--scenario", "install"],
        QUESTION,
        (1, REPORT, b""),
    ),
    Called(
        &[
            "check",
            "p",
            "--base",
            "b",
            "--scenario",
            "install",
            "--json",
        ],
        QUESTION,
        (1, REPORT_AS_JSON, b""),
    ),
    // A question after one of the special kinds, and a tree with another.
    Called(
        &["check", "p", "--base", "b", "--scenario", "install"],
        &[
            ("p/list", b"/.\n"),
            ("p/postinst", b"#!/bin/sh\ntest -p /srv/a\n"),
            ("b", b"dir /srv\n"),
        ],
        (1, PIPE, b""),
    ),
    Called(
        &["check", "p", "--scenario", "install", "--brief"],
        &[
            ("p/list", b"/.\n"),
            ("p/postinst", b"#!/bin/sh\ntest -p /srv/a\n"),
        ],
        (
            1,
            b"colis brief 2
scenario install outcomes 3
outcome 1 incomplete link 3:10
trace 3:10:65
outcome 2 failed Half-Configured
trace 3:10:66
outcome 3 done Installed
trace 3:10:67
verdict 1
",
            b"",
        ),
    ),
    Called(
        &["run", "p", "--scenario", "install", "--tree", "t"],
        &[
            ("p/list", b"/.\n"),
            ("t", b"d /srv\ns /srv/a\n"),
            ("p/postinst", b"#!/bin/sh\n[ -S /srv/a ] && rm /srv/a\n"),
        ],
        (
            0,
            b"result done Installed
trace 3:10:67 3:27:68
call new postinst configure \\e ok
after
d /srv
",
            b"",
        ),
    ),
    // A word that is split (POSIX.1-2017, XCU 2.6.5), and one that is quoted.
    Called(
        &["run", "p", "--scenario", "install", "--tree", "t"],
        &[
            ("p/list", b"/.\n"),
            ("t", b"d /srv\n"),
            (
                "p/postinst",
                b"#!/bin/sh\nset -e\nx=$(echo a b)\nfor i in $x \"$x\"; do\n  touch \"/srv/$i\"\ndone\n",
            ),
        ],
        (
            0,
            b"result done Installed
trace 3:54:67 3:54:67 3:54:67
call new postinst configure \\e ok
after
d /srv
f /srv/a
f /srv/a\\x20b
f /srv/b
",
            b"",
        ),
    ),
    // A loop that is left with the last turn.
    Called(
        &[
            "check",
            "p",
            "--turns",
            "1",
            "--brief",
            "--scenario",
            "install",
        ],
        &[
            ("p/list", b"/.\n"),
            (
                "p/postinst",
                b"#!/bin/sh\nwhile [ -e /srv/a ]; do :; done\n",
            ),
        ],
        (
            2,
            b"colis brief 2
scenario install outcomes 3
outcome 1 incomplete link 3:16
trace 3:16:65
outcome 2 done Installed
trace 3:16:66
outcome 3 bound 3:10
trace 3:16:67 3:16:67
verdict 2
",
            b"",
        ),
    ),
    // An upgrade in which the old prerm fails and the new one goes on in its place (Debian Policy, 6.6).
    Called(
        &[
            "run",
            "p",
            "--old",
            "o",
            "--scenario",
            "upgrade",
            "--tree",
            "t",
        ],
        &[
            ("p/control", b"Version: 2\n"),
            ("p/list", b"/.\n"),
            ("p/prerm", b"#!/bin/sh\n[ \"$1\" = failed-upgrade ]\n"),
            ("o/control", b"Version: 1\n"),
            ("o/list", b"/.\n"),
            ("o/prerm", b"#!/bin/sh\nexit 1\n"),
            ("t", b""),
        ],
        (
            0,
            b"result done Installed
trace
call old prerm upgrade 2 failed
call new prerm failed-upgrade 1 2 ok
after
",
            b"",
        ),
    ),
    // It fails, and so does the old postinst behind it.
    Called(
        &[
            "run",
            "p",
            "--old",
            "o",
            "--scenario",
            "upgrade",
            "--tree",
            "t",
        ],
        &[
            ("p/control", b"Version: 2\n"),
            ("p/list", b"/.\n"),
            ("p/prerm", b"#!/bin/sh\nexit 1\n"),
            ("o/control", b"Version: 1\n"),
            ("o/list", b"/.\n"),
            ("o/prerm", b"#!/bin/sh\nexit 1\n"),
            ("o/postinst", b"#!/bin/sh\nexit 1\n"),
            ("t", b""),
        ],
        (
            1,
            b"result failed Half-Configured
trace
call old prerm upgrade 2 failed
call new prerm failed-upgrade 1 2 failed
call old postinst abort-upgrade 2 failed
after
",
            b"",
        ),
    ),
    // A directory goes with the last of its files.
    Called(
        &["check", "p", "--scenario", "purge", "--brief"],
        &[
            ("p/list", b"/.\n/etc\n/etc/foo\n/etc/foo/a.conf\n"),
            ("p/conffiles", b"/etc/foo/a.conf\n"),
        ],
        (
            0,
            b"colis brief 2
scenario purge outcomes 3
outcome 1 done Not-Installed
trace 2:0:67 4:0:68 4:1:67
outcome 2 done Not-Installed
trace 2:0:67 4:0:68 4:1:68
outcome 3 done Not-Installed
trace 2:0:68 4:0:66 4:1:66
verdict 0
",
            b"",
        ),
    ),
    // Files are placed; the usual base has it that they fit.
    Called(
        &["check", "p", "--scenario", "install", "--brief"],
        &[
            ("p/list", b"/.\n/etc\n/etc/foo\n/etc/foo/a.conf\n"),
            ("p/conffiles", b"/etc/foo/a.conf\n"),
        ],
        (
            0,
            b"colis brief 2
scenario install outcomes 1
outcome 1 done Installed
trace 2:0:68 2:1:68 2:2:68
verdict 0
",
            b"",
        ),
    ),
    // Another base does not.
    Called(
        &[
            "check",
            "p",
            "--scenario",
            "install",
            "--brief",
            "--base",
            "b",
        ],
        &[
            ("p/list", b"/.\n/etc\n/etc/foo\n/etc/foo/a.conf\n"),
            ("p/conffiles", b"/etc/foo/a.conf\n"),
            ("b", b"dir /etc\n"),
        ],
        (
            1,
            b"colis brief 2
scenario install outcomes 5
outcome 1 incomplete link 2:1
trace 2:0:68 2:1:65
outcome 2 failed Not-Installed
trace 2:0:68 2:1:67 5:0:66
outcome 3 failed Not-Installed
trace 2:0:68 2:1:68 2:2:67 5:0:66 5:1:66
outcome 4 done Installed
trace 2:0:68 2:1:68 2:2:68
outcome 5 incomplete conffile 2:2
trace 2:0:68 2:1:68 2:2:69
verdict 1
",
            b"",
        ),
    ),
    // What was unpacked is put back, the last first, where a further entry fails.
    Called(
        &[
            "check",
            "p",
            "--scenario",
            "install",
            "--brief",
            "--base",
            "b",
        ],
        &[
            ("p/list", b"/.\n/srv\n/srv/a\n/srv/b\n"),
            ("b", b"dir /srv\n"),
        ],
        (
            1,
            b"colis brief 2
scenario install outcomes 3
outcome 1 failed Not-Installed
trace 2:0:68 2:1:67 5:0:66
outcome 2 failed Not-Installed
trace 2:0:68 2:1:68 2:2:67 5:0:68 5:1:66
outcome 3 done Installed
trace 2:0:68 2:1:68 2:2:68
verdict 1
",
            b"",
        ),
    ),
    // And where both calls of postrm fail in an upgrade: here a link comes back.
    Called(
        &[
            "run",
            "p",
            "--old",
            "o",
            "--scenario",
            "upgrade",
            "--tree",
            "t",
        ],
        &[
            ("p/control", b"Version: 2\n"),
            ("p/list", b"/.\n/srv\n/srv/a\n"),
            ("p/postrm", b"#!/bin/sh\n[ \"$1\" = abort-upgrade ]\n"),
            ("o/control", b"Version: 1\n"),
            ("o/list", b"/.\n/srv\n/srv/a\n"),
            ("o/postrm", b"#!/bin/sh\nexit 1\n"),
            ("t", b"d /srv\nl /srv/a x\n"),
        ],
        (
            1,
            b"result failed Installed
trace 4:0:68 4:1:68 14:0:68 14:1:66
call old postrm upgrade 2 failed
call new postrm failed-upgrade 1 2 failed
call new postrm abort-upgrade 1 2 ok
after
d /srv
l /srv/a x
",
            b"",
        ),
    ),
    // A subshell leaves the tree changed, and the variables as they were (POSIX.1-2017, XCU 2.12).
    Called(
        &["run", "p", "--scenario=install", "--tree=t"],
        &[
            ("p/list", b"/.\n"),
            ("t", b"d /srv\n"),
            (
                "p/postinst",
                b"#!/bin/sh\nset -e\n(x=1; touch /srv/a)\n[ -z \"$x\" ]\n[ -f /srv/a ]\n",
            ),
        ],
        (
            0,
            b"result done Installed
trace 3:23:67 3:49:67
call new postinst configure \\e ok
after
d /srv
f /srv/a
",
            b"",
        ),
    ),
    // `&&` and `||` from left to right (POSIX.1-2017, XCU 2.9.3).
    Called(
        &["run", "p", "--scenario", "install", "--tree", "t"],
        &[
            ("p/list", b"/.\n"),
            ("t", b"d /srv\n"),
            ("p/postinst", b"#!/bin/sh\nfalse && true || touch /srv/b\n"),
        ],
        (
            0,
            b"result done Installed
trace 3:27:67
call new postinst configure \\e ok
after
d /srv
f /srv/b
",
            b"",
        ),
    ),
    // A made package of two commands: at each a link stands, or what is no directory; and both directories are made.
    Called(
        &["load", "2"],
        &[],
        (
            1,
            b"load 2\ninstall outcomes 5 done 1 failed 2 incomplete 2 bound 0\n\
            install-again outcomes 5 done 1 failed 2 incomplete 2 bound 0\n\
            upgrade outcomes 5 done 1 failed 2 incomplete 2 bound 0\n\
            remove outcomes 1 done 1 failed 0 incomplete 0 bound 0\n\
            purge outcomes 1 done 1 failed 0 incomplete 0 bound 0\n\
            purge-later outcomes 1 done 1 failed 0 incomplete 0 bound 0\nstatus 1\n",
            b"",
        ),
    ),
    Called(
        &["translate", "s"],
        &[("s", b"#!/bin/sh\nset -e\ntest -d /etc || mkdir /etc\n")],
        (
            0,
            b"(program lax (seq (strict) (chain (call 17 (word (p =test)) (word (p =-d)) (word (p =/etc))) \
            (or (call 33 (word (p =mkdir)) (word (p =/etc)))))))\n",
            b"",
        ),
    ),
];

#[test]
fn calls_that_are_answered(rt: HostRuntime) -> Result<(), Fail> {
    see_all(&rt, CALLS)
}

// The words, and the first bytes of the report on a package of nothing.
struct Layout(&'static [&'static str], &'static [u8]);

impl Row for Layout {
    fn case(&self) -> Case {
        Case {
            words: self.0,
            files: NOTHING,
            script: None,
            failing: QUIET,
            status: 0,
            seen: Seen::Begun(self.1, b""),
        }
    }
}

const LAYOUTS: &[Layout] = &[
    Layout(
        &["check", "p"],
        b"colis report 2\nscenario install outcomes 1\n",
    ),
    Layout(
        &["check", "p", "--brief"],
        b"colis brief 2\nscenario install outcomes 1\n",
    ),
    Layout(
        &["check", "--json", "p"],
        b"{\"colis\":2,\"scenarios\":[{\"name\":\"install\",",
    ),
];

// The first bytes of a report in each layout.
#[test]
fn layouts(rt: HostRuntime) -> Result<(), Fail> {
    see_all(&rt, LAYOUTS)
}

// A package with one configuration file, and a base that says little.
const CONFIGURED: &[File] = &[
    ("p/list", b"/.\n/etc\n/etc/foo\n/etc/foo/a.conf\n"),
    ("p/conffiles", b"/etc/foo/a.conf\n"),
    ("b", b"dir /etc\n"),
];

// The words, the status, and the lines of the report without the clauses and the trees.
struct Stated(&'static [&'static str], u8, &'static [u8]);

impl Row for Stated {
    fn case(&self) -> Case {
        Case {
            words: self.0,
            files: CONFIGURED,
            script: None,
            failing: QUIET,
            status: self.1,
            seen: Seen::Stated(self.2),
        }
    }
}

const STATED: &[Stated] = &[
    // A foreign file keeps the directory; it goes with the configuration file; it was empty.
    Stated(
        &["check", "p", "--scenario", "purge"],
        0,
        b"colis report 2
scenario purge outcomes 3
outcome 1 done Not-Installed
trace 2:0:67 4:0:68 4:1:67
confirmed yes
outcome 2 done Not-Installed
trace 2:0:67 4:0:68 4:1:68
confirmed yes
outcome 3 done Not-Installed
trace 2:0:68 4:0:66 4:1:66
confirmed yes
verdict 0
",
    ),
    Stated(
        &["check", "p", "--scenario", "install"],
        0,
        b"colis report 2
scenario install outcomes 1
outcome 1 done Installed
trace 2:0:68 2:1:68 2:2:68
confirmed yes
verdict 0
",
    ),
    Stated(
        &["check", "p", "--scenario", "install", "--base", "b"],
        1,
        b"colis report 2
scenario install outcomes 5
outcome 1 incomplete link 2:1
trace 2:0:68 2:1:65
confirmed yes
outcome 2 failed Not-Installed
trace 2:0:68 2:1:67 5:0:66
confirmed yes
outcome 3 failed Not-Installed
trace 2:0:68 2:1:68 2:2:67 5:0:66 5:1:66
confirmed yes
outcome 4 done Installed
trace 2:0:68 2:1:68 2:2:68
confirmed yes
outcome 5 incomplete conffile 2:2
trace 2:0:68 2:1:68 2:2:69
confirmed yes
place incomplete 2:1 1
place failed 5:0 1
place failed 5:1 1
place incomplete 2:2 1
verdict 1
",
    ),
];

// What is said to people of QUESTION's package, of one that has nothing, and of scenarios with too many outcomes.
const EXPLAINED: &[Called] = &[
    Called(
        &[
            "explain",
            "p",
            "--scenario",
            "install",
            "--base",
            "b",
            "--places",
        ],
        QUESTION,
        (
            1,
            b"p/postinst:3:1: note: the installation: undecided: a link stands there or on the way, and it is not \
              followed here (1 outcome)\n\
              p/postinst:3:1: error: the installation: failure; the package is left unpacked, but its configuration \
              failed (dpkg: half-configured) (1 outcome)\n",
            b"",
        ),
    ),
    Called(
        &[
            "explain",
            "p",
            "--scenario",
            "install",
            "--base",
            "b",
            "--limit",
            "2",
        ],
        QUESTION,
        (
            2,
            b"An outcome stands for all systems on which a scenario goes the same way, act by act.
An undecided one is known up to its place: what it does from there is not, nor how the package is left.
Lines that are known not to be reached stand at the end of a scenario; of others nothing is said.
In the line of a script [..] stands for what is left out.

p 0, install: NOT EXAMINED
There are more than 2 outcomes. More are looked at with --limit; a base that says more leaves fewer.

Premises: b, 0 known places, 0 known links, 0 own folders, 0 stated commands
Not looked at: contents, modes and owners of files.
",
            b"",
        ),
    ),
    Called(
        &["explain", "p", "--scenario", "purge-later"],
        NOTHING,
        (
            0,
            b"An outcome stands for all systems on which a scenario goes the same way, act by act.
An undecided one is known up to its place: what it does from there is not, nor how the package is left.
Lines that are known not to be reached stand at the end of a scenario; of others nothing is said.
In the line of a script [..] stands for what is left out.

p 0, purge-later: ends well
1 outcome: 0 failing, 0 undecided, 1 ending well

p: ends well; the package is left not installed (1 outcome)
  On every system that meets the premises.

Premises: the usual base, 13 known places, 0 known links, 0 own folders, 0 stated commands
  fits: what stands where the package's files go fits them
Not looked at: contents, modes and owners of files.
",
            b"",
        ),
    ),
];

#[test]
fn packages_are_explained(rt: HostRuntime) -> Result<(), Fail> {
    see_all(&rt, EXPLAINED)
}

// Reports that are not brief.
#[test]
fn reports_without_scripts(rt: HostRuntime) -> Result<(), Fail> {
    see_all(&rt, STATED)
}
