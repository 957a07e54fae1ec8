//! Runs of jobs of which steps fail. The packages have all scripts, which do nothing but where a row has others; the
//! new package has version 2, the old one version 1. The texts are those of runs without their last lines.

use crate::answers::{File, Sought, said};
use dpkg_scenarios::Scenario;
use std::alloc::Global;

const RUN: &str = "run p --old o --scenario install --tree t";

const DONE: &[u8] = b"#!/bin/sh\n";

const FAILS: &[u8] = b"#!/bin/sh\nexit 1\n";

// Fails where it is called to purge.
const KEEPS: &[u8] = b"#!/bin/sh\n[ \"$1\" != purge ]\n";

// Fails where it is not called to undo an upgrade.
const ABORTS: &[u8] = b"#!/bin/sh\n[ \"$1\" = abort-upgrade ]\n";

const FILES: &[File] = &[
    ("p/control", b"Version: 2\n"),
    ("p/list", b"/srv/n\n"),
    ("p/preinst", DONE),
    ("p/postinst", DONE),
    ("p/prerm", DONE),
    ("p/postrm", DONE),
    ("o/control", b"Version: 1\n"),
    ("o/list", b"/srv/o\n"),
    ("o/preinst", DONE),
    ("o/postinst", DONE),
    ("o/prerm", DONE),
    ("o/postrm", DONE),
    ("t", b"d /srv\n"),
];

// A scenario, the files in which the packages or the tree differ, how the run ends, and the calls.
type Step = (Scenario, &'static [File], &'static str, &'static str);

const STEPS: &[Step] = &[
    (
        Scenario::Install,
        &[("p/preinst", FAILS)],
        "failed Not-Installed",
        "call new preinst install failed
call new postrm abort-install ok
",
    ),
    (
        Scenario::Install,
        &[("p/preinst", FAILS), ("p/postrm", FAILS)],
        "failed Half-Installed",
        "call new preinst install failed
call new postrm abort-install failed
",
    ),
    (
        Scenario::Install,
        &[("p/postinst", FAILS)],
        "failed Half-Configured",
        "call new preinst install ok
call new postinst configure \\e failed
",
    ),
    (
        Scenario::Install,
        &[("t", b"f /srv\n")],
        "failed Not-Installed",
        "call new preinst install ok
call new postrm abort-install ok
",
    ),
    (
        Scenario::Install,
        &[("t", b"f /srv\n"), ("p/postrm", FAILS)],
        "failed Half-Installed",
        "call new preinst install ok
call new postrm abort-install failed
",
    ),
    (
        Scenario::Install,
        &[("p/preinst", b"#!/bin/sh\ntrue\nupdate-rc.d foo defaults\n")],
        "incomplete call 1:15",
        "call new preinst install ended\n",
    ),
    (
        Scenario::Install,
        &[("p/postinst", b"#!/bin/sh\nwhile true; do :; done\n")],
        "bound 3:10",
        "call new preinst install ok
call new postinst configure \\e ended
",
    ),
    (
        Scenario::InstallAgain,
        &[("p/preinst", FAILS)],
        "failed Config-Files",
        "call new preinst install 1 2 failed
call new postrm abort-install 1 2 ok
",
    ),
    (
        Scenario::InstallAgain,
        &[("p/preinst", FAILS), ("p/postrm", FAILS)],
        "failed Half-Installed",
        "call new preinst install 1 2 failed
call new postrm abort-install 1 2 failed
",
    ),
    (
        Scenario::InstallAgain,
        &[("p/postinst", FAILS)],
        "failed Half-Configured",
        "call new preinst install 1 2 ok
call new postinst configure 1 failed
",
    ),
    (
        Scenario::InstallAgain,
        &[("t", b"d /srv\nd /srv/n\n")],
        "failed Config-Files",
        "call new preinst install 1 2 ok
call new postrm abort-install 1 2 ok
",
    ),
    (
        Scenario::InstallAgain,
        &[("t", b"d /srv\nd /srv/n\n"), ("p/postrm", FAILS)],
        "failed Half-Installed",
        "call new preinst install 1 2 ok
call new postrm abort-install 1 2 failed
",
    ),
    (
        Scenario::Upgrade,
        &[("o/prerm", FAILS)],
        "done Installed",
        "call old prerm upgrade 2 failed
call new prerm failed-upgrade 1 2 ok
call new preinst upgrade 1 2 ok
call old postrm upgrade 2 ok
call new postinst configure 1 ok
",
    ),
    (
        Scenario::Upgrade,
        &[("o/prerm", FAILS), ("p/prerm", FAILS)],
        "failed Installed",
        "call old prerm upgrade 2 failed
call new prerm failed-upgrade 1 2 failed
call old postinst abort-upgrade 2 ok
",
    ),
    (
        Scenario::Upgrade,
        &[
            ("o/prerm", FAILS),
            ("p/prerm", FAILS),
            ("o/postinst", FAILS),
        ],
        "failed Half-Configured",
        "call old prerm upgrade 2 failed
call new prerm failed-upgrade 1 2 failed
call old postinst abort-upgrade 2 failed
",
    ),
    (
        Scenario::Upgrade,
        &[("p/preinst", FAILS)],
        "failed Installed",
        "call old prerm upgrade 2 ok
call new preinst upgrade 1 2 failed
call new postrm abort-upgrade 1 2 ok
call old postinst abort-upgrade 2 ok
",
    ),
    (
        Scenario::Upgrade,
        &[("p/preinst", FAILS), ("o/postinst", FAILS)],
        "failed Unpacked",
        "call old prerm upgrade 2 ok
call new preinst upgrade 1 2 failed
call new postrm abort-upgrade 1 2 ok
call old postinst abort-upgrade 2 failed
",
    ),
    (
        Scenario::Upgrade,
        &[("p/preinst", FAILS), ("p/postrm", FAILS)],
        "failed Half-Installed",
        "call old prerm upgrade 2 ok
call new preinst upgrade 1 2 failed
call new postrm abort-upgrade 1 2 failed
",
    ),
    (
        Scenario::Upgrade,
        &[("t", b"")],
        "failed Installed",
        "call old prerm upgrade 2 ok
call new preinst upgrade 1 2 ok
call new postrm abort-upgrade 1 2 ok
call old postinst abort-upgrade 2 ok
",
    ),
    (
        Scenario::Upgrade,
        &[("t", b""), ("o/postinst", FAILS)],
        "failed Unpacked",
        "call old prerm upgrade 2 ok
call new preinst upgrade 1 2 ok
call new postrm abort-upgrade 1 2 ok
call old postinst abort-upgrade 2 failed
",
    ),
    (
        Scenario::Upgrade,
        &[("t", b""), ("p/postrm", FAILS)],
        "failed Half-Installed",
        "call old prerm upgrade 2 ok
call new preinst upgrade 1 2 ok
call new postrm abort-upgrade 1 2 failed
",
    ),
    (
        Scenario::Upgrade,
        &[("o/postrm", FAILS)],
        "done Installed",
        "call old prerm upgrade 2 ok
call new preinst upgrade 1 2 ok
call old postrm upgrade 2 failed
call new postrm failed-upgrade 1 2 ok
call new postinst configure 1 ok
",
    ),
    (
        Scenario::Upgrade,
        &[("o/postrm", FAILS), ("p/postrm", FAILS)],
        "failed Half-Installed",
        "call old prerm upgrade 2 ok
call new preinst upgrade 1 2 ok
call old postrm upgrade 2 failed
call new postrm failed-upgrade 1 2 failed
call old preinst abort-upgrade 2 ok
call new postrm abort-upgrade 1 2 failed
",
    ),
    (
        Scenario::Upgrade,
        &[("o/postrm", FAILS), ("p/postrm", ABORTS)],
        "failed Installed",
        "call old prerm upgrade 2 ok
call new preinst upgrade 1 2 ok
call old postrm upgrade 2 failed
call new postrm failed-upgrade 1 2 failed
call old preinst abort-upgrade 2 ok
call new postrm abort-upgrade 1 2 ok
call old postinst abort-upgrade 2 ok
",
    ),
    (
        Scenario::Upgrade,
        &[
            ("o/postrm", FAILS),
            ("p/postrm", ABORTS),
            ("o/postinst", FAILS),
        ],
        "failed Unpacked",
        "call old prerm upgrade 2 ok
call new preinst upgrade 1 2 ok
call old postrm upgrade 2 failed
call new postrm failed-upgrade 1 2 failed
call old preinst abort-upgrade 2 ok
call new postrm abort-upgrade 1 2 ok
call old postinst abort-upgrade 2 failed
",
    ),
    (
        Scenario::Upgrade,
        &[
            ("o/postrm", FAILS),
            ("p/postrm", ABORTS),
            ("o/preinst", FAILS),
        ],
        "failed Half-Installed",
        "call old prerm upgrade 2 ok
call new preinst upgrade 1 2 ok
call old postrm upgrade 2 failed
call new postrm failed-upgrade 1 2 failed
call old preinst abort-upgrade 2 failed
",
    ),
    (
        Scenario::Upgrade,
        &[("p/postinst", FAILS)],
        "failed Half-Configured",
        "call old prerm upgrade 2 ok
call new preinst upgrade 1 2 ok
call old postrm upgrade 2 ok
call new postinst configure 1 failed
",
    ),
    (
        Scenario::Remove,
        &[("p/prerm", FAILS)],
        "failed Installed",
        "call new prerm remove failed
call new postinst abort-remove ok
",
    ),
    (
        Scenario::Remove,
        &[("p/prerm", FAILS), ("p/postinst", FAILS)],
        "failed Half-Configured",
        "call new prerm remove failed
call new postinst abort-remove failed
",
    ),
    (
        Scenario::Remove,
        &[("p/postrm", FAILS)],
        "failed Half-Installed",
        "call new prerm remove ok
call new postrm remove failed
",
    ),
    (
        Scenario::Purge,
        &[("p/prerm", FAILS)],
        "failed Installed",
        "call new prerm remove failed
call new postinst abort-remove ok
",
    ),
    (
        Scenario::Purge,
        &[("p/prerm", FAILS), ("p/postinst", FAILS)],
        "failed Half-Configured",
        "call new prerm remove failed
call new postinst abort-remove failed
",
    ),
    (
        Scenario::Purge,
        &[("p/postrm", FAILS)],
        "failed Half-Installed",
        "call new prerm remove ok
call new postrm remove failed
",
    ),
    (
        Scenario::Purge,
        &[("p/postrm", KEEPS)],
        "failed Config-Files",
        "call new prerm remove ok
call new postrm remove ok
call new postrm purge failed
",
    ),
    (
        Scenario::PurgeLater,
        &[("p/postrm", FAILS)],
        "failed Config-Files",
        "call new postrm purge failed\n",
    ),
];

// Whether the text of a run has this ending in its first line, and these calls behind its second, which is its trace.
fn is_run(text: &str, ending: &str, calls: &str) -> bool {
    let (first, rest) = text.split_once("\n").unwrap_or(("", ""));
    let (_, lines) = rest.split_once("\n").unwrap_or(("", ""));
    let (told, _) = lines.split_once("after\n").unwrap_or(("", ""));
    first.strip_prefix("result ") == Some(ending) && told == calls
}

// Whether the run of a row ends so, with these calls.
fn runs_so(alloc: Global, row: &Step) -> bool {
    match said(alloc, Sought::Answer, row.0, RUN, FILES, row.1) {
        Ok(text) => is_run(str::from_utf8(text.as_slice()).unwrap_or(""), row.2, row.3),
        Err(_) => false,
    }
}

#[test]
fn steps_fail(rt: HostRuntime) {
    for row in STEPS {
        assert!(rt; runs_so(rt.alloc(), row), "{} {}", row.2, row.3);
    }
}
