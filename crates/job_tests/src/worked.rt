//! Runs of jobs whose scripts fail where the tree says so, worked by hand from Debian Policy, 6.5 to 6.8, each with its
//! trace, its calls and the tree after. The new package has version 2, the old one version 1; neither lists a file.

use crate::answers::{File, Sought, is_said};
use dpkg_scenarios::Scenario;
use std::alloc::Global;

const RUN: &str = "run p --old o --scenario install --tree t";

// Each script fails where a file is there with the name of its package, the script and its first word.
const FILES: &[File] = &[
    ("p/control", b"Version: 2\n"),
    ("p/list", b"/.\n"),
    ("o/control", b"Version: 1\n"),
    ("o/list", b"/.\n"),
    ("p/preinst", b"#!/bin/sh\n[ ! -e \"/new-preinst-$1\" ]\n"),
    ("p/postinst", b"#!/bin/sh\n[ ! -e \"/new-postinst-$1\" ]\n"),
    ("p/prerm", b"#!/bin/sh\n[ ! -e \"/new-prerm-$1\" ]\n"),
    ("p/postrm", b"#!/bin/sh\n[ ! -e \"/new-postrm-$1\" ]\n"),
    ("o/preinst", b"#!/bin/sh\n[ ! -e \"/old-preinst-$1\" ]\n"),
    ("o/postinst", b"#!/bin/sh\n[ ! -e \"/old-postinst-$1\" ]\n"),
    ("o/prerm", b"#!/bin/sh\n[ ! -e \"/old-prerm-$1\" ]\n"),
    ("o/postrm", b"#!/bin/sh\n[ ! -e \"/old-postrm-$1\" ]\n"),
];

// A scenario, the tree before, and the text of the run.
type Row = (Scenario, &'static [u8], &'static str);

const ROWS: &[Row] = &[
    // installations
    (
        Scenario::Install,
        b"",
        r"result done Installed
trace 1:10:66 3:10:66
call new preinst install ok
call new postinst configure \e ok
after
",
    ),
    (
        Scenario::Install,
        b"f /new-preinst-install\n",
        r"result failed Not-Installed
trace 1:10:67 4:10:66
call new preinst install failed
call new postrm abort-install ok
after
f /new-preinst-install
",
    ),
    (
        Scenario::Install,
        b"f /new-postrm-abort-install\nf /new-preinst-install\n",
        r"result failed Half-Installed
trace 1:10:67 4:10:67
call new preinst install failed
call new postrm abort-install failed
after
f /new-postrm-abort-install
f /new-preinst-install
",
    ),
    (
        Scenario::Install,
        b"f /new-postinst-configure\n",
        r"result failed Half-Configured
trace 1:10:66 3:10:67
call new preinst install ok
call new postinst configure \e failed
after
f /new-postinst-configure
",
    ),
    (
        Scenario::InstallAgain,
        b"",
        r"result done Installed
trace 1:10:66 3:10:66
call new preinst install 1 2 ok
call new postinst configure 1 ok
after
",
    ),
    (
        Scenario::InstallAgain,
        b"f /new-preinst-install\n",
        r"result failed Config-Files
trace 1:10:67 4:10:66
call new preinst install 1 2 failed
call new postrm abort-install 1 2 ok
after
f /new-preinst-install
",
    ),
    (
        Scenario::InstallAgain,
        b"f /new-postrm-abort-install\nf /new-preinst-install\n",
        r"result failed Half-Installed
trace 1:10:67 4:10:67
call new preinst install 1 2 failed
call new postrm abort-install 1 2 failed
after
f /new-postrm-abort-install
f /new-preinst-install
",
    ),
    (
        Scenario::InstallAgain,
        b"f /new-postinst-configure\n",
        r"result failed Half-Configured
trace 1:10:66 3:10:67
call new preinst install 1 2 ok
call new postinst configure 1 failed
after
f /new-postinst-configure
",
    ),
    // upgrades
    (
        Scenario::Upgrade,
        b"",
        r"result done Installed
trace 1:10:66 3:10:66 5:10:66 8:10:66
call old prerm upgrade 2 ok
call new preinst upgrade 1 2 ok
call old postrm upgrade 2 ok
call new postinst configure 1 ok
after
",
    ),
    (
        Scenario::Upgrade,
        b"f /old-prerm-upgrade\n",
        r"result done Installed
trace 1:10:67 2:10:66 3:10:66 5:10:66 8:10:66
call old prerm upgrade 2 failed
call new prerm failed-upgrade 1 2 ok
call new preinst upgrade 1 2 ok
call old postrm upgrade 2 ok
call new postinst configure 1 ok
after
f /old-prerm-upgrade
",
    ),
    (
        Scenario::Upgrade,
        b"f /new-prerm-failed-upgrade\nf /old-prerm-upgrade\n",
        r"result failed Installed
trace 1:10:67 2:10:67 9:10:66
call old prerm upgrade 2 failed
call new prerm failed-upgrade 1 2 failed
call old postinst abort-upgrade 2 ok
after
f /new-prerm-failed-upgrade
f /old-prerm-upgrade
",
    ),
    (
        Scenario::Upgrade,
        b"f /new-prerm-failed-upgrade\nf /old-postinst-abort-upgrade\nf /old-prerm-upgrade\n",
        r"result failed Half-Configured
trace 1:10:67 2:10:67 9:10:67
call old prerm upgrade 2 failed
call new prerm failed-upgrade 1 2 failed
call old postinst abort-upgrade 2 failed
after
f /new-prerm-failed-upgrade
f /old-postinst-abort-upgrade
f /old-prerm-upgrade
",
    ),
    (
        Scenario::Upgrade,
        b"f /new-preinst-upgrade\n",
        r"result failed Installed
trace 1:10:66 3:10:67 10:10:66 11:10:66
call old prerm upgrade 2 ok
call new preinst upgrade 1 2 failed
call new postrm abort-upgrade 1 2 ok
call old postinst abort-upgrade 2 ok
after
f /new-preinst-upgrade
",
    ),
    (
        Scenario::Upgrade,
        b"f /new-postrm-abort-upgrade\nf /new-preinst-upgrade\n",
        r"result failed Half-Installed
trace 1:10:66 3:10:67 10:10:67
call old prerm upgrade 2 ok
call new preinst upgrade 1 2 failed
call new postrm abort-upgrade 1 2 failed
after
f /new-postrm-abort-upgrade
f /new-preinst-upgrade
",
    ),
    (
        Scenario::Upgrade,
        b"f /new-preinst-upgrade\nf /old-postinst-abort-upgrade\n",
        r"result failed Unpacked
trace 1:10:66 3:10:67 10:10:66 11:10:67
call old prerm upgrade 2 ok
call new preinst upgrade 1 2 failed
call new postrm abort-upgrade 1 2 ok
call old postinst abort-upgrade 2 failed
after
f /new-preinst-upgrade
f /old-postinst-abort-upgrade
",
    ),
    (
        Scenario::Upgrade,
        b"f /old-postrm-upgrade\n",
        r"result done Installed
trace 1:10:66 3:10:66 5:10:67 6:10:66 8:10:66
call old prerm upgrade 2 ok
call new preinst upgrade 1 2 ok
call old postrm upgrade 2 failed
call new postrm failed-upgrade 1 2 ok
call new postinst configure 1 ok
after
f /old-postrm-upgrade
",
    ),
    (
        Scenario::Upgrade,
        b"f /new-postrm-failed-upgrade\nf /old-postrm-upgrade\n",
        r"result failed Installed
trace 1:10:66 3:10:66 5:10:67 6:10:67 13:10:66 10:10:66 11:10:66
call old prerm upgrade 2 ok
call new preinst upgrade 1 2 ok
call old postrm upgrade 2 failed
call new postrm failed-upgrade 1 2 failed
call old preinst abort-upgrade 2 ok
call new postrm abort-upgrade 1 2 ok
call old postinst abort-upgrade 2 ok
after
f /new-postrm-failed-upgrade
f /old-postrm-upgrade
",
    ),
    (
        Scenario::Upgrade,
        b"f /new-postrm-failed-upgrade\nf /old-postrm-upgrade\nf /old-preinst-abort-upgrade\n",
        r"result failed Half-Installed
trace 1:10:66 3:10:66 5:10:67 6:10:67 13:10:67
call old prerm upgrade 2 ok
call new preinst upgrade 1 2 ok
call old postrm upgrade 2 failed
call new postrm failed-upgrade 1 2 failed
call old preinst abort-upgrade 2 failed
after
f /new-postrm-failed-upgrade
f /old-postrm-upgrade
f /old-preinst-abort-upgrade
",
    ),
    (
        Scenario::Upgrade,
        b"f /new-postinst-configure\n",
        r"result failed Half-Configured
trace 1:10:66 3:10:66 5:10:66 8:10:67
call old prerm upgrade 2 ok
call new preinst upgrade 1 2 ok
call old postrm upgrade 2 ok
call new postinst configure 1 failed
after
f /new-postinst-configure
",
    ),
    // removals
    (
        Scenario::Remove,
        b"",
        r"result done Config-Files
trace 1:10:66 3:10:66
call new prerm remove ok
call new postrm remove ok
after
",
    ),
    (
        Scenario::Remove,
        b"f /new-prerm-remove\n",
        r"result failed Installed
trace 1:10:67 4:10:66
call new prerm remove failed
call new postinst abort-remove ok
after
f /new-prerm-remove
",
    ),
    (
        Scenario::Remove,
        b"f /new-postinst-abort-remove\nf /new-prerm-remove\n",
        r"result failed Half-Configured
trace 1:10:67 4:10:67
call new prerm remove failed
call new postinst abort-remove failed
after
f /new-postinst-abort-remove
f /new-prerm-remove
",
    ),
    (
        Scenario::Remove,
        b"f /new-postrm-remove\n",
        r"result failed Half-Installed
trace 1:10:66 3:10:67
call new prerm remove ok
call new postrm remove failed
after
f /new-postrm-remove
",
    ),
    (
        Scenario::Purge,
        b"",
        r"result done Not-Installed
trace 1:10:66 3:10:66 5:10:66
call new prerm remove ok
call new postrm remove ok
call new postrm purge ok
after
",
    ),
    (
        Scenario::Purge,
        b"f /new-prerm-remove\n",
        r"result failed Installed
trace 1:10:67 6:10:66
call new prerm remove failed
call new postinst abort-remove ok
after
f /new-prerm-remove
",
    ),
    (
        Scenario::Purge,
        b"f /new-postinst-abort-remove\nf /new-prerm-remove\n",
        r"result failed Half-Configured
trace 1:10:67 6:10:67
call new prerm remove failed
call new postinst abort-remove failed
after
f /new-postinst-abort-remove
f /new-prerm-remove
",
    ),
    (
        Scenario::Purge,
        b"f /new-postrm-remove\n",
        r"result failed Half-Installed
trace 1:10:66 3:10:67
call new prerm remove ok
call new postrm remove failed
after
f /new-postrm-remove
",
    ),
    (
        Scenario::Purge,
        b"f /new-postrm-purge\n",
        r"result failed Config-Files
trace 1:10:66 3:10:66 5:10:67
call new prerm remove ok
call new postrm remove ok
call new postrm purge failed
after
f /new-postrm-purge
",
    ),
    (
        Scenario::PurgeLater,
        b"",
        r"result done Not-Installed
trace 2:10:66
call new postrm purge ok
after
",
    ),
    (
        Scenario::PurgeLater,
        b"f /new-postrm-purge\n",
        r"result failed Config-Files
trace 2:10:67
call new postrm purge failed
after
f /new-postrm-purge
",
    ),
];

// Whether the run of a row has its text.
fn is_run(alloc: Global, row: &Row) -> bool {
    let tree: [File; 1] = [("t", row.1)];
    is_said(alloc, Sought::Answer, row.0, RUN, FILES, &tree, row.2)
}

#[test]
fn runs_are_as_worked(rt: HostRuntime) {
    for row in ROWS {
        assert!(rt; is_run(rt.alloc(), row), "{}", row.2);
    }
}

const EMPTY: &[File] = &[
    ("p/control", b"Version: 2\n"),
    ("p/list", b"/.\n"),
    ("o/control", b"Version: 1\n"),
    ("o/list", b"/.\n"),
    ("t", b""),
];

const FAILS: &[u8] = b"#!/bin/sh\nexit 1\n";

// A scenario, the files in which the packages or the tree differ from none, and the text of the run.
const OTHERS: &[(Scenario, &[File], &str)] = &[
    (
        Scenario::Install,
        &[],
        "result done Installed\ntrace\nafter\n",
    ),
    (
        Scenario::Remove,
        &[("p/conffiles", b"/x\n"), ("p/list", b"/x\n")],
        "result done Config-Files\ntrace\nafter\n",
    ),
    (
        Scenario::Remove,
        &[],
        "result done Not-Installed\ntrace\nafter\n",
    ),
    (
        Scenario::Upgrade,
        &[("o/prerm", FAILS)],
        "result done Installed\ntrace\ncall old prerm upgrade 2 failed\nafter\n",
    ),
    (
        Scenario::Upgrade,
        &[
            ("o/prerm", FAILS),
            ("p/prerm", FAILS),
            ("o/postinst", FAILS),
        ],
        r"result failed Half-Configured
trace
call old prerm upgrade 2 failed
call new prerm failed-upgrade 1 2 failed
call old postinst abort-upgrade 2 failed
after
",
    ),
    (
        Scenario::Install,
        &[("p/postinst", b"#!/bin/sh -e\nfalse\ntrue\n")],
        r"result failed Half-Configured
trace
call new postinst configure \e failed
after
",
    ),
    (
        Scenario::Install,
        &[("p/postinst", b"#!/bin/sh\nfalse\ntrue\n")],
        r"result done Installed
trace
call new postinst configure \e ok
after
",
    ),
    (
        Scenario::Install,
        &[
            ("p/preinst", b"#!/bin/sh\nx=1\nDPKG_MAINTSCRIPT_NAME=y\n"),
            (
                "p/postinst",
                b"#!/bin/sh\n[ -z \"$x\" ] && [ \"$DPKG_MAINTSCRIPT_NAME\" = postinst ]\n",
            ),
        ],
        r"result done Installed
trace
call new preinst install ok
call new postinst configure \e ok
after
",
    ),
    (
        Scenario::Install,
        &[("p/preinst", b"#!/bin/sh\ntrue\ncat\n")],
        r"result incomplete call 1:15
trace
call new preinst install ended
after
",
    ),
    (
        Scenario::Install,
        &[("p/list", b"/a/b\n"), ("t", b"l /a b\n")],
        "result incomplete link 2:0\ntrace 2:0:1\nafter\nl /a b\n",
    ),
    (
        Scenario::Install,
        &[
            ("p/list", b"/srv/a\n"),
            ("p/preinst", b"#!/bin/sh\nmkdir /srv\n"),
            ("p/postinst", b"#!/bin/sh\nrm /srv/a\n"),
        ],
        r"result done Installed
trace 1:10:68 2:0:68 3:10:68
call new preinst install ok
call new postinst configure \e ok
after
d /srv
",
    ),
];

#[test]
fn other_runs_are_as_worked(rt: HostRuntime) {
    for row in OTHERS {
        assert!(rt;
            is_said(rt.alloc(), Sought::Answer, row.0, RUN, EMPTY, row.1, row.2),
            "{}",
            row.2
        );
    }
}
