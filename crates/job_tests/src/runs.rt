//! Runs of jobs whose scripts all succeed. Each script makes a file whose name tells whose script it is, its name and
//! its first two words; the new package has version 2, the old one version 1.

use crate::answers::{File, Sought, is_said};
use dpkg_scenarios::Scenario;

const RUN: &str = "run p --old o --scenario install --tree t";

const NEW: &[u8] = b"#!/bin/sh\ntouch \"/srv/n-$DPKG_MAINTSCRIPT_NAME-$1-$2\"\n";

const OLD: &[u8] = b"#!/bin/sh\ntouch \"/srv/o-$DPKG_MAINTSCRIPT_NAME-$1-$2\"\n";

const FILES: &[File] = &[
    ("p/control", b"Version: 2\n"),
    ("p/list", b"/srv/c\n/srv/n\n"),
    ("p/conffiles", b"/srv/c\n"),
    ("p/preinst", NEW),
    ("p/postinst", NEW),
    ("p/prerm", NEW),
    ("p/postrm", NEW),
    ("o/control", b"Version: 1\n"),
    ("o/list", b"/srv/c\n/srv/o\n"),
    ("o/conffiles", b"/srv/c\n"),
    ("o/preinst", OLD),
    ("o/postinst", OLD),
    ("o/prerm", OLD),
    ("o/postrm", OLD),
];

// A scenario, the tree before, and the text of the run.
const RUNS: &[(Scenario, &[File], &str)] = &[
    (
        Scenario::Install,
        &[("t", b"d /srv\n")],
        r"result done Installed
trace 1:10:67 2:0:68 2:1:68 3:10:67
call new preinst install ok
call new postinst configure \e ok
after
d /srv
f /srv/c
f /srv/n
f /srv/n-postinst-configure-
f /srv/n-preinst-install-
",
    ),
    (
        Scenario::InstallAgain,
        &[("t", b"d /srv\n")],
        r"result done Installed
trace 1:10:67 2:0:68 3:10:67
call new preinst install 1 2 ok
call new postinst configure 1 ok
after
d /srv
f /srv/n
f /srv/n-postinst-configure-1
f /srv/n-preinst-install-1
",
    ),
    (
        Scenario::Upgrade,
        &[("t", b"d /srv\nf /srv/o\n")],
        r"result done Installed
trace 1:10:67 3:10:67 4:0:68 5:10:67 7:0:68 8:10:67
call old prerm upgrade 2 ok
call new preinst upgrade 1 2 ok
call old postrm upgrade 2 ok
call new postinst configure 1 ok
after
d /srv
f /srv/n
f /srv/n-postinst-configure-1
f /srv/n-preinst-upgrade-1
f /srv/o-postrm-upgrade-2
f /srv/o-prerm-upgrade-2
",
    ),
    (
        Scenario::Remove,
        &[("t", b"d /srv\nf /srv/c\nf /srv/n\n")],
        r"result done Config-Files
trace 1:10:67 2:0:68 3:10:67
call new prerm remove ok
call new postrm remove ok
after
d /srv
f /srv/c
f /srv/n-postrm-remove-
f /srv/n-prerm-remove-
",
    ),
    (
        Scenario::Purge,
        &[("t", b"d /srv\nf /srv/c\nf /srv/n\n")],
        r"result done Not-Installed
trace 1:10:67 2:0:68 3:10:67 4:0:68 5:10:67
call new prerm remove ok
call new postrm remove ok
call new postrm purge ok
after
d /srv
f /srv/n-postrm-purge-
f /srv/n-postrm-remove-
f /srv/n-prerm-remove-
",
    ),
    (
        Scenario::PurgeLater,
        &[("t", b"d /srv\nf /srv/c\n")],
        r"result done Not-Installed
trace 1:0:68 2:10:67
call new postrm purge ok
after
d /srv
f /srv/n-postrm-purge-
",
    ),
];

#[test]
fn jobs_and_their_copies_are_run(rt: HostRuntime) {
    for row in RUNS {
        assert!(rt;
            is_said(rt.alloc(), Sought::Answer, row.0, RUN, FILES, row.1, row.2),
            "{}",
            row.2
        );
        assert!(rt;
            is_said(
                rt.alloc(),
                Sought::ByCopies,
                row.0,
                RUN,
                FILES,
                row.1,
                row.2
            ),
            "{}",
            row.2
        );
    }
}

const PLAIN: &[File] = &[
    ("p/list", b"/srv/c\n/srv/n\n"),
    ("t", b"d /srv\nf /srv/n\n"),
];

const REMOVAL: &str = "run p --scenario install --tree t";

const REMOVED: &str = "result done Not-Installed\ntrace 2:0:68 2:1:68\nafter\nd /srv\n";

// Of a package without configuration files and postrm nothing is left.
#[test]
fn a_plain_package_leaves_nothing(rt: HostRuntime) {
    assert!(rt;
        is_said(
            rt.alloc(),
            Sought::Answer,
            Scenario::Remove,
            REMOVAL,
            PLAIN,
            &[],
            REMOVED
        )
    );
}
