//! Ten packages with paths at the links of a merged /usr: their installation on such a tree, and all its outcomes. On a
//! tree whose links are known their files stand where the links lead.

use crate::answers::{File, Sought, is_said};
use dpkg_scenarios::Scenario;
use std::alloc::Global;

const RUN: &str = "run p --base b --scenario install --tree t";

const CHECK: &str = "check p --base b";

const SYSTEM: &[File] = &[
    (
        "b",
        b"dir /etc\ndir /usr/bin\ndir /usr/sbin\ndir /usr/lib\nlink /bin usr/bin\nlink /sbin usr/sbin\n\
        link /lib usr/lib\nfits\nown\nruns\n",
    ),
    (
        "t",
        b"l /bin usr/bin\nd /etc\nl /lib usr/lib\nl /sbin usr/sbin\nd /usr\nd /usr/bin\nf /usr/bin/sh\n\
        d /usr/lib\nd /usr/sbin\n",
    ),
];

// The list of a package, its configuration files, its postinst, the text of the run, and the brief report.
type Row = (
    &'static [u8],
    &'static [u8],
    &'static [u8],
    &'static str,
    &'static str,
);

const PACKAGES: &[Row] = &[
    // A tool in /bin.
    (
        b"/bin/tool\n",
        b"",
        b"#!/bin/sh\n:\n",
        r"result done Installed
trace 2:0:68
call new postinst configure \e ok
after
l /bin usr/bin
d /etc
l /lib usr/lib
l /sbin usr/sbin
d /usr
d /usr/bin
f /usr/bin/sh
f /usr/bin/tool
d /usr/lib
d /usr/sbin
",
        "\
colis brief 2
scenario install outcomes 1
outcome 1 done Installed
trace 2:0:68
verdict 0
",
    ),
    // The links are listed as folders.
    (
        b"/bin\n/bin/a\n/sbin\n/sbin/b\n",
        b"",
        b"#!/bin/sh\n:\n",
        r"result done Installed
trace 2:0:68 2:1:68 2:2:68 2:3:68
call new postinst configure \e ok
after
l /bin usr/bin
d /etc
l /lib usr/lib
l /sbin usr/sbin
d /usr
d /usr/bin
f /usr/bin/a
f /usr/bin/sh
d /usr/lib
d /usr/sbin
f /usr/sbin/b
",
        "\
colis brief 2
scenario install outcomes 1
outcome 1 done Installed
trace 2:0:68 2:1:68 2:2:68 2:3:68
verdict 0
",
    ),
    // A folder in /lib.
    (
        b"/lib/d\n/lib/d/x\n",
        b"",
        b"#!/bin/sh\n:\n",
        r"result done Installed
trace 2:0:68 2:1:68
call new postinst configure \e ok
after
l /bin usr/bin
d /etc
l /lib usr/lib
l /sbin usr/sbin
d /usr
d /usr/bin
f /usr/bin/sh
d /usr/lib
d /usr/lib/d
f /usr/lib/d/x
d /usr/sbin
",
        "\
colis brief 2
scenario install outcomes 1
outcome 1 done Installed
trace 2:0:68 2:1:68
verdict 0
",
    ),
    // A configuration file and a unit.
    (
        b"/etc/s.conf\n/lib/systemd\n/lib/systemd/system\n/lib/systemd/system/s.service\n",
        b"/etc/s.conf\n",
        b"#!/bin/sh\n:\n",
        r"result done Installed
trace 2:0:68 2:1:68 2:2:68 2:3:68
call new postinst configure \e ok
after
l /bin usr/bin
d /etc
f /etc/s.conf
l /lib usr/lib
l /sbin usr/sbin
d /usr
d /usr/bin
f /usr/bin/sh
d /usr/lib
d /usr/lib/systemd
d /usr/lib/systemd/system
f /usr/lib/systemd/system/s.service
d /usr/sbin
",
        "\
colis brief 2
scenario install outcomes 1
outcome 1 done Installed
trace 2:0:68 2:1:68 2:2:68 2:3:68
verdict 0
",
    ),
    // A link in /bin.
    (
        b"/bin/ed -> tool\n",
        b"",
        b"#!/bin/sh\n:\n",
        r"result done Installed
trace 2:0:68
call new postinst configure \e ok
after
l /bin usr/bin
d /etc
l /lib usr/lib
l /sbin usr/sbin
d /usr
d /usr/bin
l /usr/bin/ed tool
f /usr/bin/sh
d /usr/lib
d /usr/sbin
",
        "\
colis brief 2
scenario install outcomes 1
outcome 1 done Installed
trace 2:0:68
verdict 0
",
    ),
    // One of the links.
    (
        b"/lib -> usr/lib\n",
        b"",
        b"#!/bin/sh\n:\n",
        r"result done Installed
trace 2:0:68
call new postinst configure \e ok
after
l /bin usr/bin
d /etc
l /lib usr/lib
l /sbin usr/sbin
d /usr
d /usr/bin
f /usr/bin/sh
d /usr/lib
d /usr/sbin
",
        "\
colis brief 2
scenario install outcomes 1
outcome 1 done Installed
trace 2:0:68
verdict 0
",
    ),
    // Another link in its place.
    (
        b"/lib -> usr/lib64\n",
        b"",
        b"#!/bin/sh\n:\n",
        r"result incomplete link 2:0
trace 2:0:65
after
l /bin usr/bin
d /etc
l /lib usr/lib
l /sbin usr/sbin
d /usr
d /usr/bin
f /usr/bin/sh
d /usr/lib
d /usr/sbin
",
        "\
colis brief 2
scenario install outcomes 1
outcome 1 incomplete link 2:0
trace 2:0:65
verdict 2
",
    ),
    // A script that runs a shell and makes a file.
    (
        b"/sbin/daemon\n",
        b"",
        b"#!/bin/sh\nset -e\nif [ -x /bin/sh ]; then touch /bin/.made; fi\n",
        r"result done Installed
trace 2:0:68 3:20:67 3:41:67
call new postinst configure \e ok
after
l /bin usr/bin
d /etc
l /lib usr/lib
l /sbin usr/sbin
d /usr
d /usr/bin
f /usr/bin/.made
f /usr/bin/sh
d /usr/lib
d /usr/sbin
f /usr/sbin/daemon
",
        "\
colis brief 2
scenario install outcomes 6
outcome 1 incomplete link 3:20
trace 2:0:68 3:20:65
outcome 2 done Installed
trace 2:0:68 3:20:66
outcome 3 incomplete link 3:41
trace 2:0:68 3:20:67 3:41:65
outcome 4 done Installed
trace 2:0:68 3:20:67 3:41:67
outcome 5 done Installed
trace 2:0:68 3:20:67 3:41:68
outcome 6 incomplete run 3:20
trace 2:0:68 3:20:68
verdict 2
",
    ),
    // A script that takes a file away.
    (
        b"",
        b"",
        b"#!/bin/sh\nrm -f /bin/old\n",
        r"result done Installed
trace 3:10:71
call new postinst configure \e ok
after
l /bin usr/bin
d /etc
l /lib usr/lib
l /sbin usr/sbin
d /usr
d /usr/bin
f /usr/bin/sh
d /usr/lib
d /usr/sbin
",
        "\
colis brief 2
scenario install outcomes 2
outcome 1 failed Half-Configured
trace 3:10:67
outcome 2 done Installed
trace 3:10:71
verdict 1
",
    ),
    // A script that moves a file.
    (
        b"/bin/a\n",
        b"",
        b"#!/bin/sh\nmv /bin/a /bin/b\n",
        r"result done Installed
trace 2:0:68 3:10:68
call new postinst configure \e ok
after
l /bin usr/bin
d /etc
l /lib usr/lib
l /sbin usr/sbin
d /usr
d /usr/bin
f /usr/bin/b
f /usr/bin/sh
d /usr/lib
d /usr/sbin
",
        "\
colis brief 2
scenario install outcomes 7
outcome 1 incomplete link 3:10
trace 2:0:68 3:10:65
outcome 2 done Installed
trace 2:0:68 3:10:68
outcome 3 done Installed
trace 2:0:68 3:10:71
outcome 4 failed Half-Configured
trace 2:0:68 3:10:72
outcome 5 done Installed
trace 2:0:68 3:10:77
outcome 6 done Installed
trace 2:0:68 3:10:79
outcome 7 incomplete same 3:10
trace 2:0:68 3:10:81
verdict 1
",
    ),
];

// Whether a package is installed along the links as its row says.
fn is_installed(alloc: Global, row: &Row) -> bool {
    let files = files(row);
    is_said(
        alloc,
        Sought::Answer,
        Scenario::Install,
        RUN,
        &files,
        SYSTEM,
        row.3,
    )
}

// Whether a package is checked along the links as its row says.
fn is_checked(alloc: Global, row: &Row) -> bool {
    let files = files(row);
    is_said(
        alloc,
        Sought::Report,
        Scenario::Install,
        CHECK,
        &files,
        SYSTEM,
        row.4,
    )
}

// The files of a row.
fn files(row: &Row) -> [File; 3] {
    [
        ("p/list", row.0),
        ("p/conffiles", row.1),
        ("p/postinst", row.2),
    ]
}

#[test]
fn packages_are_installed_and_checked_along_the_links(rt: HostRuntime) {
    for row in PACKAGES {
        assert!(rt; is_installed(rt.alloc(), row), "{:?}", row.0);
        assert!(rt; is_checked(rt.alloc(), row), "{:?}", row.0);
    }
}
