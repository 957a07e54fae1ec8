//! Outcomes on a system with known links, and by `own` and `removed`.

use crate::answers::{File, Sought, begins_so, is_said};
use dpkg_scenarios::Scenario;
use std::alloc::Global;

const LINE: &str = "check p --base b";

// A system whose /bin is a link.
const LINKED: &[u8] = b"dir /usr/bin\nlink /bin usr/bin\nfits\n";

// A postinst of a package without files, and the brief report on its installation there.
const SCRIPTS: &[(&[u8], &str)] = &[
    (
        b"#!/bin/sh\nset -e\n[ -e /bin/x ] || touch /bin/x\n",
        "\
colis brief 2
scenario install outcomes 3
outcome 1 incomplete link 3:17
trace 3:17:65
outcome 2 done Installed
trace 3:17:66 3:34:67
outcome 3 done Installed
trace 3:17:67
verdict 2
",
    ),
    (
        b"#!/bin/sh\nrm /bin\n",
        "\
colis brief 2
scenario install outcomes 1
outcome 1 incomplete link 3:10
trace 3:10:65
verdict 2
",
    ),
    (
        b"#!/bin/sh\nrmdir /usr/bin\n",
        "\
colis brief 2
scenario install outcomes 1
outcome 1 incomplete link 3:10
trace 3:10:65
verdict 2
",
    ),
];

// Whether a script follows the link as its row says.
fn script_follows(alloc: Global, row: &(&'static [u8], &str)) -> bool {
    let files: [File; 3] = [("p/list", b""), ("b", LINKED), ("p/postinst", row.0)];
    is_said(
        alloc,
        Sought::Report,
        Scenario::Install,
        LINE,
        &files,
        &[],
        row.1,
    )
}

#[test]
fn scripts_follow_known_links(rt: HostRuntime) {
    for row in SCRIPTS {
        assert!(rt; script_follows(rt.alloc(), row), "{:?}", row.0);
    }
}

// A scenario, the list of a package, its configuration files, a base, and the brief report.
type Row = (
    Scenario,
    &'static [u8],
    &'static [u8],
    &'static [u8],
    &'static str,
);

const ROWS: &[Row] = &[
    // Files are placed along the links, and taken away.
    (
        Scenario::Install,
        b"/bin/x\n",
        b"",
        b"dir /usr/bin\nabsent /usr/bin/x\nlink /bin usr/bin\n",
        "\
colis brief 2
scenario install outcomes 1
outcome 1 done Installed
trace 2:0:68
verdict 0
",
    ),
    (
        Scenario::Remove,
        b"/bin\n/bin/x\n",
        b"",
        b"file /usr/bin/x\nlink /bin usr/bin\n",
        "\
colis brief 2
scenario remove outcomes 1
outcome 1 done Not-Installed
trace 2:0:68 2:1:66
verdict 0
",
    ),
    // A link that would not lead to a directory stands in no start tree.
    (
        Scenario::Install,
        b"",
        b"",
        b"file /usr/bin\nlink /bin usr/bin\n",
        "no start",
    ),
    (
        Scenario::Install,
        b"",
        b"",
        b"dir /bin\nlink /bin usr/bin\n",
        "no start",
    ),
    (
        Scenario::Install,
        b"",
        b"",
        b"link /bin usr/bin\nlink /bin usr/sbin\n",
        "no start",
    ),
    // By `own` a folder holds the package's own files, where a folder between is not listed.
    (
        Scenario::Remove,
        b"/srv/foo\n/srv/foo/a/b\n",
        b"",
        b"dir /srv\nfile /srv/foo/a/b\nown\n",
        "\
colis brief 2
scenario remove outcomes 1
outcome 1 done Not-Installed
trace 2:0:68 2:1:67
verdict 0
",
    ),
    (
        Scenario::Remove,
        b"/srv/foo\n/srv/foo/a\n/srv/foo/a/b\n",
        b"",
        b"dir /srv\nfile /srv/foo/a/b\nown\n",
        "\
colis brief 2
scenario remove outcomes 1
outcome 1 done Not-Installed
trace 2:0:68 2:1:68 2:2:68
verdict 0
",
    ),
    // A package that has nothing but folders is gone.
    (
        Scenario::PurgeLater,
        b"/srv/a\n/srv/a/b\n/srv/a/b/c/\n/srv/d/\n",
        b"",
        b"dir /srv\nremoved\n",
        "\
colis brief 2
scenario purge-later outcomes 1
outcome 1 done Not-Installed
trace 1:0:66 1:1:66 1:2:66 1:3:66
verdict 0
",
    ),
    (
        Scenario::PurgeLater,
        b"/bin/a/\n/usr/bin/b\n",
        b"",
        b"link /bin usr/bin\nremoved\n",
        "\
colis brief 2
scenario purge-later outcomes 1
outcome 1 done Not-Installed
trace 1:0:66
verdict 0
",
    ),
];

// Whether the files of a row follow the links as the row says.
fn files_follow(alloc: Global, row: &Row) -> bool {
    let files: [File; 3] = [("p/list", row.1), ("p/conffiles", row.2), ("b", row.3)];
    is_said(alloc, Sought::Report, row.0, LINE, &files, &[], row.4)
}

#[test]
fn files_follow_known_links(rt: HostRuntime) {
    for row in ROWS {
        assert!(rt; files_follow(rt.alloc(), row), "{:?}", row.3);
    }
}

// Forty folders, twenty side by side with one in each, and two configuration files.
const FOLDERS: &[File] = &[
    (
        "p/list",
        b"/srv/f00/\n/srv/f00/d/\n/srv/f01/\n/srv/f01/d/\n/srv/f02/\n/srv/f02/d/\n/srv/f03/\n/srv/f03/d/\n\
        /srv/f04/\n/srv/f04/d/\n/srv/f05/\n/srv/f05/d/\n/srv/f06/\n/srv/f06/d/\n/srv/f07/\n/srv/f07/d/\n\
        /srv/f08/\n/srv/f08/d/\n/srv/f09/\n/srv/f09/d/\n/srv/f10/\n/srv/f10/d/\n/srv/f11/\n/srv/f11/d/\n\
        /srv/f12/\n/srv/f12/d/\n/srv/f13/\n/srv/f13/d/\n/srv/f14/\n/srv/f14/d/\n/srv/f15/\n/srv/f15/d/\n\
        /srv/f16/\n/srv/f16/d/\n/srv/f17/\n/srv/f17/d/\n/srv/f18/\n/srv/f18/d/\n/srv/f19/\n/srv/f19/d/\n\
        /srv/f00/d/a.conf\n/srv/f01/d/b.conf\n",
    ),
    ("p/conffiles", b"/srv/f00/d/a.conf\n/srv/f01/d/b.conf\n"),
];

// Whether the report on the removal of the folders under a base begins so.
fn removal_begins(alloc: Global, base: &'static [u8], front: &str) -> bool {
    let base: [File; 1] = [("b", base)];
    begins_so(
        alloc,
        Sought::Report,
        Scenario::PurgeLater,
        LINE,
        FOLDERS,
        &base,
        front,
    )
}

// Whether the report on the removal of the folders under a base is this one.
fn removal_is(alloc: Global, base: &'static [u8], wanted: &str) -> bool {
    let base: [File; 1] = [("b", base)];
    is_said(
        alloc,
        Sought::Report,
        Scenario::PurgeLater,
        LINE,
        FOLDERS,
        &base,
        wanted,
    )
}

#[test]
fn folders_that_a_removal_took_are_no_question(rt: HostRuntime) {
    let front = "colis brief 2\nscenario purge-later outcomes 9\n";
    assert!(rt; removal_begins(rt.alloc(), b"dir /srv\nown\nremoved\n", front));
    assert!(rt; removal_is(rt.alloc(), b"dir /srv\nown\n", "limit"));
}
