//! Packages whose folders hold no foreign entry, by a line of the base, with all their outcomes.

use crate::answers::{File, Sought, begins_so, is_said};
use dpkg_scenarios::Scenario;
use std::alloc::Global;

const CONFIGURED: &[File] = &[
    ("p/list", b"/.\n/etc\n/etc/foo\n/etc/foo/a.conf\n"),
    ("p/conffiles", b"/etc/foo/a.conf\n"),
];

// Forty folders, twenty side by side with one in each.
const FOLDERS: &[File] = &[(
    "p/list",
    b"/srv/f00/\n/srv/f00/d/\n/srv/f01/\n/srv/f01/d/\n/srv/f02/\n/srv/f02/d/\n/srv/f03/\n/srv/f03/d/\n\
    /srv/f04/\n/srv/f04/d/\n/srv/f05/\n/srv/f05/d/\n/srv/f06/\n/srv/f06/d/\n/srv/f07/\n/srv/f07/d/\n\
    /srv/f08/\n/srv/f08/d/\n/srv/f09/\n/srv/f09/d/\n/srv/f10/\n/srv/f10/d/\n/srv/f11/\n/srv/f11/d/\n\
    /srv/f12/\n/srv/f12/d/\n/srv/f13/\n/srv/f13/d/\n/srv/f14/\n/srv/f14/d/\n/srv/f15/\n/srv/f15/d/\n\
    /srv/f16/\n/srv/f16/d/\n/srv/f17/\n/srv/f17/d/\n/srv/f18/\n/srv/f18/d/\n/srv/f19/\n/srv/f19/d/\n",
)];

const LINE: &str = "check p --base b";

// A scenario, a base, and the brief report on the package with a configuration file.
type Row = (Scenario, &'static [u8], &'static str);

const ROWS: &[Row] = &[
    (
        Scenario::Purge,
        b"dir /etc\nfits\n",
        "\
colis brief 2
scenario purge outcomes 3
outcome 1 done Not-Installed
trace 2:0:67 4:0:68 4:1:67
outcome 2 done Not-Installed
trace 2:0:67 4:0:68 4:1:68
outcome 3 done Not-Installed
trace 2:0:68 4:0:66 4:1:66
verdict 0
",
    ),
    (
        Scenario::Purge,
        b"dir /etc\nfits\nown\n",
        "\
colis brief 2
scenario purge outcomes 2
outcome 1 done Not-Installed
trace 2:0:67 4:0:68 4:1:68
outcome 2 done Not-Installed
trace 2:0:68 4:0:66 4:1:66
verdict 0
",
    ),
    (
        Scenario::Purge,
        b"dir /etc\nfile /etc/foo/a.conf\nown\n",
        "\
colis brief 2
scenario purge outcomes 1
outcome 1 done Not-Installed
trace 2:0:67 4:0:68 4:1:68
verdict 0
",
    ),
    // A directory of the base may hold anything, and stays.
    (
        Scenario::Purge,
        b"dir /etc\ndir /etc/foo\nown\n",
        "\
colis brief 2
scenario purge outcomes 1
outcome 1 done Not-Installed
trace 4:0:68
verdict 0
",
    ),
];

// Whether the report of a row is the row's.
fn is_reported(alloc: Global, row: &Row) -> bool {
    let base: [File; 1] = [("b", row.1)];
    is_said(alloc, Sought::Report, row.0, LINE, CONFIGURED, &base, row.2)
}

#[test]
fn a_folder_without_foreign_entries_goes(rt: HostRuntime) {
    for row in ROWS {
        assert!(rt; is_reported(rt.alloc(), row), "{:?}", row.1);
    }
}

const GONE: &[File] = &[
    ("b", b"dir /etc\nown\n"),
    ("t", b"d /etc\nd /etc/foo\nf /etc/foo/a.conf\n"),
];

const PURGE: &str = "run p --base b --scenario purge --tree t";

const PURGED: &str = "result done Not-Installed
trace 2:0:67 4:0:68 4:1:68
after
d /etc
";

#[test]
fn a_run_leaves_no_folder_without_foreign_entries(rt: HostRuntime) {
    assert!(rt;
        is_said(
            rt.alloc(),
            Sought::Answer,
            Scenario::Purge,
            PURGE,
            CONFIGURED,
            GONE,
            PURGED
        )
    );
}

const OWNED: &[File] = &[("b", b"dir /srv\nown\n")];

const OPEN: &[File] = &[("b", b"dir /srv\n")];

const ONE_WAY: &str = "\
colis brief 2
scenario remove outcomes 1
outcome 1 done Not-Installed
";

#[test]
fn forty_folders_are_removed_in_one_way(rt: HostRuntime) {
    assert!(rt;
        begins_so(
            rt.alloc(),
            Sought::Report,
            Scenario::Remove,
            LINE,
            FOLDERS,
            OWNED,
            ONE_WAY
        )
    );
    assert!(rt;
        is_said(
            rt.alloc(),
            Sought::Report,
            Scenario::Remove,
            LINE,
            FOLDERS,
            OPEN,
            "limit"
        )
    );
}
