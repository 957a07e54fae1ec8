//! All outcomes of small pairs, and of a package that is configured twice, worked by hand from Debian Policy, 6.6 and
//! 6.7: each step is left by its success and by its failure, and from the tree that an outcome shows the run goes as the
//! outcome says. Each script fails where a link is there with the name of its package, the script and its first two
//! words. An unpacking fails where a directory stands at a file, and its first file may then be put back.

use crate::answers::{File, Sought, is_said};
use dpkg_scenarios::Scenario;

const PAIR: &str = "pair p --with o --scenario in-favour --base b";

const FILES: &[File] = &[
    ("b", b""),
    ("p/control", b"Package: new\nVersion: 2\n"),
    ("p/list", b"/a\n/b\n"),
    ("p/preinst", b"#!/bin/sh\n[ ! -h \"/new-preinst-$1$2\" ]\n"),
    (
        "p/postinst",
        b"#!/bin/sh\n[ ! -h \"/new-postinst-$1$2\" ]\n",
    ),
    ("p/postrm", b"#!/bin/sh\n[ ! -h \"/new-postrm-$1$2\" ]\n"),
    ("o/control", b"Package: old\nVersion: 1\n"),
    ("o/list", b"/o\n"),
    ("o/prerm", b"#!/bin/sh\n[ ! -h \"/old-prerm-$1$2\" ]\n"),
    (
        "o/postinst",
        b"#!/bin/sh\n[ ! -h \"/old-postinst-$1$2\" ]\n",
    ),
    ("o/postrm", b"#!/bin/sh\n[ ! -h \"/old-postrm-$1$2\" ]\n"),
];

// A scenario, the line, the files in which the packages differ, and the runs.
const PAIRS: &[(Scenario, &str, &[File], &str)] = &[
    (
        Scenario::InFavour,
        PAIR,
        &[],
        r"result failed Not-Installed
trace 1:10:66 2:10:66 3:0:67 8:10:66 7:10:66
call old prerm remove in-favour new 2 ok
call new preinst install ok
call new postrm abort-install ok
call old postinst abort-remove in-favour new 2 ok
result failed Not-Installed
trace 1:10:66 2:10:66 3:0:67 8:10:66 7:10:67
call old prerm remove in-favour new 2 ok
call new preinst install ok
call new postrm abort-install ok
call old postinst abort-remove in-favour new 2 failed
result failed Half-Installed
trace 1:10:66 2:10:66 3:0:67 8:10:67
call old prerm remove in-favour new 2 ok
call new preinst install ok
call new postrm abort-install failed
result failed Not-Installed
trace 1:10:66 2:10:66 3:0:68 3:1:67 9:0:68 8:10:66 7:10:66
call old prerm remove in-favour new 2 ok
call new preinst install ok
call new postrm abort-install ok
call old postinst abort-remove in-favour new 2 ok
result failed Not-Installed
trace 1:10:66 2:10:66 3:0:68 3:1:67 9:0:68 8:10:66 7:10:67
call old prerm remove in-favour new 2 ok
call new preinst install ok
call new postrm abort-install ok
call old postinst abort-remove in-favour new 2 failed
result failed Half-Installed
trace 1:10:66 2:10:66 3:0:68 3:1:67 9:0:68 8:10:67
call old prerm remove in-favour new 2 ok
call new preinst install ok
call new postrm abort-install failed
result done Installed
trace 1:10:66 2:10:66 3:0:68 3:1:68 4:0:68 5:10:66 6:10:66
call old prerm remove in-favour new 2 ok
call new preinst install ok
call old postrm remove ok
call new postinst configure \e ok
result failed Half-Configured
trace 1:10:66 2:10:66 3:0:68 3:1:68 4:0:68 5:10:66 6:10:67
call old prerm remove in-favour new 2 ok
call new preinst install ok
call old postrm remove ok
call new postinst configure \e failed
result failed Unpacked
trace 1:10:66 2:10:66 3:0:68 3:1:68 4:0:68 5:10:67
call old prerm remove in-favour new 2 ok
call new preinst install ok
call old postrm remove failed
result failed Not-Installed
trace 1:10:66 2:10:67 8:10:66 7:10:66
call old prerm remove in-favour new 2 ok
call new preinst install failed
call new postrm abort-install ok
call old postinst abort-remove in-favour new 2 ok
result failed Not-Installed
trace 1:10:66 2:10:67 8:10:66 7:10:67
call old prerm remove in-favour new 2 ok
call new preinst install failed
call new postrm abort-install ok
call old postinst abort-remove in-favour new 2 failed
result failed Half-Installed
trace 1:10:66 2:10:67 8:10:67
call old prerm remove in-favour new 2 ok
call new preinst install failed
call new postrm abort-install failed
result failed Not-Installed
trace 1:10:67 7:10:66
call old prerm remove in-favour new 2 failed
call old postinst abort-remove in-favour new 2 ok
result failed Not-Installed
trace 1:10:67 7:10:67
call old prerm remove in-favour new 2 failed
call old postinst abort-remove in-favour new 2 failed
",
    ),
    (
        Scenario::Deconfigure,
        PAIR,
        &[],
        r"result failed Not-Installed
trace 1:10:66 2:10:66 3:0:67 5:10:66 6:10:66
call old prerm deconfigure in-favour new 2 ok
call new preinst install ok
call new postrm abort-install ok
call old postinst abort-deconfigure in-favour new 2 ok
result failed Not-Installed
trace 1:10:66 2:10:66 3:0:67 5:10:66 6:10:67
call old prerm deconfigure in-favour new 2 ok
call new preinst install ok
call new postrm abort-install ok
call old postinst abort-deconfigure in-favour new 2 failed
result failed Half-Installed
trace 1:10:66 2:10:66 3:0:67 5:10:67
call old prerm deconfigure in-favour new 2 ok
call new preinst install ok
call new postrm abort-install failed
result failed Not-Installed
trace 1:10:66 2:10:66 3:0:68 3:1:67 7:0:68 5:10:66 6:10:66
call old prerm deconfigure in-favour new 2 ok
call new preinst install ok
call new postrm abort-install ok
call old postinst abort-deconfigure in-favour new 2 ok
result failed Not-Installed
trace 1:10:66 2:10:66 3:0:68 3:1:67 7:0:68 5:10:66 6:10:67
call old prerm deconfigure in-favour new 2 ok
call new preinst install ok
call new postrm abort-install ok
call old postinst abort-deconfigure in-favour new 2 failed
result failed Half-Installed
trace 1:10:66 2:10:66 3:0:68 3:1:67 7:0:68 5:10:67
call old prerm deconfigure in-favour new 2 ok
call new preinst install ok
call new postrm abort-install failed
result done Installed
trace 1:10:66 2:10:66 3:0:68 3:1:68 4:10:66
call old prerm deconfigure in-favour new 2 ok
call new preinst install ok
call new postinst configure \e ok
result failed Half-Configured
trace 1:10:66 2:10:66 3:0:68 3:1:68 4:10:67
call old prerm deconfigure in-favour new 2 ok
call new preinst install ok
call new postinst configure \e failed
result failed Not-Installed
trace 1:10:66 2:10:67 5:10:66 6:10:66
call old prerm deconfigure in-favour new 2 ok
call new preinst install failed
call new postrm abort-install ok
call old postinst abort-deconfigure in-favour new 2 ok
result failed Not-Installed
trace 1:10:66 2:10:67 5:10:66 6:10:67
call old prerm deconfigure in-favour new 2 ok
call new preinst install failed
call new postrm abort-install ok
call old postinst abort-deconfigure in-favour new 2 failed
result failed Half-Installed
trace 1:10:66 2:10:67 5:10:67
call old prerm deconfigure in-favour new 2 ok
call new preinst install failed
call new postrm abort-install failed
result failed Not-Installed
trace 1:10:67 6:10:66
call old prerm deconfigure in-favour new 2 failed
call old postinst abort-deconfigure in-favour new 2 ok
result failed Not-Installed
trace 1:10:67 6:10:67
call old prerm deconfigure in-favour new 2 failed
call old postinst abort-deconfigure in-favour new 2 failed
",
    ),
    // (where the old package's only file goes, no directory stands)
    (
        Scenario::Disappear,
        PAIR,
        &[("o/list", b"/a\n")],
        r"result failed Not-Installed
trace 1:10:66 2:0:68 2:1:67 6:0:68 5:10:66
call new preinst install ok
call new postrm abort-install ok
result failed Half-Installed
trace 1:10:66 2:0:68 2:1:67 6:0:68 5:10:67
call new preinst install ok
call new postrm abort-install failed
result done Installed
trace 1:10:66 2:0:68 2:1:68 3:10:66 4:10:66
call new preinst install ok
call old postrm disappear new 2 ok
call new postinst configure \e ok
result failed Half-Configured
trace 1:10:66 2:0:68 2:1:68 3:10:66 4:10:67
call new preinst install ok
call old postrm disappear new 2 ok
call new postinst configure \e failed
result failed Unpacked
trace 1:10:66 2:0:68 2:1:68 3:10:67
call new preinst install ok
call old postrm disappear new 2 failed
result failed Not-Installed
trace 1:10:67 5:10:66
call new preinst install failed
call new postrm abort-install ok
result failed Half-Installed
trace 1:10:67 5:10:67
call new preinst install failed
call new postrm abort-install failed
",
    ),
    (
        Scenario::Twice,
        "twice p --base b",
        &[],
        r"result done Installed
trace 1:10:66 2:10:66
call new postinst configure \e ok
call new postinst configure 2 ok
result failed Half-Configured
trace 1:10:66 2:10:67
call new postinst configure \e ok
call new postinst configure 2 failed
result failed Half-Configured
trace 1:10:67
call new postinst configure \e failed
",
    ),
];

#[test]
fn every_step_of_a_pair_is_left_both_ways(rt: HostRuntime) {
    for row in PAIRS {
        assert!(rt; is_said(rt.alloc(), Sought::Shown, row.0, row.1, FILES, row.2, row.3));
    }
}
