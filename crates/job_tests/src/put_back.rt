//! Unpackings that fail at the first, at a middle or at the last entry of a list, worked by hand: the tree after is the
//! tree before, but for what the scripts did. The new package has version 2, the old one version 1 and lists nothing.

use crate::answers::{File, Sought, fails_back, is_said};
use dpkg_scenarios::Scenario;
use script_names::{Bytes, Memory};
use std::alloc::Global;

// A scenario, in which an unpacking fails: its ending, the steps that call preinst, unpack and put back, each as it is
// written in a trace, and the call of preinst.
type Course = (
    Scenario,
    &'static str,
    &'static str,
    &'static str,
    &'static str,
    &'static str,
);

const COURSES: &[Course] = &[
    (
        Scenario::Install,
        "failed Not-Installed",
        "1",
        "2",
        "5",
        "preinst install ok",
    ),
    (
        Scenario::InstallAgain,
        "failed Config-Files",
        "1",
        "2",
        "5",
        "preinst install 1 2 ok",
    ),
    (
        Scenario::Upgrade,
        "failed Installed",
        "3",
        "4",
        "12",
        "preinst upgrade 1 2 ok",
    ),
];

// The list of a package, the tree before, and the marks of the run, with U for the step that unpacks and R for the one
// that puts back.
type Row = (&'static [u8], &'static [u8], &'static str);

const ROWS: &[Row] = &[
    // Two files.
    (b"/.\n/srv\n/srv/a\n/srv/b\n", b"f /srv\n", "U:0:67"),
    (
        b"/.\n/srv\n/srv/a\n/srv/b\n",
        b"d /srv\nd /srv/a\n",
        "U:0:68 U:1:67 R:0:66",
    ),
    (
        b"/.\n/srv\n/srv/a\n/srv/b\n",
        b"d /srv\nf /srv/a\nd /srv/b\n",
        "U:0:68 U:1:68 U:2:67 R:0:68 R:1:66",
    ),
    // A folder with a file.
    (b"/srv\n/srv/a\n/srv/a/f\n/srv/b\n", b"p /srv\n", "U:0:67"),
    (
        b"/srv\n/srv/a\n/srv/a/f\n/srv/b\n",
        b"d /srv\nd /srv/a\nd /srv/a/f\n",
        "U:0:68 U:1:68 U:2:67 R:0:66 R:1:66",
    ),
    (
        b"/srv\n/srv/a\n/srv/a/f\n/srv/b\n",
        b"d /srv\nd /srv/b\n",
        "U:0:68 U:1:68 U:2:68 U:3:67 R:0:68 R:1:69 R:2:66",
    ),
    // Folders side by side.
    (b"/srv/x/\n/srv/y/\n/srv/z/\n", b"", "U:0:66"),
    (
        b"/srv/x/\n/srv/y/\n/srv/z/\n",
        b"d /srv\nf /srv/y\n",
        "U:0:68 U:1:67 R:0:69",
    ),
    (
        b"/srv/x/\n/srv/y/\n/srv/z/\n",
        b"d /srv\nd /srv/y\ns /srv/z\n",
        "U:0:68 U:1:68 U:2:67 R:0:66 R:1:69",
    ),
    // Folders one in another.
    (
        b"/srv/x\n/srv/x/y\n/srv/x/y/z/\n",
        b"d /srv\nf /srv/x\n",
        "U:0:67",
    ),
    (
        b"/srv/x\n/srv/x/y\n/srv/x/y/z/\n",
        b"d /srv\nd /srv/x\nf /srv/x/y\n",
        "U:0:68 U:1:67 R:0:66",
    ),
    (
        b"/srv/x\n/srv/x/y\n/srv/x/y/z/\n",
        b"d /srv\nd /srv/x\nd /srv/x/y\nf /srv/x/y/z\n",
        "U:0:68 U:1:68 U:2:67 R:0:66 R:1:66",
    ),
    // Links.
    (
        b"/opt/a -> x\n/srv/b -> y\n/var/c -> z\n",
        b"d /srv\nd /var\n",
        "U:0:66",
    ),
    (
        b"/opt/a -> x\n/srv/b -> y\n/var/c -> z\n",
        b"d /opt\nd /var\n",
        "U:0:68 U:1:66 R:0:68",
    ),
    (
        b"/opt/a -> x\n/srv/b -> y\n/var/c -> z\n",
        b"d /opt\nl /opt/a old\nd /srv\nc /srv/b\n",
        "U:0:68 U:1:68 U:2:66 R:0:68 R:1:68",
    ),
    // Files in the place of links and specials.
    (
        b"/srv/a\n/srv/b\n/srv/c\n",
        b"d /srv\nd /srv/a\nl /srv/b x\n",
        "U:0:67",
    ),
    (
        b"/srv/a\n/srv/b\n/srv/c\n",
        b"d /srv\nl /srv/a x\nd /srv/b\n",
        "U:0:68 U:1:67 R:0:68",
    ),
    (
        b"/srv/a\n/srv/b\n/srv/c\n",
        b"d /srv\nb /srv/a\np /srv/b\nd /srv/c\n",
        "U:0:68 U:1:68 U:2:67 R:0:68 R:1:68",
    ),
    // A link, a folder with a file, and a file.
    (b"/srv/a -> b\n/srv/d\n/srv/d/f\n/srv/e\n", b"", "U:0:66"),
    (
        b"/srv/a -> b\n/srv/d\n/srv/d/f\n/srv/e\n",
        b"d /srv\nf /srv/a\ns /srv/d\n",
        "U:0:68 U:1:67 R:0:68",
    ),
    (
        b"/srv/a -> b\n/srv/d\n/srv/d/f\n/srv/e\n",
        b"d /srv\nl /srv/a b\nd /srv/d\nf /srv/d/g\nd /srv/e\n",
        "U:0:68 U:1:68 U:2:68 U:3:67 R:0:68 R:1:66 R:2:68",
    ),
    // Files whose folders no line lists.
    (b"/a/b\n/c\n/d/e\n", b"d /d\n", "U:0:66"),
    (
        b"/a/b\n/c\n/d/e\n",
        b"d /a\nd /c\nd /d\n",
        "U:0:68 U:1:67 R:0:68",
    ),
    (
        b"/a/b\n/c\n/d/e\n",
        b"d /a\nf /a/b\nl /c x\nf /d\n",
        "U:0:68 U:1:68 U:2:66 R:0:68 R:1:68",
    ),
    // A link, an empty folder, and a file.
    (b"/opt/a -> x\n/opt/b/\n/srv/c\n", b"d /srv\n", "U:0:66"),
    (
        b"/opt/a -> x\n/opt/b/\n/srv/c\n",
        b"d /opt\nc /opt/b\nd /srv\n",
        "U:0:68 U:1:67 R:0:68",
    ),
    (
        b"/opt/a -> x\n/opt/b/\n/srv/c\n",
        b"d /opt\n",
        "U:0:68 U:1:68 U:2:66 R:0:69 R:1:68",
    ),
    // Two folders with files, and a file.
    (
        b"/srv\n/srv/x\n/srv/x/f\n/srv/y\n/srv/y/g\n/srv/z\n",
        b"f /srv\n",
        "U:0:67",
    ),
    (
        b"/srv\n/srv/x\n/srv/x/f\n/srv/y\n/srv/y/g\n/srv/z\n",
        b"d /srv\nf /srv/y\n",
        "U:0:68 U:1:68 U:2:68 U:3:67 R:0:68 R:1:69 R:2:66",
    ),
    (
        b"/srv\n/srv/x\n/srv/x/f\n/srv/y\n/srv/y/g\n/srv/z\n",
        b"d /srv\nd /srv/y\nf /srv/y/g\nd /srv/z\n",
        "U:0:68 U:1:68 U:2:68 U:3:68 U:4:68 U:5:67 R:0:68 R:1:66 R:2:68 R:3:69 R:4:66",
    ),
];

// The marks of a row, with the steps of a course.
fn put_marks(text: &mut Bytes, marks: &str, course: &Course) -> Result<(), Memory> {
    for byte in marks.as_bytes() {
        match *byte {
            b'U' => text.extend(course.3.as_bytes())?,
            b'R' => text.extend(course.4.as_bytes())?,
            other => text.push(other)?,
        }
    }
    Ok(())
}

// The text of the run: preinst makes a file, which stays; the tree is as it was.
fn put_run(text: &mut Bytes, row: &Row, course: &Course) -> Result<(), Memory> {
    text.extend(b"result ")?;
    text.extend(course.1.as_bytes())?;
    text.extend(b"\ntrace ")?;
    text.extend(course.2.as_bytes())?;
    text.extend(b":10:67 ")?;
    put_marks(text, row.2, course)?;
    text.extend(b"\ncall new ")?;
    text.extend(course.5.as_bytes())?;
    text.extend(b"\nafter\n")?;
    text.extend(row.1)?;
    text.extend(b"f /zz\n")
}

const RUN: &str = "run p --old o --scenario install --tree t";

// The text of the run of a row in a course.
fn run_text(alloc: Global, row: &Row, course: &Course) -> Result<Bytes, Memory> {
    let mut wanted = Bytes::new(alloc);
    put_run(&mut wanted, row, course)?;
    Ok(wanted)
}

// Whether the run of a row in a course has this text.
fn is_run(alloc: Global, row: &Row, course: &Course, wanted: &str) -> bool {
    let files: [File; 6] = [
        ("p/control", b"Version: 2\n"),
        ("p/list", row.0),
        ("p/preinst", b"#!/bin/sh\ntouch /zz\n"),
        ("o/control", b"Version: 1\n"),
        ("o/list", b"/.\n"),
        ("t", row.1),
    ];
    is_said(alloc, Sought::Answer, course.0, RUN, &files, &[], wanted)
}

// Whether the run of a row in a course has its text.
fn is_put_back(alloc: Global, row: &Row, course: &Course) -> bool {
    match run_text(alloc, row, course) {
        Ok(wanted) => is_run(
            alloc,
            row,
            course,
            str::from_utf8(wanted.as_slice()).unwrap_or(""),
        ),
        Err(_) => false,
    }
}

// Whether the runs of all rows in a course have their texts.
fn are_put_back(alloc: Global, course: &Course) -> bool {
    for row in ROWS {
        if !is_put_back(alloc, row, course) {
            return false;
        }
    }
    true
}

#[test]
fn runs_leave_the_tree_as_it_was(rt: HostRuntime) {
    for course in COURSES {
        assert!(rt; are_put_back(rt.alloc(), course), "{}", course.1);
    }
}

// The list of a package, how many outcomes it has in each course, whatever the tree is, and how many of them fail.
const CHECKS: &[(&[u8], usize, usize)] = &[
    (b"/.\n/srv\n/srv/a\n/srv/b\n", 5, 3),
    (b"/srv\n/srv/a\n/srv/a/f\n/srv/b\n", 8, 5),
    (b"/srv/x/\n/srv/y/\n/srv/z/\n", 13, 8),
    (b"/srv/x\n/srv/x/y\n/srv/x/y/z/\n", 9, 4),
    (b"/opt/a -> x\n/srv/b -> y\n/var/c -> z\n", 10, 3),
    (b"/srv/a\n/srv/b\n/srv/c\n", 6, 4),
    (b"/srv/a -> b\n/srv/d\n/srv/d/f\n/srv/e\n", 9, 5),
    (b"/a/b\n/c\n/d/e\n", 8, 5),
    (b"/opt/a -> x\n/opt/b/\n/srv/c\n", 11, 6),
    (
        b"/srv\n/srv/x\n/srv/x/f\n/srv/y\n/srv/y/g\n/srv/z\n",
        15,
        11,
    ),
];

const CHECK: &str = "check p --old o --base b";

// Whether a package has so many outcomes in each course, and so many of them fail, each back on the tree that it shows.
fn all_fail_back(alloc: Global, list: &'static [u8], all: usize, failed: usize) -> bool {
    let files: [File; 3] = [("p/list", list), ("o/list", b"/.\n"), ("b", b"")];
    for course in COURSES {
        if !fails_back(alloc, course.0, CHECK, &files, all, failed) {
            return false;
        }
    }
    true
}

#[test]
fn outcomes_leave_the_tree_as_it_was(rt: HostRuntime) {
    for row in CHECKS {
        assert!(rt;
            all_fail_back(rt.alloc(), row.0, row.1, row.2),
            "{:?}",
            row.0
        );
    }
}

// An upgrade in which the old postrm fails and then the new one: the new postrm, the list of the new package, the tree
// before, and the text of the run.
type Upgrade = (&'static [u8], &'static [u8], &'static [u8], &'static str);

const UPGRADES: &[Upgrade] = &[
    // All that was unpacked is put back.
    (
        b"#!/bin/sh\n[ \"$1\" = abort-upgrade ]\n",
        b"/srv/a\n/srv/d/\n/srv/d/f\n",
        b"d /srv\ns /srv/a\n",
        "result failed Installed
trace 4:0:68 4:1:68 4:2:68 14:0:68 14:1:69 14:2:68
call old postrm upgrade 2 failed
call new postrm failed-upgrade 1 2 failed
call new postrm abort-upgrade 1 2 ok
after
d /srv
s /srv/a
",
    ),
    // What a script took away since then comes back too.
    (
        b"#!/bin/sh\n[ \"$1\" = abort-upgrade ] && exit 0\nrm /srv/a\nexit 1\n",
        b"/srv/a\n",
        b"d /srv\nl /srv/a x\n",
        "result failed Installed
trace 4:0:68 6:45:68 14:0:68
call old postrm upgrade 2 failed
call new postrm failed-upgrade 1 2 failed
call new postrm abort-upgrade 1 2 ok
after
d /srv
l /srv/a x
",
    ),
    // A directory that a script put in the place of a link stays, and a folder into which it put a file.
    (
        b"#!/bin/sh\n[ \"$1\" = abort-upgrade ] && exit 0\ntouch /srv/d/f\nrm /srv/l\nmkdir /srv/l\nexit 1\n",
        b"/srv/d/\n/srv/l -> new\n",
        b"d /srv\nl /srv/l old\n",
        "result failed Installed
trace 4:0:68 4:1:68 6:45:67 6:60:68 6:70:68 14:0:67 14:1:68
call old postrm upgrade 2 failed
call new postrm failed-upgrade 1 2 failed
call new postrm abort-upgrade 1 2 ok
after
d /srv
d /srv/d
f /srv/d/f
d /srv/l
",
    ),
    // Nothing is put back into a directory that is there no more.
    (
        b"#!/bin/sh\n[ \"$1\" = abort-upgrade ] && exit 0\nrm -r /srv\nexit 1\n",
        b"/srv/a\n/srv/d/\n/srv/d/f\n",
        b"d /srv\nf /srv/a\n",
        "result failed Installed
trace 4:0:68 4:1:68 4:2:68 6:45:69 14:0:66 14:1:67 14:2:66
call old postrm upgrade 2 failed
call new postrm failed-upgrade 1 2 failed
call new postrm abort-upgrade 1 2 ok
after
",
    ),
    // A link on the way is not followed.
    (
        b"#!/bin/sh\n[ \"$1\" = abort-upgrade ] && exit 0\nrm -r /srv\nln -s x /srv\nexit 1\n",
        b"/srv/a\n/srv/b\n",
        b"d /srv\n",
        r"result incomplete link 14:0
trace 4:0:68 4:1:68 6:45:69 6:56:68 14:0:1
call old postrm upgrade 2 failed
call new postrm failed-upgrade 1 2 failed
after
l /srv x
",
    ),
];

// Where the old preinst fails in between, nothing is put back.
const KEPT: &[Upgrade] = &[(
    b"#!/bin/sh\n[ \"$1\" = abort-upgrade ]\n",
    b"/srv/a\n/srv/d/\n",
    b"d /srv\nl /srv/a x\n",
    "result failed Half-Installed
trace 4:0:68 4:1:68
call old postrm upgrade 2 failed
call new postrm failed-upgrade 1 2 failed
call old preinst abort-upgrade 2 failed
after
d /srv
f /srv/a
d /srv/d
",
)];

const FAILS: &[u8] = b"#!/bin/sh\nexit 1\n";

const PREINST_FAILS: &[File] = &[("o/preinst", FAILS)];

// Whether such an upgrade, also with these files, has the text of its row.
fn is_undone(alloc: Global, asked: Sought, row: &Upgrade, more: &[File]) -> bool {
    let files: [File; 7] = [
        ("p/control", b"Version: 2\n"),
        ("p/list", row.1),
        ("p/postrm", row.0),
        ("o/control", b"Version: 1\n"),
        ("o/list", b"/.\n"),
        ("o/postrm", FAILS),
        ("t", row.2),
    ];
    is_said(alloc, asked, Scenario::Upgrade, RUN, &files, more, row.3)
}

#[test]
fn upgrades_are_undone(rt: HostRuntime) {
    for row in UPGRADES {
        assert!(rt;
            is_undone(rt.alloc(), Sought::Answer, row, &[]),
            "{}",
            row.3
        );
        assert!(rt;
            is_undone(rt.alloc(), Sought::ByCopies, row, &[]),
            "{}",
            row.3
        );
    }
}

#[test]
fn nothing_is_put_back_where_preinst_fails(rt: HostRuntime) {
    for row in KEPT {
        assert!(rt;
            is_undone(rt.alloc(), Sought::Answer, row, PREINST_FAILS),
            "{}",
            row.3
        );
    }
}
