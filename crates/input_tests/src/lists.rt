//! The files of packages by hand, a row for each: a text, and the line at fault with its why, or none.

use package_lists::{Entry, EntryKind, LineFault, read_conffiles, read_control, read_list};
use std::alloc::Global;
use std::test::Fail;

const LISTS: &[(&[u8], u64, u8)] = &[
    (b"", 0, 0),
    (b"/.", 0, 0),
    (b"/.\n/.\n/a\n", 0, 0),
    (b"/a", 0, 0),
    (b"/.\n/etc\n/etc/a b\n/etc/c/\n/l -> /etc/c\n", 0, 0),
    (b"/a -> x -> y\n", 0, 0),
    (b"/a/b\n/a\n", 0, 0),
    (b"/a -> x\n/ab\n", 0, 0),
    (b"\n", 1, 1),
    (b"/.\n\n", 2, 1),
    (b"a", 1, 1),
    (b"/", 1, 1),
    (b"//", 1, 1),
    (b"/a//", 1, 1),
    (b"/a//b", 1, 1),
    (b"/a/./b", 1, 1),
    (b"/a/..", 1, 1),
    (b"/a\0", 1, 1),
    (b"/a -> ", 1, 1),
    (b"/a -> x\0", 1, 1),
    (b"/a/ -> x", 1, 1),
    (b"/. -> x", 1, 1),
    (b" -> x", 1, 1),
    (b"/a\n/b\n/c\nd", 4, 1),
    (b"/a\n/a\n", 2, 2),
    (b"/a\n/a/\n", 2, 2),
    (b"/a/\n/b\n/a -> x", 3, 2),
    (b"/a -> x\n/a -> x\n", 2, 2),
    (b"/a -> x\n/a/b", 2, 3),
    (b"/a -> x\n/b\n/a/b/c", 3, 3),
    (b"/a/b\n/a -> x", 2, 3),
    (b"/a/b/c\n/a -> x\nx", 2, 3),
    (b"/a\n/a\nx", 2, 2),
    (b"x\n/a\n/a", 1, 1),
];

// The same for configuration files, over the list of `CONF_LIST`.
const CONF_LIST: &[u8] = b"/.\n/etc\n/etc/a\n/etc/b c\n/etc/l -> a\n/etc/d/\n";

const CONFS: &[(&[u8], u64, u8)] = &[
    (b"", 0, 0),
    (b"/etc/a\n/etc/b c\n", 0, 0),
    (b"/etc/b c", 0, 0),
    (b"\n", 1, 1),
    (b"/etc/a\n\n", 2, 1),
    (b"etc/a", 1, 1),
    (b"/etc/a/", 1, 1),
    (b"/.", 1, 1),
    (b"a b", 1, 1),
    (b"a/b c", 1, 1),
    (b"/etc/a\n/etc/a\n", 2, 2),
    (b"/etc/x\n/etc/x\n", 1, 3),
    (b"/etc\n", 1, 3),
    (b"/etc/d\n", 1, 3),
    (b"/etc/l\n", 1, 3),
    (b"/etc /a\n", 1, 3),
    (b"/etc/a\n/x", 2, 3),
    (b"remove-on-upgrade /etc/a", 1, 4),
    (b"x /", 1, 4),
    (b" /", 1, 4),
    (b"/etc/a\nx y /z", 2, 4),
];

// The same for control files.
const CONTROLS: &[(&[u8], u64, u8)] = &[
    (b"Version:\n", 1, 1),
    (b"Version: \t \n", 1, 1),
    (b"Package: a\nVersion: 1 2\n", 2, 1),
    (b"Version: 1\r\n", 1, 1),
    (b"Version: 1_2", 1, 1),
    (b"Version: 1/2", 1, 1),
    (b"Version: 1@\n", 1, 1),
    (b"A: b\nC: d\nVersion: [", 3, 1),
];

// Versions.
const VERSIONS: &[(&[u8], &[u8])] = &[
    (b"", b"0"),
    (b"Package: a\n", b"0"),
    (b"version: 2\n Version: 3\n", b"0"),
    (b"Version: 1\n", b"1"),
    (b"Version:1:2.3-4+b5~c", b"1:2.3-4+b5~c"),
    (b"A: b\nVersion:\t 1.0 \t\nVersion: /\n", b"1.0"),
    (b"Version: azAZ09", b"azAZ09"),
];

// The line at fault and its why; none is 0 and 0, want of memory 0 and 9.
pub fn place(fault: LineFault) -> (u64, u8) {
    match fault {
        LineFault::Line { line, why } => (line, why),
        LineFault::Memory => (0, 9),
    }
}

fn list_fault(alloc: Global, text: &[u8]) -> (u64, u8) {
    match read_list(alloc, text) {
        Ok(_) => (0, 0),
        Err(fault) => place(fault),
    }
}

fn conf_fault(alloc: Global, text: &[u8]) -> (u64, u8) {
    let mut entries = match read_list(alloc, CONF_LIST) {
        Ok(entries) => entries,
        Err(fault) => return place(fault),
    };
    match read_conffiles(alloc, text, &mut entries) {
        Ok(()) => (0, 0),
        Err(fault) => place(fault),
    }
}

fn control_fault(alloc: Global, text: &[u8]) -> (u64, u8) {
    match read_control(alloc, text) {
        Ok(_) => (0, 0),
        Err(fault) => place(fault),
    }
}

#[test]
fn lists_have_faults(rt: HostRuntime) -> Result<(), Fail> {
    for row in LISTS {
        assert_eq!(rt;
            list_fault(rt.alloc(), row.0),
            (row.1, row.2),
            "{:?}",
            row.0
        );
    }
    Ok(())
}

#[test]
fn conffiles_have_faults(rt: HostRuntime) -> Result<(), Fail> {
    for row in CONFS {
        assert_eq!(rt;
            conf_fault(rt.alloc(), row.0),
            (row.1, row.2),
            "{:?}",
            row.0
        );
    }
    Ok(())
}

#[test]
fn controls_have_faults(rt: HostRuntime) -> Result<(), Fail> {
    for row in CONTROLS {
        assert_eq!(rt;
            control_fault(rt.alloc(), row.0),
            (row.1, row.2),
            "{:?}",
            row.0
        );
    }
    Ok(())
}

#[test]
fn versions_are_read(rt: HostRuntime) -> Result<(), Fail> {
    for row in VERSIONS {
        match read_control(rt.alloc(), row.0) {
            Ok(version) => assert_eq!(rt; version.as_slice(), row.1),
            Err(fault) => assert_eq!(rt; place(fault), (0, 0)),
        }
    }
    Ok(())
}
