//! Names that can be stated, and stated calls.

use script_names::{Copied, Memory, Path};
use std::alloc::Global;
use std::test::Fail;
use utility_calls::{CallEnd, StatedCalls, StatedFault, can_be_stated};

// Names that can be stated.
const NAMES: &[&[u8]] = &[
    b"dpkg",
    b"command",
    b"which",
    b"umask",
    b".",
    b"/usr/sbin/update-rc.d",
    b"cdx",
    b"reads",
    b"ex",
    b"lo",
    b"CD",
];

// Names that can't: of no bytes or with a blank or NUL, those that have a meaning, and those of utilities that change
// the shell itself.
const NO_NAMES: &[&[u8]] = &[
    b"",
    b"a b",
    b"a\tb",
    b"a\0b",
    b"true",
    b":",
    b"false",
    b"echo",
    b"mkdir",
    b"[",
    b"break",
    b"exit",
    b"return",
    b"set",
    b"export",
    b"unset",
    b"cd",
    b"shift",
    b"exec",
    b"eval",
    b"local",
    b"read",
    b"trap",
    b"readonly",
    b"getopts",
];

// Why a call with this name is not added to no calls.
fn fault(alloc: Global, name: &[u8]) -> Option<StatedFault> {
    let mut calls = StatedCalls::new(alloc);
    match calls.add(alloc, name, CallEnd::Fails) {
        Ok(()) => None,
        Err(fault) => Some(fault),
    }
}

#[test]
fn names_can_be_stated(rt: HostRuntime) {
    for name in NAMES {
        assert!(rt; can_be_stated(name));
        assert!(rt; fault(rt.alloc(), name) == None);
    }
    for name in NO_NAMES {
        assert!(rt; !can_be_stated(name));
        assert!(rt; fault(rt.alloc(), name) == Some(StatedFault::NoName));
    }
}

// Three calls: one that succeeds, one that asks a path, and one that fails.
fn some_calls(alloc: Global) -> Result<StatedCalls, Fail> {
    let mut calls = StatedCalls::new(alloc);
    let asked = CallEnd::Asks(Path::read(alloc, b"/run/systemd/system")?);
    calls.add(alloc, b"chown", CallEnd::Succeeds)?;
    calls.add(alloc, b"booted", asked)?;
    calls.add(alloc, b"dpkg", CallEnd::Fails)?;
    Ok(calls)
}

// How the call of a name ends: `ok`, `fails` or the names of the path that it asks; nothing where none is stated.
fn shown<'a>(calls: &'a StatedCalls, name: &[u8]) -> &'a [u8] {
    match calls.find(name) {
        None => b"",
        Some(call) => match &call.end {
            CallEnd::Succeeds => b"ok",
            CallEnd::Fails => b"fails",
            CallEnd::Asks(path) => match path.last() {
                None => b"/",
                Some(last) => last.as_slice(),
            },
        },
    }
}

// Names, and how their calls end.
const ENDS: &[(&[u8], &[u8])] = &[
    (b"chown", b"ok"),
    (b"booted", b"system"),
    (b"dpkg", b"fails"),
    (b"dpk", b""),
    (b"", b""),
];

// Whether the call of a name ends so, among the three calls and their copies.
fn ends(alloc: Global, row: &(&[u8], &[u8])) -> Result<bool, Fail> {
    let calls = some_calls(alloc)?;
    let copies = calls.copy(alloc)?;
    Ok(shown(&calls, row.0) == row.1 && shown(&copies, row.0) == row.1)
}

// Whether another call of a name that is stated is refused, and the calls are as before.
fn stays(alloc: Global, row: &(&[u8], &[u8])) -> Result<bool, Fail> {
    let mut calls = some_calls(alloc)?;
    let again = calls.add(alloc, row.0, CallEnd::Succeeds);
    Ok(
        again == Err(StatedFault::Before)
            && shown(&calls, row.0) == row.1
            && calls.as_slice().len() == 3,
    )
}

#[test]
fn calls_are_found_by_their_names(rt: HostRuntime) -> Result<(), Fail> {
    for row in ENDS {
        assert!(rt; ends(rt.alloc(), row)?);
        assert!(rt; row.1.is_empty() || stays(rt.alloc(), row)?);
    }
    Ok(())
}
