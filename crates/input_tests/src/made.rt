//! Made packages, by what their only script is printed as.

use checker_input::Package;
use load_maker::load;
use script_names::Memory;
use shell_syntax::print_script;
use std::alloc::Global;
use std::test::Fail;

// The beginning of each script.
const BEGINNING: &[u8] = b"#!/bin/sh\n set -e\n mkdir -p /srv/k001";

// The number, the length of the text that its script is printed as, and the end of that text.
const MADE: &[(u16, usize, &[u8])] = &[
    (1, 37, b"\n set -e\n mkdir -p /srv/k001"),
    (2, 57, b"\n mkdir -p /srv/k001\n mkdir -p /srv/k002"),
    (10, 217, b"\n mkdir -p /srv/k009\n mkdir -p /srv/k010"),
    (100, 2_017, b"\n mkdir -p /srv/k099\n mkdir -p /srv/k100"),
    (321, 6_437, b"\n mkdir -p /srv/k320\n mkdir -p /srv/k321"),
    (500, 10_017, b"\n mkdir -p /srv/k499\n mkdir -p /srv/k500"),
];

// Whether the package has version 0, no entries and one script, a postinst of that length with that end.
fn is_made(alloc: Global, package: &Package, length: usize, end: &[u8]) -> Result<bool, Memory> {
    let scripts = &package.scripts;
    match scripts.postinst.get() {
        None => Ok(false),
        Some(script) => {
            let text = print_script(alloc, script.script())?;
            let text = text.as_slice();
            let whole = text.len() == length && text.starts_with(BEGINNING) && text.ends_with(end);
            let alone = scripts.preinst.is_none() && scripts.prerm.is_none();
            let plain = scripts.postrm.is_none() && package.entries.len() == 0;
            Ok(whole && alone && plain && package.version.as_slice() == b"0".as_slice())
        }
    }
}

// Whether the package of the number is so.
fn holds(alloc: Global, row: &(u16, usize, &[u8])) -> Result<bool, Memory> {
    if row.0 < 1 || row.0 > 500 {
        return Ok(false);
    }
    let package = load(alloc, row.0)?;
    is_made(alloc, &package, row.1, row.2)
}

#[test]
fn packages_are_made(rt: HostRuntime) -> Result<(), Fail> {
    for row in MADE {
        assert!(rt; holds(rt.alloc(), row)?, "{}", row.0);
    }
    Ok(())
}
