use script_names::Memory;
use script_places::{CallLeft, unreached};
use std::alloc::Global;
use std::test::Fail;

const SECTION: &[u8] = b"#!/bin/sh\nset -e\nif [ -x /a ]; then\n  b\nfi\nexit 0\n";

const JOINED: &[u8] = b"#!/bin/sh\ncp a \\\n  b\nc\n";

const CHOICE: &[u8] = b"#!/bin/sh\ncase $1 in\na) b;;\nesac\nc\n";

const LOOP: &[u8] = b"#!/bin/sh\nfor i in a; do cp a b; done\nc\nd\n";

const JOINED_LOOP: &[u8] = b"#!/bin/sh\nfor i in a; do cp a b; do\\\nne\nc\nd\n";

const FUNCTION: &[u8] = b"#!/bin/sh\nf ( ) { cp a b; }\nc\nf\nd\n";

// A script, how its calls ended, and the lines that no run reaches: from one to another, or 0 and 0.
const REACHED: &[(&[u8], &[CallLeft], usize, usize)] = &[
    (SECTION, &[CallLeft::EndedAt(20)], 4, 6),
    (
        SECTION,
        &[CallLeft::EndedAt(20), CallLeft::EndedAt(38)],
        5,
        6,
    ),
    (
        SECTION,
        &[CallLeft::EndedAt(38), CallLeft::EndedAt(20)],
        5,
        6,
    ),
    (SECTION, &[CallLeft::EndedAt(44)], 0, 0),
    (SECTION, &[CallLeft::Through], 0, 0),
    (SECTION, &[CallLeft::EndedAt(20), CallLeft::Through], 0, 0),
    (SECTION, &[], 0, 0),
    (JOINED, &[CallLeft::EndedAt(10)], 4, 4),
    (CHOICE, &[CallLeft::EndedAt(10)], 0, 0),
    (CHOICE, &[CallLeft::EndedAt(24)], 4, 5),
    (LOOP, &[CallLeft::EndedAt(28)], 0, 0),
    (JOINED_LOOP, &[CallLeft::EndedAt(28)], 0, 0),
    (FUNCTION, &[CallLeft::EndedAt(18)], 0, 0),
];

// Whether these are the lines that no run reaches.
fn is_reached(alloc: Global, row: &(&[u8], &[CallLeft], usize, usize)) -> Result<bool, Memory> {
    match unreached(alloc, row.0, row.1)? {
        Some(lines) => Ok(lines.first == row.2 && lines.last == row.3),
        None => Ok(row.2 == 0),
    }
}

#[test]
fn lines_below_each_end_are_not_reached(rt: HostRuntime) -> Result<(), Fail> {
    for row in REACHED {
        assert!(rt; is_reached(rt.alloc(), row)?, "{row:?}");
    }
    Ok(())
}
