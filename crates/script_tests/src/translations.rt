//! Scripts of translations/rows.rt, read, accepted, translated and printed.

mod rows;

use crate::pages::{program_text, spelled};
use crate::programs::{prints, translated};
use rows::TABLES;
use std::alloc::Global;

// Whether a script becomes the program of a row.
fn becomes(alloc: Global, script: &[u8], answer: &str) -> bool {
    let found = translated(alloc, script);
    let wanted = program_text(alloc, "(program ", answer);
    prints(alloc, found.get(), &wanted)
}

// Whether a row's script becomes the program that the row says.
fn holds(alloc: Global, first: &str, row: &str) -> bool {
    match row.split_once(" -> ") {
        None => false,
        Some((text, answer)) => {
            let script = spelled(alloc, first, text, b'N', b'B');
            script.whole && becomes(alloc, script.text.as_slice(), answer)
        }
    }
}

#[test]
fn scripts_become_programs(rt: HostRuntime) {
    for (first, table) in TABLES {
        for row in table.lines() {
            assert!(rt; holds(rt.alloc(), first, row), "{row}");
        }
    }
}
