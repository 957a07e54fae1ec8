//! Scripts of runs/rows.rt and runs/premised.rt, run as step 3 of an installation, `postinst configure` with an empty
//! word.

mod answers;
mod premised;
mod programs;
mod rows;
mod states;
mod written;
mod wrong;

use crate::pages::{Page, spelled};
use crate::programs::translated;
use answers::answer;
use colis_syntax::Program;
use premised::{ASKED, COMPUTED, FURTHER, LINKS, RUNS, STATED, VERSIONS};
use rows::{CALLS, CASES_AND_FUNCTIONS, LOOPS, REDIRECTED, SPECIAL, STATUS, WORDS, WORKED};
use script_names::Slot;
use std::alloc::Global;

// Whether bytes are what a row says: `%` is a newline.
fn are_said(found: &[u8], said: &[u8]) -> bool {
    if found.len() != said.len() {
        return false;
    }
    for (byte, other) in found.iter().zip(said) {
        let wanted = if *other == b'%' { b'\n' } else { *other };
        if *byte != wanted {
            return false;
        }
    }
    true
}

// Whether what was found is what a row says.
fn is_said(found: &Page, said: &str) -> bool {
    found.whole && are_said(found.text.as_slice(), said.as_bytes())
}

// The program of a script as a row has it.
fn script_program(alloc: Global, script: &str) -> Slot<Program> {
    let script = spelled(alloc, "#!/bin/sh\n", script, b'%', b'\\');
    if !script.whole {
        return Slot::empty(alloc);
    }
    translated(alloc, script.text.as_slice())
}

// Whether a program comes to what a row says.
fn comes_to(
    alloc: Global,
    premises: &str,
    turns: u32,
    tree: &str,
    program: &Program,
    said: &str,
) -> bool {
    let found = answer(alloc, premises, turns, tree, program);
    is_said(&found, said)
}

// Whether a script comes to what a row says.
fn script_comes_to(
    alloc: Global,
    premises: &str,
    turns: u32,
    tree: &str,
    script: &str,
    said: &str,
) -> bool {
    let found = script_program(alloc, script);
    match found.get() {
        Some(program) => comes_to(alloc, premises, turns, tree, program, said),
        None => false,
    }
}

// Whether a script comes to what its row says.
fn holds(alloc: Global, premises: &str, head: &str, script: &str, said: &str) -> bool {
    let (turns, tree) = head.split_once(" ").unwrap_or(("", ""));
    match turns.parse::<u32>() {
        Ok(turns) => script_comes_to(alloc, premises, turns, tree, script, said),
        Err(_) => false,
    }
}

// How many rows of a table hold, up to the first that does not. Where it has premises, each row begins with them.
fn count_held(alloc: Global, table: &str, has_premises: bool) -> u32 {
    let mut lines = table.lines();
    for count in 0..1000u32 {
        let first = match lines.next() {
            Some(first) => first,
            None => return count,
        };
        let (premises, head) = if has_premises {
            (first, lines.next().unwrap_or(""))
        } else {
            ("", first)
        };
        let script = lines.next().unwrap_or("");
        let said = lines.next().unwrap_or("");
        if !holds(alloc, premises, head, script, said) {
            return count;
        }
    }
    1000
}

// The tables, each with whether its rows have premises, and how many they are.
const TABLES: &[(&str, bool, u32)] = &[
    (WORKED, false, 7),
    (STATUS, false, 28),
    (REDIRECTED, false, 29),
    (WORDS, false, 30),
    (LOOPS, false, 18),
    (CASES_AND_FUNCTIONS, false, 20),
    (CALLS, false, 33),
    (SPECIAL, false, 8),
    (COMPUTED, true, 18),
    (STATED, true, 36),
    (FURTHER, true, 29),
    (ASKED, true, 14),
    (VERSIONS, true, 36),
    (RUNS, true, 9),
    (LINKS, true, 18),
];

#[test]
fn scripts_come_to_what_their_rows_say(rt: HostRuntime) {
    for (table, has_premises, count) in TABLES {
        let held = count_held(rt.alloc(), table, *has_premises);
        assert!(rt;
            held == *count,
            "row {held}, from 0 on, of {count}: {table:.60}"
        );
    }
}
