//! Lists of some 20,000 members are read whole: the outermost list of the tree has as many as that of the text.

use super::show::Page;
use crate::readings::read;
use shell_syntax::Command;
use std::alloc::Global;
use std::test::Fail;

// What stands before the members, one member, what stands behind them, and how many the list then has.
type Long = (&'static str, &'static str, &'static str, usize);

const ROWS: &[Long] = &[
    ("", "a\n", "", 20_000),
    ("a", "|\nb", "\n", 20_001),
    ("a", "&&b", "\n", 20_000),
    ("if a; then b; ", "elif a; then b; ", "fi\n", 20_001),
    ("case a in ", "b) c;; ", "esac\n", 20_000),
    ("case a in a", "|b", ") c; esac\n", 1),
    ("a", " b", "\n", 20_001),
];

// How many members the outermost list has.
fn members(command: &Command) -> usize {
    match command {
        Command::Seq(commands) => commands.len(),
        Command::Pipe { parts, .. } => parts.len(),
        Command::Chain { rest, .. } => rest.len(),
        Command::If { arms, .. } => arms.len(),
        Command::Case { arms, .. } => arms.len(),
        Command::Simple { words, .. } => words.len(),
        _ => 0,
    }
}

fn members_read(alloc: Global, text: &[u8]) -> usize {
    match read(alloc, text) {
        Ok(script) => members(&script.get().body),
        Err(_) => 0,
    }
}

// Puts the text of a row on a page.
fn put_row(page: &mut Page, row: &Long) {
    page.put(b"#!/bin/sh\n");
    page.put(row.0.as_bytes());
    for _ in 0..20_000 {
        page.put(row.1.as_bytes());
    }
    page.put(row.2.as_bytes());
}

// How many members the outermost list of a row's script has.
fn row_members(alloc: Global, row: &Long) -> usize {
    let mut page = Page::new(alloc);
    put_row(&mut page, row);
    members_read(alloc, page.text.as_slice())
}

#[test]
fn long_lists_are_read(rt: HostRuntime) -> Result<(), Fail> {
    for row in ROWS {
        let count = row_members(rt.alloc(), row);
        assert!(rt; count == row.3, "{}: {count}", row.1);
    }
    Ok(())
}
