//! Compound commands of one kind within one another: 64 are read, printed and read again; the 65th is too deep.

use super::show::Page;
use super::{is_read_again, is_shown, shown};
use std::alloc::Global;
use std::test::Fail;

// What a level begins and ends with in a text, what it begins and ends with in a tree without offsets, and what 65
// levels are read as. A definition's level is its brace.
type Level = (
    &'static str,
    &'static str,
    &'static str,
    &'static str,
    &'static str,
);

const ROWS: &[Level] = &[
    ("( ", " )", " (sub", ")", "deep 138"),
    (
        "if ",
        "; then b; fi",
        " (if (arm",
        " (simple (w \"b\"))))",
        "deep 202",
    ),
    (
        "while ",
        "; do b; done",
        " (while",
        " (simple (w \"b\")))",
        "deep 394",
    ),
    (
        "until ",
        "; do b; done",
        " (until",
        " (simple (w \"b\")))",
        "deep 394",
    ),
    ("for x do ", "; done", " (for x", ")", "deep 586"),
    (
        "case b in c) ",
        ";; esac",
        " (case (w \"b\") (arm (w \"c\")",
        "))",
        "deep 842",
    ),
    ("f() { ", "; }", " (define f", ")", "deep 398"),
];

fn put_times(page: &mut Page, piece: &str, times: u32) {
    for _ in 0..times {
        page.put(piece.as_bytes());
    }
}

// A first piece, and the inner one between so many beginnings and ends.
fn nested(alloc: Global, first: &str, inner: &str, level: (&str, &str), levels: u32) -> Page {
    let mut page = Page::new(alloc);
    page.put(first.as_bytes());
    put_times(&mut page, level.0, levels);
    page.put(inner.as_bytes());
    put_times(&mut page, level.1, levels);
    page
}

// Whether a text is read as 64 levels of a tree.
fn is_tree(alloc: Global, text: &[u8], in_tree: (&str, &str)) -> bool {
    let wanted = nested(alloc, "", " (simple (w \"a\"))", in_tree, 64);
    is_shown(alloc, &wanted, text)
}

// Whether 64 levels of a text are read as 64 levels of a tree, and printed and read again.
fn are_read(alloc: Global, level: (&str, &str), in_tree: (&str, &str)) -> Result<bool, Fail> {
    let text = nested(alloc, "#!/bin/sh\n", "a", level, 64);
    let again = is_read_again(alloc, text.text.as_slice())?;
    Ok(again && text.whole && is_tree(alloc, text.text.as_slice(), in_tree))
}

// Whether a text is read as the answer.
fn is_answered(alloc: Global, text: &[u8], answer: &str) -> bool {
    let got = shown(alloc, text, true);
    got.whole && got.text.as_slice() == answer.as_bytes()
}

// Whether 65 levels of a text are read as the answer.
fn are_answered(alloc: Global, level: (&str, &str), answer: &str) -> bool {
    let text = nested(alloc, "#!/bin/sh\n", "a", level, 65);
    text.whole && is_answered(alloc, text.text.as_slice(), answer)
}

// Whether both hold of a row.
fn holds(alloc: Global, row: &Level) -> Result<bool, Fail> {
    let read = are_read(alloc, (row.0, row.1), (row.2, row.3))?;
    Ok(read && are_answered(alloc, (row.0, row.1), row.4))
}

#[test]
fn nests_have_64_levels(rt: HostRuntime) -> Result<(), Fail> {
    for row in ROWS {
        assert!(rt; holds(rt.alloc(), row)?, "{}", row.0);
    }
    Ok(())
}
