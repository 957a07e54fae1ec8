use script_names::{Bytes, Memory};
use script_places::first_words;
use std::alloc::Global;
use std::test::Fail;

// A script, and its words with which commands can begin.
const SCRIPTS: &[(&[u8], &[u8])] = &[
    (
        b"#!/bin/sh\nset -e\n# a\nif b -q; then c x; else d; fi\n",
        b"set\nb\nc\nd",
    ),
    (b"A=b B=\"c d\" e f\n", b"e"),
    (b"2>/dev/null >&2 a b\n", b"a"),
    (
        b"> /dev/null a b 2>&1 && c >/dev/null || { d; } >&2\n",
        b"a\nc\nd",
    ),
    (b"a \"$(b \"$x\") c\" d | ! e\n", b"a\nb\nd\ne"),
    (
        b"case $1 in\na|b) c;;\n(d)e\nesac\nf\n",
        b"case\na\nb\nc\nd\ne\nf",
    ),
    (
        b"a() { b; }\nwhile c x; do d; done; until e; do :; done",
        b"a\nb\nc\nd\ne\n:",
    ),
    (
        b"if a; then b; elif c; then d; fi >&2 | e\n",
        b"a\nb\nc\nd\ne",
    ),
    (b"a && \\\n  b \\\n  c # d\n", b"a\nb"),
    (b"a b\\\nc # d\n", b"a\nc # d"),
    (b"'a' \"b c\"d; e\\f 'g; h'\n", b"'a'\ne\\f"),
    (b"x=$(a) b\n", b"a\nb"),
    (b"for x in a b; do c $x; done\n", b"for\nc"),
    (b"a;b|c&(d)\ne\n", b"a\nb\nc\nd\ne"),
    (b"a#b # c; d\n", b"a#b"),
    (b"", b""),
];

// A text in which one newline stands in place of several, and none at its begin and its end.
fn squeezed(alloc: Global, text: &[u8]) -> Result<Bytes, Memory> {
    let mut lines = Bytes::new(alloc);
    let mut parted = false;
    for byte in text {
        if *byte == b'\n' {
            parted = lines.len() != 0;
        } else {
            if parted {
                lines.push(b'\n')?;
                parted = false;
            }
            lines.push(*byte)?;
        }
    }
    Ok(lines)
}

// Whether a script has these words.
fn has_words(alloc: Global, row: &(&[u8], &[u8])) -> Result<bool, Memory> {
    let words = first_words(alloc, row.0)?;
    let lines = squeezed(alloc, words.as_slice())?;
    Ok(words.len() == row.0.len() && lines.as_slice() == row.1)
}

#[test]
fn commands_begin_with_words(rt: HostRuntime) -> Result<(), Fail> {
    for row in SCRIPTS {
        assert!(rt; has_words(rt.alloc(), row)?, "{row:?}");
    }
    Ok(())
}
