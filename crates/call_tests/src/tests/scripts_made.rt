//! Scripts that are made of parts.

use checker_io::MemShelf;
use script_names::{Bytes, Memory};
use std::alloc::Global;

// How a script is made.
#[derive(Clone, Copy)]
pub enum Script {
    // Of these texts, one behind the other.
    Joined(&'static [u8], &'static [u8]),
    // Of these texts, one behind the other, the first bytes, so many.
    Cut(&'static [u8], &'static [u8], usize),
    // Behind `#!/bin/sh`, of these pieces: the first, the second and the last so often, with the third between.
    Repeated(&'static [&'static [u8]; 4], usize),
    // Of this text and so much of a comment that it has so many bytes.
    Commented(&'static [u8], usize),
    // Of a question of a path for each of these letters.
    Questions(&'static [u8]),
    // Of these lines, and of questions that have 10,000 outcomes.
    Many(&'static [u8]),
}

// The first two lines of a script that is strict.
pub const STRICT: &[u8] = b"#!/bin/sh\nset -e\n";

// Adds a word so often.
fn add_times(text: &mut Bytes, word: &[u8], times: usize) -> Result<(), Memory> {
    for _ in 0..times {
        text.extend(word)?;
    }
    Ok(())
}

fn add_both(script: &mut Bytes, first: &[u8], second: &[u8]) -> Result<(), Memory> {
    script.extend(first)?;
    script.extend(second)
}

fn add_with_times(
    script: &mut Bytes,
    first: &[u8],
    word: &[u8],
    times: usize,
) -> Result<(), Memory> {
    script.extend(first)?;
    add_times(script, word, times)
}

fn add_pieces(script: &mut Bytes, pieces: &[&[u8]; 4], times: usize) -> Result<(), Memory> {
    script.extend(b"#!/bin/sh\n")?;
    add_with_times(script, pieces[0], pieces[1], times)?;
    add_with_times(script, pieces[2], pieces[3], times)?;
    script.push(b'\n')
}

// Adds each letter between these texts.
fn add_letters(
    script: &mut Bytes,
    first: &[u8],
    letters: &[u8],
    last: &[u8],
) -> Result<(), Memory> {
    for letter in letters {
        script.extend(first)?;
        add_both(script, &[*letter], last)?;
    }
    Ok(())
}

// So many questions in a row, which have 2^(count + 1) - 1 outcomes, since a link ends each.
fn add_questions(script: &mut Bytes, letters: &[u8]) -> Result<(), Memory> {
    add_letters(script, b"[ -e /srv/t", letters, b" ] || :\n")
}

// A branching that begins with a question of this letter, and these further questions where the answer is yes.
fn add_branch(script: &mut Bytes, row: &(&[u8], &[u8])) -> Result<(), Memory> {
    add_letters(script, b"if [ -e /srv/q", row.0, b" ]; then\n")?;
    add_questions(script, row.1)?;
    script.extend(b"else\n")
}

const BRANCHES: &[(&[u8], &[u8])] = &[
    (b"a", b"abcdefghijk"),
    (b"b", b"abcdefgh"),
    (b"c", b"abcdefg"),
    (b"d", b"abcdef"),
];

// The branchings, one in the other, and two questions in the last.
fn add_branches(script: &mut Bytes) -> Result<(), Memory> {
    for row in BRANCHES {
        add_branch(script, row)?;
    }
    add_questions(script, b"ab")?;
    script.extend(b"fi\nfi\nfi\nfi\n")
}

// 10,000 outcomes behind these lines: two of `mkdir -p`, a link and a file; and behind its success, for each of the
// two answers of `rmdir`, 4,999: of a question one, for a link, and those of both branches.
fn add_many(script: &mut Bytes, before: &[u8]) -> Result<(), Memory> {
    add_both(script, STRICT, before)?;
    script.extend(b"mkdir -p /srv/q\nrmdir /srv/q || :\n")?;
    add_branches(script)
}

fn add_script(text: &mut Bytes, script: &Script) -> Result<(), Memory> {
    match script {
        Script::Joined(first, second) => add_both(text, first, second),
        Script::Cut(first, second, count) => {
            add_both(text, first, second)?;
            text.truncate(*count);
            Ok(())
        }
        Script::Repeated(pieces, times) => add_pieces(text, pieces, *times),
        Script::Commented(first, count) => {
            add_with_times(text, first, b"a", count.saturating_sub(first.len()))
        }
        Script::Questions(letters) => {
            text.extend(b"#!/bin/sh\n")?;
            add_letters(text, b"if [ -e /srv/", letters, b" ]; then :; fi\n")
        }
        Script::Many(before) => add_many(text, before),
    }
}

// Puts the script on a shelf under a name.
pub fn put_made(
    shelf: &mut MemShelf,
    alloc: Global,
    name: &str,
    script: &Script,
) -> Result<(), Memory> {
    let mut text = Bytes::new(alloc);
    add_script(&mut text, script)?;
    shelf.put(name, text.as_slice())
}
