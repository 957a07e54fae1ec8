//! Clauses by hand. In a row `|` is a newline, `~` a blank, `^` a tab and `%` a carriage return, so that each is seen.

mod rows;

use feature_trees::{Value, read_tree};
use rows::{DECIDED, OLDER, REFUSED, WHOLE};
use script_names::{Bytes, Memory};
use std::alloc::Global;
use tree_clauses::{Clause, ClauseFault, meets, print_clause, read_clause};

// The byte that stands for this one in a row.
fn byte_of(sign: u8) -> u8 {
    match sign {
        b'|' => b'\n',
        b'~' => b' ',
        b'^' => b'\t',
        b'%' => b'\r',
        _ => sign,
    }
}

// The text of a row, behind what it begins with.
fn text_of(alloc: Global, begin: &[u8], row: &str) -> Result<Bytes, Memory> {
    let mut text = Bytes::from_slice(alloc, begin)?;
    for sign in row.as_bytes() {
        text.push(byte_of(*sign))?;
    }
    Ok(text)
}

// Whether the text is that of a clause, which prints as it.
fn is_whole(alloc: Global, row: &str) -> Result<bool, Memory> {
    let text = text_of(alloc, b"", row)?;
    match read_clause(alloc, text.as_slice()) {
        Ok(clause) => {
            let again = print_clause(alloc, &clause)?;
            Ok(again.as_slice() == text.as_slice())
        }
        Err(ClauseFault::Bad) => Ok(false),
        Err(ClauseFault::Memory) => Err(Memory),
    }
}

// Whether the text is refused.
fn is_refused(alloc: Global, row: &str) -> Result<bool, Memory> {
    let text = text_of(alloc, b"", row)?;
    match read_clause(alloc, text.as_slice()) {
        Ok(_) => Ok(false),
        Err(ClauseFault::Bad) => Ok(true),
        Err(ClauseFault::Memory) => Err(Memory),
    }
}

#[test]
fn reads_what_is_printed(rt: HostRuntime) {
    for row in WHOLE.lines() {
        assert!(rt; matches!(is_whole(rt.alloc(), row), Ok(true)));
    }
}

// Whether a row's first text is read as the clause of its second.
fn is_older(alloc: Global, row: &str) -> Result<bool, Memory> {
    let (older, printed) = row.split_once(" -> ").unwrap_or(("", ""));
    let text = text_of(alloc, b"", older)?;
    let wanted = text_of(alloc, b"", printed)?;
    match read_clause(alloc, text.as_slice()) {
        Ok(clause) => {
            let again = print_clause(alloc, &clause)?;
            Ok(again.as_slice() == wanted.as_slice())
        }
        Err(ClauseFault::Bad) => Ok(false),
        Err(ClauseFault::Memory) => Err(Memory),
    }
}

#[test]
fn reads_the_word_for_the_four(rt: HostRuntime) {
    for row in OLDER.lines() {
        assert!(rt; matches!(is_older(rt.alloc(), row), Ok(true)), "{row}");
    }
}

#[test]
fn refuses_other_texts(rt: HostRuntime) {
    for row in REFUSED.lines() {
        let (text, _why) = row.split_once(" ## ").unwrap_or(("", "no text"));
        assert!(rt; matches!(is_refused(rt.alloc(), text), Ok(true)));
    }
}

// The clause of a row.
fn clause_of(alloc: Global, row: &str) -> Result<Clause, Memory> {
    let text = text_of(alloc, b"clause start ", row)?;
    match read_clause(alloc, text.as_slice()) {
        Ok(clause) => Ok(clause),
        Err(_) => Err(Memory),
    }
}

// The tree of a row.
fn tree_of(alloc: Global, row: &str) -> Result<Value, Memory> {
    let text = text_of(alloc, b"", row)?;
    match read_tree(alloc, text.as_slice()) {
        Ok(tree) => Ok(tree),
        Err(_) => Err(Memory),
    }
}

// The word for an answer.
fn word_of(found: Option<bool>) -> &'static str {
    match found {
        None => "unsolved",
        Some(true) => "covered",
        Some(false) => "apart",
    }
}

// Whether a row's clause and tree have the row's answer.
fn is_decided(alloc: Global, row: &str) -> Result<bool, Memory> {
    let (answer, rest) = row.split_once(" ").unwrap_or(("", ""));
    let (clause, tree) = rest.split_once(" on ").unwrap_or(("", ""));
    let clause = clause_of(alloc, clause)?;
    let tree = tree_of(alloc, tree)?;
    Ok(word_of(meets(alloc, &clause, &tree)?) == answer)
}

#[test]
fn decides_clauses_on_trees(rt: HostRuntime) {
    for row in DECIDED.lines() {
        assert!(rt; matches!(is_decided(rt.alloc(), row), Ok(true)));
    }
}
