//! The premises of a run, by lines as a base has them: `call NAME ok`, `call NAME fails`, `call NAME asks PATH`,
//! `link PATH TARGET`, `runs` and `versions`.

use link_walks::KnownLink;
use script_names::{Common, List, Memory, Path};
use shell_rules::Premises;
use std::alloc::Global;
use utility_calls::{CallEnd, StatedCalls};

// The path of a word; an error where it is none, whatever the reason.
fn path_in(alloc: Global, word: &str) -> Result<Path, Memory> {
    match Path::read(alloc, word.as_bytes()) {
        Ok(path) => Ok(path),
        Err(_) => Err(Memory),
    }
}

// How the calls of a line end; an error where the line does not say so.
fn end_in(alloc: Global, words: &str) -> Result<CallEnd, Memory> {
    if words == "ok" {
        return Ok(CallEnd::Succeeds);
    }
    if words == "fails" {
        return Ok(CallEnd::Fails);
    }
    let path = path_in(alloc, words.strip_prefix("asks ").unwrap_or(""))?;
    Ok(CallEnd::Asks(path))
}

// A stated call, by the words behind `call `.
fn add_call(alloc: Global, calls: &mut StatedCalls, words: &str) -> Result<(), Memory> {
    let (name, end) = words.split_once(" ").unwrap_or(("", ""));
    let end = end_in(alloc, end)?;
    match calls.add(alloc, name.as_bytes(), end) {
        Ok(()) => Ok(()),
        Err(_) => Err(Memory),
    }
}

// A known link, by the words behind `link `.
fn add_link(alloc: Global, links: &mut List<KnownLink>, words: &str) -> Result<(), Memory> {
    let (at, target) = words.split_once(" ").unwrap_or(("", ""));
    let at = path_in(alloc, at)?;
    match KnownLink::new(alloc, at, target.as_bytes())? {
        Some(link) => links.add(link),
        None => Err(Memory),
    }
}

// What a line of two words or more says.
fn add_words(alloc: Global, premises: &mut Premises, line: &str) -> Result<(), Memory> {
    match line.strip_prefix("call ") {
        Some(words) => add_call(alloc, &mut premises.calls, words),
        None => add_link(
            alloc,
            &mut premises.links,
            line.strip_prefix("link ").unwrap_or(""),
        ),
    }
}

// What a line says.
fn add_line(alloc: Global, premises: &mut Premises, line: &str) -> Result<(), Memory> {
    if line == "runs" {
        premises.runs = true;
        return Ok(());
    }
    if line == "versions" {
        premises.versions = true;
        return Ok(());
    }
    add_words(alloc, premises, line)
}

/// The premises that these lines state, of which each ends with `%`; an error where a line states none.
pub(crate) fn premises_in(alloc: Global, text: &str) -> Result<Common<Premises>, Memory> {
    let mut premises = Premises::none(alloc);
    for line in text.split("%") {
        if !line.is_empty() {
            add_line(alloc, &mut premises, line)?;
        }
    }
    Common::new(alloc, premises)
}
