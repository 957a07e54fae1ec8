//! Texts with their trees or faults by hand (scripts/rows.rt), in the form of scripts/show.rt: `strict ` where the
//! first line has `-e`, and the tree of the body; else `lex`, `syntax` or `deep`, and the offset.

mod beginnings;
mod long_lists;
mod nests;
mod rows;
mod show;

use crate::readings::{ReadFault, printed, read};
use rows::TABLES;
use shell_grammar::ParseFault;
use shell_syntax::Script;
use show::{Page, show_command};
use std::alloc::Global;
use std::test::Fail;

fn show_place(page: &mut Page, word: &str, at: u32) {
    page.put(word.as_bytes());
    page.number(at);
}

fn show_fault(page: &mut Page, fault: ReadFault) {
    match fault {
        ReadFault::Cut(_) => page.put(b"lex"),
        ReadFault::Tokens(ParseFault::Syntax { at }) => show_place(page, "syntax", at),
        ReadFault::Tokens(ParseFault::Deep { at }) => show_place(page, "deep", at),
        ReadFault::Tokens(ParseFault::Memory) | ReadFault::Memory => page.whole = false,
    }
}

fn show_script(page: &mut Page, script: &Script) {
    if script.strict {
        page.put(b"strict");
    }
    show_command(page, &script.body);
}

// A script, with its offsets.
pub(crate) fn script_page(alloc: Global, script: &Script) -> Page {
    let mut page = Page::new(alloc);
    show_script(&mut page, script);
    page
}

fn show_text(alloc: Global, page: &mut Page, text: &[u8]) {
    match read(alloc, text) {
        Ok(script) => show_script(page, script.get()),
        Err(fault) => show_fault(page, fault),
    }
}

// What a text is read as, with the offsets of its tree or without.
fn shown(alloc: Global, text: &[u8], with_offsets: bool) -> Page {
    let mut page = Page::new(alloc);
    page.with_offsets = with_offsets;
    show_text(alloc, &mut page, text);
    page
}

// A text as a row has it: `N` for a newline, `T` for a tab, `B` for a backslash; without its first line where that is
// `#!/bin/sh`.
fn spelled(alloc: Global, text: &str) -> Page {
    let mut page = Page::new(alloc);
    if !text.starts_with("#!") {
        page.put(b"#!/bin/sh\n");
    }
    for byte in text.as_bytes() {
        page.byte(match *byte {
            b'N' => b'\n',
            b'T' => b'\t',
            b'B' => b'\\',
            other => other,
        });
    }
    page
}

// Whether what was read is a form, but for a blank before it.
fn is_form(read: &[u8], form: &[u8]) -> bool {
    match read {
        [b' ', tree @ ..] => tree == form,
        read => read == form,
    }
}

// Whether a text is read as a form.
fn is_read_as(alloc: Global, text: &[u8], form: &str) -> bool {
    let page = shown(alloc, text, true);
    page.whole && is_form(page.text.as_slice(), form.as_bytes())
}

// Whether a row's text is read as the row says.
fn holds(alloc: Global, row: &str) -> bool {
    match row.split_once(" -> ") {
        Some((text, form)) => {
            let text = spelled(alloc, text);
            text.whole && is_read_as(alloc, text.text.as_slice(), form)
        }
        None => false,
    }
}

// Whether a page is whole, and a text is read as what stands on it, but for the offsets.
fn is_shown(alloc: Global, page: &Page, text: &[u8]) -> bool {
    let other = shown(alloc, text, false);
    page.whole && other.whole && page.text.equal(&other.text)
}

// Whether two texts are read as the same script, but for its offsets.
fn are_same(alloc: Global, text: &[u8], other: &[u8]) -> bool {
    let page = shown(alloc, text, false);
    is_shown(alloc, &page, other)
}

// Whether a text's script is printed as a text that is read as the same script but for its offsets.
fn is_read_again(alloc: Global, text: &[u8]) -> Result<bool, Fail> {
    let again = printed(alloc, text)?;
    Ok(are_same(alloc, text, again.as_slice()))
}

// Whether a spelled text is whole, and its script is printed and read again.
fn is_whole_and_again(alloc: Global, text: &str) -> Result<bool, Fail> {
    let text = spelled(alloc, text);
    let is_read = is_read_again(alloc, text.text.as_slice())?;
    Ok(text.whole && is_read)
}

// Whether a row's script, if it has one, is printed and read again.
fn holds_printed(alloc: Global, row: &str) -> Result<bool, Fail> {
    match row.split_once(" -> ") {
        Some((text, form)) => {
            if form.starts_with("syntax ") || form.starts_with("deep ") {
                return Ok(true);
            }
            is_whole_and_again(alloc, text)
        }
        None => Ok(false),
    }
}

#[test]
fn texts_have_their_trees_or_faults(rt: HostRuntime) -> Result<(), Fail> {
    for table in TABLES {
        for row in table.lines() {
            assert!(rt; holds(rt.alloc(), row), "{row}");
        }
    }
    Ok(())
}

#[test]
fn printed_scripts_have_the_same_trees(rt: HostRuntime) -> Result<(), Fail> {
    for table in TABLES {
        for row in table.lines() {
            assert!(rt; holds_printed(rt.alloc(), row)?, "{row}");
        }
    }
    Ok(())
}
