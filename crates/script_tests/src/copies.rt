//! A script in which each form of command and of part stands, copied and compared.

use crate::readings::read;
use crate::scripts::script_page;
use script_names::{Boxed, Bytes, Copied, List, Memory};
use shell_syntax::{Command, Form, Key, Redirect, Script, Word};
use std::alloc::Global;
use std::test::Fail;

// Each form of command, of part, of key and of redirection; the last command comes behind it.
const FORMS: &[u8] = b"#!/bin/sh -e
name=value plain 'quoted' \"${name:-default}\" $1 $# \"$@\" $(run) >/dev/null 2>/dev/null </dev/null >&2 2>&1
! part | part
first && next || next
if cond; then body; else last; fi
if cond; then body; fi
for name do body; done
for name in item; do body; done
until cond; do body; done
while cond; do body; done
case subject in *) body;; esac
name() { (body); }
";

const LAST: &[u8] = b"last\n";

// The same one byte further.
const LATER: &[u8] = b" last\n";

// The text with this end.
fn text(alloc: Global, end: &[u8]) -> Result<Bytes, Memory> {
    let mut text = Bytes::from_slice(alloc, FORMS)?;
    text.extend(end)?;
    Ok(text)
}

// The script of the text with this end.
fn script(alloc: Global, end: &[u8]) -> Result<Boxed<Script>, Fail> {
    let text = text(alloc, end)?;
    let script = read(alloc, text.as_slice())?;
    Ok(script)
}

// A copy of the script, behind a pointer.
fn copy(alloc: Global, script: &Script) -> Result<Boxed<Script>, Memory> {
    let twin = script.copy(alloc)?;
    Boxed::new(alloc, twin)
}

// Whether two scripts are shown alike, offsets included.
fn are_alike(alloc: Global, script: &Script, other: &Script) -> bool {
    let page = script_page(alloc, script);
    let more = script_page(alloc, other);
    page.whole && more.whole && page.text.equal(&more.text)
}

// Whether a copy of a script is another one.
fn is_copy(alloc: Global, script: &Script, other: &Script) -> Result<bool, Memory> {
    let twin = copy(alloc, script)?;
    Ok(are_alike(alloc, twin.get(), other))
}

// Whether a copy of the script is the script of the text with this end.
fn copy_is(alloc: Global, here: &Script, end: &[u8]) -> Result<bool, Fail> {
    let other = script(alloc, end)?;
    let is = is_copy(alloc, here, other.get())?;
    Ok(is)
}

// Whether a copy of the script with the one end is the script with the other one.
fn copy_of_is(alloc: Global, here: &[u8], end: &[u8]) -> Result<bool, Fail> {
    let whole = script(alloc, here)?;
    copy_is(alloc, whole.get(), end)
}

// Whether there is a first item, and it can be copied.
fn is_copied<T: Copied>(alloc: Global, items: &List<T>) -> bool {
    match items.get(0) {
        None => false,
        Some(item) => item.copy(alloc).is_ok(),
    }
}

// Whether the first word and its first part can be copied.
fn are_words_copied(alloc: Global, words: &List<Word>) -> bool {
    match words.get(0) {
        None => false,
        Some(word) => is_copied(alloc, &word.parts) && is_copied(alloc, words),
    }
}

// Whether the first assignment and the first word of a simple command can be copied.
fn is_simple_copied(alloc: Global, command: &Command) -> bool {
    match command {
        Command::Simple { assigns, words, .. } => {
            is_copied(alloc, assigns) && are_words_copied(alloc, words)
        }
        _ => false,
    }
}

// Whether the first of what a command has in a list can be copied.
fn is_list_copied(alloc: Global, command: &Command) -> bool {
    match command {
        Command::Redirected {
            body,
            redirects,
            ..
        } => is_copied(alloc, redirects) && is_simple_copied(alloc, body.get()),
        Command::Chain { rest, .. } => is_copied(alloc, rest),
        Command::If { arms, .. } => is_copied(alloc, arms),
        Command::Case { arms, .. } => is_copied(alloc, arms),
        _ => false,
    }
}

// Whether this holds of the command at a place of the script.
fn is_member_copied(alloc: Global, script: &Script, place: usize) -> bool {
    match &script.body {
        Command::Seq(members) => match members.get(place) {
            None => false,
            Some(member) => is_list_copied(alloc, member),
        },
        _ => false,
    }
}

// Whether what stands in the list of the command at a place can be copied.
fn is_place_copied(alloc: Global, place: usize) -> Result<bool, Fail> {
    let whole = script(alloc, LAST)?;
    Ok(is_member_copied(alloc, whole.get(), place))
}

// The ends of two scripts, and whether a copy of the first is the second.
const COPIES: &[(&[u8], &[u8], bool)] = &[(LAST, LAST, true), (LAST, LATER, false)];

#[test]
fn each_form_is_copied_and_compared(rt: HostRuntime) -> Result<(), Fail> {
    for (here, end, is) in COPIES {
        assert!(rt; copy_of_is(rt.alloc(), here, end)? == *is, "{is}");
    }
    Ok(())
}

// The places of commands, and whether what stands in their lists can be copied: the command at place 1 has none.
const PLACES: &[(usize, bool)] = &[(0, true), (1, false), (2, true), (3, true), (9, true)];

// Whether a copy of each value without a list is the value.
fn are_small_ones_copied(alloc: Global) -> Result<bool, Memory> {
    let form = Form::CallOrder.copy(alloc)?;
    let redirect = Redirect::ErrToOut.copy(alloc)?;
    let key = Key::Arg(3).copy(alloc)?;
    Ok(form == Form::CallOrder && redirect == Redirect::ErrToOut && matches!(key, Key::Arg(3)))
}

#[test]
fn each_type_is_copied(rt: HostRuntime) -> Result<(), Fail> {
    for (place, is) in PLACES {
        assert!(rt; is_place_copied(rt.alloc(), *place)? == *is, "{place}");
    }
    assert!(rt; are_small_ones_copied(rt.alloc())?);
    Ok(())
}
