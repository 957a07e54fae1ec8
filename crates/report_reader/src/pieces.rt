// The pieces of a report, from their texts.
ghost use Rattle.std.specs.Prelude.{◌≡◌, [], map, IfOk};
ghost use Rattle.serde_json.specs.View.{view, items_view};
ghost use Rattle.feature_trees.specs.TreeLines.{tree_of};
ghost use Rattle.report_text.specs.PieceRead.{state_of, script_of, side_of, call_end_of};
ghost use Rattle.report_text.specs.PieceRead.{result_of_two, result_of_stop, result_of_words, result_of};
ghost use Rattle.report_text.specs.PieceRead.{marks_onto, trace_of, call_with, call_from, call_of_words, call_of};
ghost use Rattle.report_reader.specs.ReportRead.{tree_found, tree_at, calls_onto, calls_at, ending_at, trace_at};

use crate::members::{lines_at, list_at, text_at, text_of};
use dpkg_scenarios::{Ending, ScriptKind, Side, State};
use feature_trees::{TreeFault, Value as Tree, read_tree};
use scenario_runs::{CallEnd, ScriptCall};
use script_names::{List, Mark, Memory};
use serde_json::Value;
use shown_texts::{cut, read_mark, read_reason, read_shown, read_site};
use std::alloc::Global;

// The state with this name.
fn state_of(text: &[u8]) -> Option<State>
    ensures { result ≡ state_of text.now }
{
    if text == b"Installed".as_slice() {
        return Some(State::Installed);
    }
    if text == b"Unpacked".as_slice() {
        return Some(State::Unpacked);
    }
    if text == b"Half-Configured".as_slice() {
        return Some(State::HalfConfigured);
    }
    if text == b"Half-Installed".as_slice() {
        return Some(State::HalfInstalled);
    }
    if text == b"Config-Files".as_slice() {
        return Some(State::ConfigFiles);
    }
    if text == b"Not-Installed".as_slice() {
        return Some(State::NotInstalled);
    }
    None
}

// The script with this name.
fn script_of(text: &[u8]) -> Option<ScriptKind>
    ensures { result ≡ script_of text.now }
{
    if text == b"preinst".as_slice() {
        return Some(ScriptKind::Preinst);
    }
    if text == b"postinst".as_slice() {
        return Some(ScriptKind::Postinst);
    }
    if text == b"prerm".as_slice() {
        return Some(ScriptKind::Prerm);
    }
    if text == b"postrm".as_slice() {
        return Some(ScriptKind::Postrm);
    }
    None
}

// Whose script it is, of a word for that.
fn side_of(text: &[u8]) -> Option<Side>
    ensures { result ≡ side_of text.now }
{
    if text == b"old".as_slice() {
        return Some(Side::Old);
    }
    if text == b"new".as_slice() {
        return Some(Side::New);
    }
    None
}

// How a call ended, of a word for that.
fn call_end_of(text: &[u8]) -> Option<CallEnd>
    ensures { result ≡ call_end_of text.now }
{
    if text == b"ok".as_slice() {
        return Some(CallEnd::Ok);
    }
    if text == b"failed".as_slice() {
        return Some(CallEnd::Failed);
    }
    if text == b"ended".as_slice() {
        return Some(CallEnd::Ended);
    }
    None
}

// The ending of these two words.
fn ending_of_two(alloc: Global, word: &[u8], text: &[u8]) -> Result<Option<Ending>, Memory>
    ensures { IfOk result (λ found. found ≡ result_of_two word.now text.now) }
{
    if word == b"done".as_slice() {
        return match state_of(text) {
            Some(state) => Ok(Some(Ending::Done(state))),
            None => Ok(None),
        };
    }
    if word == b"failed".as_slice() {
        return match state_of(text) {
            Some(state) => Ok(Some(Ending::Failed(state))),
            None => Ok(None),
        };
    }
    match read_site(alloc, text)? {
        Some(site) => Ok(Some(Ending::Bound(site))),
        None => Ok(None),
    }
}

// The ending of a reason and a site that are written so.
fn ending_of_stop(alloc: Global, reason: &[u8], site: &[u8]) -> Result<Option<Ending>, Memory>
    ensures { IfOk result (λ found. found ≡ result_of_stop reason.now site.now) }
{
    let reason = match read_reason(reason) {
        Some(reason) => reason,
        None => return Ok(None),
    };
    match read_site(alloc, site)? {
        Some(site) => Ok(Some(Ending::Incomplete(reason, site))),
        None => Ok(None),
    }
}

// The ending of these words.
fn ending_of_words(alloc: Global, words: &[&[u8]]) -> Result<Option<Ending>, Memory>
    ensures { IfOk result (λ found. found ≡ result_of_words (map (λ word. word.now) words.now)) }
{
    match words {
        [] => Ok(None),
        [_] => Ok(None),
        [word, text] => ending_of_two(alloc, word, text),
        [_, reason, site] => ending_of_stop(alloc, reason, site),
        [_, _, _, _, ..] => Ok(None),
    }
}

// The ending at a key.
pub(crate) fn ending_at(alloc: Global, value: &Value, key: &str) -> Result<Option<Ending>, Memory>
    ensures { IfOk result (λ found. found ≡ ending_at key.now (view value.now)) }
{
    let text = match text_at(value, key) {
        Some(text) => text,
        None => return Ok(None),
    };
    let words = cut(alloc, text, b' ')?;
    ending_of_words(alloc, words.as_slice())
}

// The marks that are written so.
fn marks_of(alloc: Global, texts: &[&[u8]]) -> Result<Option<List<Mark>>, Memory>
    ensures { IfOk result (λ found. found ≡ marks_onto [] (map (λ text. text.now) texts.now)) }
{
    let mut marks = List::new(alloc);
    for text in texts {
        match read_mark(alloc, text)? {
            Some(mark) => marks.add(mark)?,
            None => return Ok(None),
        }
    }
    Ok(Some(marks))
}

// The marks of a text that has them with a space between each two.
fn trace_of(alloc: Global, text: &[u8]) -> Result<Option<List<Mark>>, Memory>
    ensures { IfOk result (λ found. found ≡ trace_of text.now) }
{
    if text.is_empty() {
        return Ok(Some(List::new(alloc)));
    }
    let texts = cut(alloc, text, b' ')?;
    marks_of(alloc, texts.as_slice())
}

// The trace at a key.
pub(crate) fn trace_at(
    alloc: Global,
    value: &Value,
    key: &str,
) -> Result<Option<List<Mark>>, Memory>
    ensures { IfOk result (λ found. found ≡ trace_at key.now (view value.now)) }
{
    match text_at(value, key) {
        Some(text) => trace_of(alloc, text),
        None => Ok(None),
    }
}

// The call with these words, of which the last says how it ended.
fn call_with(
    alloc: Global,
    side: Side,
    script: ScriptKind,
    texts: &[&[u8]],
) -> Result<Option<ScriptCall>, Memory>
    ensures { IfOk result
        (λ found. found ≡ call_with side script [] (map (λ text. text.now) texts.now)) }
{
    let mut words = List::new(alloc);
    let mut left = texts;
    while let [text, rest @ ..] = left {
        if left.len() < 2 {
            return match call_end_of(text) {
                Some(how) => Ok(Some(ScriptCall {
                    side,
                    script,
                    words,
                    how,
                })),
                None => Ok(None),
            };
        }
        match read_shown(alloc, text)? {
            Some(word) => words.add(word)?,
            None => return Ok(None),
        }
        left = rest;
    }
    Ok(None)
}

// The call of words for its side and its script, and of further ones.
fn call_from(
    alloc: Global,
    side: &[u8],
    script: &[u8],
    texts: &[&[u8]],
) -> Result<Option<ScriptCall>, Memory>
    ensures { IfOk result
        (λ found. found ≡ call_from side.now script.now (map (λ text. text.now) texts.now)) }
{
    let side = match side_of(side) {
        Some(side) => side,
        None => return Ok(None),
    };
    match script_of(script) {
        Some(script) => call_with(alloc, side, script, texts),
        None => Ok(None),
    }
}

// The call of these words.
fn call_of_words(alloc: Global, words: &[&[u8]]) -> Result<Option<ScriptCall>, Memory>
    ensures { IfOk result (λ found. found ≡ call_of_words (map (λ word. word.now) words.now)) }
{
    match words {
        [] => Ok(None),
        [_] => Ok(None),
        [_, _] => Ok(None),
        [_, side, script, texts @ ..] => call_from(alloc, side, script, texts),
    }
}

// The call of a line.
fn call_of(alloc: Global, text: &[u8]) -> Result<Option<ScriptCall>, Memory>
    ensures { IfOk result (λ found. found ≡ call_of text.now) }
{
    let words = cut(alloc, text, b' ')?;
    call_of_words(alloc, words.as_slice())
}

// The calls of lines.
fn calls_of(alloc: Global, list: &[Value]) -> Result<Option<List<ScriptCall>>, Memory>
    ensures { IfOk result (λ found. found ≡ calls_onto [] (items_view list.now)) }
{
    let mut calls = List::new(alloc);
    for value in list {
        let text = match text_of(value) {
            Some(text) => text,
            None => return Ok(None),
        };
        match call_of(alloc, text)? {
            Some(call) => calls.add(call)?,
            None => return Ok(None),
        }
    }
    Ok(Some(calls))
}

// The calls of the lines at a key.
pub(crate) fn calls_at(
    alloc: Global,
    value: &Value,
    key: &str,
) -> Result<Option<List<ScriptCall>>, Memory>
    ensures { IfOk result (λ found. found ≡ calls_at key.now (view value.now)) }
{
    match list_at(value, key) {
        Some(list) => calls_of(alloc, list),
        None => Ok(None),
    }
}

// The tree of a text.
fn tree_of(alloc: Global, text: &[u8]) -> Result<Option<Tree>, Memory>
    ensures { IfOk result (λ found. found ≡ tree_found (tree_of text.now)) }
{
    match read_tree(alloc, text) {
        Ok(tree) => Ok(Some(tree)),
        Err(TreeFault::Line { line: _, why: _ }) => Ok(None),
        Err(TreeFault::Memory) => Err(Memory),
    }
}

// The tree of the lines at a key.
pub(crate) fn tree_at(alloc: Global, value: &Value, key: &str) -> Result<Option<Tree>, Memory>
    ensures { IfOk result (λ found. found ≡ tree_at key.now (view value.now)) }
{
    match lines_at(alloc, value, key)? {
        Some(text) => tree_of(alloc, text.as_slice()),
        None => Ok(None),
    }
}
