// A row has the words of a line, with "" for an empty one, and behind an arrow the request that they spell, or the
// number of the word at which they stop to be one. A request is shown by a copy of it.
use command_words::{Folders, Layout, Request, View, WordsFault, read_words};
use dpkg_scenarios::{Scenario, scenario_name};
use script_names::{Copied, List, Memory, Text};
use std::alloc::{AllocError, Global};
use std::process::Abort;
use std::test::Fail;

// The words of a row.
fn words_of(alloc: Global, row: &str) -> Result<List<Text>, Memory> {
    let mut words = List::new(alloc);
    for shown in row.split(' ') {
        if !shown.is_empty() {
            let word = if shown == "\"\"" { "" } else { shown };
            let text = Text::from_text(alloc, word)?;
            words.add(text)?;
        }
    }
    Ok(words)
}

// A word as a row has it.
fn shown_word(word: &str) -> &str {
    if word.is_empty() { "\"\"" } else { word }
}

fn layout_name(layout: Layout) -> &'static str {
    match layout {
        Layout::Plain => "plain",
        Layout::Brief => "brief",
        Layout::Json => "json",
    }
}

fn put_view(alloc: Global, text: &mut String, view: View) -> Result<(), AllocError> {
    match view {
        View::Text => text.push_str("plain"),
        View::Places => text.push_str("places"),
        View::Html => text.push_str("html"),
        View::Outcome { number } => {
            let outcome = format!(in alloc; "outcome={number}")?;
            text.push_str(outcome.as_str())
        }
    }
}

fn put_option(text: &mut String, name: &str, value: &Option<Text>) -> Result<(), AllocError> {
    match value {
        None => Ok(()),
        Some(value) => {
            text.push_str(name)?;
            text.push_str(shown_word(value.as_str()))
        }
    }
}

fn put_folders(text: &mut String, folders: &Folders) -> Result<(), AllocError> {
    put_option(text, " old=", &folders.old)?;
    put_option(text, " base=", &folders.base)
}

fn put_scenario(text: &mut String, scenario: Option<Scenario>) -> Result<(), AllocError> {
    match scenario {
        None => Ok(()),
        Some(scenario) => {
            text.push_str(" scenario=")?;
            text.push_str(scenario_name(scenario))
        }
    }
}

// A check: the folder, the turns, the limit, the layout, and what else was said. A load: the number and the limit.
fn shown_request(alloc: Global, request: &Request) -> Result<String, AllocError> {
    match request {
        Request::Check {
            folders,
            scenario,
            turns,
            limit,
            layout,
        } => {
            let dir = shown_word(folders.dir.as_str());
            let layout = layout_name(*layout);
            let mut text = format!(in alloc; "check {dir} {turns} {limit} {layout}")?;
            put_folders(&mut text, folders)?;
            put_scenario(&mut text, *scenario)?;
            Ok(text)
        }
        Request::Run {
            folders,
            tree,
            scenario,
            turns,
        } => {
            let dir = shown_word(folders.dir.as_str());
            let tree = shown_word(tree.as_str());
            let scenario = scenario_name(*scenario);
            let mut text = format!(in alloc; "run {dir} {scenario} {tree} {turns}")?;
            put_folders(&mut text, folders)?;
            Ok(text)
        }
        Request::Translate { file } => {
            let file = shown_word(file.as_str());
            format!(in alloc; "translate {file}")
        }
        Request::Load { number, limit } => format!(in alloc; "load {number} {limit}"),
        Request::Predict { report, trees } => {
            let report = shown_word(report.as_str());
            let trees = shown_word(trees.as_str());
            format!(in alloc; "predict {report} {trees}")
        }
        Request::Explain {
            folders,
            scenario,
            turns,
            limit,
            view,
        } => {
            let dir = shown_word(folders.dir.as_str());
            let mut text = format!(in alloc; "explain {dir} {turns} {limit} ")?;
            put_view(alloc, &mut text, *view)?;
            put_folders(&mut text, folders)?;
            put_scenario(&mut text, *scenario)?;
            Ok(text)
        }
        Request::Pair {
            dir,
            other,
            base,
            scenario,
            turns,
            limit,
        } => {
            let dir = shown_word(dir.as_str());
            let other = shown_word(other.as_str());
            let scenario = scenario_name(*scenario);
            let mut text = format!(in alloc; "pair {dir} {other} {scenario} {turns} {limit}")?;
            put_option(&mut text, " base=", base)?;
            Ok(text)
        }
        Request::Twice {
            dir,
            base,
            turns,
            limit,
        } => {
            let dir = shown_word(dir.as_str());
            let mut text = format!(in alloc; "twice {dir} {turns} {limit}")?;
            put_option(&mut text, " base=", base)?;
            Ok(text)
        }
    }
}

// A copy of a request, shown.
fn shown_copy(alloc: Global, request: &Request) -> Result<String, AllocError> {
    match request.copy(alloc) {
        Ok(copy) => shown_request(alloc, &copy),
        Err(Memory) => String::from_str(alloc, "memory"),
    }
}

// An answer, by a copy of its request.
fn shown(alloc: Global, answer: &Result<Request, WordsFault>) -> Result<String, AllocError> {
    match answer {
        Ok(request) => shown_copy(alloc, request),
        Err(WordsFault::Usage { word }) => format!(in alloc; "usage {word}"),
        Err(WordsFault::Memory) => String::from_str(alloc, "memory"),
    }
}

fn check_row<R: Abort + AllocGlobal>(rt: &R, row: &str) -> Result<(), Fail> {
    let alloc = rt.alloc();
    let (line, wanted) = row.split_once("-> ").unwrap_or(("", ""));
    let words = words_of(alloc, line)?;
    let answer = read_words(alloc, &words);
    let found = shown(alloc, &answer)?;
    assert!(rt; found.as_str() == wanted, "{row}: {found}");
    Ok(())
}

/// Each row's line is answered as the row says, and there are so many rows.
pub(crate) fn check_rows<R: Abort + AllocGlobal>(
    rt: &R,
    rows: &str,
    count: usize,
) -> Result<(), Fail> {
    let mut found = 0usize;
    for row in rows.lines() {
        if !row.is_empty() {
            check_row(rt, row)?;
            found = found.saturating_add(1);
        }
    }
    assert_eq!(rt; found, count);
    Ok(())
}
