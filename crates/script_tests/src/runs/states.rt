//! Programs of written.rt, read from their text, and run from a given state, trace and tree, in step 3. Those of its
//! last table are run under premises.

use super::answers::{empty_state, put_all};
use super::is_said;
use super::written::{PREMISED, TABLES};
use crate::pages::{Page, program_text};
use crate::premises::premises_in;
use crate::programs::program_in;
use colis_syntax::Program;
use script_names::{Bytes, Common, List, Mark, Site};
use shell_rules::{Conc, Premises, Trace};
use shell_words::Env;
use shown_texts::read_shown;
use std::alloc::Global;

// The mark of an earlier act.
const EARLIER: Mark = Mark {
    site: Site { step: 2, at: 0 },
    row: 68,
};

// Bytes as a row spells them.
fn unshown(alloc: Global, text: &str) -> Option<Bytes> {
    match read_shown(alloc, text.as_bytes()) {
        Ok(found) => found,
        Err(_) => None,
    }
}

// What is captured so far.
fn capture(alloc: Global, page: &mut Page, text: &str, conc: &mut Conc) {
    conc.captured = unshown(alloc, text);
    if conc.captured.is_none() {
        page.whole = false;
    }
}

// A variable with its value.
fn set_variable(alloc: Global, page: &mut Page, name: &str, value: &str, vars: &mut Env) {
    match unshown(alloc, value) {
        Some(value) => {
            let done = vars.set(name.as_bytes(), value);
            page.note(done);
        }
        None => page.whole = false,
    }
}

// An argument.
fn add_argument(alloc: Global, page: &mut Page, word: &str, args: &mut List<Bytes>) {
    match unshown(alloc, word) {
        Some(word) => {
            let done = args.add(word);
            page.note(done);
        }
        None => page.whole = false,
    }
}

// A word of a state: what is captured so far behind `>`, a variable with its value, or an argument.
fn take_word(alloc: Global, page: &mut Page, word: &str, conc: &mut Conc) {
    match word.strip_prefix(">") {
        Some(text) => capture(alloc, page, text, conc),
        None => match word.split_once("=") {
            Some((name, value)) => set_variable(alloc, page, name, value, &mut conc.vars),
            None => add_argument(alloc, page, word, &mut conc.args),
        },
    }
}

// The words of a state behind its strict flag, its status and its turns.
fn take_words(alloc: Global, page: &mut Page, state: &str, conc: &mut Conc) {
    for word in state.split(" ").skip(3) {
        take_word(alloc, page, word, conc);
    }
}

// The turns of a state.
fn turns_of(page: &mut Page, word: &str) -> u32 {
    match word.parse::<u32>() {
        Ok(turns) => turns,
        Err(_) => {
            page.whole = false;
            0
        }
    }
}

// A state as a row has it, without its words: the strict flag, the status, and the turns.
fn state_of(alloc: Global, page: &mut Page, premises: Common<Premises>, state: &str) -> Conc {
    let mut words = state.split(" ");
    let strict = words.next() == Some("strict");
    let status = words.next() == Some("success");
    let turns = turns_of(page, words.next().unwrap_or(""));
    empty_state(alloc, premises, strict, status, turns)
}

// The trace of an earlier act.
fn put_earlier(page: &mut Page, trace: &mut Trace) {
    let done = trace.add(EARLIER);
    page.note(done);
}

// What a program comes to: the end, the trace, the state, and the tree after.
fn whole_answer(
    alloc: Global,
    premises: Common<Premises>,
    state: &str,
    tree: &str,
    program: &Program,
) -> Page {
    let mut page = Page::new(alloc);
    let mut conc = state_of(alloc, &mut page, premises, state);
    let mut trace = List::new(alloc);
    take_words(alloc, &mut page, state, &mut conc);
    put_earlier(&mut page, &mut trace);
    put_all(alloc, &mut page, tree, program, &mut conc, &mut trace, true);
    page
}

// What a program comes to under the premises of its row.
fn premised_answer(
    alloc: Global,
    premises: &str,
    state: &str,
    tree: &str,
    program: &Program,
) -> Page {
    match premises_in(alloc, premises) {
        Ok(premises) => whole_answer(alloc, premises, state, tree, program),
        Err(_) => Page::lost(alloc),
    }
}

// Whether a program comes to what its row says.
fn comes_to(alloc: Global, premises: &str, before: &str, program: &Program, said: &str) -> bool {
    match before.split_once(" | ") {
        Some((state, tree)) => is_said(
            &premised_answer(alloc, premises, state, tree, program),
            said,
        ),
        None => false,
    }
}

// Whether the program of a text comes to what its row says.
fn text_comes_to(alloc: Global, premises: &str, before: &str, text: &str, said: &str) -> bool {
    let text = program_text(alloc, "(program lax ", text);
    let found = program_in(alloc, text.text.as_slice());
    match found.get() {
        Some(program) => comes_to(alloc, premises, before, program, said),
        None => false,
    }
}

// Whether a program comes to what its row says, by the row's three lines.
fn holds(alloc: Global, premises: &str, row: &str) -> bool {
    let (before, rest) = row.split_once("\n").unwrap_or(("", ""));
    match rest.split_once("\n") {
        Some((text, said)) => text_comes_to(alloc, premises, before, text, said),
        None => false,
    }
}

// The same, by the row's premises and its three lines.
fn premised_holds(alloc: Global, row: &str) -> bool {
    match row.split_once("\n") {
        Some((premises, rest)) => holds(alloc, premises, rest),
        None => false,
    }
}

#[test]
fn programs_come_to_what_their_rows_say(rt: HostRuntime) {
    for table in TABLES {
        for row in table.split("\n\n") {
            assert!(rt; holds(rt.alloc(), "", row), "{row}");
        }
    }
    for row in PREMISED.split("\n\n") {
        assert!(rt; premised_holds(rt.alloc(), row), "{row}");
    }
}
