//! What a program comes to on a tree, as text, in step 3.

ghost use Rattle.std.specs.Prelude.{◌≡◌};
ghost use Rattle.feature_trees.specs.declared.kind.Kind.TheVariants.{Dir};
ghost use Rattle.feature_trees.specs.Tree.{kind_of};

use crate::pages::{Page, spelled};
use crate::premises::premises_in;
use colis_interp::run;
use colis_syntax::Program;
use feature_trees::{Value, print_tree, read_tree};
use script_names::{Bytes, Common, List, Mark, Memory, Reason, Site};
use shell_rules::{Conc, End, Premises, Trace};
use shell_words::Env;
use shown_texts::{push_mark, push_number, push_reason, push_shown, push_site};
use std::alloc::Global;

// The variables that a row tells.
const NAMES: [&str; 4] = ["i", "x", "y", "z"];

// The place of a command or a loop.
fn put_site(page: &mut Page, site: Site) {
    let done = push_site(&mut page.text, site);
    page.note(done);
    page.byte(b'\n');
}

// The reason and the place of a command.
fn put_stop(page: &mut Page, reason: Reason, site: Site) {
    let done = push_reason(&mut page.text, reason);
    page.note(done);
    page.byte(b' ');
    put_site(page, site);
}

// How a run ended.
fn put_end(page: &mut Page, end: End) {
    match end {
        End::Status(true) => page.put(b"end success\n"),
        End::Status(false) => page.put(b"end failure\n"),
        End::Stopped(reason, site) => {
            page.put(b"end stopped ");
            put_stop(page, reason, site);
        }
        End::Bound(site) => {
            page.put(b"end bound ");
            put_site(page, site);
        }
    }
}

// The marks of a trace.
fn put_marks(page: &mut Page, marks: &[Mark]) {
    page.put(b"trace");
    for mark in marks {
        page.byte(b' ');
        let done = push_mark(&mut page.text, *mark);
        page.note(done);
    }
    page.byte(b'\n');
}

fn put_number(page: &mut Page, number: u32) {
    let done = push_number(&mut page.text, number as u64);
    page.note(done);
}

fn put_shown(page: &mut Page, bytes: &[u8]) {
    let done = push_shown(&mut page.text, bytes);
    page.note(done);
}

fn put_arguments(page: &mut Page, args: &[Bytes]) {
    for arg in args {
        page.byte(b' ');
        put_shown(page, arg.as_slice());
    }
}

fn put_variable(page: &mut Page, name: &str, value: &[u8]) {
    page.byte(b' ');
    page.put(name.as_bytes());
    page.byte(b'=');
    put_shown(page, value);
}

fn put_variables(page: &mut Page, vars: &Env) {
    for name in &NAMES {
        if let Some(value) = vars.get(name.as_bytes()) {
            put_variable(page, name, value.as_slice());
        }
    }
}

// What is captured so far, behind ` >`.
fn put_captured(page: &mut Page, captured: &Option<Bytes>) {
    if let Some(bytes) = captured {
        page.put(b" >");
        put_shown(page, bytes.as_slice());
    }
}

// A state: the strict flag, the status, the turns that are left, what is captured, the arguments and the variables.
fn put_state(page: &mut Page, conc: &Conc) {
    page.put(b"state ");
    page.put(if conc.strict {
        b"strict ".as_slice()
    } else {
        b"lax ".as_slice()
    });
    page.put(if conc.status {
        b"success ".as_slice()
    } else {
        b"failure ".as_slice()
    });
    put_number(page, conc.turns);
    put_captured(page, &conc.captured);
    put_arguments(page, conc.args.as_slice());
    put_variables(page, &conc.vars);
}

// The turns that are left.
fn put_turns(page: &mut Page, turns: u32) {
    page.put(b"turns ");
    put_number(page, turns);
}

// A tree.
fn put_tree(alloc: Global, page: &mut Page, tree: &Value) {
    page.put(b"\nafter\n");
    match print_tree(alloc, tree) {
        Ok(text) => page.put(text.as_slice()),
        Err(_) => page.whole = false,
    }
}

// How a program runs from a state, on a tree, behind the marks of a trace: the end and the trace.
fn put_run(
    alloc: Global,
    page: &mut Page,
    program: &Program,
    conc: &mut Conc,
    tree: &mut Value,
    trace: &mut Trace,
)
    requires { kind_of tree.old ≡ Dir }
{
    match run(alloc, program, 3, conc, tree, trace) {
        Ok(ran) => put_end(page, ran.end),
        Err(_) => page.whole = false,
    }
    put_marks(page, trace.as_slice());
}

// How a program runs, as put_run has it, and what is left: the whole state or the turns, and the tree.
fn put_answer(
    alloc: Global,
    page: &mut Page,
    program: &Program,
    conc: &mut Conc,
    tree: &mut Value,
    trace: &mut Trace,
    tells_state: bool,
)
    requires { kind_of tree.old ≡ Dir }
{
    put_run(alloc, page, program, conc, tree, trace);
    if tells_state {
        put_state(page, conc);
    } else {
        put_turns(page, conc.turns);
    }
    put_tree(alloc, page, tree);
}

// The same, on a tree by its text.
fn put_on(
    alloc: Global,
    page: &mut Page,
    tree: &[u8],
    program: &Program,
    conc: &mut Conc,
    trace: &mut Trace,
    tells_state: bool,
) {
    match read_tree(alloc, tree) {
        Ok(mut tree) => put_answer(alloc, page, program, conc, &mut tree, trace, tells_state),
        Err(_) => page.whole = false,
    }
}

/// What a program comes to from a state, on a tree as a row has it, behind the marks of a trace: the end, the trace,
/// the whole state or the turns that are left, and the tree after.
pub(super) fn put_all(
    alloc: Global,
    page: &mut Page,
    tree: &str,
    program: &Program,
    conc: &mut Conc,
    trace: &mut Trace,
    tells_state: bool,
) {
    let text = spelled(alloc, "", tree, b'%', b'\\');
    put_on(
        alloc,
        page,
        text.text.as_slice(),
        program,
        conc,
        trace,
        tells_state,
    );
    page.whole = page.whole && text.whole;
}

/// A state under these premises, without variables and arguments, and with nothing captured.
pub(super) fn empty_state(
    alloc: Global,
    premises: Common<Premises>,
    strict: bool,
    status: bool,
    turns: u32,
) -> Conc {
    Conc {
        vars: Env::new(alloc),
        args: List::new(alloc),
        strict,
        status,
        captured: None,
        turns,
        premises,
    }
}

// The variable that names the script.
fn name_script(alloc: Global, vars: &mut Env) -> Result<(), Memory> {
    match Bytes::from_slice(alloc, b"postinst") {
        Ok(script) => vars.set(b"DPKG_MAINTSCRIPT_NAME", script),
        Err(fault) => Err(fault),
    }
}

// A word behind the script's name.
fn add_word(alloc: Global, args: &mut List<Bytes>, word: &[u8]) -> Result<(), Memory> {
    match Bytes::from_slice(alloc, word) {
        Ok(word) => args.add(word),
        Err(fault) => Err(fault),
    }
}

// The state in which the script is called.
fn begin(alloc: Global, page: &mut Page, conc: &mut Conc) {
    let named = name_script(alloc, &mut conc.vars);
    page.note(named);
    let first = add_word(alloc, &mut conc.args, b"configure");
    page.note(first);
    let second = add_word(alloc, &mut conc.args, b"");
    page.note(second);
}

// What a program comes to, as `answer` has it, under these premises.
fn answer_under(
    alloc: Global,
    premises: Common<Premises>,
    turns: u32,
    tree: &str,
    program: &Program,
) -> Page {
    let mut page = Page::new(alloc);
    let mut conc = empty_state(alloc, premises, program.strict(), true, turns);
    let mut trace = List::new(alloc);
    begin(alloc, &mut page, &mut conc);
    put_all(
        alloc, &mut page, tree, program, &mut conc, &mut trace, false,
    );
    page
}

/// What a program comes to from the state in which the script is called, under the premises of a row: the end, the
/// trace, the turns that are left, and the tree after.
pub(super) fn answer(
    alloc: Global,
    premises: &str,
    turns: u32,
    tree: &str,
    program: &Program,
) -> Page {
    match premises_in(alloc, premises) {
        Ok(premises) => answer_under(alloc, premises, turns, tree, program),
        Err(_) => Page::lost(alloc),
    }
}
