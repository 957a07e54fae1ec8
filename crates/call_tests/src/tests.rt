mod calls;
mod cut_short;
mod faults;
mod limits;
mod loops;
mod most_outcomes;
mod predictions;
mod scripts;
mod scripts_made;
mod seen;
mod translations;
mod workers;

use case_pool::{Gate, Open};
use checker_calls::run_words;
use checker_io::{MemShelf, MemSink};
use script_names::{List, Memory, Text};
use scripts_made::{Script, put_made};
use seen::{Seen, is_seen};
use std::alloc::Global;
use std::process::Abort;
use std::test::Fail;
use std::thread::Threads;

// A file: its name, and its bytes.
type File = (&'static str, &'static [u8]);

// What has to come of a call: the status, and what standard output and standard error took.
type Wanted = (u8, &'static [u8], &'static [u8]);

// What is to fail in a call: the read and the writes of these numbers, from 1 on, and how much of a failing write is
// taken.
#[derive(Clone, Copy)]
struct Failing {
    read: u32,
    write: u32,
    line: u32,
    taken: u32,
}

const QUIET: Failing = Failing {
    read: 0,
    write: 0,
    line: 0,
    taken: 0,
};

// The words that report an installation.
const INSTALL: &[&str] = &["check", "p", "--scenario", "install", "--brief"];

// A package of nothing.
const NOTHING: &[File] = &[("p/list", b"/.\n")];

// A call: its words; the files that it finds, and besides them a script under a name; what fails in it; and what has
// to come of it.
#[derive(Clone, Copy)]
struct Case {
    words: &'static [&'static str],
    files: &'static [File],
    script: Option<(&'static str, Script)>,
    failing: Failing,
    status: u8,
    seen: Seen,
}

// A row of a table.
trait Row {
    // The call that it stands for.
    fn case(&self) -> Case;
}

// The words, the files, and what has to come of the call.
struct Called(&'static [&'static str], &'static [File], Wanted);

impl Row for Called {
    fn case(&self) -> Case {
        Case {
            words: self.0,
            files: self.1,
            script: None,
            failing: QUIET,
            status: self.2.0,
            seen: Seen::Whole(self.2.1, self.2.2),
        }
    }
}

// The installation, as these words report it, of a package that lists nothing and has this postinst.
fn installation(words: &'static [&'static str], script: Script, status: u8, seen: Seen) -> Case {
    Case {
        words,
        files: NOTHING,
        script: Some(("p/postinst", script)),
        failing: QUIET,
        status,
        seen,
    }
}

// What came of a call.
#[derive(Drop)]
struct Ended {
    status: u8,
    out: MemSink,
    err: MemSink,
}

fn add_word(spelled: &mut List<Text>, alloc: Global, word: &str) -> Result<(), Memory> {
    let word = Text::from_text(alloc, word)?;
    spelled.add(word)?;
    Ok(())
}

// The words of a command line.
fn spelled(alloc: Global, words: &[&str]) -> Result<List<Text>, Memory> {
    let mut spelled = List::new(alloc);
    for word in words {
        add_word(&mut spelled, alloc, word)?;
    }
    Ok(spelled)
}

// Puts what a call finds on a shelf, of which one read fails.
fn put_all(shelf: &mut MemShelf, alloc: Global, case: &Case) -> Result<(), Memory> {
    for file in case.files {
        shelf.put(file.0, file.1)?;
    }
    if let Some((name, script)) = &case.script {
        put_made(shelf, alloc, name, script)?;
    }
    shelf.fail_at(case.failing.read)
}

fn shelf_of(alloc: Global, case: &Case) -> Result<MemShelf, Memory> {
    let mut shelf = MemShelf::new(alloc);
    put_all(&mut shelf, alloc, case)?;
    Ok(shelf)
}

// The sinks of a call, each with the write that fails in it.
fn to_end(alloc: Global, failing: Failing) -> Result<Ended, Memory> {
    let mut ended = Ended {
        status: 0,
        out: MemSink::new(alloc),
        err: MemSink::new(alloc),
    };
    ended.out.fail_at(failing.write, failing.taken)?;
    ended.err.fail_at(failing.line, failing.taken)?;
    Ok(ended)
}

// Runs the program with these words, over this shelf.
fn run<R: Threads + Sync, G: Gate>(
    rt: &R,
    alloc: Global,
    gate: &G,
    words: &List<Text>,
    shelf: &mut MemShelf,
    ended: &mut Ended,
) {
    ended.status = run_words(
        rt,
        alloc,
        gate,
        words,
        shelf,
        &mut ended.out,
        &mut ended.err,
    );
}

// Runs the program with these words, over the shelf of a call.
fn run_over<R: Threads + Sync, G: Gate>(
    rt: &R,
    alloc: Global,
    gate: &G,
    words: &List<Text>,
    case: &Case,
) -> Result<Ended, Memory> {
    let mut shelf = shelf_of(alloc, case)?;
    let mut ended = to_end(alloc, case.failing)?;
    run(rt, alloc, gate, words, &mut shelf, &mut ended);
    Ok(ended)
}

// Makes the call; the program's workers enter the gate.
fn call_by<R: Threads + Sync, G: Gate>(
    rt: &R,
    alloc: Global,
    gate: &G,
    case: &Case,
) -> Result<Ended, Memory> {
    let words = spelled(alloc, case.words)?;
    run_over(rt, alloc, gate, &words, case)
}

// Whether the call ends as it has to.
fn ends<R: Threads + Sync>(rt: &R, alloc: Global, case: &Case) -> Result<bool, Memory> {
    let ended = call_by(rt, alloc, &Open::new(), case)?;
    Ok(ended.status == case.status && is_seen(&ended, &case.seen))
}

// The call of this row ends as it has to.
fn see<R: Abort + AllocGlobal + Threads + Sync, T: Row>(
    rt: &R,
    row: &T,
    number: usize,
) -> Result<(), Fail> {
    assert!(rt; ends(rt, rt.alloc(), &row.case())?, "row {number}");
    Ok(())
}

// The calls of these rows end as they have to; the rows count from 0.
fn see_all<R: Abort + AllocGlobal + Threads + Sync, T: Row>(
    rt: &R,
    rows: &[T],
) -> Result<(), Fail> {
    for (number, row) in rows.iter().enumerate() {
        see(rt, row, number)?;
    }
    Ok(())
}
