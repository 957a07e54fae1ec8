//! Packages from files in memory, what a scenario needs for them, and its runs.

use checker_input::{Asked, Packages, Task, read_task};
use checker_io::MemShelf;
use command_words::{Request, read_words};
use dpkg_scenarios::{Ending, Scenario};
use feature_trees::{Kind, Kinds, Special, Value};
use outcome_report::{Report, ReportEntry, ReportPart, make_part};
use package_jobs::{job_of, needs_of};
use report_text::{render_brief, render_run};
use scenario_outcomes::OutcomesFault;
use scenario_runs::{Job, Replayed, run};
use script_names::{Boxed, Bytes, Copied, List, Memory, Name, Path, Text};
use start_trees::{Need, Wanted};
use std::alloc::Global;

/// A file: its name and its bytes.
pub type File = (&'static str, &'static [u8]);

// The words of a line.
fn words(alloc: Global, line: &str) -> Result<List<Text>, Memory> {
    let mut words = List::new(alloc);
    for word in line.split(" ") {
        let word = Text::from_text(alloc, word)?;
        words.add(word)?;
    }
    Ok(words)
}

// The request that the words of a line spell.
fn request(alloc: Global, line: &str) -> Result<Boxed<Request>, Memory> {
    let words = words(alloc, line)?;
    match read_words(alloc, &words) {
        Ok(request) => Boxed::new(alloc, request),
        Err(_) => Err(Memory),
    }
}

// A shelf with these files, where those of the second list stand in the place of those of the first.
fn shelf(alloc: Global, files: &[File], others: &[File]) -> Result<MemShelf, Memory> {
    let mut shelf = MemShelf::new(alloc);
    for file in files {
        shelf.put(file.0, file.1)?;
    }
    for file in others {
        shelf.put(file.0, file.1)?;
    }
    Ok(shelf)
}

fn put_path(text: &mut Bytes, path: &Path) -> Result<(), Memory> {
    for name in path.names() {
        text.push(b'/')?;
        text.extend(name.as_slice())?;
    }
    Ok(())
}

const LETTERS: &[(Kind, u8)] = &[
    (Kind::Absent, b'A'),
    (Kind::Reg, b'R'),
    (Kind::Link, b'L'),
    (Kind::Special(Special::Fifo), b'F'),
    (Kind::Special(Special::Socket), b'S'),
    (Kind::Special(Special::Block), b'B'),
    (Kind::Special(Special::Char), b'C'),
    (Kind::Dir, b'D'),
];

fn put_kinds(text: &mut Bytes, kinds: Kinds) -> Result<(), Memory> {
    text.push(b':')?;
    for letter in LETTERS {
        if kinds.has(letter.0) {
            text.push(letter.1)?;
        }
    }
    text.push(b' ')
}

// The names that entries may have, each behind a comma.
fn put_names(text: &mut Bytes, names: &[Name]) -> Result<(), Memory> {
    text.push(b'=')?;
    for name in names {
        text.push(b',')?;
        text.extend(name.as_slice())?;
    }
    text.push(b' ')
}

// The target that a link has.
fn put_target(text: &mut Bytes, target: &[u8]) -> Result<(), Memory> {
    text.push(b'>')?;
    text.extend(target)?;
    text.push(b' ')
}

fn put_wanted(text: &mut Bytes, wanted: &Wanted) -> Result<(), Memory> {
    match wanted {
        Wanted::Kinds(kinds) => put_kinds(text, *kinds),
        Wanted::Names(names) => put_names(text, names.as_slice()),
        Wanted::Target(target) => put_target(text, target.as_slice()),
    }
}

// What is needed, as a text: the paths, each with a letter for each kind that may stand there, or the names that the
// entries there may have, or the target of the link there.
fn needs_text(alloc: Global, needs: &[Need]) -> Result<Bytes, Memory> {
    let mut text = Bytes::new(alloc);
    for need in needs {
        put_path(&mut text, &need.path)?;
        put_wanted(&mut text, &need.wanted)?;
    }
    Ok(text)
}

// What a scenario needs.
fn needed(alloc: Global, scenario: Scenario, packages: &Packages) -> Result<Bytes, Memory> {
    let needs = needs_of(alloc, scenario, packages)?;
    needs_text(alloc, needs.as_slice())
}

// The job of a scenario.
fn job(
    alloc: Global,
    scenario: Scenario,
    packages: &Packages,
    turns: u32,
) -> Result<Boxed<Job>, Memory> {
    let job = job_of(alloc, scenario, packages, turns)?;
    Boxed::new(alloc, job)
}

// The run of a job from a tree.
fn run_from(alloc: Global, job: &Job, tree: &Value) -> Result<Boxed<Replayed>, Memory> {
    match tree {
        Value::Dir(_) => {
            let replayed = run(alloc, job, tree)?;
            Boxed::new(alloc, replayed)
        }
        Value::Absent | Value::Reg | Value::Link(_) | Value::Special(_) => Err(Memory),
    }
}

// The text of a scenario's run from a tree, with one turn of loops.
fn ran(
    alloc: Global,
    scenario: Scenario,
    packages: &Packages,
    tree: &Value,
) -> Result<Bytes, Memory> {
    let job = job(alloc, scenario, packages, 1)?;
    let replayed = run_from(alloc, job.get(), tree)?;
    render_run(alloc, replayed.get())
}

// A copy of the packages.
fn copied(alloc: Global, packages: &Packages) -> Result<Boxed<Packages>, Memory> {
    let copy = packages.copy(alloc)?;
    Boxed::new(alloc, copy)
}

// The text of a copy of the run of a copy of a job.
fn copied_run(alloc: Global, job: &Boxed<Job>, tree: &Value) -> Result<Bytes, Memory> {
    let copy = job.copy(alloc)?;
    let replayed = run_from(alloc, copy.get(), tree)?;
    let other = replayed.copy(alloc)?;
    render_run(alloc, other.get())
}

// The same text, by copies of the packages, of the job and of the run.
fn ran_by_copies(
    alloc: Global,
    scenario: Scenario,
    packages: &Packages,
    tree: &Value,
) -> Result<Bytes, Memory> {
    let copy = copied(alloc, packages)?;
    let job = job(alloc, scenario, copy.get(), 1)?;
    copied_run(alloc, &job, tree)
}

// The text of a task's run, by copies.
fn copied_task_text(alloc: Global, scenario: Scenario, task: &Task) -> Result<Bytes, Memory> {
    match task {
        Task::Run { packages, tree, .. } => ran_by_copies(alloc, scenario, packages, tree),
        _ => Err(Memory),
    }
}

// What is said of a scenario for a task: what it needs for packages, or its run from a tree.
fn task_text(alloc: Global, scenario: Scenario, task: &Task) -> Result<Bytes, Memory> {
    match task {
        Task::Check { packages, .. } => needed(alloc, scenario, packages),
        Task::Run { packages, tree, .. } => ran(alloc, scenario, packages, tree),
        Task::Translate { .. } => Err(Memory),
        Task::Load { .. } => Err(Memory),
        Task::Explain { .. } => Err(Memory),
        Task::Pair { packages, .. } => needed(alloc, scenario, packages),
    }
}

// The task of the request of a line over these files, where those of the second list stand in the place of those of the
// first.
fn task(alloc: Global, line: &str, files: &[File], others: &[File]) -> Result<Boxed<Task>, Memory> {
    let request = request(alloc, line)?;
    let mut shelf = shelf(alloc, files, others)?;
    match read_task(alloc, request.get(), &mut shelf) {
        Ok(Asked::Task(task)) => Boxed::new(alloc, task),
        Ok(Asked::Prediction { .. }) => Err(Memory),
        Err(_) => Err(Memory),
    }
}

// The outcomes of a scenario, in a list of their own, with 100 turns of loops and a limit of 1,000; or why there are
// none.
fn parts(
    alloc: Global,
    scenario: Scenario,
    packages: &Packages,
) -> Result<List<ReportPart>, OutcomesFault> {
    let job = job(alloc, scenario, packages, 100)?;
    let needs = needs_of(alloc, scenario, packages)?;
    let mut parts = List::new(alloc);
    parts.add(make_part(alloc, job.get(), &needs, 1000)?)?;
    Ok(parts)
}

// The brief report on a scenario, or why there is none.
fn reported(alloc: Global, scenario: Scenario, packages: &Packages) -> Result<Bytes, Memory> {
    match parts(alloc, scenario, packages) {
        Ok(parts) => render_brief(alloc, &Report { parts }),
        Err(OutcomesFault::NoStart) => Bytes::from_slice(alloc, b"no start"),
        Err(OutcomesFault::Over) => Bytes::from_slice(alloc, b"limit"),
        Err(OutcomesFault::Memory) => Err(Memory),
    }
}

// The text of a run, up to its tree.
fn put_front(text: &mut Bytes, ran: &[u8]) -> Result<(), Memory> {
    let (front, _) = str::from_utf8(ran)
        .unwrap_or("")
        .split_once("after\n")
        .unwrap_or(("", ""));
    text.extend(front.as_bytes())
}

// The text of the run from the tree that an outcome shows, up to its tree, or that it ends otherwise than the outcome.
fn put_shown(
    alloc: Global,
    text: &mut Bytes,
    job: &Job,
    entry: &ReportEntry,
) -> Result<(), Memory> {
    if !entry.confirmed {
        return text.extend(b"not confirmed\n");
    }
    let replayed = run_from(alloc, job, &entry.outcome.shown)?;
    let ran = render_run(alloc, replayed.get())?;
    put_front(text, ran.as_slice())
}

// These texts of outcomes, one behind another.
fn shown_texts(alloc: Global, job: &Job, entries: &[ReportEntry]) -> Result<Bytes, Memory> {
    let mut text = Bytes::new(alloc);
    for entry in entries {
        put_shown(alloc, &mut text, job, entry)?;
    }
    Ok(text)
}

// These texts of the outcomes of one part.
fn shown_text(alloc: Global, job: &Job, parts: &[ReportPart]) -> Result<Bytes, Memory> {
    match parts {
        [part] => shown_texts(alloc, job, part.entries.as_slice()),
        _ => Err(Memory),
    }
}

// These texts of the outcomes of a scenario.
fn shown(alloc: Global, scenario: Scenario, packages: &Packages) -> Result<Bytes, Memory> {
    let job = job(alloc, scenario, packages, 100)?;
    match parts(alloc, scenario, packages) {
        Ok(parts) => shown_text(alloc, job.get(), parts.as_slice()),
        Err(_) => Err(Memory),
    }
}

// These texts of the outcomes of a scenario for a task.
fn task_shown(alloc: Global, scenario: Scenario, task: &Task) -> Result<Bytes, Memory> {
    match task {
        Task::Pair { packages, .. } => shown(alloc, scenario, packages),
        _ => Err(Memory),
    }
}

// The brief report on a scenario for a task.
fn task_report(alloc: Global, scenario: Scenario, task: &Task) -> Result<Bytes, Memory> {
    match task {
        Task::Check { packages, .. } => reported(alloc, scenario, packages),
        _ => Err(Memory),
    }
}

/// What is asked of a scenario for a request.
#[derive(Clone, Copy)]
pub(crate) enum Sought {
    /// What it needs, or the text of its run.
    Answer,
    /// The text of its run, by copies of all that it goes through.
    ByCopies,
    /// The brief report, with 100 turns of loops and a limit of 1,000 outcomes.
    Report,
    /// Of a pair, or a package that is configured twice, the text of the run from the tree that each outcome shows, up to
    /// its tree, where it ends as the outcome does.
    Shown,
}

/// What is said of a scenario for the request of a line over these files, where those of the second list stand in the
/// place of those of the first.
pub(crate) fn said(
    alloc: Global,
    asked: Sought,
    scenario: Scenario,
    line: &str,
    files: &[File],
    others: &[File],
) -> Result<Bytes, Memory> {
    let task = task(alloc, line, files, others)?;
    match asked {
        Sought::Answer => task_text(alloc, scenario, task.get()),
        Sought::ByCopies => copied_task_text(alloc, scenario, task.get()),
        Sought::Report => task_report(alloc, scenario, task.get()),
        Sought::Shown => task_shown(alloc, scenario, task.get()),
    }
}

/// Whether this is said of a scenario for the request of a line over these files, where those of the second list stand
/// in the place of those of the first; not for want of memory.
pub(crate) fn is_said(
    alloc: Global,
    asked: Sought,
    scenario: Scenario,
    line: &str,
    files: &[File],
    others: &[File],
    wanted: &str,
) -> bool {
    match said(alloc, asked, scenario, line, files, others) {
        Ok(text) => text.as_slice() == wanted.as_bytes(),
        Err(_) => false,
    }
}

/// Whether what is said begins so.
pub(crate) fn begins_so(
    alloc: Global,
    asked: Sought,
    scenario: Scenario,
    line: &str,
    files: &[File],
    others: &[File],
    front: &str,
) -> bool {
    match said(alloc, asked, scenario, line, files, others) {
        Ok(text) => text.as_slice().starts_with(front.as_bytes()),
        Err(_) => false,
    }
}

/// Whether what is said ends so.
pub(crate) fn ends_so(
    alloc: Global,
    asked: Sought,
    scenario: Scenario,
    line: &str,
    files: &[File],
    others: &[File],
    end: &str,
) -> bool {
    match said(alloc, asked, scenario, line, files, others) {
        Ok(text) => text.as_slice().ends_with(end.as_bytes()),
        Err(_) => false,
    }
}

// Whether the outcome of an entry is failed.
fn is_failed(entry: &ReportEntry) -> bool {
    match entry.outcome.ending {
        Ending::Failed(_) => true,
        _ => false,
    }
}

// Whether so many of these entries are of failed outcomes, each of which leaves the tree that it shows.
fn fail_back(entries: &[ReportEntry], failed: usize) -> bool {
    let mut left = failed;
    for entry in entries {
        if is_failed(entry) {
            if left == 0 {
                return false;
            }
            left -= 1;
            if !entry.outcome.shown.equal(&entry.replayed.after) {
                return false;
            }
        }
    }
    left == 0
}

// Whether these parts are one of so many outcomes, of which so many fail, each of which leaves the tree that it shows.
fn part_fails_back(parts: &[ReportPart], all: usize, failed: usize) -> bool {
    match parts {
        [part] => part.entries.len() == all && fail_back(part.entries.as_slice(), failed),
        _ => false,
    }
}

// Whether a scenario has so many outcomes, and so many of them fail, each of which leaves the tree that it shows.
fn task_fails_back(
    alloc: Global,
    scenario: Scenario,
    task: &Task,
    all: usize,
    failed: usize,
) -> bool {
    match task {
        Task::Check { packages, .. } => match parts(alloc, scenario, packages) {
            Ok(parts) => part_fails_back(parts.as_slice(), all, failed),
            Err(_) => false,
        },
        _ => false,
    }
}

/// Whether a scenario has so many outcomes for the request of a line over these files, and so many of them fail, each of
/// which leaves the tree that it shows; not for want of memory.
pub(crate) fn fails_back(
    alloc: Global,
    scenario: Scenario,
    line: &str,
    files: &[File],
    all: usize,
    failed: usize,
) -> bool {
    match task(alloc, line, files, &[]) {
        Ok(task) => task_fails_back(alloc, scenario, task.get(), all, failed),
        Err(_) => false,
    }
}
