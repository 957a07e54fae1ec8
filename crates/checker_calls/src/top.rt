ghost use Rattle.std.specs.Prelude.{◌≡◌, ◌≤◌, IfOk, IfErr, Ok};
ghost use Rattle.std.specs.Process.{exit_status};
ghost use Rattle.command_words.specs.Words.{form};
ghost use Rattle.checker_input.specs.Input.{IsInRange};
ghost use Rattle.checker_calls.specs.Top.{Replies, Reported, SaidRefusal};
ghost use Rattle.checker_calls.specs.Top.{SaidReadFailed, FailedToWrite, RanOut, NoneRose, Completes, Refuses};
ghost use Rattle.checker_calls.specs.Top.{OfWords};

use crate::deliver::{OUT_OF_MEMORY, Reply, deliver};
use crate::error_lines::{read_failed_line, refusal_line, usage_line};
use crate::faults::{CallRefusal, TaskFault};
use crate::tasks::carry_out;
use crate::work::read_work;
use crate::written::Written;
use case_pool::Gate;
use checker_io::{Shelf, Sink, Stop};
use command_words::theorems::loads_are_small;
use command_words::{Request, WordsFault, read_words};
use script_names::{List, Memory, Text};
use std::alloc::Global;
use std::process::ExitCode;
use std::thread::Threads;

// What the request has to say.
fn reply<R: Threads + Sync, G: Gate, S: Shelf>(
    rt: &R,
    alloc: Global,
    gate: &G,
    request: &Request,
    shelf: &mut S,
) -> Reply
    requires { IsInRange request.now }
    ensures kept { (S.state shelf.new).holds ≡ (S.state shelf.old).holds }
    ensures replies { Replies (Ok request.now) (S.state shelf.old) (S.state shelf.new) result }
{
    match read_work(alloc, request, shelf) {
        Ok(work) => match carry_out(rt, alloc, gate, work) {
            Ok(Written { text, status }) => Reply::Text { text, status },
            Err(TaskFault::Refused(refusal)) => {
                match refusal_line(alloc, &CallRefusal::Task(refusal)) {
                    Ok(line) => Reply::Refused { line },
                    Err(_) => Reply::NoMemory,
                }
            }
            Err(TaskFault::Memory) => Reply::NoMemory,
        },
        Err(Stop::Refused(fault)) => match refusal_line(alloc, &CallRefusal::Input(fault)) {
            Ok(line) => Reply::Refused { line },
            Err(_) => Reply::NoMemory,
        },
        Err(Stop::ReadFailed(name)) => match read_failed_line(alloc, name.as_str()) {
            Ok(line) => Reply::ReadFailed { line },
            Err(_) => Reply::NoMemory,
        },
        Err(Stop::NoMemory) => Reply::NoMemory,
    }
}

// What a call has to say.
fn answer<R: Threads + Sync, G: Gate, S: Shelf>(
    rt: &R,
    alloc: Global,
    gate: &G,
    words: &List<Text>,
    shelf: &mut S,
) -> Reply
    ensures kept { (S.state shelf.new).holds ≡ (S.state shelf.old).holds }
    ensures replies { Replies (form words.now) (S.state shelf.old) (S.state shelf.new) result }
{
    loads_are_small();
    match read_words(alloc, words) {
        Ok(request) => reply(rt, alloc, gate, &request, shelf),
        Err(WordsFault::Usage { word }) => match usage_line(alloc, word) {
            Ok(line) => Reply::Refused { line },
            Err(_) => Reply::NoMemory,
        },
        Err(WordsFault::Memory) => Reply::NoMemory,
    }
}

/// Does what the words ask for, and answers the status. The scenarios that are checked are answered by workers; each
/// enters the gate when it takes one up.
pub fn run_words<R: Threads + Sync, G: Gate, S: Shelf, O: Sink, E: Sink>(
    rt: &R,
    alloc: Global,
    gate: &G,
    words: &List<Text>,
    shelf: &mut S,
    out: &mut O,
    err: &mut E,
) -> u8
    ensures statuses { result ≤ 6 }
    ensures kept { (S.state shelf.new).holds ≡ (S.state shelf.old).holds }

    // 0, 1, 2: no read and no write failed, and the text of what the words ask for was written: a report that has, for
    // each chosen scenario, all ways in which it can end, and the status is its verdict; or such a report on the one
    // scenario of a pair of packages, of which no file is kept, or of a package that is configured twice; or the
    // summary of such a report on a made package; or an explanation of each chosen scenario, of all ways in which it
    // can end or of why it has no report, and the status is 1 where some outcome failed, else 2 where some is undecided
    // or a scenario has no report; or a run, and the status says how it ended; or a program that does what the script
    // does, and the status is 0; or a prediction, which outcome of a report each tree has, and the status is 0.
    ensures reported { result ≤ 2 → Reported (form words.now) (S.state shelf.old) (S.state shelf.new)
        (O.state out.old) (O.state out.new) (E.state err.old) (E.state err.new) result }

    // 3: no read and no write failed, and the first refusal was named: of the words; or of a file; or of a pair the
    // first file that is kept; or of a scenario that is to be reported. Once their files are understood, a prediction,
    // an explanation, a run and a program are not refused.
    ensures refused { result ≡ 3 → SaidRefusal (form words.now) (S.state shelf.old) (S.state shelf.new)
        (O.state out.old) (O.state out.new) (E.state err.old) (E.state err.new) }

    // 4: the shelf failed at a file that the words ask for, which was named, and no write failed.
    ensures read_failed { result ≡ 4 → SaidReadFailed (form words.now) (S.state shelf.old) (S.state shelf.new)
        (O.state out.old) (O.state out.new) (E.state err.old) (E.state err.new) }

    // 5: a sink failed.
    ensures write_failed { result ≡ 5 → FailedToWrite (form words.now) (S.state shelf.old) (S.state shelf.new)
        (O.state out.old) (O.state out.new) (E.state err.old) (E.state err.new) }

    // 6: memory is missing.
    ensures ran_out { result ≡ 6 → RanOut (form words.now) (S.state shelf.old) (S.state shelf.new)
        (O.state out.old) (O.state out.new) (E.state err.old) (E.state err.new) }

    // Where no count rose, packages are reported, explained or run, a script is translated, trees are told apart, and a
    // refusal is named, unless memory is missing; a made package is reported over any shelf, since no file is read for
    // it.
    ensures complete { NoneRose (S.state shelf.old) (S.state shelf.new)
        (O.state out.old) (O.state out.new) (E.state err.old) (E.state err.new)
        → Completes (form words.now) (S.state shelf.old) result }
    ensures refuses { NoneRose (S.state shelf.old) (S.state shelf.new)
        (O.state out.old) (O.state out.new) (E.state err.old) (E.state err.new)
        → Refuses (form words.now) (S.state shelf.old) result }
{
    let reply = answer(rt, alloc, gate, words, shelf);
    deliver(&reply, out, err)
}

/// Does what the words ask for, where they were had, and ends the program with the status. Where memory was missing
/// for the words that is 6, and nothing was read or written.
pub fn finish<R: Threads + Sync, G: Gate, S: Shelf, O: Sink, E: Sink>(
    rt: &R,
    alloc: Global,
    gate: &G,
    words: &Result<List<Text>, Memory>,
    shelf: &mut S,
    out: &mut O,
    err: &mut E,
) -> ExitCode
    ensures statuses { exit_status result ≤ 6 }
    ensures kept { (S.state shelf.new).holds ≡ (S.state shelf.old).holds }
    ensures no_words { IfErr words.now (λ _. (exit_status result ≡ 6) × (S.state shelf.new ≡ S.state shelf.old)
        × (O.state out.new ≡ O.state out.old) × (E.state err.new ≡ E.state err.old)) }

    // As `run_words` says of each status.
    ensures reported { exit_status result ≤ 2 → OfWords words.now (λ given. Reported given
        (S.state shelf.old) (S.state shelf.new)
        (O.state out.old) (O.state out.new) (E.state err.old) (E.state err.new)
        (exit_status result)) }
    ensures refused { exit_status result ≡ 3 → OfWords words.now (λ given. SaidRefusal given
        (S.state shelf.old) (S.state shelf.new)
        (O.state out.old) (O.state out.new) (E.state err.old) (E.state err.new)) }
    ensures read_failed { exit_status result ≡ 4 → OfWords words.now (λ given. SaidReadFailed given
        (S.state shelf.old) (S.state shelf.new)
        (O.state out.old) (O.state out.new) (E.state err.old) (E.state err.new)) }
    ensures write_failed { exit_status result ≡ 5 → OfWords words.now (λ given. FailedToWrite given
        (S.state shelf.old) (S.state shelf.new)
        (O.state out.old) (O.state out.new) (E.state err.old) (E.state err.new)) }
    ensures ran_out { exit_status result ≡ 6 → IfOk words.now (λ had. RanOut (form had)
        (S.state shelf.old) (S.state shelf.new)
        (O.state out.old) (O.state out.new) (E.state err.old) (E.state err.new)) }
    ensures complete { NoneRose (S.state shelf.old) (S.state shelf.new)
        (O.state out.old) (O.state out.new) (E.state err.old) (E.state err.new)
        → IfOk words.now (λ had. Completes (form had) (S.state shelf.old) (exit_status result)) }
    ensures refuses { NoneRose (S.state shelf.old) (S.state shelf.new)
        (O.state out.old) (O.state out.new) (E.state err.old) (E.state err.new)
        → IfOk words.now (λ had. Refuses (form had) (S.state shelf.old) (exit_status result)) }
{
    match words {
        Ok(words) => ExitCode::from(run_words(rt, alloc, gate, words, shelf, out, err)),
        Err(_) => ExitCode::from(OUT_OF_MEMORY),
    }
}
