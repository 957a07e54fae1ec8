ghost use Rattle.std.specs.Prelude.{◌≡◌, ◌++◌, IfOk};
ghost use denote.Param.Send.{IsSync, IsSend};
ghost use Rattle.case_pool.specs.Jobs.{Accepts, Answers};

use script_names::{List, Memory};
use std::alloc::Global;
use std::thread::{Threads, join};

// As many jobs at most are answered at once.
const WORKERS: usize = 64;

// The answers to the jobs, one after another.
fn answer_in_turn<J, R: Drop, F: Fn(&J) -> Result<R, Memory>>(
    alloc: Global,
    jobs: &[J],
    f: &F,
) -> Result<List<R>, Memory>
    requires { Accepts F.Fn f.now jobs.now }
    ensures { IfOk result (Answers F.Fn f.now jobs.now) }
{
    let mut answers = List::new(alloc);
    for job in jobs {
        answers.add(f(job)?)?;
    }
    Ok(answers)
}

// One list after another.
fn joined<R: Drop>(first: List<R>, second: List<R>) -> Result<List<R>, Memory>
    ensures { IfOk result (λ all. all ≡ first ++ second) }
{
    let mut all = first;
    for answer in second.into_vec() {
        all.add(answer)?;
    }
    Ok(all)
}

// The answers to the jobs, by at most so many workers, of which this thread is one. Where `last` of them or fewer are
// left this thread answers them.
#[cycle(answers)]
fn answer_all<W: Threads + Sync, J: Sync, R: Send + Drop, F: Fn(&J) -> Result<R, Memory> + Sync>(
    rt: &W,
    alloc: Global,
    jobs: &[J],
    last: usize,
    f: &F,
    workers: usize,
) -> Result<List<R>, Memory>
    requires { Accepts F.Fn f.now jobs.now }
    ensures { IfOk result (Answers F.Fn f.now jobs.now) }
{
    if workers < 2 || jobs.len() < 2 || jobs.len() <= last {
        return answer_in_turn(alloc, jobs, f);
    }
    let (low, high) = jobs.split_at(jobs.len() / 2);
    let fewer = workers / 2;
    let others = workers - fewer;
    let front = move || -> Result<List<R>, Memory>
        requires { IsSync W.row × IsSync J.row × IsSync F.row × IsSend R.row × Accepts F.Fn f.now low.now }
        ensures { IfOk result (Answers F.Fn f.entry.now low.entry.now) }
    { answer_all(rt, alloc, low, 1, f, fewer) };
    let back = move || -> Result<List<R>, Memory>
        requires { IsSync W.row × IsSync J.row × IsSync F.row × IsSend R.row × Accepts F.Fn f.now high.now }
        ensures { IfOk result (Answers F.Fn f.entry.now high.entry.now) }
    { answer_all(rt, alloc, high, last, f, others) };
    let (first, second) = join(rt, front, back);
    joined(first?, second?)
}

/// The answers of `f` to the jobs, in the jobs' order, by at most 64 workers: this thread and others that it starts,
/// each with a job or a run of jobs. This thread answers the jobs at the end, of which `last` or fewer are not divided
/// further: so jobs for which a thread is not worth its start can be left together. A thread that cannot start another
/// answers its jobs itself. `Memory` comes where `f` answers it, and where there is no room for the answers.
pub fn map_jobs<W: Threads + Sync, J: Sync, R: Send + Drop, F: Fn(&J) -> Result<R, Memory> + Sync>(
    rt: &W,
    alloc: Global,
    jobs: &List<J>,
    last: usize,
    f: &F,
) -> Result<List<R>, Memory>
    requires { Accepts F.Fn f.now jobs.now }
    ensures { IfOk result (Answers F.Fn f.now jobs.now) }
{
    answer_all(rt, alloc, jobs.as_slice(), last, f, WORKERS)
}
