//! The program: it makes the call that its arguments spell, over the files that it stands by. What a call is, and what
//! holds of it, is in checker_calls: begin with `run_words` there.
#![tactic(auto)]

use case_pool::Open;
use checker_calls::{finish, words_of};
use checker_io::{DirShelf, OutSink};
use std::env;
use std::process::ExitCode;

fn main(rt: HostRuntime) -> ExitCode {
    let words = words_of(rt.alloc(), env::args(&rt));
    let mut shelf = DirShelf::new(&rt);
    let mut out = OutSink::new(rt.stdout());
    let mut err = OutSink::new(rt.stderr());
    finish(
        &rt,
        rt.alloc(),
        &Open::new(),
        &words,
        &mut shelf,
        &mut out,
        &mut err,
    )
}
