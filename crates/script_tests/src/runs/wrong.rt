//! Scripts whose wrong translations do something else: each script's program and a wrong one, run on one tree.

use super::answers::answer;
use super::{is_said, script_program};
use crate::pages::{Page, line};
use crate::programs::program_in;
use colis_syntax::Program;
use std::alloc::Global;

// A script behind `#!/bin/sh`, a program that it does not become, what the script comes to, and what that program
// comes to, by the rules of POSIX.1-2017, XCU 2; `%` is a newline. The tree has one directory, `/srv`, and there are
// 100 turns.
type Wrong = (&'static str, &'static str, &'static str, &'static str);

const WRONG: &[Wrong] = &[
    (
        "f%f() { touch /srv/a; }%",
        "(program lax (def f (call 18 (word (p =touch)) (word (p =/srv/a)))) (seq (fun 10 f) (skip)))",
        "end stopped call 3:10%trace%turns 100%after%d /srv%",
        "end success%trace 3:18:67%turns 100%after%d /srv%f /srv/a%",
    ),
    (
        "false && true || touch /srv/b%",
        "(program lax (chain (call 10 (word (p =false))) (and (chain (call 19 (word (p =true))) (or \
        (call 27 (word (p =touch)) (word (p =/srv/b))))))))",
        "end success%trace 3:27:67%turns 100%after%d /srv%f /srv/b%",
        "end failure%trace%turns 100%after%d /srv%",
    ),
    (
        "until false; do exit; done%",
        "(program lax (while 10 (not (call 16 (word (p =false)))) (exit 26)))",
        "end failure%trace%turns 99%after%d /srv%",
        "end success%trace%turns 99%after%d /srv%",
    ),
    (
        "if false; then :; elif false; then touch /srv/a; fi%",
        "(program lax (if ((call 13 (word (p =false))) (call 25 (word (p =:)))) \
        (call 45 (word (p =touch)) (word (p =/srv/a)))))",
        "end success%trace%turns 100%after%d /srv%",
        "end success%trace 3:45:67%turns 100%after%d /srv%f /srv/a%",
    ),
    (
        "x=$(true >/dev/null 2>&1)%",
        "(program lax (set 10 (x (join (output (err 14 (quiet (call 14 (word (p =true))))))))))",
        "end success%trace%turns 100%after%d /srv%",
        "end stopped message 3:14%trace%turns 100%after%d /srv%",
    ),
    (
        "touch /srv/a | true%",
        "(program lax (call 10 (word (p =touch)) (word (p =/srv/a))))",
        "end stopped pipe 3:10%trace%turns 100%after%d /srv%",
        "end success%trace 3:10:67%turns 100%after%d /srv%f /srv/a%",
    ),
    (
        "for x; do touch /srv/a; done%",
        "(program lax (for 10 x () (call 20 (word (p =touch)) (word (p =/srv/a)))))",
        "end success%trace 3:20:67 3:20:67%turns 98%after%d /srv%f /srv/a%",
        "end success%trace%turns 100%after%d /srv%",
    ),
    (
        "x=a true; touch \"/srv/b$x\"%",
        "(program lax (seq (seq (set 10 (x (join =a))) (call 10 (word (p =true)))) \
        (call 20 (word (p =touch)) (word (q =/srv/b) (q (var x))))))",
        "end success%trace 3:20:67%turns 100%after%d /srv%f /srv/b%",
        "end success%trace 3:20:67%turns 100%after%d /srv%f /srv/ba%",
    ),
    (
        "x=a; touch \"/srv/${x:-b}\"%",
        "(program lax (seq (set 10 (x (join =a))) (call 15 (word (p =touch)) (word (q =/srv/) (q =b)))))",
        "end success%trace 3:15:67%turns 100%after%d /srv%f /srv/a%",
        "end success%trace 3:15:67%turns 100%after%d /srv%f /srv/b%",
    ),
    (
        "x=\"a b\"; for i in \"$x\"; do touch \"/srv/$i\"; done%",
        "(program lax (seq (set 10 (x (join =a\\x20b))) (for 19 i ((word (s (var x)))) \
        (call 37 (word (p =touch)) (word (q =/srv/) (q (var i)))))))",
        "end success%trace 3:37:67%turns 99%after%d /srv%f /srv/a\\x20b%",
        "end success%trace 3:37:67 3:37:67%turns 98%after%d /srv%f /srv/a%f /srv/b%",
    ),
    (
        "for i in \"$@\"; do touch \"/srv/c$i\"; done%",
        "(program lax (for 10 i ((word (q (arg 1)) (q =\\x20) (q (arg 2)))) \
        (call 28 (word (p =touch)) (word (q =/srv/c) (q (var i))))))",
        "end success%trace 3:28:67 3:28:67%turns 98%after%d /srv%f /srv/c%f /srv/cconfigure%",
        "end success%trace 3:28:67%turns 99%after%d /srv%f /srv/cconfigure\\x20%",
    ),
    (
        "true $(foo)%",
        "(program lax (call 10 (word (p =true)) (word (s (output (call 15 (word (p =foo))))))))",
        "end stopped call 3:17%trace%turns 100%after%d /srv%",
        "end stopped call 3:15%trace%turns 100%after%d /srv%",
    ),
    (
        "set -e; false; touch /srv/a%",
        "(program lax (seq (lax) (call 18 (word (p =false))) (call 25 (word (p =touch)) (word (p =/srv/a)))))",
        "end failure%trace%turns 100%after%d /srv%",
        "end success%trace 3:25:67%turns 100%after%d /srv%f /srv/a%",
    ),
    (
        "x=a; (x=b); touch \"/srv/$x\"%",
        "(program lax (seq (set 10 (x (join =a))) (set 16 (x (join =b))) \
        (call 22 (word (p =touch)) (word (q =/srv/) (q (var x))))))",
        "end success%trace 3:22:67%turns 100%after%d /srv%f /srv/a%",
        "end success%trace 3:22:67%turns 100%after%d /srv%f /srv/b%",
    ),
    (
        "f() { touch /srv/a; }; x=f; $x%",
        "(program lax (def f (call 16 (word (p =touch)) (word (p =/srv/a)))) (seq (skip) \
        (set 33 (x (join =f))) (fun 38 f)))",
        "end stopped call 3:38%trace%turns 100%after%d /srv%",
        "end success%trace 3:16:67%turns 100%after%d /srv%f /srv/a%",
    ),
    (
        "while true; do touch /srv/a; break; done%",
        "(program lax (while 10 (not (call 16 (word (p =true)))) (seq \
        (call 25 (word (p =touch)) (word (p =/srv/a))) (break))))",
        "end success%trace 3:25:67%turns 99%after%d /srv%f /srv/a%",
        "end success%trace%turns 100%after%d /srv%",
    ),
];

// What a program comes to, on a page that is not whole where there is none.
fn by_program(alloc: Global, program: Option<&Program>) -> Page {
    match program {
        Some(program) => answer(alloc, "", 100, "d /srv%", program),
        None => Page::lost(alloc),
    }
}

// What a script comes to.
fn by_script(alloc: Global, script: &str) -> Page {
    let found = script_program(alloc, script);
    by_program(alloc, found.get())
}

// What a program comes to, by its line.
fn by_line(alloc: Global, row: &str) -> Page {
    let text = line(alloc, row);
    let found = program_in(alloc, text.text.as_slice());
    by_program(alloc, found.get())
}

// Whether what was found is what a row says of its script and of its program, and not the same.
fn are_said(right: &Page, wrong: &Page, row: &Wrong) -> bool {
    is_said(right, row.2) && is_said(wrong, row.3) && !right.text.equal(&wrong.text)
}

// Whether a row's script and its wrong program come to what the row says.
fn holds(alloc: Global, row: &Wrong) -> bool {
    let right = by_script(alloc, row.0);
    let wrong = by_line(alloc, row.1);
    are_said(&right, &wrong, row)
}

#[test]
fn wrong_translations_do_something_else(rt: HostRuntime) {
    for row in WRONG {
        assert!(rt; holds(rt.alloc(), row), "{}", row.0);
    }
}
