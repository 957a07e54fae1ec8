//! Scripts and their programs, by hand. In a script `N` stands for a newline and `B` for a backslash; it stands behind
//! the first line of its table. Of a program what stands between `(program ` and the last `)` is written.

pub const TABLES: &[(&str, &str)] = &[
    ("#!/bin/sh\n", WORDS),
    ("#!/bin/sh\n", EXPANSIONS),
    ("#!/bin/sh\n", ASSIGNMENTS),
    ("#!/bin/sh\n", REDIRECTIONS),
    ("#!/bin/sh\n", LISTS),
    ("#!/bin/sh\n", BRANCHES),
    ("#!/bin/sh\n", LOOPS),
    ("#!/bin/sh\n", SUBSHELLS),
    ("#!/bin/sh\n", BUILT_INS),
    ("#!/bin/sh\n", TOGETHER),
    ("#!/bin/sh\n", FUNCTIONS),
    ("#!/bin/sh -e\n", STRICT),
];

// static words
const WORDS: &str = r##" -> lax (skip)
: -> lax (call 10 (word (p =:)))
true -> lax (call 10 (word (p =true)))
a b c -> lax (call 10 (word (p =a)) (word (p =b)) (word (p =c)))
N  a -> lax (call 13 (word (p =a)))
'a b' -> lax (call 10 (word (q =a\x20b)))
"a"b -> lax (call 10 (word (q =a) (p =b)))
a '' -> lax (call 10 (word (p =a)) (word (q =\e)))
aBBb -> lax (call 10 (word (p =a) (q =\x5c) (p =b)))
[ a = b ] -> lax (call 10 (word (p =[)) (word (p =a)) (word (p ==)) (word (p =b)) (word (p =])))"##;

// words with expansions
const EXPANSIONS: &str = r##"a $x -> lax (call 10 (word (p =a)) (word (s (var x))))
a "$x" -> lax (call 10 (word (p =a)) (word (q (var x))))
a b$x"c$y"d -> lax (call 10 (word (p =a)) (word (p =b) (s (var x)) (q =c) (q (var y)) (p =d)))
a $1 "$9" -> lax (call 10 (word (p =a)) (word (s (arg 1))) (word (q (arg 9))))
a $# "${#}" -> lax (call 10 (word (p =a)) (word (s (count))) (word (q (count))))
a ${x:-b} -> lax (call 10 (word (p =a)) (word (s (or (var x) b))))
a "${2:-}" -> lax (call 10 (word (p =a)) (word (q (or (arg 2) \e))))
a "$@" -> lax (call 10 (word (p =a)) (args))
"$@" -> lax (call 10 (args))
a $(b) -> lax (call 10 (word (p =a)) (word (s (output (call 14 (word (p =b)))))))
a "$(b)"c -> lax (call 10 (word (p =a)) (word (q (output (call 15 (word (p =b))))) (p =c)))
a $() -> lax (call 10 (word (p =a)) (word (s (output (skip)))))
$(b $(exit)) -> lax (call 10 (word (s (output (call 12 (word (p =b)) (word (s (output (exit 16)))))))))
$x a -> lax (call 10 (word (s (var x))) (word (p =a)))
"$x" exit -> lax (call 10 (word (q (var x))) (word (p =exit)))
$(a) -> lax (call 10 (word (s (output (call 12 (word (p =a)))))))"##;

// assignments, alone and before a command
const ASSIGNMENTS: &str = r##"x= -> lax (set 10 (x (join)))
x=a -> lax (set 10 (x (join =a)))
x=a y=$x -> lax (set 10 (x (join =a)) (y (join (var x))))
x='a'"b"$1 -> lax (set 10 (x (join =a =b (arg 1))))
x=$(a) -> lax (set 10 (x (join (output (call 14 (word (p =a)))))))
x=${y:-z} -> lax (set 10 (x (join (or (var y) z))))
x=1 a b -> lax (call 10 (word (p =a)) (word (p =b)))
x=$y a -> lax (call 10 (word (p =a)))
x=1 >/dev/null a -> lax (quiet (call 10 (word (p =a))))"##;

// redirections, the first outside
const REDIRECTIONS: &str = r##">/dev/null -> lax (quiet (skip))
2>/dev/null -> lax (skip)
a >/dev/null -> lax (quiet (call 10 (word (p =a))))
>/dev/null a -> lax (quiet (call 10 (word (p =a))))
a >&2 -> lax (quiet (call 10 (word (p =a))))
a 2>&1 -> lax (err 10 (call 10 (word (p =a))))
a 2>/dev/null </dev/null -> lax (call 10 (word (p =a)))
a >/dev/null 2>&1 -> lax (quiet (err 10 (call 10 (word (p =a)))))
a 2>&1 >/dev/null -> lax (err 10 (quiet (call 10 (word (p =a)))))
x=1 2>&1 -> lax (err 10 (set 10 (x (join =1))))
{ a; b; } >/dev/null -> lax (quiet (seq (call 12 (word (p =a))) (call 15 (word (p =b)))))"##;

// pipelines, and-or lists, lists and brace groups
const LISTS: &str = r##"! a -> lax (not (call 12 (word (p =a))))
a | b -> lax (stop 10 pipe)
a | b | c -> lax (stop 10 pipe)
! a | b -> lax (not (stop 12 pipe))
a && b -> lax (chain (call 10 (word (p =a))) (and (call 15 (word (p =b)))))
a || b -> lax (chain (call 10 (word (p =a))) (or (call 15 (word (p =b)))))
a && b || c -> lax (chain (call 10 (word (p =a))) (and (call 15 (word (p =b)))) (or (call 20 (word (p =c)))))
a || b && c -> lax (chain (call 10 (word (p =a))) (or (call 15 (word (p =b)))) (and (call 20 (word (p =c)))))
{ exit && exit; } || exit -> lax (chain (chain (exit 12) (and (exit 20))) (or (exit 31)))
a; b -> lax (seq (call 10 (word (p =a))) (call 13 (word (p =b))))
a;b;c -> lax (seq (call 10 (word (p =a))) (call 12 (word (p =b))) (call 14 (word (p =c))))
aNbN -> lax (seq (call 10 (word (p =a))) (call 12 (word (p =b))))
a; -> lax (call 10 (word (p =a)))
{ a; } -> lax (call 12 (word (p =a)))
{ a; b; }; c -> lax (seq (seq (call 12 (word (p =a))) (call 15 (word (p =b)))) (call 21 (word (p =c))))"##;

// if and case
const BRANCHES: &str =
    r##"if a; then b; fi -> lax (if ((call 13 (word (p =a))) (call 21 (word (p =b)))) (skip))
if a; then b; else c; fi -> lax (if ((call 13 (word (p =a))) (call 21 (word (p =b)))) (call 29 (word (p =c))))
if exit; then exit; elif exit; then exit; fi -> lax (if ((exit 13) (exit 24)) ((exit 35) (exit 46)) (skip))
if exit;then exit;elif exit;then exit;else exit;fi -> lax (if ((exit 13) (exit 23)) ((exit 33) (exit 43)) (exit 53))
case a in b) c;; esac -> lax (case 10 (join =a) (((pat (p =b))) (call 23 (word (p =c)))))
case $1 in a|b) exit;; esac -> lax (case 10 (join (arg 1)) (((pat (p =a)) (pat (p =b))) (exit 26)))
case x in a) ;; *) exit; esac -> lax (case 10 (join =x) (((pat (p =a))) (skip)) (((pat (p =*))) (exit 29)))
case "$x" in "a"*) ;; esac -> lax (case 10 (join (var x)) (((pat (q =a) (p =*))) (skip)))
case a in esac -> lax (case 10 (join =a))
case a in $x) b; esac -> lax (case 10 (join =a) (((pat (s (var x)))) (call 24 (word (p =b)))))
case $(exit)b in '') exit; esac -> lax (case 10 (join (output (exit 17)) =b) (((pat (q =\e))) (exit 31)))"##;

// loops
const LOOPS: &str =
    r##"for x in a b; do c; done -> lax (for 10 x ((word (p =a)) (word (p =b))) (call 27 (word (p =c))))
for x; do a; done -> lax (for 10 x ((args)) (call 20 (word (p =a))))
for x in; do a; done -> lax (for 10 x () (call 23 (word (p =a))))
for x in $y "$@"; do a; done -> lax (for 10 x ((word (s (var y))) (args)) (call 31 (word (p =a))))
while a; do b; done -> lax (while 10 (call 16 (word (p =a))) (call 22 (word (p =b))))
until a; do b; done -> lax (while 10 (not (call 16 (word (p =a)))) (seq (not (skip)) (call 22 (word (p =b)))))
until exit; do exit; exit; done -> lax (while 10 (not (exit 16)) (seq (not (skip)) (seq (exit 25) (exit 31))))
while a; do break; done -> lax (while 10 (call 16 (word (p =a))) (break))
while a; do continue; done -> lax (while 10 (call 16 (word (p =a))) (continue))
while break; do a; done -> lax (while 10 (break) (call 26 (word (p =a))))"##;

// subshells
const SUBSHELLS: &str = r##"(a) -> lax (sub 10 (call 11 (word (p =a))))
(a; b) -> lax (sub 10 (seq (call 11 (word (p =a))) (call 14 (word (p =b)))))
(a) 2>&1 -> lax (err 10 (sub 10 (call 11 (word (p =a)))))"##;

// special built-ins
const BUILT_INS: &str = r##"'set' "-e" -> lax (strict)
set +e -> lax (lax)
exit -> lax (exit 10)
exit 1 -> lax (exit 10 (word (p =1)))
exit "$x" 2 -> lax (exit 10 (word (q (var x))) (word (p =2)))
export x -> lax (export 10 (word (p =x)))
export x=1 y="$z" -> lax (export 10 (word (p =x=1)) (word (p =y=) (q (var z))))
unset x -> lax (unset 10 (word (p =x)))
unset x $y -> lax (unset 10 (word (p =x)) (word (s (var y))))"##;

// several of these
const TOGETHER: &str = "set -eNtest -d /etc || mkdir /etc -> lax (seq (strict) \
    (chain (call 17 (word (p =test)) (word (p =-d)) (word (p =/etc))) \
    (or (call 33 (word (p =mkdir)) (word (p =/etc))))))";

// functions
const FUNCTIONS: &str = r##"f() { :; } -> lax (def f (call 16 (word (p =:)))) (skip)
f() { :; }; f a -> lax (def f (call 16 (word (p =:)))) (seq (skip) (fun 22 f (word (p =a))))
f; f() { :; } -> lax (def f (call 19 (word (p =:)))) (seq (call 10 (word (p =f))) (skip))
f() { :; }; g() { f; }; g -> lax (def f (call 16 (word (p =:)))) (def g (fun 28 f)) (seq (skip) (skip) (fun 34 g))
f() { return; }; f -> lax (def f (return 16)) (seq (skip) (fun 27 f))
f() { return 1; } -> lax (def f (return 16 (word (p =1)))) (skip)
f() { :; }; 'f' -> lax (def f (call 16 (word (p =:)))) (seq (skip) (fun 22 f))
f() { :; }; x=$(f) -> lax (def f (call 16 (word (p =:)))) (seq (skip) (set 22 (x (join (output (fun 26 f))))))
f() { :; }; (f) -> lax (def f (call 16 (word (p =:)))) (seq (skip) (sub 22 (fun 23 f)))
f() { a $1; }; f "$@" -> lax (def f (call 16 (word (p =a)) (word (s (arg 1))))) (seq (skip) (fun 25 f (args)))"##;

// the strict flag of the first line
const STRICT: &str = r##": -> strict (call 13 (word (p =:)))
set +e -> strict (lax)"##;
