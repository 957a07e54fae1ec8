//! Programs as text, and texts that are no program, by hand.

use crate::pages::line;
use crate::programs::{is_none_in, prints, program_in};
use std::alloc::Global;

// A program a line, without its newline.
const PROGRAMS: &str = r#"(program lax (skip))
(program strict (skip))
(program lax (set 0))
(program lax (set 7 (x =a)))
(program lax (set 4294967295 (x =a) (y =\e)))
(program strict (set 12 (PATH =/usr/bin:/bin) (x (var y)) (z (arg 1))))
(program lax (set 0 (x (var \e))))
(program lax (set 0 (x (arg 9))))
(program lax (set 0 (x (count))))
(program lax (set 0 (x (or (arg 1) \e))))
(program lax (set 0 (x (or (var y) none\x20at\x20all))))
(program lax (set 0 (x (or (or (count) a) b))))
(program lax (set 0 (x (output (skip)))))
(program lax (set 0 (x (output (seq (call 2 (word (p =ls))) (strict))))))
(program lax (set 0 (x (join))))
(program lax (set 0 (x (join =a))))
(program lax (set 0 (x (join =a (var b) (join (arg 2) =\x28)))))
(program lax (set 3 (p =p)))
(program lax (set 3 (q (join)) (s (count))))
(program lax (set 3 (and =and) (or =or) (var (var var))))
(program lax (set 0 (x =\x00\x0a\x20\x28\x29\x2c\x5c\x7b\x7d\x7f\xff)))
(program lax (set 0 (x =!#"$%&'*+-./09:;<=>?@AZ[]^_`az|~)))
(program lax (call 0))
(program lax (call 1 (word)))
(program lax (call 10 (args)))
(program lax (call 10 (word (p =echo)) (args) (word)))
(program lax (call 0 (word (p =echo)) (word (q (var x)))))
(program lax (call 0 (word (p =echo)) (word (s (var x)) (p =-) (q =a\x20b))))
(program lax (call 0 (word (p =word)) (word (s (output (call 6 (word (p =args))))))))
(program lax (def f (skip)) (fun 9 f))
(program lax (def f (skip)) (fun 9 f (word (p =a)) (args)))
(program lax (def \e (skip)) (fun 0 \e))
(program strict (def f (return 3)) (skip))
(program strict (def f (return 3 (word (p =1)))) (fun 20 f))
(program lax (def f (while 0 (skip) (return 5))) (skip))
(program lax (def a (skip)) (def b (fun 1 a)) (def c (seq (fun 2 a) (fun 3 b))) (fun 4 c))
(program lax (def a (quiet (err 4 (not (return 9))))) (skip))
(program lax (def skip (skip)) (def def (fun 1 skip)) (fun 2 def))
(program lax (seq (skip) (skip)))
(program lax (seq (strict) (call 7 (word (p =a))) (lax)))
(program lax (seq (seq (skip) (skip)) (seq (lax) (lax) (lax))))
(program lax (chain (skip) (and (skip))))
(program lax (chain (skip) (or (skip))))
(program lax (chain (call 0) (and (call 1)) (or (call 2)) (and (call 3))))
(program lax (chain (chain (skip) (or (lax))) (or (strict))))
(program lax (not (skip)))
(program lax (not (not (not (call 0 (word (p =test)))))))
(program lax (if ((skip) (lax)) (skip)))
(program lax (if ((skip) (lax)) ((not (skip)) (strict)) (call 3 (word (p =no)))))
(program lax (if ((skip) (if ((skip) (skip)) (skip))) (if ((lax) (lax)) (lax))))
(program lax (for 1 x () (skip)))
(program lax (for 1 x ((args)) (call 9 (args))))
(program lax (for 1 x ((word (p =a)) (word (p =b)) (args)) (break)))
(program lax (for 0 \x20 ((word)) (for 5 y () (continue))))
(program lax (while 0 (skip) (skip)))
(program lax (while 0 (continue) (break)))
(program lax (while 8 (not (call 8 (word (p =c)))) (seq (not (skip)) (call 9))))
(program lax (while 0 (skip) (if ((skip) (break)) (continue))))
(program lax (while 0 (skip) (chain (quiet (break)) (or (err 3 (continue))))))
(program lax (case 0 =a))
(program lax (case 5 (var x) (((pat)) (skip))))
(program lax (case 5 (arg 1) (((pat (p =configure))) (call 20)) (((pat (p =*))) (exit 31 (word (p =1))))))
(program lax (case 5 (count) (((pat (p =a)) (pat (q =*) (p =?)) (pat (s (var y)))) (skip))))
(program lax (case 5 (join =a =b) (((pat) (pat)) (case 9 =c (((pat)) (lax))))))
(program lax (while 0 (skip) (case 1 =a (((pat)) (break)))))
(program lax (sub 0 (skip)))
(program strict (sub 3 (seq (set 4 (x =a)) (exit 9))))
(program lax (sub 3 (while 4 (skip) (break))))
(program lax (quiet (call 0 (word (p =ls)))))
(program lax (quiet (quiet (err 0 (quiet (skip))))))
(program lax (err 4294967295 (call 0)))
(program lax (exit 0))
(program lax (exit 0 (word (p =0))))
(program lax (export 0))
(program lax (export 0 (word (p =PATH)) (args)))
(program lax (unset 3 (word (p =x)) (word (q =y))))
(program lax (stop 0 call))
(program lax (seq (stop 1 echo) (stop 2 link) (stop 3 slash) (stop 4 root) (stop 5 empty)))
(program lax (seq (stop 6 dotdot) (stop 7 dot) (stop 8 long) (stop 9 glob) (stop 10 pattern)))
(program lax (seq (stop 11 pipe) (stop 12 message) (stop 13 strict) (stop 14 status) (stop 15 run)))
(program lax (seq (stop 16 same) (stop 17 conffile) (stop 18 restore)))"#;

// Texts that are no program, without their newline, each behind the reason why.
const WRONG: &str = r#"no text at all: 
no list: skip
a word in place of a program: program
an empty list: ()
another head: (programs lax (skip))
an upper letter: (Program lax (skip))
no strict flag: (program (skip))
another flag: (program loose (skip))
two flags: (program lax strict (skip))
no body: (program lax)
definitions and no body: (program lax (def f (skip)))
two bodies: (program lax (skip) (skip))
a definition behind the body: (program lax (skip) (def f (skip)))
a body that is a string: (program lax =a)
a body that is a piece: (program lax (p =a))
a body that is a program: (program lax (program lax (skip)))
an unknown word: (program lax (nop))
a word for a statement: (program lax skip)
a statement that is an empty list: (program lax ())
a member too many: (program lax (skip skip))
two spaces: (program lax  (skip))
a space before:  (program lax (skip))
a space before the parenthesis: (program lax (skip ))
a space behind the parenthesis: (program lax ( skip))
a space at the end: (program lax (skip)) 
a parenthesis too few: (program lax (skip)
a parenthesis too many: (program lax (skip)))
a text behind the program: (program lax (skip))(skip)
no space between members: (program lax(skip))
a seq of none: (program lax (seq))
a seq of one: (program lax (seq (skip)))
a chain of none: (program lax (chain))
a chain of one: (program lax (chain (skip)))
a chain without a link: (program lax (chain (skip) (skip)))
another link: (program lax (chain (skip) (then (skip))))
a not of none: (program lax (not))
a not of two: (program lax (not (skip) (skip)))
an if without an arm: (program lax (if (skip)))
an if without a last branch: (program lax (if ((skip) (skip))))
an if of nothing: (program lax (if))
an arm of one: (program lax (if ((skip)) (skip)))
an arm of three: (program lax (if ((skip) (skip) (skip)) (skip)))
a case arm without a pattern: (program lax (case 0 =a (() (skip))))
a case arm without a body: (program lax (case 0 =a (((pat)))))
a pattern that is a word: (program lax (case 0 =a (((word)) (skip))))
no subject: (program lax (case 0))
a for without a list: (program lax (for 0 x (skip)))
a for without a name: (program lax (for 0 () (skip)))
a for over a pattern: (program lax (for 0 x ((pat)) (skip)))
a while without a body: (program lax (while 0 (skip)))
no offset: (program lax (call (word)))
an offset that is no number: (program lax (call x (word)))
an offset with a leading zero: (program lax (call 01 (word)))
two zeros: (program lax (set 00))
an offset with a sign: (program lax (call +1 (word)))
an offset of 2 ^ 32: (program lax (call 4294967296 (word)))
an offset of 2 ^ 64: (program lax (call 18446744073709551616 (word)))
argument 0: (program lax (set 0 (x (arg 0))))
argument 10: (program lax (set 0 (x (arg 10))))
argument 257: (program lax (set 0 (x (arg 257))))
argument 1 as 01: (program lax (set 0 (x (arg 01))))
an argument without its number: (program lax (set 0 (x (arg))))
a var without its name: (program lax (set 0 (x (var))))
a var of two: (program lax (set 0 (x (var a b))))
an or without a string: (program lax (set 0 (x (or =a))))
an or of a list: (program lax (set 0 (x (or =a (count)))))
a literal without its sign: (program lax (set 0 (x a)))
a literal of no bytes without its escape: (program lax (set 0 (x =)))
an upper digit in an escape: (program lax (set 0 (x =\xFF)))
an escape of a byte that stands for itself: (program lax (set 0 (x =\x61)))
an escape that is cut: (program lax (set 0 (x =\x0)))
another escape: (program lax (set 0 (x =\n)))
no bytes beside bytes: (program lax (set 0 (x =a\e)))
a comma: (program lax (set 0 (x =a,b)))
a brace: (program lax (set 0 (x ={)))
a byte above 126: (program lax (set 0 (x =é)))
an assignment without a value: (program lax (set 0 (x)))
an assignment of two values: (program lax (set 0 (x =a =b)))
an assignment that is a word: (program lax (set 0 x=a))
a string for a piece: (program lax (call 0 (word =a)))
another piece: (program lax (call 0 (word (r =a))))
a piece of none: (program lax (call 0 (word (p))))
args with a member: (program lax (call 0 (args =a)))
an unknown reason: (program lax (stop 0 because))
no reason: (program lax (stop 0))
a fun without its def: (program lax (fun 0 f))
a fun before its def: (program lax (def a (fun 1 b)) (def b (skip)) (skip))
a fun in its own def: (program lax (def a (fun 1 a)) (skip))
a fun of another name: (program lax (def f (skip)) (fun 9 g))
two def of one name: (program lax (def f (skip)) (def f (lax)) (skip))
a def without a body: (program lax (def f) (skip))
a def in a statement: (program lax (seq (def f (skip)) (skip)))
a break outside of a loop: (program lax (break))
a continue outside of a loop: (program lax (continue))
a break through a sub: (program lax (while 0 (skip) (sub 1 (break))))
a continue through an output: (program lax (while 0 (skip) (set 1 (x (output (continue))))))
a break through a def: (program lax (def f (break)) (while 0 (skip) (fun 1 f)))
a break in the list of a for: (program lax (for 0 x ((word (s (output (break))))) (skip)))
a return outside of a def: (program lax (return 0))
a return through a sub: (program lax (def f (sub 0 (return 1))) (skip))
a return through an output: (program lax (def f (set 0 (x (output (return 1))))) (skip))"#;

// Texts that are wrong in a newline or a control character, with the reason why.
const WRONG_ENDS: &[(&[u8], &str)] = &[
    (b"", "no bytes"),
    (b"\n", "a newline alone"),
    (b"(program lax (skip))", "no newline"),
    (b"(program lax (skip))\n\n", "two newlines"),
    (b"\n(program lax (skip))\n", "a newline before"),
    (b"(program lax (skip))\nx", "text behind the newline"),
    (
        b"(program lax (skip))\n(program lax (skip))\n",
        "two programs",
    ),
    (b"(program lax\n(skip))\n", "a newline for a space"),
    (b"(program\tlax (skip))\n", "a tab for a space"),
    (b"(program lax (skip))\r\n", "a carriage return"),
    (b"(program lax (skip)\0)\n", "a byte of value 0"),
];

// Whether there is a program with the text of a line, and it is printed with the same text.
fn is_again(alloc: Global, row: &str) -> bool {
    let text = line(alloc, row);
    let found = program_in(alloc, text.text.as_slice());
    prints(alloc, found.get(), &text)
}

// Whether the line behind the reason is no program.
fn is_wrong(alloc: Global, row: &str) -> bool {
    match row.split_once(": ") {
        None => false,
        Some((_why, wrong)) => {
            let text = line(alloc, wrong);
            text.whole && is_none_in(alloc, text.text.as_slice())
        }
    }
}

#[test]
fn programs_are_read_and_printed_again(rt: HostRuntime) {
    for row in PROGRAMS.lines() {
        assert!(rt; is_again(rt.alloc(), row), "{row}");
    }
}

#[test]
fn other_texts_are_no_program(rt: HostRuntime) {
    for row in WRONG.lines() {
        assert!(rt; is_wrong(rt.alloc(), row), "{row}");
    }
}

#[test]
fn a_program_is_one_line(rt: HostRuntime) {
    for row in WRONG_ENDS {
        assert!(rt; is_none_in(rt.alloc(), row.0), "{}", row.1);
    }
}
