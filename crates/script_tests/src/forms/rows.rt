//! Scripts and what is answered of them, by hand: `ok`, or the form and its offset. In a text `N` stands for a newline and `B` for a
//! backslash; it stands behind `#!/bin/sh` and a newline, which are 10 bytes.

pub const TABLES: &[&str] = &[
    ALL_ARGS,
    SET,
    IFS,
    PREFIXES,
    EXPORTS,
    LOOP_EXITS,
    RETURNS,
    DEFINITIONS,
    CALLS,
    ORDER,
];

// "$@" as the subject or a pattern of case
const ALL_ARGS: &str = r##"case "$@" in a) ;; esac -> all-args 15
case a in b|"$@") ;; esac -> all-args 22
case a in "$@") ;; esac -> all-args 20
a "$@" -> ok
for x in "$@"; do a; done -> ok
$(case_ "$@") -> ok"##;

// set
const SET: &str = r##"set -e -> ok
set +e -> ok
"set" '-e' -> ok
Bset -"e" >/dev/null -> ok
set -> option 10
set -u -> option 10
set -ex -> option 10
set -e -e -> option 10
set -e a -> option 10
set -- a -> option 10
set $x -> option 10
set "$@" -> option 10
set "$x" -> option 10
set '' -> option 10
$x -u -> ok
se"$x" -u -> ok
a; if b; then set -o; fi -> option 24
x=$(set -x) -> option 14"##;

// IFS
const IFS: &str = r##"IFS= -> ifs 10
IFS=: a -> ifs 10
x=1 IFS= -> ifs 10
a; IFS=x -> ifs 13
for IFS in a; do b; done -> ifs 10
for x in $(IFS=); do b; done -> ifs 21
export IFS=a -> ok
IFSX=a -> ok
a IFS=b -> ok"##;

// assigns before a name
const PREFIXES: &str = r##"x=1 a -> ok
x=1 -> ok
x=$(a) -> ok
x=$y a -> ok
x=1 $y -> prefix 10
x=1 "$y" -> prefix 10
x=1 a$(b) -> prefix 10
x=1 "$@" -> prefix 10
x=1 : -> prefix 10
x=1 exit -> prefix 10
x=1 set -e -> prefix 10
x=1 set -u -> option 10
x=1 export y -> prefix 10
x=1 unset y -> prefix 10
x=1 return -> prefix 10
x=1 break -> prefix 10
x=1 con"tinue" -> prefix 10
x=1 true -> ok
x=1 echo -> ok
x=$(a) b -> prefix 10
y=1 x="$(a)" b -> prefix 10
x=1 f; f() { a; } -> prefix 10
f() { a; }; x=1 f -> prefix 22
f() { x=1 f; } -> prefix 16
x=1 f; (f() { a; }) -> prefix 10
IFS= $x -> ifs 10
>/dev/null x=1 : -> prefix 10"##;

// export
const EXPORTS: &str = r##"export -> ok
export x -> ok
export x=1 y='a b' "z=$x" -> ok
export x="$(a)" "$@" -> ok
export $x -> export 10
export x=$y -> export 10
export x=$(a) -> export 10
export a b${x:-c} -> export 10
export "$x"$y -> export 10
unset $x -> ok
$y $x -> ok"##;

// break and continue
const LOOP_EXITS: &str = r##"break -> loop-exit 10
continue -> loop-exit 10
while a; do break; done -> ok
while break; do a; done -> ok
until continue; do a; done -> ok
for x in a; do if b; then continue; fi; done -> ok
for x; do case a in b) break;; esac; done -> ok
while a; do { break; }; done -> ok
while a; do break >/dev/null; done -> ok
while a; do break || b && ! continue; done -> ok
while a; do break | b; done -> ok
while a; do break 1; done -> loop-exit 22
while a; do break $x; done -> loop-exit 22
while a; do "break" ''; done -> loop-exit 22
while a; do (break); done -> loop-exit 23
while a; do b $(break); done -> loop-exit 26
for x in $(break); do a; done -> loop-exit 21
while a; do (while b; do break; done); done -> ok
while a; do b; done; break -> loop-exit 31
f() { while a; do break; done; } -> ok
f() { break; } -> loop-exit 16
$x break -> ok
a break -> ok"##;

// return
const RETURNS: &str = r##"return -> return 10
f() { return; } -> ok
f() { return 0; } -> ok
f() { return 1 2; } -> ok
f() { if a; then return; fi; } -> ok
f() { while a; do return; done; } -> ok
f() { a | return; } -> ok
f() { (return); } -> return 17
f() { x=$(return); } -> return 20
(f() { return; }) -> function-place 11
exit 1 2 -> ok"##;

// definitions
const DEFINITIONS: &str = r##"f() { a; } -> ok
f() { a; }; g() { f; } -> ok
{ f() { a; }; } -> ok
{ f() { a; }; b; } -> ok
{ { f() { a; }; b; }; } -> ok
{ f() { a; }; a; }; b -> function-place 12
{ f() { a; }; }; b -> ok
(f() { a; }) -> function-place 11
! f() { a; } -> function-place 12
f() { a; } && b -> function-place 10
a || f() { b; } -> function-place 15
f() { a; } | b -> function-place 10
{ f() { a; }; } >/dev/null -> function-place 12
if a; then f() { b; }; fi -> function-place 21
f() { g() { a; }; } -> function-place 16
x=$(f() { a; }) -> function-place 14
while a; do f() { b; }; done -> function-place 22
f() { a; }; f() { b; } -> function-twice 22
f() { a; }; (f() { b; }) -> function-place 23
f() { a; }; g() { b; }; f() { c; } -> function-twice 34
f() { a; }; F() { b; } -> ok
true() { a; } -> function-name 10
rm() { a; } -> function-name 10
test() { a; } -> function-name 10
echo() { a; } -> function-name 10
set() { a; } -> function-name 10
break() { a; } -> function-name 10
unset() { a; } -> function-name 10
cat() { a; } -> ok
cd() { a; } -> ok
true() { a; }; true() { b; } -> function-name 10
f() { a; }; ln() { f; } -> function-name 22
(true() { a; }) -> function-place 11"##;

// calls in a function's body
const CALLS: &str = r##"f() { f; } -> call-order 16
f() { "f" a; } -> call-order 16
f() { $f; } -> ok
f() { a f; } -> ok
f() { a; }; f -> ok
f; f() { a; } -> ok
f() { g; }; g() { a; } -> call-order 16
f() { a; g; }; g() { b; } -> call-order 19
f() { if g; then a; fi; }; g() { b; } -> call-order 19
f() { x=$(g); }; g() { b; } -> call-order 20
f() { (f) >&2; } -> call-order 17
f() { a; }; g() { f; }; h() { g; f; } -> ok
f() { a; }; g() { f; }; f() { b; } -> function-twice 34
f() { g; }; (g() { a; }) -> call-order 16
f() { mkdir; }; mkdir() { a; } -> call-order 16"##;

// the least offset, and the first of the table at one offset
const ORDER: &str = r##"IFS=; break -> ifs 10
break; IFS= -> loop-exit 10
a; x=1 :; set -u -> prefix 13
IFS=$(break) -> ifs 10
a $(break) $(return) -> loop-exit 14
x=$(break) a -> prefix 10
IFS= set -u -> option 10
x=1 break 2 -> prefix 10"##;
