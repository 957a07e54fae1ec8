//! Texts and their trees or faults by hand, a row for each, from POSIX.1-2017, XCU 2.9 and 2.10. In a text `N` stands for a newline, `T` for a
//! tab and `B` for a backslash; ` -> ` ends it. Where a text does not begin with `#!`, it stands behind `#!/bin/sh` and a newline, which
//! are 10 bytes.

pub const TABLES: &[&str] = &[
    FIRST,
    PARTS,
    SUBSTITUTIONS,
    ASSIGNMENTS,
    REDIRECTIONS,
    LISTS,
    GROUPS,
    CONDITIONALS,
    FOR_LOOPS,
    LOOPS,
    CASES,
    DEFINITIONS,
    NESTED_FAULTS,
    TEMPLATE,
    INNER_PLACES,
    NESTS,
];

// First lines, no command and one command.
pub const FIRST: &str = r#" -> (seq)
N -> (seq)
NN -> (seq)
 T -> (seq)
# a -> (seq)
# aBNb -> (simple 15 (w 15 "b"))
#!/bin/sh -> (seq)
#!/bin/sh -e -> strict (seq)
#! T/bin/dash T-e Na -> strict (simple 19 (w 19 "a"))
#!/bin/bashTNa -> (simple 13 (w 13 "a"))
a -> (simple 10 (w 10 "a"))
aN -> (simple 10 (w 10 "a"))
a; -> (simple 10 (w 10 "a"))
a;NN -> (simple 10 (w 10 "a"))
NNa -> (simple 12 (w 12 "a"))
a b  c -> (simple 10 (w 10 "a") (w 12 "b") (w 15 "c"))
a#b #c -> (simple 10 (w 10 "a#b"))
a;#cNb -> (seq (simple 10 (w 10 "a")) (simple 15 (w 15 "b")))
aBNb BN c -> (simple 10 (w 10 "ab") (w 18 "c"))
BNa -> (simple 12 (w 12 "a"))
aBBNb -> (seq (simple 10 (w 10 "a" '\x5c')) (simple 14 (w 14 "b")))
aB -> (simple 10 (w 10 "a\x5c"))"#;

// Words by their parts.
pub const PARTS: &str = r#"a'b c'd -> (simple 10 (w 10 "a" 'b c' "d"))
'' -> (simple 10 (w 10 ''))
"" -> (simple 10 (w 10 ''))
"BN" -> (simple 10 (w 10 ''))
"aBNb" -> (simple 10 (w 10 'ab'))
"aB$bB"cB`dBBeBf" -> (simple 10 (w 10 'a$b\x22c`d\x5ce\x5cf'))
'aBNb' -> (simple 10 (w 10 'a\x5c\x0ab'))
BaBb -> (simple 10 (w 10 'a' 'b'))
aB'b -> (simple 10 (w 10 "a" '\x27' "b"))
"a"'b'"" -> (simple 10 (w 10 'a' 'b' ''))
"$x" -> (simple 10 (w 10 q$x))
"a$x b" -> (simple 10 (w 10 'a' q$x ' b'))
$x$1$9$# -> (simple 10 (w 10 $x $1 $9 $#))
${x}${1}${9}${#} -> (simple 10 (w 10 $x $1 $9 $#))
$x_1- -> (simple 10 (w 10 $x_1 "-"))
$10 -> (simple 10 (w 10 $1 "0"))
${x:-} -> (simple 10 (w 10 $x:-""))
"${x:-a b;(c)}" -> (simple 10 (w 10 q$x:-"a b;(c)"))
${2:-a}b -> (simple 10 (w 10 $2:-"a" "b"))
$BNx$BN{BNyBN:BN-BNbBN} -> (simple 10 (w 10 $x $y:-"b"))
$ -> (simple 10 (w 10 "$"))
a$/$. -> (simple 10 (w 10 "a$/$."))
"$" -> (simple 10 (w 10 '$'))
"$'b'" -> (simple 10 (w 10 '$\x27b\x27'))
"$@" -> (simple 10 (w 10 @))
"BN$BN@" -> (simple 10 (w 10 @))
a "$@" b -> (simple 10 (w 10 "a") (w 12 @) (w 17 "b"))
"~" B~ a~ a/~ -> (simple 10 (w 10 '~') (w 14 '~') (w 17 "a~") (w 20 "a/~"))
{} a{b} a,b{ x..{ -> (simple 10 (w 10 "{}") (w 13 "a{b}") (w 18 "a,b{") (w 23 "x..{"))"#;

// Command substitutions.
pub const SUBSTITUTIONS: &str = r#"$() -> (simple 10 (w 10 (run 10 (seq))))
$(N) -> (simple 10 (w 10 (run 10 (seq))))
"$(a)" -> (simple 10 (w 10 (qrun 11 (simple 13 (w 13 "a")))))
a$(b;c)d -> (simple 10 (w 10 "a" (run 11 (seq (simple 13 (w 13 "b")) (simple 15 (w 15 "c")))) "d"))
$(a $(b)) -> (simple 10 (w 10 (run 10 (simple 12 (w 12 "a") (w 14 (run 14 (simple 16 (w 16 "b"))))))))
$( (a) ) -> (simple 10 (w 10 (run 10 (sub 13 (simple 14 (w 14 "a"))))))
$(a #)N) -> (simple 10 (w 10 (run 10 (simple 12 (w 12 "a")))))
"$(a "b")" -> (simple 10 (w 10 (qrun 11 (simple 13 (w 13 "a") (w 15 'b')))))
$(f() { a; }) -> (simple 10 (w 10 (run 10 (define 12 f (simple 18 (w 18 "a"))))))
$BN(a) -> (simple 10 (w 10 (run 10 (simple 14 (w 14 "a")))))"#;

// Assignments.
pub const ASSIGNMENTS: &str = r#"x= -> (simple 10 (= x (w 10)))
x=a -> (simple 10 (= x (w 10 "a")))
x='' -> (simple 10 (= x (w 10 '')))
x=$y -> (simple 10 (= x (w 10 $y)))
x="a"b=c -> (simple 10 (= x (w 10 'a' "b=c")))
x=$(a) y=1 -> (simple 10 (= x (w 10 (run 12 (simple 14 (w 14 "a"))))) (= y (w 17 "1")))
_x1=a=b c=d -> (simple 10 (= _x1 (w 10 "a=b")) (= c (w 18 "d")))
x=1 a y=2 -> (simple 10 (= x (w 10 "1")) (w 14 "a") (w 16 "y=2"))
xBN=1 -> (simple 10 (= x (w 10 "1")))
1x=a -> (simple 10 (w 10 "1x=a"))
=a -> (simple 10 (w 10 "=a"))
x+=a -> (simple 10 (w 10 "x+=a"))
x"="a -> (simple 10 (w 10 "x" '=' "a"))
xB=a -> (simple 10 (w 10 "x" '=' "a"))
"x"=a -> (simple 10 (w 10 'x' "=a"))
$x=a -> (simple 10 (w 10 $x "=a"))
x=1 if -> (simple 10 (= x (w 10 "1")) (w 14 "if"))
x=1 f() -> syntax 15"#;

// Redirections of simple and of compound commands.
pub const REDIRECTIONS: &str = r#">/dev/null -> (redir 10 (simple 10) out-null)
> /dev/null -> (redir 10 (simple 10) out-null)
a>/dev/null -> (redir 10 (simple 10 (w 10 "a")) out-null)
a 1>/dev/null >>/dev/null 1>> /dev/null -> (redir 10 (simple 10 (w 10 "a")) out-null out-null out-null)
a 2>/dev/null 2>>T/dev/null -> (redir 10 (simple 10 (w 10 "a")) err-null err-null)
a </dev/null 0<T/dev/null -> (redir 10 (simple 10 (w 10 "a")) in-null in-null)
a >&2 1>&2 2>&1 -> (redir 10 (simple 10 (w 10 "a")) out-to-err out-to-err err-to-out)
a >&2>/dev/null -> (redir 10 (simple 10 (w 10 "a")) out-to-err out-null)
a2>/dev/null -> (redir 10 (simple 10 (w 10 "a2")) out-null)
a "2">/dev/null -> (redir 10 (simple 10 (w 10 "a") (w 12 '2')) out-null)
a 2 >/dev/null -> (redir 10 (simple 10 (w 10 "a") (w 12 "2")) out-null)
a 2BN>BN&BN1 -> (redir 10 (simple 10 (w 10 "a")) err-to-out)
>/dev/null mkdir /srv/a -> (redir 10 (simple 10 (w 21 "mkdir") (w 27 "/srv/a")) out-null)
a >/dev/null b -> (redir 10 (simple 10 (w 10 "a") (w 23 "b")) out-null)
x=1 >&2 y=2 a -> (redir 10 (simple 10 (= x (w 10 "1")) (= y (w 18 "2")) (w 22 "a")) out-to-err)
>/dev/null if -> (redir 10 (simple 10 (w 21 "if")) out-null)
>/dev/null f() -> syntax 22
>/dev/null (a) -> syntax 21
>/dev/null { a; } -> syntax 26
(a) >&2 2>&1 -> (redir 10 (sub 10 (simple 11 (w 11 "a"))) out-to-err err-to-out)
{ a; } >&2 -> (redir 10 (simple 12 (w 12 "a")) out-to-err)
(a) >&2 b -> syntax 18"#;

// Lists, and-or lists and pipelines.
pub const LISTS: &str = r#"a;b -> (seq (simple 10 (w 10 "a")) (simple 12 (w 12 "b")))
aNbNNc;N -> (seq (simple 10 (w 10 "a")) (simple 12 (w 12 "b")) (simple 15 (w 15 "c")))
a;NNb -> (seq (simple 10 (w 10 "a")) (simple 14 (w 14 "b")))
a&&b -> (chain (simple 10 (w 10 "a")) (and (simple 13 (w 13 "b"))))
a||b -> (chain (simple 10 (w 10 "a")) (or (simple 13 (w 13 "b"))))
a && b || c -> (chain (simple 10 (w 10 "a")) (and (simple 15 (w 15 "b"))) (or (simple 20 (w 20 "c"))))
a &&NNb -> (chain (simple 10 (w 10 "a")) (and (simple 16 (w 16 "b"))))
a &BN& b -> (chain (simple 10 (w 10 "a")) (and (simple 17 (w 17 "b"))))
a|b -> (pipe 10 (simple 10 (w 10 "a")) (simple 12 (w 12 "b")))
a |NN b|c -> (pipe 10 (simple 10 (w 10 "a")) (simple 16 (w 16 "b")) (simple 18 (w 18 "c")))
! a -> (not 10 (simple 12 (w 12 "a")))
! a | b -> (not 10 (pipe 12 (simple 12 (w 12 "a")) (simple 16 (w 16 "b"))))
! a && ! b -> (chain (not 10 (simple 12 (w 12 "a"))) (and (not 17 (simple 19 (w 19 "b")))))
! { a; } -> (not 10 (simple 14 (w 14 "a")))
{ a; } | b -> (pipe 10 (simple 12 (w 12 "a")) (simple 19 (w 19 "b")))
>&2 a | b -> (pipe 10 (redir 10 (simple 10 (w 14 "a")) out-to-err) (simple 18 (w 18 "b")))
a | b && c; d -> (seq (chain (pipe 10 (simple 10 (w 10 "a")) (simple 14 (w 14 "b"))) (and (simple 19 (w 19 "c")))) (simple 22 (w 22 "d")))
a ! b -> (simple 10 (w 10 "a") (w 12 "!") (w 14 "b"))
!a -> (simple 10 (w 10 "!a"))
; -> syntax 10
a;; -> syntax 11
a;N;b -> syntax 13
a ; ; -> syntax 14
aN;b -> syntax 12
aN&& b -> syntax 12
&& a -> syntax 10
a && -> syntax 14
a && ;N -> syntax 15
a &&N -> syntax 15
a && || b -> syntax 15
a | | b -> syntax 14
a | ! b -> syntax 14
! -> syntax 11
! ! a -> syntax 12
!Na -> syntax 11
! ; -> syntax 12
a ) -> syntax 12
aN| b -> syntax 12
a (b) -> syntax 13
a b (c) -> syntax 14"#;

// Brace groups and subshells.
pub const GROUPS: &str = r#"{ a; } -> (simple 12 (w 12 "a"))
{ aN} -> (simple 12 (w 12 "a"))
{Na;b;N} -> (seq (simple 12 (w 12 "a")) (simple 14 (w 14 "b")))
{ a; b; }; c -> (seq (seq (simple 12 (w 12 "a")) (simple 15 (w 15 "b"))) (simple 21 (w 21 "c")))
(a) -> (sub 10 (simple 11 (w 11 "a")))
(Na;N) -> (sub 10 (simple 12 (w 12 "a")))
( (a) ) -> (sub 10 (sub 12 (simple 13 (w 13 "a"))))
{ (a) } -> (sub 12 (simple 13 (w 13 "a")))
{ (a) >&2 } -> (redir 12 (sub 12 (simple 13 (w 13 "a"))) out-to-err)
{ { a; } } -> (simple 14 (w 14 "a"))
({ a; }) -> (sub 10 (simple 13 (w 13 "a")))
{ a } -> syntax 15
{ a }; } -> (simple 12 (w 12 "a") (w 14 "}"))
{a; } -> syntax 14
{ } -> syntax 12
{ ; } -> syntax 12
() -> syntax 11
(trueN -> syntax 16
{ a; -> syntax 14
(a -> syntax 12
(a)) -> syntax 13
{ (a) b; } -> syntax 16
(a) (b) -> syntax 14
{ a; } b -> syntax 17
{ a; } { b; } -> syntax 17
{ (a) B} -> syntax 16"#;

// `if`.
pub const CONDITIONALS: &str =
    r#"if a; then b; fi -> (if 10 (arm (simple 13 (w 13 "a")) (simple 21 (w 21 "b"))))
if aNthen bNfi -> (if 10 (arm (simple 13 (w 13 "a")) (simple 20 (w 20 "b"))))
ifNa;NthenNb;Nfi -> (if 10 (arm (simple 13 (w 13 "a")) (simple 21 (w 21 "b"))))
if a; then b; else c; fi -> (if 10 (arm (simple 13 (w 13 "a")) (simple 21 (w 21 "b"))) (else (simple 29 (w 29 "c"))))
if a; then b; elif c; then d; fi -> (if 10 (arm (simple 13 (w 13 "a")) (simple 21 (w 21 "b"))) (arm (simple 29 (w 29 "c")) (simple 37 (w 37 "d"))))
if a; then b; elif c; then d; else e; f; fi -> (if 10 (arm (simple 13 (w 13 "a")) (simple 21 (w 21 "b"))) (arm (simple 29 (w 29 "c")) (simple 37 (w 37 "d"))) (else (seq (simple 45 (w 45 "e")) (simple 48 (w 48 "f")))))
if a; b; then c; d; fi -> (if 10 (arm (seq (simple 13 (w 13 "a")) (simple 16 (w 16 "b"))) (seq (simple 24 (w 24 "c")) (simple 27 (w 27 "d")))))
if (a) then (b) else (c) fi -> (if 10 (arm (sub 13 (simple 14 (w 14 "a"))) (sub 22 (simple 23 (w 23 "b")))) (else (sub 31 (simple 32 (w 32 "c")))))
if { a; } then b; fi -> (if 10 (arm (simple 15 (w 15 "a")) (simple 25 (w 25 "b"))))
if ! a; then b; fi >&2 | c -> (pipe 10 (redir 10 (if 10 (arm (not 13 (simple 15 (w 15 "a"))) (simple 23 (w 23 "b")))) out-to-err) (simple 35 (w 35 "c")))
if if a; then b; fi then c; fi -> (if 10 (arm (if 13 (arm (simple 16 (w 16 "a")) (simple 24 (w 24 "b")))) (simple 35 (w 35 "c"))))
a if then fi -> (simple 10 (w 10 "a") (w 12 "if") (w 15 "then") (w 20 "fi"))
a elif else for until -> (simple 10 (w 10 "a") (w 12 "elif") (w 17 "else") (w 22 "for") (w 26 "until"))
Bif a -> (simple 10 (w 10 'i' "f") (w 14 "a"))
i'f' -> (simple 10 (w 10 "i" 'f'))
iBNf a; then b; fi -> (if 10 (arm (simple 15 (w 15 "a")) (simple 23 (w 23 "b"))))
fiN -> syntax 10
if true; fiN -> syntax 19
if true; then :N -> syntax 26
if a then b; fi -> syntax 23
if then -> syntax 13
if a; then fi -> syntax 21
if a; then; b; fi -> syntax 20
if a; then b; else fi -> syntax 29
if a; then b; elif c; fi -> syntax 32
if a; then b; else c; else d; fi -> syntax 32
if a; then b; else c; elif d; fi -> syntax 32
if a; then b; done -> syntax 24
if a; then b; fi fi -> syntax 27
if a; then b; fi c -> syntax 27
if -> syntax 12
fi -> syntax 10
then -> syntax 10
elif -> syntax 10
else -> syntax 10
in -> syntax 10
do -> syntax 10
done -> syntax 10
esac -> syntax 10
} -> syntax 10
if() { a; } -> syntax 13"#;

// `for`.
pub const FOR_LOOPS: &str = r#"for x do a; done -> (for 10 x (simple 19 (w 19 "a")))
for x; do a; done -> (for 10 x (simple 20 (w 20 "a")))
for xNdo aNdone -> (for 10 x (simple 19 (w 19 "a")))
for xNN; N doN a; done -> (for 10 x (simple 25 (w 25 "a")))
for x in; do a; done -> (for 10 x (in) (simple 23 (w 23 "a")))
for x inNdo a; done -> (for 10 x (in) (simple 22 (w 22 "a")))
for x in a $b "$@"; do c; done -> (for 10 x (in (w 19 "a") (w 21 $b) (w 24 @)) (simple 33 (w 33 "c")))
for xNin aNNdo c; d; done -> (for 10 x (in (w 19 "a")) (seq (simple 25 (w 25 "c")) (simple 28 (w 28 "d"))))
for x in a ;N do c; done -> (for 10 x (in (w 19 "a")) (simple 27 (w 27 "c")))
for x in do done in } x=1; do c; done -> (for 10 x (in (w 19 "do") (w 22 "done") (w 27 "in") (w 30 "}") (w 32 "x=1")) (simple 40 (w 40 "c")))
for if in a; do b; done -> (for 10 if (in (w 20 "a")) (simple 26 (w 26 "b")))
for in in in; do b; done -> (for 10 in (in (w 20 "in")) (simple 27 (w 27 "b")))
for do do b; done -> (for 10 do (simple 20 (w 20 "b")))
for x in $(a); do (b) done >&2 -> (redir 10 (for 10 x (in (w 19 (run 19 (simple 21 (w 21 "a"))))) (sub 28 (simple 29 (w 29 "b")))) out-to-err)
for x in a do c; done -> syntax 27
for x in aN; do c; done -> syntax 21
for x y -> syntax 16
for 1x in a; do b; done -> syntax 14
for "x" in a; do b; done -> syntax 14
for x=1 in a; do b; done -> syntax 14
for; do -> syntax 13
forNx -> syntax 13
for x in a >&2; do b; done -> syntax 21
for x (a) -> syntax 16
for x; a -> syntax 17
for x; ; do -> syntax 17
for x; in a; do b; done -> syntax 17
for x; do done -> syntax 20
for x; do a; } -> syntax 23
for x in a; do b; done c -> syntax 33
for x in a; do b; -> syntax 27"#;

// `while` and `until`.
pub const LOOPS: &str =
    r#"while a; do b; done -> (while 10 (simple 16 (w 16 "a")) (simple 22 (w 22 "b")))
until a; do b; done -> (until 10 (simple 16 (w 16 "a")) (simple 22 (w 22 "b")))
whileNaNdoNbNdone -> (while 10 (simple 16 (w 16 "a")) (simple 21 (w 21 "b")))
while a; b; do c; d; done -> (while 10 (seq (simple 16 (w 16 "a")) (simple 19 (w 19 "b"))) (seq (simple 25 (w 25 "c")) (simple 28 (w 28 "d"))))
while (a) do (b) done </dev/null -> (redir 10 (while 10 (sub 16 (simple 17 (w 17 "a"))) (sub 23 (simple 24 (w 24 "b")))) in-null)
a while do done -> (simple 10 (w 10 "a") (w 12 "while") (w 18 "do") (w 21 "done"))
while do -> syntax 16
while a do b; done -> syntax 24
while a; done -> syntax 19
while a; do done -> syntax 22
while a; do; b; done -> syntax 21
while a; then -> syntax 19
while a; do b; -> syntax 24"#;

// `case`.
pub const CASES: &str = r#"case a in esac -> (case 10 (w 15 "a"))
case aNNinNNesac -> (case 10 (w 15 "a"))
case a in b) ;; esac -> (case 10 (w 15 "a") (arm (w 20 "b") (seq)))
case a in b) esac -> (case 10 (w 15 "a") (arm (w 20 "b") (seq)))
case a in b) c;; esac -> (case 10 (w 15 "a") (arm (w 20 "b") (simple 23 (w 23 "c"))))
case a in b) c; esac -> (case 10 (w 15 "a") (arm (w 20 "b") (simple 23 (w 23 "c"))))
case a in (b) c;; esac -> (case 10 (w 15 "a") (arm (w 21 "b") (simple 24 (w 24 "c"))))
case a in b|c | d) e; f;; esac -> (case 10 (w 15 "a") (arm (w 20 "b") (w 22 "c") (w 26 "d") (seq (simple 29 (w 29 "e")) (simple 32 (w 32 "f")))))
case "$1" inN b)NN cN ;;NN *) dNesacN -> (case 10 (w 15 q$1) (arm (w 24 "b") (simple 29 (w 29 "c"))) (arm (w 37 "*") (simple 40 (w 40 "d"))))
case a in b) ;; c) ;; esac >&2 -> (redir 10 (case 10 (w 15 "a") (arm (w 20 "b") (seq)) (arm (w 26 "c") (seq))) out-to-err)
case in in in) ;; esac -> (case 10 (w 15 "in") (arm (w 21 "in") (seq)))
case esac in (esac) ;; a|esac) ;; esac -> (case 10 (w 15 "esac") (arm (w 24 "esac") (seq)) (arm (w 33 "a") (w 35 "esac") (seq)))
case if in fi) ;; if) ;; {) ;; x=1) esac -> (case 10 (w 15 "if") (arm (w 21 "fi") (seq)) (arm (w 28 "if") (seq)) (arm (w 35 "{") (seq)) (arm (w 41 "x=1") (seq)))
case a in b) { c; } esac -> (case 10 (w 15 "a") (arm (w 20 "b") (simple 25 (w 25 "c"))))
case a in b) if c; then d; fi;; esac -> (case 10 (w 15 "a") (arm (w 20 "b") (if 23 (arm (simple 26 (w 26 "c")) (simple 34 (w 34 "d"))))))
case $(a) in $(b)) c;; esac -> (case 10 (w 15 (run 15 (simple 17 (w 17 "a")))) (arm (w 23 (run 23 (simple 25 (w 25 "b")))) (simple 29 (w 29 "c"))))
case "$@" in "$@") ;; esac -> (case 10 (w 15 @) (arm (w 23 @) (seq)))
case a in [a-c]*|?B*'x') b;; esac -> (case 10 (w 15 "a") (arm (w 20 "[a-c]*") (w 27 "?" '*' 'x') (simple 35 (w 35 "b"))))
a case esac -> (simple 10 (w 10 "a") (w 12 "case") (w 17 "esac"))
case a in esac) ;; esac -> syntax 24
case a in b) c esac -> syntax 29
case a in b) ; ;; esac -> syntax 23
case a in b) c; ;; ;; esac -> syntax 29
case a in b) ;; ;; esac -> syntax 26
case a in b c) ;; esac -> syntax 22
case a in b) c) ;; esac -> syntax 24
case a in b) c;N d) ;; esac -> syntax 28
case a in b|) ;; esac -> syntax 22
case a in |b) ;; esac -> syntax 20
case a in () ;; esac -> syntax 21
case a in bN) ;; esac -> syntax 21
case a in b|Nc) ;; esac -> syntax 22
case a in b) fi -> syntax 23
case a in ;; esac -> syntax 20
case a b -> syntax 17
caseNa in esac -> syntax 14
case; -> syntax 14
case a; in -> syntax 16
case a in b -> syntax 21
case a in b) c;; -> syntax 26
case a in >&2) ;; esac -> syntax 20
case a in (Nb) ;; esac -> syntax 21
case a in esac b -> syntax 25"#;

// Definitions of functions.
pub const DEFINITIONS: &str = r#"f() { a; } -> (define 10 f (simple 16 (w 16 "a")))
f ( )NN{NaN} -> (define 10 f (simple 19 (w 19 "a")))
_f1() { a; b; }; f -> (seq (define 10 _f1 (seq (simple 18 (w 18 "a")) (simple 21 (w 21 "b")))) (simple 27 (w 27 "f")))
f() { a; } | b -> (pipe 10 (define 10 f (simple 16 (w 16 "a"))) (simple 23 (w 23 "b")))
! f() { a; } -> (not 10 (define 12 f (simple 18 (w 18 "a"))))
{ f() { a; } } -> (define 12 f (simple 18 (w 18 "a")))
f() { g() { a; }; } -> (define 10 f (define 16 g (simple 22 (w 22 "a"))))
f() { a; } >&2 -> syntax 21
f() { a; } b -> syntax 21
f() trueN -> syntax 14
f() (a) -> syntax 14
f() if a; then b; fi -> syntax 14
f(); { a; } -> syntax 13
f(a) -> syntax 12
f(N) -> syntax 12
fN() { a; } -> syntax 13
f-g() { a; } -> syntax 13
f() -> syntax 13
f( -> syntax 12
f() { } -> syntax 16
f() { a } -> syntax 19
"f"() { a; } -> syntax 13
1f() { a; } -> syntax 12
f x() { a; } -> syntax 13
x=1() { a; } -> syntax 13
fi() { a; } -> syntax 10
x=(a) -> syntax 12"#;

// Faults in substitutions, and which of two faults is answered.
pub const NESTED_FAULTS: &str = r#"echo $(fi)N -> syntax 17
echo $(if true)N -> syntax 15
a $(b; $(if c)) -> syntax 17
a $(b) $(fi) -> syntax 19
a $(b &&) ) -> syntax 12
a $(fi) ) -> syntax 14
) $(fi) -> syntax 10
f() { f; }N -> (define 10 f (simple 16 (w 16 "f")))
$(a "case" casBe) -> (simple 10 (w 10 (run 10 (simple 12 (w 12 "a") (w 14 'case') (w 21 "cas" 'e')))))"#;

// The usual maintainer script.
pub const TEMPLATE: &str =
    r#"set -eNcase "$1" inN  configure)N    mkdir -p /var/lib/fooN  ;;N  abort-upgrade|abort-remove|abort-deconfigure)N  ;;N  *)N    echo "postinst called with unknown argument B`$1'" >&2N    exit 1N  ;;NesacNexit 0N -> (seq (simple 10 (w 10 "set") (w 14 "-e")) (case 17 (w 22 q$1) (arm (w 32 "configure") (simple 47 (w 47 "mkdir") (w 53 "-p") (w 56 "/var/lib/foo"))) (arm (w 76 "abort-upgrade") (w 90 "abort-remove") (w 103 "abort-deconfigure") (seq)) (arm (w 129 "*") (seq (redir 136 (simple 136 (w 136 "echo") (w 141 'postinst called with unknown argument `' q$1 '\x27')) out-to-err) (simple 195 (w 195 "exit") (w 200 "1"))))) (simple 212 (w 212 "exit") (w 217 "0")))"#;

// Further places inside substitutions.
pub const INNER_PLACES: &str = r#"a $(b) ) -> syntax 17
a $(if b) $(fi) -> syntax 12
fi $(fi) -> syntax 10
a $(b "$(fi)" ) -> syntax 19
x=$(fi) -> syntax 14
x=1 $(fi) -> syntax 16
case $(fi) in esac -> syntax 17
case a in $(fi)) ;; esac -> syntax 22
case a in $(if b)) ;; esac -> syntax 20
for x in $(fi); do a; done -> syntax 21
for $(fi) -> syntax 14
{ $(fi) -> syntax 14
f() { $(fi); } -> syntax 18
(a) $(fi) -> syntax 14
f $(fi) ( -> syntax 14
f $(if a) ( -> syntax 12
f $(a) ( -> syntax 17
$(a)$(b;;)$(fi) -> syntax 17
a $(b) "$(c; ;)" -> syntax 23"#;

// 64 and 65 levels.
pub const NESTS: &str =
    r#"{ { { { { { { { { { { { { { { { { { { { { { { { { { { { { { { { { { { { { { { { { { { { { { { { { { { { { { { { { { { { { { { { { :; }; }; }; }; }; }; }; }; }; }; }; }; }; }; }; }; }; }; }; }; }; }; }; }; }; }; }; }; }; }; }; }; }; }; }; }; }; }; }; }; }; }; }; }; }; }; }; }; }; }; }; }; }; }; }; }; }; }; }; }; }; }; }; }; } -> deep 138
{ { { { { { { { { { { { { { { { { { { { { { { { { { { { { { { { { { { { { { { { { { { { { { { { { { { { { { { { { { { { { { { { :; }; }; }; }; }; }; }; }; }; }; }; }; }; }; }; }; }; }; }; }; }; }; }; }; }; }; }; }; }; }; }; }; }; }; }; }; }; }; }; }; }; }; }; }; }; }; }; }; }; }; }; }; }; }; }; }; }; }; }; }; }; }; }; } -> (simple 138 (w 138 ":"))
a $(fi); { { { { { { { { { { { { { { { { { { { { { { { { { { { { { { { { { { { { { { { { { { { { { { { { { { { { { { { { { { { { { { { { {  -> syntax 14
{ { { { { { { { { { { { { { { { { { { { { { { { { { { { { { { { { { { { { { { { { { { { { { { { { { { { { { { { { { { { { { { { a $(b); }; }; }; }; }; }; }; }; }; }; }; }; }; }; }; }; }; }; }; }; }; }; }; }; }; }; }; }; }; }; }; }; }; }; }; }; }; }; }; }; }; }; }; }; }; }; }; }; }; }; }; }; }; }; }; }; }; }; }; }; }; }; }; } -> deep 140
{ { { { { { { { { { { { { { { { { { { { { { { { { { { { { { { { { { { { { { { { { { { { { { { { { { { { { { { { { { { { { { { { f() { a; } } } } } } } } } } } } } } } } } } } } } } } } } } } } } } } } } } } } } } } } } } } } } } } } } } } } } } } } } } } } } } } } } -> deep 142
( ( ( ( ( ( ( ( ( ( ( ( ( ( ( ( ( ( ( ( ( ( ( ( ( ( ( ( ( ( ( ( ( ( ( ( ( ( ( ( ( ( ( ( ( ( ( ( ( ( ( ( ( ( ( ( ( ( ( ( ( ( ( ( ( a))))))))))))))))))))))))))))))))))))))))))))))))))))))))))))))))) -> deep 138
{ { { { { { { { { { { { { { { { { { { { { { { { { { { { { { { { { { { { { { { { { { { { { { { { { { { { { { { { { { { { { { { { fi -> syntax 138
{ { { { { { { { { { { { { { { { { { { { { { { { { { { { { { { { { { { { { { { { { { { { { { { { { { { { { { { { { { { { { { { {  -> syntax 138
{ { { { { { { { { { { { { { { { { { { { { { { { { { { { { { { { { { { { { { { { { { { { { { { { { { { { { { { { { { { { { { { { { -> deep 138
{ { { { { { { { { { { { { { { { { { { { { { { { { { { { { { { { { { { { { { { { { { { { { { { { { { { { { { { { { { { { { { { { ; -> syntax 138
{ { { { { { { { { { { { { { { { { { { { { { { { { { { { { { { { { { { { { { { { { { { { { { { { { { { { { { { { { { { { { { { { { fi -> deep 138
if if if if if if if if if if if if if if if if if if if if if if if if if if if if if if if if if if if if if if if if if if if if if if if if if if if if if if if if if if if if if if if if if  -> deep 202
while while while while while while while while while while while while while while while while while while while while while while while while while while while while while while while while while while while while while while while while while while while while while while while while while while while while while while while while while while while while while while while while while  -> deep 394
until until until until until until until until until until until until until until until until until until until until until until until until until until until until until until until until until until until until until until until until until until until until until until until until until until until until until until until until until until until until until until until until until  -> deep 394
for x do for x do for x do for x do for x do for x do for x do for x do for x do for x do for x do for x do for x do for x do for x do for x do for x do for x do for x do for x do for x do for x do for x do for x do for x do for x do for x do for x do for x do for x do for x do for x do for x do for x do for x do for x do for x do for x do for x do for x do for x do for x do for x do for x do for x do for x do for x do for x do for x do for x do for x do for x do for x do for x do for x do for x do for x do for x do for x do for x do for x do for x do for x do for x do for x do  -> deep 586
case a in a) case a in a) case a in a) case a in a) case a in a) case a in a) case a in a) case a in a) case a in a) case a in a) case a in a) case a in a) case a in a) case a in a) case a in a) case a in a) case a in a) case a in a) case a in a) case a in a) case a in a) case a in a) case a in a) case a in a) case a in a) case a in a) case a in a) case a in a) case a in a) case a in a) case a in a) case a in a) case a in a) case a in a) case a in a) case a in a) case a in a) case a in a) case a in a) case a in a) case a in a) case a in a) case a in a) case a in a) case a in a) case a in a) case a in a) case a in a) case a in a) case a in a) case a in a) case a in a) case a in a) case a in a) case a in a) case a in a) case a in a) case a in a) case a in a) case a in a) case a in a) case a in a) case a in a) case a in a) case a in a)  -> deep 842
f() { f() { f() { f() { f() { f() { f() { f() { f() { f() { f() { f() { f() { f() { f() { f() { f() { f() { f() { f() { f() { f() { f() { f() { f() { f() { f() { f() { f() { f() { f() { f() { f() { f() { f() { f() { f() { f() { f() { f() { f() { f() { f() { f() { f() { f() { f() { f() { f() { f() { f() { f() { f() { f() { f() { f() { f() { f() { f() { f() { f() { f() { f() { f() { f() {  -> deep 398
{ { { { { { { { { { { { { { { { { { { { { { { { { { { { { { { { { { { { { { { { { { { { { { { { { { { { { { { { { { { { { { { { $(fi) -> deep 138
{ { { { { { { { { { { { { { { { { { { { { { { { { { { { { { { { { { { { { { { { { { { { { { { { { { { { { { { { { { { { { { { a $(b); }; }; }; }; }; }; }; }; }; }; }; }; }; }; }; }; }; }; }; }; }; }; }; }; }; }; }; }; }; }; }; }; }; }; }; }; }; }; }; }; }; }; }; }; }; }; }; }; }; }; }; }; }; }; }; }; }; }; }; }; }; }; } -> (simple 136 (w 136 "a") (w 138 (run 138 (simple 140 (w 140 "b")))))
{ { { { { { { { { { { { { { { { { { { { { { { { { { { { { { { { { { { { { { { { { { { { { { { { { { { { { { { { { { { { { { { a $(b $(c)) -> deep 142
{ { { { { { { { { { { { { { { { { { { { { { { { { { { { { { { { { { { { { { { { { { { { { { { { { { { { { { { { { { { { { { { { case $(a) in -> deep 138
{ { { { { { { { { { { { { { { { { { { { { { { { { { { { { { { { { { { { { { { { { { { { { { { { { { { { { { { { { { { { { { { case $(a) in -> deep 141
{ { { { { { { { { { { { { { { { { { { { { { { { { { { { { { { { { { { { { { { { { { { { { { { { { { { { { { { { { { { { { { { case a in $(b))  -> deep 146
{ { { { { { { { { { { { { { { { { { { { { { { { { { { { { { { { { { { { { { { { { { { { { { { { { { { { { { { { { { { { { { { for x in $(a) -> deep 145
{ { { { { { { { { { { { { { { { { { { { { { { { { { { { { { { { { { { { { { { { { { { { { { { { { { { { { { { { { { { { { { { if $(a) -> deep 139
{ { { { { { { { { { { { { { { { { { { { { { { { { { { { { { { { { { { { { { { { { { { { { { { { { { { { { { { { { { { { { { { { a {; }; }; }; }; }; }; }; }; }; }; }; }; }; }; }; }; }; }; }; }; }; }; }; }; }; }; }; }; }; }; }; }; }; }; }; }; }; }; }; }; }; }; }; }; }; }; }; }; }; }; }; }; }; }; }; }; }; }; }; }; }; }; }; } -> (simple 138 (w 138 "a") (w 140 "{"))
{ { { { { { { { { { { { { { { { { { { { { { { { { { { { { { { { { { { { { { { { { { { { { { { { { { { { { { { { { { { { { { { { f();  -> syntax 141
{ { { { { { { { { { { { { { { { { { { { { { { { { { { { { { { { { { { { { { { { { { { { { { { { { { { { { { { { { { { { { { { a $({ b; }) -> deep 140
$(a $(a $(a $(a $(a $(a $(a $(a $(a $(a $(a $(a $(a $(a $(a $(a $(a $(a $(a $(a $(a $(a $(a $(a $(a $(a $(a $(a $(a $(a $(a $(a $(a $(a $(a $(a $(a $(a $(a $(a $(a $(a $(a $(a $(a $(a $(a $(a $(a $(a $(a $(a $(a $(a $(a $(a $(a $(a $(a $(a $(a $(a $(a $({ b; })))))))))))))))))))))))))))))))))))))))))))))))))))))))))))))))) -> deep 264"#;
