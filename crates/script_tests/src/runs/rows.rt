// Scripts and what they come to, by the rules of POSIX.1-2017, XCU 2, three lines for each: the turns and the tree, the
// script behind its first line, and the end, the trace, the turns that are left and the tree after. `%` is a newline.
pub const WORKED: &str = r#"100 d /srv%
set -e%x=$(echo a b)%for i in $x "$x"; do%  touch "/srv/$i"%done%
end success%trace 3:54:67 3:54:67 3:54:67%turns 97%after%d /srv%f /srv/a%f /srv/a\x20b%f /srv/b%
100 d /srv%
set -e%(x=1; touch /srv/a)%[ -z "$x" ]%[ -f /srv/a ]%
end success%trace 3:23:67 3:49:67%turns 100%after%d /srv%f /srv/a%
100 d /srv%
false && true || touch /srv/b%
end success%trace 3:27:67%turns 100%after%d /srv%f /srv/b%
100 d /srv%
set -e%if false; then :; fi%false || true%! true%false%
end failure%trace%turns 100%after%d /srv%
100 d /srv%
set -e%[ -e /srv/a ] || mkdir /srv/a%
end success%trace 3:17:66 3:34:68%turns 100%after%d /srv%d /srv/a%
1 d /srv%d /srv/a%
while [ -e /srv/a ]; do :; done%
end bound 3:10%trace 3:16:67 3:16:67%turns 0%after%d /srv%d /srv/a%
1 d /srv%d /srv/a%
while [ -e /srv/a ]; do rmdir /srv/a; done%
end success%trace 3:16:67 3:34:68 3:16:66%turns 0%after%d /srv%"#;

pub const STATUS: &str = r#"100 d /srv%
true; false%
end failure%trace%turns 100%after%d /srv%
100 d /srv%
! false%
end success%trace%turns 100%after%d /srv%
100 d /srv%
! true%
end failure%trace%turns 100%after%d /srv%
100 d /srv%
if true; then touch /srv/a; else touch /srv/b; fi%
end success%trace 3:24:67%turns 100%after%d /srv%f /srv/a%
100 d /srv%
if false; then :; elif true; then touch /srv/c; else :; fi%
end success%trace 3:44:67%turns 100%after%d /srv%f /srv/c%
100 d /srv%
if false; then :; fi%
end success%trace%turns 100%after%d /srv%
100 d /srv%
false; if false; then :; fi%
end success%trace%turns 100%after%d /srv%
100 d /srv%
if test -e /srv/a; then rm /srv/a; else touch /srv/a; fi; test -f /srv/a%
end success%trace 3:13:66 3:50:67 3:68:67%turns 100%after%d /srv%f /srv/a%
100 d /srv%
true && false || true && touch /srv/a%
end success%trace 3:35:67%turns 100%after%d /srv%f /srv/a%
100 d /srv%
false || false || touch /srv/a%
end success%trace 3:28:67%turns 100%after%d /srv%f /srv/a%
100 d /srv%
true || touch /srv/a%
end success%trace%turns 100%after%d /srv%
100 d /srv%
set -e%false%touch /srv/a%
end failure%trace%turns 100%after%d /srv%
100 d /srv%
set -e%false && true%touch /srv/a%
end success%trace 3:31:67%turns 100%after%d /srv%f /srv/a%
100 d /srv%
set -e%true && false%touch /srv/a%
end failure%trace%turns 100%after%d /srv%
100 d /srv%
set -e%! true%touch /srv/a%
end success%trace 3:24:67%turns 100%after%d /srv%f /srv/a%
100 d /srv%
set -e%set +e%false%touch /srv/a%
end success%trace 3:30:67%turns 100%after%d /srv%f /srv/a%
100 d /srv%
set -e%while false; do :; done%touch /srv/a%
end success%trace 3:41:67%turns 100%after%d /srv%f /srv/a%
100 d /srv%
set -e%(false)%touch /srv/a%
end failure%trace%turns 100%after%d /srv%
100 d /srv%
set -e%(false) || touch /srv/a%
end success%trace 3:28:67%turns 100%after%d /srv%f /srv/a%
100 d /srv%
set -e%(false; touch /srv/a) || touch /srv/b%
end success%trace 3:25:67%turns 100%after%d /srv%f /srv/a%
100 d /srv%
set -e%x=$(false; echo a) || true%touch /srv/a%
end stopped strict 3:21%trace%turns 100%after%d /srv%
100 d /srv%
set -e%x=$(false || echo a)%touch "/srv/$x"%
end success%trace 3:38:67%turns 100%after%d /srv%f /srv/a%
100 d /srv%
set -e%x=$({ false; } >/dev/null; :)%
end stopped strict 3:23%trace%turns 100%after%d /srv%
100 d /srv%
set -e%x=$(set +e; false; echo b); touch "/srv/$x"%
end success%trace 3:45:67%turns 100%after%d /srv%f /srv/b%
100 d /srv%
set -e%f() { false; touch /srv/a; }%f || touch /srv/b%
end success%trace 3:30:67%turns 100%after%d /srv%f /srv/a%
100 d /srv%
set -e%f() { false; touch /srv/a; }%f%
end failure%trace%turns 100%after%d /srv%
100 d /srv%
set -e%f() { return 1; }%f%touch /srv/a%
end failure%trace%turns 100%after%d /srv%
100 d /srv%
set -e%{ false; touch /srv/a; } || :%
end success%trace 3:26:67%turns 100%after%d /srv%f /srv/a%"#;

// The status of a command, a group and a function behind its redirections.
pub const REDIRECTED: &str = r#"100 d /srv%
false >/dev/null || touch /srv/a%
end success%trace 3:30:67%turns 100%after%d /srv%f /srv/a%
100 d /srv%
false 2>&1 || touch /srv/b%
end success%trace 3:24:67%turns 100%after%d /srv%f /srv/b%
100 d /srv%
false >&2 2>/dev/null </dev/null || touch /srv/c%
end success%trace 3:46:67%turns 100%after%d /srv%f /srv/c%
100 d /srv%
if false >/dev/null; then touch /srv/a; else touch /srv/b; fi%
end success%trace 3:55:67%turns 100%after%d /srv%f /srv/b%
100 d /srv%
if true 2>&1; then touch /srv/a; else touch /srv/b; fi%
end success%trace 3:29:67%turns 100%after%d /srv%f /srv/a%
100 d /srv%
while false >/dev/null; do touch /srv/a; done; touch /srv/b%
end success%trace 3:57:67%turns 100%after%d /srv%f /srv/b%
100 d /srv%
! false >/dev/null && touch /srv/a%
end success%trace 3:32:67%turns 100%after%d /srv%f /srv/a%
100 d /srv%
false >/dev/null; exit%
end failure%trace%turns 100%after%d /srv%
100 d /srv%
false; true 2>&1; exit%
end success%trace%turns 100%after%d /srv%
100 d /srv%
{ false; } >/dev/null || touch /srv/a%
end success%trace 3:35:67%turns 100%after%d /srv%f /srv/a%
100 d /srv%
{ true; false; } 2>&1 || touch /srv/a%
end success%trace 3:35:67%turns 100%after%d /srv%f /srv/a%
100 d /srv%
(false) 2>/dev/null || touch /srv/a%
end success%trace 3:33:67%turns 100%after%d /srv%f /srv/a%
100 d /srv%
f() { false; }; f >/dev/null || touch /srv/a%
end success%trace 3:42:67%turns 100%after%d /srv%f /srv/a%
100 d /srv%
f() { return 1; }; f 2>&1 || touch /srv/a%
end success%trace 3:39:67%turns 100%after%d /srv%f /srv/a%
100 d /srv%
f() { return 0; }; false; f >/dev/null && touch /srv/a%
end success%trace 3:52:67%turns 100%after%d /srv%f /srv/a%
100 d /srv%
for i in a; do false; done >/dev/null || touch /srv/a%
end success%trace 3:51:67%turns 99%after%d /srv%f /srv/a%
100 d /srv%
case a in a) false;; esac >/dev/null || touch /srv/a%
end success%trace 3:50:67%turns 100%after%d /srv%f /srv/a%
100 d /srv%
if :; then false; fi 2>&1 || touch /srv/a%
end success%trace 3:39:67%turns 100%after%d /srv%f /srv/a%
100 d /srv%
[ -e /srv/a ] 2>/dev/null || touch /srv/a%
end success%trace 3:10:66 3:39:67%turns 100%after%d /srv%f /srv/a%
100 d /srv%
mkdir /srv >/dev/null 2>&1 || touch /srv/a%
end success%trace 3:10:67 3:40:67%turns 100%after%d /srv%f /srv/a%
100 d /srv%
x=$(false) >/dev/null || touch /srv/a%
end success%trace 3:35:67%turns 100%after%d /srv%f /srv/a%
100 d /srv%
x=$(echo a >&2; false) || touch "/srv/b$x"%
end success%trace 3:36:67%turns 100%after%d /srv%f /srv/b%
100 d /srv%
x=$(false >/dev/null 2>&1 || echo b); touch "/srv/$x"%
end success%trace 3:48:67%turns 100%after%d /srv%f /srv/b%
100 d /srv%
x=$({ echo a; false; } >/dev/null || echo b); touch "/srv/$x"%
end success%trace 3:56:67%turns 100%after%d /srv%f /srv/b%
100 d /srv%
x=$(false 2>&1 || echo a)%
end stopped message 3:14%trace%turns 100%after%d /srv%
100 d /srv%
set -e%false >/dev/null%touch /srv/a%
end failure%trace%turns 100%after%d /srv%
100 d /srv%
set -e%{ false; } >/dev/null || touch /srv/a%
end success%trace 3:42:67%turns 100%after%d /srv%f /srv/a%
100 d /srv%
set -e%f() { false; }%f 2>/dev/null%touch /srv/a%
end failure%trace%turns 100%after%d /srv%
100 d /srv%
set -e%if false >/dev/null; then :; fi%touch /srv/a%
end success%trace 3:49:67%turns 100%after%d /srv%f /srv/a%"#;

pub const WORDS: &str = r#"100 d /srv%
set -e%x=$(false)%touch /srv/a%
end stopped strict 3:21%trace%turns 100%after%d /srv%
100 d /srv%
x=$(false)%
end failure%trace%turns 100%after%d /srv%
100 d /srv%
x=$(false) y=$(true)%
end success%trace%turns 100%after%d /srv%
100 d /srv%
false; x=a%
end success%trace%turns 100%after%d /srv%
100 d /srv%
x="a b"; touch /srv/$x%
end success%trace 3:19:67 3:19:67%turns 100%after%f /b%d /srv%f /srv/a%
100 d /srv%
x="a b"; touch "/srv/$x"%
end success%trace 3:19:67%turns 100%after%d /srv%f /srv/a\x20b%
100 d /srv%
x=; touch /srv/a $x%
end success%trace 3:14:67%turns 100%after%d /srv%f /srv/a%
100 d /srv%
x=; touch /srv/a "$x"%
end stopped empty 3:14%trace%turns 100%after%d /srv%
100 d /srv%
touch /srv/${x:-c d}%
end success%trace 3:10:67 3:10:67%turns 100%after%f /d%d /srv%f /srv/c%
100 d /srv%
x=e; touch /srv/${x:-c}%
end success%trace 3:15:67%turns 100%after%d /srv%f /srv/e%
100 d /srv%
touch /srv/$#%
end success%trace 3:10:67%turns 100%after%d /srv%f /srv/2%
100 d /srv%
touch /srv/$1 /srv/x$2%
end success%trace 3:10:67 3:10:67%turns 100%after%d /srv%f /srv/configure%f /srv/x%
100 d /srv%
for i in "$@"; do touch "/srv/y$i"; done%
end success%trace 3:28:67 3:28:67%turns 98%after%d /srv%f /srv/y%f /srv/yconfigure%
100 d /srv%
for i; do touch "/srv/y$i"; done%
end success%trace 3:20:67 3:20:67%turns 98%after%d /srv%f /srv/y%f /srv/yconfigure%
100 d /srv%
touch /srv/$DPKG_MAINTSCRIPT_NAME%
end success%trace 3:10:67%turns 100%after%d /srv%f /srv/postinst%
100 d /srv%
echo "$PWD"%
end stopped call 3:10%trace%turns 100%after%d /srv%
100 d /srv%
x=${HOME:-a}%
end stopped call 3:10%trace%turns 100%after%d /srv%
100 d /srv%
touch /srv/*%
end stopped glob 3:10%trace%turns 100%after%d /srv%
100 d /srv%
x="*"; touch /srv/$x%
end stopped glob 3:17%trace%turns 100%after%d /srv%
100 d /srv%
x="*"; touch "/srv/$x"%
end success%trace 3:17:67%turns 100%after%d /srv%f /srv/*%
100 d /srv%
x="$(echo a; echo; echo)"; touch "/srv/${x}b"%
end success%trace 3:37:67%turns 100%after%d /srv%f /srv/ab%
100 d /srv%
$x%
end success%trace%turns 100%after%d /srv%
100 d /srv%
$x true; touch /srv/a%
end success%trace 3:19:67%turns 100%after%d /srv%f /srv/a%
100 d /srv%
false; $x%
end success%trace%turns 100%after%d /srv%
100 d /srv%
$(false)%
end failure%trace%turns 100%after%d /srv%
100 d /srv%
x=exit; $x 1%
end stopped call 3:18%trace%turns 100%after%d /srv%
100 d /srv%
false; >/dev/null%
end success%trace%turns 100%after%d /srv%
100 d /srv%
x=a; for i in 0 1 2 3 4 5 6 7 8 9 0 1 2 3 4 5; do x="$x$x"; done; touch /srv/a%
end success%trace 3:76:67%turns 84%after%d /srv%f /srv/a%
100 d /srv%
x=a; for i in 0 1 2 3 4 5 6 7 8 9 0 1 2 3 4 5 6; do x="$x$x"; done; touch /srv/a%
end stopped long 3:62%trace%turns 83%after%d /srv%
100 d /srv%
x=a; for i in 0 1 2 3 4 5 6 7 8 9 0 1 2 3 4 5; do x="$x$x"; done; case "$x$x" in a) ;; esac%
end stopped long 3:76%trace%turns 84%after%d /srv%"#;

pub const LOOPS: &str = r#"100 d /srv%
x=$(y=1; touch /srv/a; echo b)%[ -z "$y" ] && touch "/srv/$x"%
end success%trace 3:19:67 3:56:67%turns 100%after%d /srv%f /srv/a%f /srv/b%
100 d /srv%
x=$(exit 1); touch /srv/a%
end success%trace 3:23:67%turns 100%after%d /srv%f /srv/a%
100 d /srv%
x=$(echo a >/dev/null); [ -z "$x" ]%
end success%trace%turns 100%after%d /srv%
100 d /srv%
x=$(echo a 2>&1)%
end stopped message 3:14%trace%turns 100%after%d /srv%
100 d /srv%
x=$(mkdir /srv/a); test -d /srv/a%
end success%trace 3:14:68 3:29:67%turns 100%after%d /srv%d /srv/a%
2 d /srv%
for i in a b c; do touch /srv/$i; done%
end bound 3:10%trace 3:29:67 3:29:67%turns 0%after%d /srv%f /srv/a%f /srv/b%
100 d /srv%
for i in; do false; done%
end success%trace%turns 100%after%d /srv%
100 d /srv%
for i in a b; do break; touch /srv/$i; done; touch /srv/$i%
end success%trace 3:55:67%turns 99%after%d /srv%f /srv/a%
100 d /srv%
for i in a b; do continue; touch /srv/$i; done; touch /srv/z%
end success%trace 3:58:67%turns 98%after%d /srv%f /srv/z%
100 d /srv%
for i in a b; do for j in c d; do break; done; touch /srv/$i$j; done%
end success%trace 3:57:67 3:57:67%turns 96%after%d /srv%f /srv/ac%f /srv/bc%
100 d /srv%
until test -e /srv/a; do touch /srv/a; done%
end success%trace 3:16:66 3:35:67 3:16:67%turns 99%after%d /srv%f /srv/a%
100 d /srv%
until false; do exit; done%
end failure%trace%turns 99%after%d /srv%
3 d /srv%
while continue; do :; done%
end bound 3:10%trace%turns 0%after%d /srv%
100 d /srv%
while break; do :; done; touch /srv/a%
end success%trace 3:35:67%turns 100%after%d /srv%f /srv/a%
100 d /srv%
for i in a; do false; done%
end failure%trace%turns 99%after%d /srv%
100 d /srv%f /srv/a%
while test -e /srv/a; do rm /srv/a; false; done%
end failure%trace 3:16:67 3:35:68 3:16:66%turns 99%after%d /srv%
0 d /srv%
while true; do :; done%
end bound 3:10%trace%turns 0%after%d /srv%
100 d /srv%
for i in a b; do false; break; done%
end success%trace%turns 99%after%d /srv%"#;

pub const CASES_AND_FUNCTIONS: &str = r#"100 d /srv%
f() { while true; do return 1; done; }; f; touch /srv/a%
end success%trace 3:53:67%turns 99%after%d /srv%f /srv/a%
100 d /srv%
case a in a) touch /srv/a;; esac%
end success%trace 3:23:67%turns 100%after%d /srv%f /srv/a%
100 d /srv%
case "$1" in conf*) touch /srv/a;; *) touch /srv/b;; esac%
end success%trace 3:30:67%turns 100%after%d /srv%f /srv/a%
100 d /srv%
case b in a|b) touch /srv/a;; b) touch /srv/b;; esac%
end success%trace 3:25:67%turns 100%after%d /srv%f /srv/a%
100 d /srv%
false; case a in b) :;; esac%
end success%trace%turns 100%after%d /srv%
100 d /srv%
case a in [!b-c]) touch /srv/a;; esac%
end success%trace 3:28:67%turns 100%after%d /srv%f /srv/a%
100 d /srv%
x="*"; case a in "$x") touch /srv/a;; $x) touch /srv/b;; esac%
end success%trace 3:52:67%turns 100%after%d /srv%f /srv/b%
100 d /srv%
case a in [[:x]) :;; esac%
end stopped pattern 3:10%trace%turns 100%after%d /srv%
100 d /srv%
case a in a) ;; [[:x]) :;; esac%
end success%trace%turns 100%after%d /srv%
100 d /srv%
case a in b|$(touch /srv/a)) :;; a) touch /srv/b;; esac%
end success%trace 3:24:67 3:46:67%turns 100%after%d /srv%f /srv/a%f /srv/b%
100 d /srv%
f() { touch "/srv/$1" /srv/$#; }%f a b%touch "/srv/y$1"%
end success%trace 3:16:67 3:16:67 3:49:67%turns 100%after%d /srv%f /srv/2%f /srv/a%f /srv/yconfigure%
100 d /srv%
f() { x=a; }%f%touch /srv/$x%
end success%trace 3:25:67%turns 100%after%d /srv%f /srv/a%
100 d /srv%
f() { return; touch /srv/a; }%false%f%
end failure%trace%turns 100%after%d /srv%
100 d /srv%
f() { return 3; }%f || touch /srv/a%
end success%trace 3:33:67%turns 100%after%d /srv%f /srv/a%
100 d /srv%
f() { exit 0; }%f; touch /srv/a%
end success%trace%turns 100%after%d /srv%
100 d /srv%
f; f() { :; }%
end stopped call 3:10%trace%turns 100%after%d /srv%
100 d /srv%
f() { touch /srv/f; }; g() { f; touch /srv/g; }; g%
end success%trace 3:16:67 3:42:67%turns 100%after%d /srv%f /srv/f%f /srv/g%
100 d /srv%
x=f; f() { :; }; $x%
end stopped call 3:27%trace%turns 100%after%d /srv%
100 d /srv%
exit 0; touch /srv/a%
end success%trace%turns 100%after%d /srv%
100 d /srv%
false; exit%
end failure%trace%turns 100%after%d /srv%"#;

pub const CALLS: &str = r#"100 d /srv%
exit 256%
end stopped status 3:10%trace%turns 100%after%d /srv%
100 d /srv%
exit 007%
end failure%trace%turns 100%after%d /srv%
100 d /srv%
exit a%
end stopped status 3:10%trace%turns 100%after%d /srv%
100 d /srv%
exit 1 2%
end stopped status 3:10%trace%turns 100%after%d /srv%
100 d /srv%
(exit 1); touch /srv/a%
end success%trace 3:20:67%turns 100%after%d /srv%f /srv/a%
100 d /srv%
export x=a y; touch "/srv/$x"%
end success%trace 3:24:67%turns 100%after%d /srv%f /srv/a%
100 d /srv%
export 1=a%
end stopped call 3:10%trace%turns 100%after%d /srv%
100 d /srv%
x=a; unset x; [ -z "$x" ]%
end success%trace%turns 100%after%d /srv%
100 d /srv%
f() { :; }; unset f%
end stopped call 3:22%trace%turns 100%after%d /srv%
100 d /srv%
export IFS%
end stopped call 3:10%trace%turns 100%after%d /srv%
100 d /srv%
export "x=a=b"; touch "/srv/$x"%
end success%trace 3:26:67%turns 100%after%d /srv%f /srv/a=b%
100 d /srv%
mkdir -p /srv/a/b/c%
end success%trace 3:10:68 3:10:68 3:10:68 3:10:68%turns 100%after%d /srv%d /srv/a%d /srv/a/b%d /srv/a/b/c%
100 d /srv%
mkdir /srv /srv/a%
end failure%trace 3:10:67 3:10:68%turns 100%after%d /srv%d /srv/a%
100 d /srv%
rm -rf /srv%
end success%trace 3:10:72%turns 100%after%
100 d /srv%f /srv/a%
rmdir /srv%
end failure%trace 3:10:67%turns 100%after%d /srv%f /srv/a%
100 d /srv%f /srv/a%
mv /srv/a /srv/b%
end success%trace 3:10:68%turns 100%after%d /srv%f /srv/b%
100 d /srv%
ln -s x /srv/l; test -h /srv/l && test -e /srv/l%
end stopped link 3:44%trace 3:10:68 3:26:67 3:44:65%turns 100%after%d /srv%l /srv/l x%
100 d /srv%l /srv/l x%
touch /srv/l%
end stopped link 3:10%trace 3:10:65%turns 100%after%d /srv%l /srv/l x%
100 d /srv%
ls%
end stopped call 3:10%trace%turns 100%after%d /srv%
100 d /srv%
echo a | cat%
end stopped pipe 3:10%trace%turns 100%after%d /srv%
100 d /srv%
touch /srv/a/%
end stopped slash 3:10%trace%turns 100%after%d /srv%
100 d /srv%
mkdir ..%
end stopped dotdot 3:10%trace%turns 100%after%d /srv%
100 d /srv%
touch /srv/a /srv/.%
end stopped dot 3:10%trace%turns 100%after%d /srv%
100 d /srv%
. /srv/a%
end stopped call 3:10%trace%turns 100%after%d /srv%
100 d /srv%
rm /%
end stopped root 3:10%trace%turns 100%after%d /srv%
100 d /srv%
echo -n%
end stopped echo 3:10%trace%turns 100%after%d /srv%
100 d /srv%
mv /srv/a /srv/a%
end stopped same 3:10%trace%turns 100%after%d /srv%
100 d /srv%
test -e ""%
end failure%trace%turns 100%after%d /srv%
100 d /srv%
[ a = a ] && [ a != b ]%
end success%trace%turns 100%after%d /srv%
100 d /srv%
! [ -d /srv ]%
end failure%trace 3:12:67%turns 100%after%d /srv%
100 d /srv%
test ! -d /srv%
end failure%trace 3:10:67%turns 100%after%d /srv%
100 d /srv%
>/dev/null touch /srv/a%
end success%trace 3:10:67%turns 100%after%d /srv%f /srv/a%
100 d /srv%
touch /srv/a >&2 2>/dev/null </dev/null%
end success%trace 3:10:67%turns 100%after%d /srv%f /srv/a%"#;

// Pipes, sockets and devices.
pub const SPECIAL: &str = r#"100 d /srv%s /srv/a%
[ -S /srv/a ] && rm /srv/a%
end success%trace 3:10:67 3:27:68%turns 100%after%d /srv%
100 d /srv%b /srv/a%
[ -S /srv/a ] || test -b /srv/a%
end success%trace 3:10:66 3:27:67%turns 100%after%d /srv%b /srv/a%
100 d /srv%l /srv/a x%
test -p /srv/a%
end stopped link 3:10%trace 3:10:65%turns 100%after%d /srv%l /srv/a x%
100 d /srv%
test -p /srv/a%
end failure%trace 3:10:66%turns 100%after%d /srv%
100 d /srv%p /srv/a%
test -p /srv/a%
end success%trace 3:10:67%turns 100%after%d /srv%p /srv/a%
100 d /srv%o /srv/a%
test -p /srv/a%
end success%trace 3:10:67%turns 100%after%d /srv%p /srv/a%
100 d /srv%c /srv/a%
! test -c /srv/a%
end failure%trace 3:12:67%turns 100%after%d /srv%c /srv/a%
100 d /srv%c /srv/a%
test -c ""%
end failure%trace%turns 100%after%d /srv%c /srv/a%"#;
