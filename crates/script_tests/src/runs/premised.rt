//! Scripts under premises, and what they come to, by the rules of POSIX.1-2017, XCU 2, and by what is stated, four lines
//! for each: the premises, as lines of a base; the turns and the tree; the script behind its first line; and the end,
//! the trace, the turns that are left and the tree after. `%` is a newline.

// Names that are computed: none is that of a stated call, and one that is a function's stops the run.
pub const COMPUTED: &str = r##"%
100 d /srv%
f() { :; }; x=f; $x%
end stopped call 3:27%trace%turns 100%after%d /srv%
%
100 d /srv%
f() { touch /srv/a; }; x=f; "$x" || touch /srv/b%
end stopped call 3:38%trace%turns 100%after%d /srv%
%
100 d /srv%
x=f; $x; f() { :; }%
end stopped call 3:15%trace%turns 100%after%d /srv%
%
100 d /srv%
f() { :; }; g() { $1; }; g f%
end stopped call 3:28%trace%turns 100%after%d /srv%
%
100 d /srv%
f() { :; }; $(echo f) a%
end stopped call 3:22%trace%turns 100%after%d /srv%
%
100 d /srv%
f() { :; }; x="f a"; $x%
end stopped call 3:31%trace%turns 100%after%d /srv%
%
100 d /srv%
f() { :; }; x=; $x f%
end stopped call 3:26%trace%turns 100%after%d /srv%
%
100 d /srv%
"$x"%
end stopped call 3:10%trace%turns 100%after%d /srv%
%
100 d /srv%
x=touch; $x /srv/a%
end success%trace 3:19:67%turns 100%after%d /srv%f /srv/a%
%
100 d /srv%
f() { :; }; x=true; "$x" && touch /srv/a%
end success%trace 3:38:67%turns 100%after%d /srv%f /srv/a%
call db_stop ok%
100 d /srv%
x=db_stop; $x%
end stopped call 3:21%trace%turns 100%after%d /srv%
call db_stop ok%
100 d /srv%
x=db_stop; "$x" || touch /srv/a%
end stopped call 3:21%trace%turns 100%after%d /srv%
call db_stop ok%
100 d /srv%
x=db; "${x}_stop"%
end stopped call 3:16%trace%turns 100%after%d /srv%
call db_stop ok%
100 d /srv%
db_${x:-stop}%
end stopped call 3:10%trace%turns 100%after%d /srv%
call db_stop ok%
100 d /srv%
$(echo db_stop)%
end stopped call 3:10%trace%turns 100%after%d /srv%
call db_stop ok%
100 d /srv%
x=; $x db_stop%
end stopped call 3:14%trace%turns 100%after%d /srv%
call f ok%
100 d /srv%
f() { :; }; x=f; $x%
end stopped call 3:27%trace%turns 100%after%d /srv%
call f ok%
100 d /srv%
x=f; $x; f() { :; }%
end stopped call 3:15%trace%turns 100%after%d /srv%"##;

// Stated calls: the name is spelled out, and no function of that name is defined before; of `command` it is of `-v` and
// `-V`.
pub const STATED: &str = r##"call db_stop ok%
100 d /srv%
"db_stop" && touch /srv/a%
end success%trace 3:23:67%turns 100%after%d /srv%f /srv/a%
call db_stop fails%
100 d /srv%
'db_stop' || touch /srv/a%
end success%trace 3:23:67%turns 100%after%d /srv%f /srv/a%
call db_stop ok%
100 d /srv%
db_"stop" a 'b' && \db_stop && d'b'_sto\p%
end success%trace%turns 100%after%d /srv%
call db_stop fails%
100 d /srv%
set -e%db_stop%touch /srv/a%
end failure%trace%turns 100%after%d /srv%
call db_stop ok%call db_go fails%
100 d /srv%
db_stop && db_go || touch /srv/a%
end success%trace 3:30:67%turns 100%after%d /srv%f /srv/a%
call db_stop ok%
100 d /srv%
db_sto || db_stop%
end stopped call 3:10%trace%turns 100%after%d /srv%
call db_stop ok%
100 d /srv%
DB_STOP%
end stopped call 3:10%trace%turns 100%after%d /srv%
call x ok%
100 d /srv%
x $(touch /srv/a) "$(touch /srv/b)"%
end success%trace 3:14:67 3:31:67%turns 100%after%d /srv%f /srv/a%f /srv/b%
call x ok%
100 d /srv%
x /srv/*%
end stopped glob 3:10%trace%turns 100%after%d /srv%
call x ok%
100 d /srv%
x "$HOME"%
end stopped call 3:10%trace%turns 100%after%d /srv%
call x* ok%
100 d /srv%
'x*' && x*%
end stopped glob 3:18%trace%turns 100%after%d /srv%
call x ok%
100 d /srv%
y=$(x); [ -z "$y" ] && touch /srv/a%
end success%trace 3:33:67%turns 100%after%d /srv%f /srv/a%
call x ok%
100 d /srv%
y=$(x 2>&1)%
end stopped message 3:14%trace%turns 100%after%d /srv%
call x fails%
100 d /srv%
x >/dev/null 2>&1 || touch /srv/a%
end success%trace 3:31:67%turns 100%after%d /srv%f /srv/a%
call x ok%
100 d /srv%
A=b x && touch "/srv/a$A"%
end success%trace 3:19:67%turns 100%after%d /srv%f /srv/a%
call /usr/bin/x fails%
100 d /srv%
/usr/bin/x y || touch /srv/a%
end success%trace 3:26:67%turns 100%after%d /srv%f /srv/a%
call . ok%
100 d /srv%
. /usr/share/x && touch /srv/a%
end success%trace 3:28:67%turns 100%after%d /srv%f /srv/a%
call x fails%
100 d /srv%
f() { x; }; f || touch /srv/a%
end success%trace 3:27:67%turns 100%after%d /srv%f /srv/a%
call f fails%
100 d /srv%
f() { touch /srv/a; }; f%
end success%trace 3:16:67%turns 100%after%d /srv%f /srv/a%
call f fails%
100 d /srv%
f() { touch /srv/a; }; (f) && x=$(f)%
end success%trace 3:16:67 3:16:67%turns 100%after%d /srv%f /srv/a%
call f ok%
100 d /srv%
f; f() { :; }%
end success%trace%turns 100%after%d /srv%
call f fails%
100 d /srv%
(f) || "f" || touch /srv/a; f() { :; }%
end success%trace 3:24:67%turns 100%after%d /srv%f /srv/a%
call command ok%
100 d /srv%
command -v x && touch /srv/a%
end success%trace 3:26:67%turns 100%after%d /srv%f /srv/a%
call command fails%
100 d /srv%
command -v x || touch /srv/a%
end success%trace 3:26:67%turns 100%after%d /srv%f /srv/a%
call command fails%
100 d /srv%
if command -V x y; then :; else touch /srv/a; fi%
end success%trace 3:42:67%turns 100%after%d /srv%f /srv/a%
call command ok%
100 d /srv%
'command' "-v" x && command -\v "$1" && touch /srv/a%
end success%trace 3:50:67%turns 100%after%d /srv%f /srv/a%
call command ok%
100 d /srv%
command -v && touch /srv/a%
end success%trace 3:24:67%turns 100%after%d /srv%f /srv/a%
call command ok%
100 d /srv%f /srv/a%
command rm /srv/a%
end stopped call 3:10%trace%turns 100%after%d /srv%f /srv/a%
call command ok%
100 d /srv%
command%
end stopped call 3:10%trace%turns 100%after%d /srv%
call command ok%
100 d /srv%
command -p x%
end stopped call 3:10%trace%turns 100%after%d /srv%
call command ok%
100 d /srv%
command -vV x%
end stopped call 3:10%trace%turns 100%after%d /srv%
call command ok%
100 d /srv%
command x -v%
end stopped call 3:10%trace%turns 100%after%d /srv%
call command ok%
100 d /srv%
x=-v; command $x y%
end stopped call 3:16%trace%turns 100%after%d /srv%
call command ok%
100 d /srv%
x=; command $x -v y%
end stopped call 3:14%trace%turns 100%after%d /srv%
call command ok%
100 d /srv%
x=command; $x -v y%
end stopped call 3:21%trace%turns 100%after%d /srv%
call x ok%
100 d /srv%
command -v x%
end stopped call 3:10%trace%turns 100%after%d /srv%"##;

// Calls that end by what stands at a path, which they ask for behind their words.
pub const ASKED: &str = r##"call x asks /srv/a%
100 d /srv%f /srv/a%
x b && touch /srv/b%
end success%trace 3:10:67 3:17:67%turns 100%after%d /srv%f /srv/a%f /srv/b%
call x asks /srv/a%
100 d /srv%
x b || touch /srv/b%
end success%trace 3:10:66 3:17:67%turns 100%after%d /srv%f /srv/b%
call x asks /srv/a%
100 d /srv%d /srv/a%
x%
end success%trace 3:10:67%turns 100%after%d /srv%d /srv/a%
call x asks /srv/a%
100 d /srv%l /srv/a y%
x || touch /srv/b%
end stopped link 3:10%trace 3:10:65%turns 100%after%d /srv%l /srv/a y%
call x asks /srv/a%
100 l /srv y%
x%
end stopped link 3:10%trace 3:10:1%turns 100%after%l /srv y%
call x asks /srv/a%
100 d /srv%
set -e%x%touch /srv/b%
end failure%trace 3:17:66%turns 100%after%d /srv%
call x asks /srv/a%
100 d /srv%
! x%
end success%trace 3:12:66%turns 100%after%d /srv%
call x asks /srv/a%
100 d /srv%
x $(touch /srv/a)%
end success%trace 3:14:67 3:10:67%turns 100%after%d /srv%f /srv/a%
call x asks /srv/a%
100 d /srv%
until x; do touch /srv/a; done%
end success%trace 3:16:66 3:22:67 3:16:67%turns 99%after%d /srv%f /srv/a%
call x asks /srv/a%
100 d /srv%
y=$(x) || touch "/srv/b$y"%
end success%trace 3:14:66 3:20:67%turns 100%after%d /srv%f /srv/b%
call x asks /%
100 d /srv%
x%
end success%trace 3:10:67%turns 100%after%d /srv%
call x asks /srv/a%
100 d /srv%f /srv/a%
y=x; $y%
end stopped call 3:15%trace%turns 100%after%d /srv%f /srv/a%
call x asks /srv/a%
100 d /srv%
x() { touch /srv/b; }; x%
end success%trace 3:16:67%turns 100%after%d /srv%f /srv/b%
call command asks /srv/a%
100 d /srv%f /srv/a%
command -v x && touch /srv/b%
end success%trace 3:10:67 3:26:67%turns 100%after%d /srv%f /srv/a%f /srv/b%"##;

// The order of versions (deb-version(7)), by each operator: two versions, and none.
pub const VERSIONS: &str = r##"versions%
100 d /srv%
c() { dpkg --compare-versions "$1" lt "$2"; }; c 1 2 && ! c 1 1 && ! c 2 1 && c "" 1 && ! c 1 "" && ! c "" ""%
end success%trace%turns 100%after%d /srv%
versions%
100 d /srv%
c() { dpkg --compare-versions "$1" le "$2"; }; c 1 2 && c 1 1 && ! c 2 1 && c "" 1 && ! c 1 "" && c "" ""%
end success%trace%turns 100%after%d /srv%
versions%
100 d /srv%
c() { dpkg --compare-versions "$1" eq "$2"; }; ! c 1 2 && c 1 1 && ! c 2 1 && ! c "" 1 && ! c 1 "" && c "" ""%
end success%trace%turns 100%after%d /srv%
versions%
100 d /srv%
c() { dpkg --compare-versions "$1" ne "$2"; }; c 1 2 && ! c 1 1 && c 2 1 && c "" 1 && c 1 "" && ! c "" ""%
end success%trace%turns 100%after%d /srv%
versions%
100 d /srv%
c() { dpkg --compare-versions "$1" ge "$2"; }; ! c 1 2 && c 1 1 && c 2 1 && ! c "" 1 && c 1 "" && c "" ""%
end success%trace%turns 100%after%d /srv%
versions%
100 d /srv%
c() { dpkg --compare-versions "$1" gt "$2"; }; ! c 1 2 && ! c 1 1 && c 2 1 && ! c "" 1 && c 1 "" && ! c "" ""%
end success%trace%turns 100%after%d /srv%
versions%
100 d /srv%
c() { dpkg --compare-versions "$1" lt-nl "$2"; }; c 1 2 && ! c 1 1 && ! c 2 1 && ! c "" 1 && c 1 "" && ! c "" ""%
end success%trace%turns 100%after%d /srv%
versions%
100 d /srv%
c() { dpkg --compare-versions "$1" le-nl "$2"; }; c 1 2 && c 1 1 && ! c 2 1 && ! c "" 1 && c 1 "" && c "" ""%
end success%trace%turns 100%after%d /srv%
versions%
100 d /srv%
c() { dpkg --compare-versions "$1" ge-nl "$2"; }; ! c 1 2 && c 1 1 && c 2 1 && c "" 1 && ! c 1 "" && c "" ""%
end success%trace%turns 100%after%d /srv%
versions%
100 d /srv%
c() { dpkg --compare-versions "$1" gt-nl "$2"; }; ! c 1 2 && ! c 1 1 && c 2 1 && c "" 1 && ! c 1 "" && ! c "" ""%
end success%trace%turns 100%after%d /srv%
versions%
100 d /srv%
c() { dpkg --compare-versions "$1" "<<" "$2"; }; c 1 2 && ! c 1 1 && ! c 2 1 && c "" 1 && ! c 1 "" && ! c "" ""%
end success%trace%turns 100%after%d /srv%
versions%
100 d /srv%
c() { dpkg --compare-versions "$1" "<=" "$2"; }; c 1 2 && c 1 1 && ! c 2 1 && c "" 1 && ! c 1 "" && c "" ""%
end success%trace%turns 100%after%d /srv%
versions%
100 d /srv%
c() { dpkg --compare-versions "$1" = "$2"; }; ! c 1 2 && c 1 1 && ! c 2 1 && ! c "" 1 && ! c 1 "" && c "" ""%
end success%trace%turns 100%after%d /srv%
versions%
100 d /srv%
c() { dpkg --compare-versions "$1" ">=" "$2"; }; ! c 1 2 && c 1 1 && c 2 1 && ! c "" 1 && c 1 "" && c "" ""%
end success%trace%turns 100%after%d /srv%
versions%
100 d /srv%
c() { dpkg --compare-versions "$1" ">>" "$2"; }; ! c 1 2 && ! c 1 1 && c 2 1 && ! c "" 1 && c 1 "" && ! c "" ""%
end success%trace%turns 100%after%d /srv%
versions%
100 d /srv%
c() { dpkg --compare-versions "$1" lt "$2"; }; c 1.0~rc1 1.0 && c 1~~ 1~ && c 1.0 1.0a && c 1.0a 1.0+%
end success%trace%turns 100%after%d /srv%
versions%
100 d /srv%
c() { dpkg --compare-versions "$1" lt "$2"; }; c 1.9 1.10 && c 9 1:0 && c 1-1 1-1.1 && c 1-2 1.1-1%
end success%trace%turns 100%after%d /srv%
versions%
100 d /srv%
c() { dpkg --compare-versions "$1" eq "$2"; }; c 1.0-0 1.0 && c 0:1 1 && c 1.0 1.00 && ! c 1.0 1.0.0%
end success%trace%turns 100%after%d /srv%
versions%
100 d /srv%
v=1.10; "dpkg" '--compare-versions' "$v" gt 1.9 && touch "/srv/$v"%
end success%trace 3:61:67%turns 100%after%d /srv%f /srv/1.10%
versions%
100 d /srv%
set -e%dpkg --compare-versions 2 lt 1%touch /srv/a%
end failure%trace%turns 100%after%d /srv%
versions%
100 d /srv%
dpkg --compare-versions "$2" lt 1 >/dev/null 2>&1 && touch /srv/a%
end success%trace 3:63:67%turns 100%after%d /srv%f /srv/a%
versions%
100 d /srv%
dpkg --compare-versions $2 lt 1%
end stopped call 3:10%trace%turns 100%after%d /srv%
versions%
100 d /srv%
dpkg --compare-versions 1 "<" 2%
end stopped call 3:10%trace%turns 100%after%d /srv%
versions%
100 d /srv%
dpkg --compare-versions 1 LT 2%
end stopped call 3:10%trace%turns 100%after%d /srv%
versions%
100 d /srv%
dpkg --compare-versions 1 lt%
end stopped call 3:10%trace%turns 100%after%d /srv%
versions%
100 d /srv%
dpkg --compare-versions 1 lt 2 3%
end stopped call 3:10%trace%turns 100%after%d /srv%
versions%
100 d /srv%
dpkg --compare-versions a1 lt 2%
end stopped call 3:10%trace%turns 100%after%d /srv%
versions%
100 d /srv%
dpkg --compare-versions 1 lt 2_3%
end stopped call 3:10%trace%turns 100%after%d /srv%
versions%
100 d /srv%
dpkg --compare-version 1 lt 2%
end stopped call 3:10%trace%turns 100%after%d /srv%
versions%
100 d /srv%
dpkg -l x%
end stopped call 3:10%trace%turns 100%after%d /srv%
versions%
100 d /srv%
x=dpkg; $x --compare-versions 1 lt 2%
end stopped call 3:18%trace%turns 100%after%d /srv%
%
100 d /srv%
dpkg --compare-versions 1 lt 2%
end stopped call 3:10%trace%turns 100%after%d /srv%
versions%call dpkg fails%
100 d /srv%
dpkg --compare-versions 1 lt 2 && ! dpkg -l && touch /srv/a%
end success%trace 3:57:67%turns 100%after%d /srv%f /srv/a%
call dpkg fails%
100 d /srv%
dpkg --compare-versions 1 lt 2 || touch /srv/a%
end success%trace 3:44:67%turns 100%after%d /srv%f /srv/a%
versions%
100 d /srv%
dpkg() { touch /srv/a; }; dpkg --compare-versions 2 lt 1%
end success%trace 3:19:67%turns 100%after%d /srv%f /srv/a%
versions%
100 d /srv%
dpkg --compare-versions 1 lt 2; dpkg() { :; }%
end stopped call 3:10%trace%turns 100%after%d /srv%"##;

// Regular files that may be executed.
pub const RUNS: &str = r##"runs%
100 d /srv%f /srv/a%
test -x /srv/a && touch /srv/b%
end success%trace 3:10:67 3:28:67%turns 100%after%d /srv%f /srv/a%f /srv/b%
%
100 d /srv%f /srv/a%
test -x /srv/a && touch /srv/b%
end stopped run 3:10%trace 3:10:68%turns 100%after%d /srv%f /srv/a%
runs%
100 d /srv%
[ -x /srv/a ] || touch /srv/a%
end success%trace 3:10:66 3:27:67%turns 100%after%d /srv%f /srv/a%
runs%
100 d /srv%
! test -x /srv%
end failure%trace 3:12:67%turns 100%after%d /srv%
runs%
100 d /srv%f /srv/a%
[ ! -x /srv/a ]%
end failure%trace 3:10:67%turns 100%after%d /srv%f /srv/a%
runs%
100 d /srv%p /srv/a%
test -x /srv/a%
end stopped run 3:10%trace 3:10:68%turns 100%after%d /srv%p /srv/a%
runs%
100 d /srv%c /srv/a%
test -x /srv/a%
end stopped run 3:10%trace 3:10:68%turns 100%after%d /srv%c /srv/a%
runs%
100 d /srv%l /srv/a x%
test -x /srv/a%
end stopped link 3:10%trace 3:10:65%turns 100%after%d /srv%l /srv/a x%
runs%
100 d /srv%f /srv/a%
x=test; y=-x; $x "$y" /srv/a%
end success%trace 3:24:67%turns 100%after%d /srv%f /srv/a%"##;

// Known links, which are met by strings that only the run knows.
pub const LINKS: &str = r##"%
100 l /bin usr/bin%d /usr%d /usr/bin%
p=/bin; touch "$p/x"%
end stopped link 3:18%trace 3:18:1%turns 100%after%l /bin usr/bin%d /usr%d /usr/bin%
link /bin usr/bin%
100 l /bin usr/bin%d /usr%d /usr/bin%
p=/bin; touch "$p/x"%
end success%trace 3:18:67%turns 100%after%l /bin usr/bin%d /usr%d /usr/bin%f /usr/bin/x%
link /bin usr/bin%
100 l /bin usr/bin%d /usr%d /usr/bin%
for d in /bin /usr/bin; do test -e "$d/x" || touch "$d/x"; done%
end success%trace 3:37:66 3:55:67 3:37:67%turns 98%after%l /bin usr/bin%d /usr%d /usr/bin%f /usr/bin/x%
link /bin usr/bin%
100 l /bin usr/bin%d /usr%d /usr/bin%
x=bin; mkdir -p "/$x/a/b"%
end success%trace 3:17:68 3:17:68 3:17:68%turns 100%after%l /bin usr/bin%d /usr%d /usr/bin%d /usr/bin/a%d /usr/bin/a/b%
link /bin usr/bin%
100 l /bin usr/bin%d /usr%d /usr/bin%
touch "$(echo /bin)/x" && rm /usr/bin/x%
end success%trace 3:10:67 3:36:68%turns 100%after%l /bin usr/bin%d /usr%d /usr/bin%
link /bin usr/bin%
100 l /bin usr/bin%d /usr%d /usr/bin%
[ -h /bin ] && [ -d /bin ]%
end success%trace 3:10:67 3:25:67%turns 100%after%l /bin usr/bin%d /usr%d /usr/bin%
link /bin usr/bin%
100 l /bin usr/bin%d /usr%d /usr/bin%
p=/bin; touch "$p"; ln -s y "$p"%
end success%trace 3:18:68 3:30:71%turns 100%after%l /bin usr/bin%d /usr%d /usr/bin%l /usr/bin/y y%
link /bin usr/bin%
100 l /bin usr/bin%d /usr%d /usr/bin%
p=/bin; rm "$p"%
end stopped link 3:18%trace 3:18:65%turns 100%after%l /bin usr/bin%d /usr%d /usr/bin%
link /bin usr/bin%
100 l /bin usr/bin%d /usr%d /usr/bin%
p=; rm -rf "$p/bin"%
end stopped link 3:14%trace 3:14:65%turns 100%after%l /bin usr/bin%d /usr%d /usr/bin%
link /bin usr/bin%
100 l /bin usr/bin%d /usr%d /usr/bin%
rmdir /usr/bin%
end stopped link 3:10%trace 3:10:65%turns 100%after%l /bin usr/bin%d /usr%d /usr/bin%
link /bin usr/bin%
100 l /bin usr/bin%d /usr%d /usr/bin%
rm -r /usr%
end stopped link 3:10%trace 3:10:65%turns 100%after%l /bin usr/bin%d /usr%d /usr/bin%
link /bin usr/bin%
100 l /bin usr/bin%d /usr%d /usr/bin%f /usr/bin/a%
mv /bin/a /bin/b%
end success%trace 3:10:68%turns 100%after%l /bin usr/bin%d /usr%d /usr/bin%f /usr/bin/b%
link /bin usr/bin%
100 l /bin usr/bin%d /usr%d /usr/bin%f /usr/bin/a%
mv /bin/a /usr/bin/a%
end stopped same 3:10%trace%turns 100%after%l /bin usr/bin%d /usr%d /usr/bin%f /usr/bin/a%
link /bin usr/bin%
100 l /bin usr/bin%d /usr%d /usr/bin%f /usr/bin/a%
p=/bin; mv "$p/a" /usr/bin%
end stopped same 3:18%trace%turns 100%after%l /bin usr/bin%d /usr%d /usr/bin%f /usr/bin/a%
link /bin usr/bin%call x asks /bin/a%
100 l /bin usr/bin%d /usr%d /usr/bin%f /usr/bin/a%
x b && ! x "$(rm /bin/a)"%
end success%trace 3:10:67 3:24:68 3:19:66%turns 100%after%l /bin usr/bin%d /usr%d /usr/bin%
link /bin usr/bin%runs%
100 l /bin usr/bin%d /usr%d /usr/bin%f /usr/bin/a%
[ -x /bin/a ]%
end success%trace 3:10:67%turns 100%after%l /bin usr/bin%d /usr%d /usr/bin%f /usr/bin/a%
link /lib64 lib%link /lib /usr/lib%
100 l /lib /usr/lib%l /lib64 lib%d /usr%d /usr/lib%
p=/lib64; touch "$p/x"%
end success%trace 3:20:67%turns 100%after%l /lib /usr/lib%l /lib64 lib%d /usr%d /usr/lib%f /usr/lib/x%
link /a b%link /b a%
100 l /a b%l /b a%
test -e /a/x%
end stopped link 3:10%trace 3:10:65%turns 100%after%l /a b%l /b a%"##;

// `cp` and the other utilities whose names a function may have.
pub const FURTHER: &str = r##"%
100 d /srv%
chmod 0755 /srv/a%
end failure%trace 3:10:66%turns 100%after%d /srv%
%
100 d /srv%f /srv/a%
chmod 0755 /srv/a%
end success%trace 3:10:67%turns 100%after%d /srv%f /srv/a%
%
100 d /srv%l /srv/a b%
chmod 0755 /srv/a%
end stopped link 3:10%trace 3:10:65%turns 100%after%d /srv%l /srv/a b%
%
100 d /srv%d /srv/a%l /srv/a/x y%
cp -r /srv/a /srv/b%
end success%trace 3:10:77%turns 100%after%d /srv%d /srv/a%l /srv/a/x y%d /srv/b%l /srv/b/x y%
%
100 d /srv%f /srv/a%
chown www-data /srv/a%
end stopped call 3:10%trace%turns 100%after%d /srv%f /srv/a%
%
100 d /srv%
chown 0:root /srv/a || chgrp root /srv%
end success%trace 3:10:66 3:33:67%turns 100%after%d /srv%
call chown ok%
100 d /srv%
chown www-data /srv/a && touch /srv/b%
end success%trace 3:35:67%turns 100%after%d /srv%f /srv/b%
%
100 d /srv%f /srv/a%
cp() { touch /srv/c; }; cp /srv/a /srv/b%
end success%trace 3:17:67%turns 100%after%d /srv%f /srv/a%f /srv/c%
%
100 d /srv%f /srv/a%
cp /srv/a /srv/b; cp() { touch /srv/c; }%
end success%trace 3:10:69%turns 100%after%d /srv%f /srv/a%f /srv/b%
%
100 d /srv%f /srv/a%
"c"p /srv/a /srv/b; cp() { :; }; cp%
end success%trace 3:10:69%turns 100%after%d /srv%f /srv/a%f /srv/b%
%
100 d /srv%f /srv/a%
cp() { :; }; x=cp; $x /srv/a /srv/b%
end stopped call 3:29%trace%turns 100%after%d /srv%f /srv/a%
%
100 d /srv%f /srv/a%
x=cp; $x /srv/a /srv/b; cp() { :; }%
end stopped call 3:16%trace%turns 100%after%d /srv%f /srv/a%
%
100 d /srv%f /srv/a%
x=cp; $x /srv/a /srv/b%
end success%trace 3:16:69%turns 100%after%d /srv%f /srv/a%f /srv/b%
call cp fails%
100 d /srv%
cp /srv/a /srv/b || touch /srv/c; cp() { :; }%
end success%trace 3:30:67%turns 100%after%d /srv%f /srv/c%
call cp fails%
100 d /srv%
cp() { touch /srv/c; }; cp%
end success%trace 3:17:67%turns 100%after%d /srv%f /srv/c%
call cp fails%
100 d /srv%f /srv/a%
x=cp; $x /srv/a /srv/b%
end success%trace 3:16:69%turns 100%after%d /srv%f /srv/a%f /srv/b%
%
100 d /srv%
command -v cp%
end stopped call 3:10%trace%turns 100%after%d /srv%
%
100 d /srv%
for f in /x/a.conf b/c.conf /d/; do touch "/srv/$(basename "$f" .conf)"; done%
end success%trace 3:46:67 3:46:67 3:46:67%turns 97%after%d /srv%f /srv/a%f /srv/c%f /srv/d%
%
100 d /srv%
p=/srv/a/b; mkdir -p "$(dirname "$p")"; touch "$p"%
end success%trace 3:22:68 3:22:68 3:50:67%turns 100%after%d /srv%d /srv/a%f /srv/a/b%
%
100 d /srv%
basename /srv//a%
end stopped call 3:10%trace%turns 100%after%d /srv%
%
100 d /srv%
install -m 755 -d /srv/a/b && chmod u+x,go= /srv/a/b%
end success%trace 3:10:68 3:10:68 3:10:68 3:40:67%turns 100%after%d /srv%d /srv/a%d /srv/a/b%
%
100 d /srv%d /srv/a%
unlink /srv/a%
end failure%trace 3:10:67%turns 100%after%d /srv%d /srv/a%
%
100 d /srv%f /srv/a%
unlink /srv/a%
end success%trace 3:10:68%turns 100%after%d /srv%
%
100 d /srv%
cp /srv/a /srv/b || touch /srv/c%
end success%trace 3:10:66 3:30:67%turns 100%after%d /srv%f /srv/c%
%
100 d /srv%d /srv/a%
cp /srv/a /srv/b%
end failure%trace 3:10:67%turns 100%after%d /srv%d /srv/a%
%
100 d /srv%l /srv/a b%
cp -a /srv/a /srv/b%
end stopped link 3:10%trace 3:10:65%turns 100%after%d /srv%l /srv/a b%
%
100 d /srv%d /srv/a%
cp -r /srv/a /srv/b; touch /srv/a/x; rm -r /srv/a%
end success%trace 3:10:77 3:31:67 3:47:69%turns 100%after%d /srv%d /srv/b%
%
100 d /srv%f /srv/a%d /srv/d%
cp /srv/a /srv/d%
end success%trace 3:10:72%turns 100%after%d /srv%f /srv/a%d /srv/d%f /srv/d/a%
%
100 d /srv%d /srv/a%
cp -r /srv/a /srv/a/b%
end stopped same 3:10%trace%turns 100%after%d /srv%d /srv/a%"##;
