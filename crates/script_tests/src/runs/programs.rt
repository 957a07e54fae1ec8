//! The scripts of worked packages, and the texts of their programs, by hand.

use crate::pages::Page;
use crate::programs::{prints, translated};
use std::alloc::Global;

// A script behind `#!/bin/sh`, in which `%` is a newline and `@` stands for 64 letters, and its program, of which what
// stands between `(program lax ` and the last `)` is written.
const PROGRAMS: &[(&str, &str)] = &[
    (
        "set -e%test -d /etc%",
        "(seq (strict) (call 17 (word (p =test)) (word (p =-d)) (word (p =/etc))))",
    ),
    (
        "set -e%[ -e /srv/a ] || mkdir /srv/a%",
        "(seq (strict) (chain (call 17 (word (p =[)) (word (p =-e)) (word (p =/srv/a)) (word (p =]))) (or \
        (call 34 (word (p =mkdir)) (word (p =/srv/a))))))",
    ),
    (
        "set -e%mkdir /srv/a/b%",
        "(seq (strict) (call 17 (word (p =mkdir)) (word (p =/srv/a/b))))",
    ),
    (
        "set -e%touch /srv/a%rmdir /srv%",
        "(seq (strict) (call 17 (word (p =touch)) (word (p =/srv/a))) \
        (call 30 (word (p =rmdir)) (word (p =/srv))))",
    ),
    (
        "set -e%rm -f /srv/d/x%rmdir /srv/d%",
        "(seq (strict) (call 17 (word (p =rm)) (word (p =-f)) (word (p =/srv/d/x))) \
        (call 32 (word (p =rmdir)) (word (p =/srv/d))))",
    ),
    (
        "set -e%mv /srv/a /srv/a/b%",
        "(seq (strict) (call 17 (word (p =mv)) (word (p =/srv/a)) (word (p =/srv/a/b))))",
    ),
    (
        "set -e%mv /srv/a /srv/a%",
        "(seq (strict) (call 17 (word (p =mv)) (word (p =/srv/a)) (word (p =/srv/a))))",
    ),
    (
        "set -e%mv /srv/a/b /srv/a%",
        "(seq (strict) (call 17 (word (p =mv)) (word (p =/srv/a/b)) (word (p =/srv/a))))",
    ),
    (
        "set -e%mv /srv/a/a /srv%",
        "(seq (strict) (call 17 (word (p =mv)) (word (p =/srv/a/a)) (word (p =/srv))))",
    ),
    (
        "set -e%if false; then :; fi%false || true%! true%false%",
        "(seq (strict) (if ((call 20 (word (p =false))) (call 32 (word (p =:)))) (skip)) (chain \
        (call 38 (word (p =false))) (or (call 47 (word (p =true))))) (not (call 54 (word (p =true)))) \
        (call 59 (word (p =false))))",
    ),
    (
        "set -e%x=$(echo a b)%for i in $x \"$x\"; do%  touch \"/srv/$i\"%done%",
        "(seq (strict) (set 17 (x (join (output (call 21 (word (p =echo)) (word (p =a)) (word (p =b))))))) \
        (for 31 i ((word (s (var x))) (word (q (var x)))) \
        (call 54 (word (p =touch)) (word (q =/srv/) (q (var i))))))",
    ),
    (
        "while [ -e /srv/a ]; do :; done%",
        "(while 10 (call 16 (word (p =[)) (word (p =-e)) (word (p =/srv/a)) (word (p =]))) \
        (call 34 (word (p =:))))",
    ),
    (
        "set -e%case \"$1\" in%  configure)%    mkdir -p /var/lib/foo%  ;;%  \
        abort-upgrade|abort-remove|abort-deconfigure)%  ;;%  *)%    echo \"postinst called with unknown \
        argument \\`$1'\" >&2%    exit 1%  ;;%esac%exit 0%",
        "(seq (strict) (case 17 (join (arg 1)) (((pat (p =configure))) \
        (call 47 (word (p =mkdir)) (word (p =-p)) (word (p =/var/lib/foo)))) \
        (((pat (p =abort-upgrade)) (pat (p =abort-remove)) (pat (p =abort-deconfigure))) (skip)) \
        (((pat (p =*))) (seq (quiet (call 136 (word (p =echo)) (word \
        (q =postinst\\x20called\\x20with\\x20unknown\\x20argument\\x20`) (q (arg 1)) (q =')))) \
        (exit 195 (word (p =1)))))) (exit 212 (word (p =0))))",
    ),
    ("exit 1%", "(exit 10 (word (p =1)))"),
    (
        "[ \"$1\" = failed-upgrade ]%",
        "(call 10 (word (p =[)) (word (q (arg 1))) (word (p ==)) (word (p =failed-upgrade)) (word (p =])))",
    ),
    (
        "set -e%update-rc.d foo defaults >/dev/null%",
        "(seq (strict) (quiet (call 17 (word (p =update-rc.d)) (word (p =foo)) (word (p =defaults)))))",
    ),
    ("set -e%echo a | cat%", "(seq (strict) (stop 17 pipe))"),
    (
        "set -e%echo \"$PWD\"%",
        "(seq (strict) (call 17 (word (p =echo)) (word (q (var PWD)))))",
    ),
    (
        "set -e%rm -rf /var/lib/foo/%",
        "(seq (strict) (call 17 (word (p =rm)) (word (p =-rf)) (word (p =/var/lib/foo/))))",
    ),
    (
        "set -e%(x=1; touch /srv/a)%[ -z \"$x\" ]%[ -f /srv/a ]%",
        "(seq (strict) (sub 17 (seq (set 18 (x (join =1))) (call 23 (word (p =touch)) (word (p =/srv/a))))) \
        (call 37 (word (p =[)) (word (p =-z)) (word (q (var x))) (word (p =]))) \
        (call 49 (word (p =[)) (word (p =-f)) (word (p =/srv/a)) (word (p =]))))",
    ),
    (
        "false && true || touch /srv/b%",
        "(chain (call 10 (word (p =false))) (and (call 19 (word (p =true)))) (or \
        (call 27 (word (p =touch)) (word (p =/srv/b)))))",
    ),
    (
        "set -e%test -d /etc || mkdir /etc%",
        "(seq (strict) (chain (call 17 (word (p =test)) (word (p =-d)) (word (p =/etc))) (or \
        (call 33 (word (p =mkdir)) (word (p =/etc))))))",
    ),
    (
        "touch /srv/@@@@%",
        "(call 10 (word (p =touch)) (word (p =/srv/@@@@)))",
    ),
];

// A text as a row has it.
fn lengthened(alloc: Global, first: &str, text: &str) -> Page {
    let mut page = Page::new(alloc);
    page.put(first.as_bytes());
    for byte in text.as_bytes() {
        match *byte {
            b'%' => page.byte(b'\n'),
            b'@' => page.put(&[b'a'; 64]),
            other => page.byte(other),
        }
    }
    page
}

// The text of the program of a row.
fn program_text(alloc: Global, row: &str) -> Page {
    let mut text = lengthened(alloc, "(program lax ", row);
    text.put(b")\n");
    text
}

// Whether a script becomes the program of a row.
fn becomes(alloc: Global, script: &[u8], row: &str) -> bool {
    let found = translated(alloc, script);
    let wanted = program_text(alloc, row);
    prints(alloc, found.get(), &wanted)
}

// Whether a row's script becomes the program of the row.
fn holds(alloc: Global, script: &str, row: &str) -> bool {
    let script = lengthened(alloc, "#!/bin/sh\n", script);
    script.whole && becomes(alloc, script.text.as_slice(), row)
}

#[test]
fn worked_scripts_become_programs(rt: HostRuntime) {
    for row in PROGRAMS {
        assert!(rt; holds(rt.alloc(), row.0, row.1), "{}", row.0);
    }
}
