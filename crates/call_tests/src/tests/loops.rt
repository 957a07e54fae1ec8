//! Loops, a substitution and subshells whose commands ask for what stands in the tree: all outcomes of each.

use super::scripts_made::{STRICT, Script};
use super::seen::Seen;
use super::{Case, Row, installation, see_all};
use std::test::Fail;

// Loops have two turns.
const INSTALL: &[&str] = &[
    "check",
    "p",
    "--scenario",
    "install",
    "--turns",
    "2",
    "--brief",
];

// A script behind its first two lines, the status, and the report, from the number of outcomes on.
struct Looped(&'static [u8], u8, &'static [u8]);

impl Row for Looped {
    fn case(&self) -> Case {
        installation(
            INSTALL,
            Script::Joined(STRICT, self.0),
            self.1,
            Seen::Report(self.2),
        )
    }
}

const LOOPS: &[Looped] = &[
    // It asks once more than it has turns.
    Looped(
        b"while test -e /srv/a; do :; done\n",
        2,
        b"3\noutcome 1 incomplete link 3:23\ntrace 3:23:65\noutcome 2 done Installed\ntrace 3:23:66\n\
        outcome 3 bound 3:17\ntrace 3:23:67 3:23:67 3:23:67\nverdict 2\n",
    ),
    // Behind the loop both paths that left it go on.
    Looped(
        b"while test -e /srv/a; do break; done\ntest -d /srv/a\n",
        1,
        b"4\noutcome 1 incomplete link 3:23\ntrace 3:23:65\noutcome 2 failed Half-Configured\n\
        trace 3:23:66 3:54:66\noutcome 3 failed Half-Configured\ntrace 3:23:67 3:54:66\n\
        outcome 4 done Installed\ntrace 3:23:67 3:54:67\nverdict 1\n",
    ),
    // The condition is asked again, and what stands behind `continue` is passed over.
    Looped(
        b"while test -e /srv/a; do rm -f /srv/a; continue; exit 1; done\n",
        1,
        b"4\noutcome 1 incomplete link 3:23\ntrace 3:23:65\noutcome 2 done Installed\ntrace 3:23:66\n\
        outcome 3 failed Half-Configured\ntrace 3:23:67 3:42:67\noutcome 4 done Installed\n\
        trace 3:23:67 3:42:71 3:23:66\nverdict 1\n",
    ),
    // `return` leaves the function with its loop.
    Looped(
        b"f() { while test -e /srv/a; do return; done; mkdir /srv/a; }; f\n",
        2,
        b"3\noutcome 1 incomplete link 3:29\ntrace 3:29:65\noutcome 2 done Installed\ntrace 3:29:66 3:62:68\n\
        outcome 3 done Installed\ntrace 3:29:67\nverdict 2\n",
    ),
    Looped(
        b"while test -e /srv/a; do exit 1; done\nmkdir /srv/a\n",
        1,
        b"3\noutcome 1 incomplete link 3:23\ntrace 3:23:65\noutcome 2 done Installed\ntrace 3:23:66 3:55:68\n\
        outcome 3 failed Half-Configured\ntrace 3:23:67\nverdict 1\n",
    ),
    // A command without a specification.
    Looped(
        b"while test -e /srv/a; do cat; done\n",
        2,
        b"3\noutcome 1 incomplete link 3:23\ntrace 3:23:65\noutcome 2 done Installed\ntrace 3:23:66\n\
        outcome 3 incomplete call 3:42\ntrace 3:23:67\nverdict 2\n",
    ),
    // What one path writes the other does not take.
    Looped(
        b"x=$(test -e /srv/a && echo a) || x=b\nmkdir \"/srv/$x\"\n",
        1,
        b"4\noutcome 1 incomplete link 3:21\ntrace 3:21:65\noutcome 2 failed Half-Configured\n\
        trace 3:21:66 3:54:67\noutcome 3 done Installed\ntrace 3:21:66 3:54:68\n\
        outcome 4 failed Half-Configured\ntrace 3:21:67 3:54:67\nverdict 1\n",
    ),
    Looped(
        b"(test -e /srv/a) || exit 1\n",
        1,
        b"3\noutcome 1 incomplete link 3:18\ntrace 3:18:65\noutcome 2 failed Half-Configured\ntrace 3:18:66\n\
        outcome 3 done Installed\ntrace 3:18:67\nverdict 1\n",
    ),
    // `exit` ends the subshell alone.
    Looped(
        b"(test -e /srv/a && exit 1; mkdir /srv/a) || rmdir /srv/a\n",
        1,
        b"5\noutcome 1 incomplete link 3:18\ntrace 3:18:65\noutcome 2 done Installed\ntrace 3:18:66 3:44:68\n\
        outcome 3 failed Half-Configured\ntrace 3:18:67 3:61:66\noutcome 4 failed Half-Configured\n\
        trace 3:18:67 3:61:67\noutcome 5 done Installed\ntrace 3:18:67 3:61:68\nverdict 1\n",
    ),
];

#[test]
fn paths_of_loops_and_subshells(rt: HostRuntime) -> Result<(), Fail> {
    see_all(&rt, LOOPS)
}
