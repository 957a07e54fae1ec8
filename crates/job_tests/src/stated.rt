//! Scripts under stated calls, with all their outcomes: a base says of some commands how their calls end. The script is
//! the package's postinst, and nothing stands at the paths that it makes files at.

use crate::answers::{File, Sought, is_said};
use crate::idioms::IDIOMS;
use dpkg_scenarios::Scenario;
use std::alloc::Global;

const FILES: &[File] = &[("p/list", b"")];

/// A base, a script, and the brief report.
pub(crate) type Row = (&'static [u8], &'static [u8], &'static str);

const ROWS: &[Row] = &[
    // The command succeeds, or fails, or nothing is stated of it.
    (
        b"dir /srv\nabsent /srv/a\nabsent /srv/b\ncall x ok\n",
        b"#!/bin/sh\nx\n",
        "colis brief 2\nscenario install outcomes 1\noutcome 1 done Installed\ntrace\nverdict 0\n",
    ),
    (
        b"dir /srv\nabsent /srv/a\nabsent /srv/b\ncall x fails\n",
        b"#!/bin/sh\nx\n",
        "colis brief 2\nscenario install outcomes 1\noutcome 1 failed Half-Configured\ntrace\nverdict 1\n",
    ),
    (
        b"dir /srv\nabsent /srv/a\nabsent /srv/b\n",
        b"#!/bin/sh\nx\n",
        "colis brief 2\nscenario install outcomes 1\noutcome 1 incomplete call 3:10\ntrace\nverdict 2\n",
    ),
    (
        b"dir /srv\nabsent /srv/a\nabsent /srv/b\ncall X ok\n",
        b"#!/bin/sh\nx\n",
        "colis brief 2\nscenario install outcomes 1\noutcome 1 incomplete call 3:10\ntrace\nverdict 2\n",
    ),
    (
        b"dir /srv\nabsent /srv/a\nabsent /srv/b\ncall xx ok\n",
        b"#!/bin/sh\nx\n",
        "colis brief 2\nscenario install outcomes 1\noutcome 1 incomplete call 3:10\ntrace\nverdict 2\n",
    ),
    (
        b"dir /srv\nabsent /srv/a\nabsent /srv/b\ncall x fails\ncall y ok\n",
        b"#!/bin/sh\ny; x\n",
        "colis brief 2\nscenario install outcomes 1\noutcome 1 failed Half-Configured\ntrace\nverdict 1\n",
    ),
    (
        b"dir /srv\nabsent /srv/a\nabsent /srv/b\ncall x fails\ncall y ok\n",
        b"#!/bin/sh\nx; y\n",
        "colis brief 2\nscenario install outcomes 1\noutcome 1 done Installed\ntrace\nverdict 0\n",
    ),
    (
        b"dir /srv\nabsent /srv/a\nabsent /srv/b\ncall x fails\n",
        b"#!/bin/sh\nset -e; x; touch /srv/a\n",
        "colis brief 2\nscenario install outcomes 1\noutcome 1 failed Half-Configured\ntrace\nverdict 1\n",
    ),
    // Its status decides, as that of any command.
    (
        b"dir /srv\nabsent /srv/a\nabsent /srv/b\ncall x fails\n",
        b"#!/bin/sh\nx || touch /srv/a\n",
        "colis brief 2\nscenario install outcomes 1\noutcome 1 done Installed\ntrace 3:15:67\nverdict 0\n",
    ),
    (
        b"dir /srv\nabsent /srv/a\nabsent /srv/b\ncall x ok\n",
        b"#!/bin/sh\nx || touch /srv/a\n",
        "colis brief 2\nscenario install outcomes 1\noutcome 1 done Installed\ntrace\nverdict 0\n",
    ),
    (
        b"dir /srv\nabsent /srv/a\nabsent /srv/b\ncall x ok\n",
        b"#!/bin/sh\nx && touch /srv/a\n",
        "colis brief 2\nscenario install outcomes 1\noutcome 1 done Installed\ntrace 3:15:67\nverdict 0\n",
    ),
    (
        b"dir /srv\nabsent /srv/a\nabsent /srv/b\ncall x fails\n",
        b"#!/bin/sh\nif x; then touch /srv/a; else touch /srv/b; fi\n",
        "colis brief 2\nscenario install outcomes 1\noutcome 1 done Installed\ntrace 3:40:67\nverdict 0\n",
    ),
    (
        b"dir /srv\nabsent /srv/a\nabsent /srv/b\ncall x fails\n",
        b"#!/bin/sh\n! x\n",
        "colis brief 2\nscenario install outcomes 1\noutcome 1 done Installed\ntrace\nverdict 0\n",
    ),
    (
        b"dir /srv\nabsent /srv/a\nabsent /srv/b\ncall x ok\n",
        b"#!/bin/sh\n! x\n",
        "colis brief 2\nscenario install outcomes 1\noutcome 1 failed Half-Configured\ntrace\nverdict 1\n",
    ),
    (
        b"dir /srv\nabsent /srv/a\nabsent /srv/b\ncall x fails\n",
        b"#!/bin/sh\nwhile x; do touch /srv/a; done\n",
        "colis brief 2\nscenario install outcomes 1\noutcome 1 done Installed\ntrace\nverdict 0\n",
    ),
    (
        b"dir /srv\nabsent /srv/a\nabsent /srv/b\ncall x ok\n",
        b"#!/bin/sh\nuntil x; do touch /srv/a; done\n",
        "colis brief 2\nscenario install outcomes 1\noutcome 1 done Installed\ntrace\nverdict 0\n",
    ),
    (
        b"dir /srv\nabsent /srv/a\nabsent /srv/b\ncall x ok\n",
        b"#!/bin/sh\nwhile x; do :; done\n",
        "colis brief 2\nscenario install outcomes 1\noutcome 1 bound 3:10\ntrace\nverdict 2\n",
    ),
    (
        b"dir /srv\nabsent /srv/a\nabsent /srv/b\ncall x fails\n",
        b"#!/bin/sh\n(x) || touch /srv/a\n",
        "colis brief 2\nscenario install outcomes 1\noutcome 1 done Installed\ntrace 3:17:67\nverdict 0\n",
    ),
    (
        b"dir /srv\nabsent /srv/a\nabsent /srv/b\ncall x ok\n",
        b"#!/bin/sh\ncase $1 in configure) x;; *) exit 1;; esac\n",
        "colis brief 2\nscenario install outcomes 1\noutcome 1 done Installed\ntrace\nverdict 0\n",
    ),
    (
        b"dir /srv\nabsent /srv/a\nabsent /srv/b\ncall x ok\n",
        b"#!/bin/sh\nfor i in a b; do x $i; done\n",
        "colis brief 2\nscenario install outcomes 1\noutcome 1 done Installed\ntrace\nverdict 0\n",
    ),
    // Its words are expanded, with their acts; it prints nothing; its redirections and its assignments are its own.
    (
        b"dir /srv\nabsent /srv/a\nabsent /srv/b\ncall x ok\n",
        b"#!/bin/sh\nx $(touch /srv/a)\n",
        "colis brief 2\nscenario install outcomes 1\noutcome 1 done Installed\ntrace 3:14:67\nverdict 0\n",
    ),
    (
        b"dir /srv\nabsent /srv/a\nabsent /srv/b\ncall x ok\n",
        b"#!/bin/sh\nx a \"$(touch /srv/a)\" $(touch /srv/b)\n",
        "colis brief 2\nscenario install outcomes 1\noutcome 1 done Installed\ntrace 3:17:67 3:34:67\nverdict 0\n",
    ),
    (
        b"dir /srv\nabsent /srv/a\nabsent /srv/b\ncall x ok\n",
        b"#!/bin/sh\ny=$(x); [ -z \"$y\" ] && touch /srv/a\n",
        "colis brief 2\nscenario install outcomes 1\noutcome 1 done Installed\ntrace 3:33:67\nverdict 0\n",
    ),
    (
        b"dir /srv\nabsent /srv/a\nabsent /srv/b\ncall x ok\n",
        b"#!/bin/sh\nx >/dev/null 2>&1\n",
        "colis brief 2\nscenario install outcomes 1\noutcome 1 done Installed\ntrace\nverdict 0\n",
    ),
    (
        b"dir /srv\nabsent /srv/a\nabsent /srv/b\ncall x ok\n",
        b"#!/bin/sh\nA=b x; [ -z \"$A\" ] && touch /srv/a\n",
        "colis brief 2\nscenario install outcomes 1\noutcome 1 done Installed\ntrace 3:32:67\nverdict 0\n",
    ),
    // The name is a static word, and is that of the command itself.
    (
        b"dir /srv\nabsent /srv/a\nabsent /srv/b\ncall x ok\n",
        b"#!/bin/sh\ny=x; $y\n",
        "colis brief 2\nscenario install outcomes 1\noutcome 1 incomplete call 3:15\ntrace\nverdict 2\n",
    ),
    (
        b"dir /srv\nabsent /srv/a\nabsent /srv/b\ncall x ok\n",
        b"#!/bin/sh\n'x' a; \"x\" b; \\x c\n",
        "colis brief 2\nscenario install outcomes 1\noutcome 1 done Installed\ntrace\nverdict 0\n",
    ),
    (
        b"dir /srv\nabsent /srv/a\nabsent /srv/b\ncall long-name ok\n",
        b"#!/bin/sh\nlo\"ng\"-'name'\n",
        "colis brief 2\nscenario install outcomes 1\noutcome 1 done Installed\ntrace\nverdict 0\n",
    ),
    (
        b"dir /srv\nabsent /srv/a\nabsent /srv/b\ncall x ok\n",
        b"#!/bin/sh\ncommand x\n",
        "colis brief 2\nscenario install outcomes 1\noutcome 1 incomplete call 3:10\ntrace\nverdict 2\n",
    ),
    (
        b"dir /srv\nabsent /srv/a\nabsent /srv/b\ncall x fails\n",
        b"#!/bin/sh\ntrue x\n",
        "colis brief 2\nscenario install outcomes 1\noutcome 1 done Installed\ntrace\nverdict 0\n",
    ),
    (
        b"dir /srv\nabsent /srv/a\nabsent /srv/b\ncall /usr/bin/x ok\n",
        b"#!/bin/sh\n/usr/bin/x y\n",
        "colis brief 2\nscenario install outcomes 1\noutcome 1 done Installed\ntrace\nverdict 0\n",
    ),
    (
        b"dir /srv\nabsent /srv/a\nabsent /srv/b\ncall . ok\n",
        b"#!/bin/sh\n. /usr/share/debconf/confmodule\n",
        "colis brief 2\nscenario install outcomes 1\noutcome 1 done Installed\ntrace\nverdict 0\n",
    ),
    (
        b"dir /srv\nabsent /srv/a\nabsent /srv/b\ncall update-rc.d ok\n",
        b"#!/bin/sh\nupdate-rc.d foo defaults >/dev/null\n",
        "colis brief 2\nscenario install outcomes 1\noutcome 1 done Installed\ntrace\nverdict 0\n",
    ),
    // A function of the script has the name for itself, from its definition on.
    (
        b"dir /srv\nabsent /srv/a\nabsent /srv/b\ncall f fails\n",
        b"#!/bin/sh\nf() { touch /srv/a; }; f\n",
        "colis brief 2\nscenario install outcomes 1\noutcome 1 done Installed\ntrace 3:16:67\nverdict 0\n",
    ),
    (
        b"dir /srv\nabsent /srv/a\nabsent /srv/b\ncall f ok\n",
        b"#!/bin/sh\nf; f() { true; }\n",
        "colis brief 2\nscenario install outcomes 1\noutcome 1 done Installed\ntrace\nverdict 0\n",
    ),
    (
        b"dir /srv\nabsent /srv/a\nabsent /srv/b\ncall x ok\n",
        b"#!/bin/sh\nf() { x; }; f\n",
        "colis brief 2\nscenario install outcomes 1\noutcome 1 done Installed\ntrace\nverdict 0\n",
    ),
];

// Whether the installation of a row has the row's brief report.
fn is_reported(alloc: Global, row: &Row) -> bool {
    let others = [("b", row.0), ("p/postinst", row.1)];
    let line = "check p --base b";
    is_said(
        alloc,
        Sought::Report,
        Scenario::Install,
        line,
        FILES,
        &others,
        row.2,
    )
}

#[test]
fn stated_calls_end_as_stated(rt: HostRuntime) {
    for row in ROWS {
        assert!(rt; is_reported(rt.alloc(), row), "{:?} {:?}", row.0, row.1);
    }
}

#[test]
fn idioms_have_these_outcomes(rt: HostRuntime) {
    for row in IDIOMS {
        assert!(rt; is_reported(rt.alloc(), row), "{:?} {:?}", row.0, row.1);
    }
}
