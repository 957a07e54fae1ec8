//! What `plain` makes known of the paths that scripts name, and of the outcomes that it leaves. Needs are written as in
//! the rows of needs.rt.

use crate::answers::{File, Sought, ends_so, is_said};
use dpkg_scenarios::Scenario;
use std::alloc::Global;

const FILES: &[File] = &[("p/list", b"/.\n"), ("o/list", b"/.\n"), ("b", b"plain\n")];

const ALONE: &str = "check p --base b";

const BOTH: &str = "check p --old o --base b";

// The commands of a postinst, and what is needed of a tree in which it is installed.
const SCRIPTS: &[(&[u8], &str)] = &[
    // the sorts of acts
    (
        b"#!/bin/sh\nrm /etc/shells",
        "/etc:ALD /etc/shells:ARLFSBC ",
    ),
    (
        b"#!/bin/sh\nrm -f /etc/shells",
        "/etc:ALD /etc/shells:ARLFSBC ",
    ),
    (b"#!/bin/sh\nrm -r /var/lib/foo", "/var:ALD /var/lib:ALD "),
    (b"#!/bin/sh\nrm -rf /var/lib/foo", "/var:ALD /var/lib:ALD "),
    (b"#!/bin/sh\ntouch /a/b", "/a:ALD /a/b:ARL "),
    (b"#!/bin/sh\nmkdir /a/b", "/a:ALD /a/b:ALD "),
    (b"#!/bin/sh\nmkdir -p /a/b", "/a:ALD /a:ALD /a/b:ALD "),
    (b"#!/bin/sh\nrmdir /a/b", "/a:ALD /a/b:ALD "),
    (b"#!/bin/sh\nmv /a/b /c/d", "/a:ALD /c:ALD "),
    (b"#!/bin/sh\nln -s t /a/b", "/a:ALD "),
    (b"#!/bin/sh\nrm /a /b", "/a:ARLFSBC /b:ARLFSBC "),
    (b"#!/bin/sh\nchmod 644 /a/b", "/a:ALD "),
    (b"#!/bin/sh\ncp -a /a/b /c/d", "/a:ALD /c:ALD "),
    (b"#!/bin/sh\nunlink /a/b", "/a:ALD /a/b:ARLFSBC "),
    // what is no change
    (b"#!/bin/sh\ntest -e /a/b", ""),
    (b"#!/bin/sh\n[ -d /a/b ]", ""),
    (b"#!/bin/sh\necho /a/b", ""),
    (b"#!/bin/sh\ntrue /a/b", ""),
    (b"#!/bin/sh\nunknown /a/b", ""),
    (b"#!/bin/sh\nrm", ""),
    (b"#!/bin/sh\nrm ''", ""),
    (b"#!/bin/sh\nrm -q /a", ""),
    // settled words
    (
        b"#!/bin/sh\nrm -f \"${DPKG_ROOT:-}/etc/shells\"",
        "/etc:ALD /etc/shells:ARLFSBC ",
    ),
    (
        b"#!/bin/sh\nrm -f \"$DPKG_ROOT\"/etc/shells",
        "/etc:ALD /etc/shells:ARLFSBC ",
    ),
    (
        b"#!/bin/sh\nrm -f $DPKG_ROOT/etc/shells",
        "/etc:ALD /etc/shells:ARLFSBC ",
    ),
    (b"#!/bin/sh\nrm '/a'/\"b\"", "/a:ALD /a/b:ARLFSBC "),
    (b"#!/bin/sh\nrm \"${x:-/a/b}\"", "/a:ALD /a/b:ARLFSBC "),
    (b"#!/bin/sh\nrm ${x:-}/a", "/a:ARLFSBC "),
    (b"#!/bin/sh\n\"${x:-rm}\" /a", "/a:ARLFSBC "),
    // words that are not settled
    (b"#!/bin/sh\nrm ${x:-/a}", ""),
    (b"#!/bin/sh\nrm /a $x", ""),
    (b"#!/bin/sh\nrm /a \"$1\"", ""),
    (b"#!/bin/sh\nrm /a \"$#\"", ""),
    (b"#!/bin/sh\nrm /a \"$@\"", ""),
    (b"#!/bin/sh\nrm /a \"$(echo /b)\"", ""),
    (b"#!/bin/sh\nrm \"$HOME/a\"", ""),
    (b"#!/bin/sh\nrm \"$BASHX/a\"", ""),
    (b"#!/bin/sh\nrm \"$DPKG_MAINTSCRIPT_NAME/a\"", ""),
    // variables that the script gives a value, or may
    (b"#!/bin/sh\nx=/b; rm \"$x/a\"", ""),
    (b"#!/bin/sh\nrm \"$x/a\"; x=/b", ""),
    (b"#!/bin/sh\ny=/b; rm \"$x/a\"", "/a:ARLFSBC "),
    (b"#!/bin/sh\nfor x in b; do :; done; rm \"$x/a\"", ""),
    (b"#!/bin/sh\nexport x; rm \"$x/a\"", ""),
    (b"#!/bin/sh\nexport x=/b; rm \"$x/a\"", ""),
    (b"#!/bin/sh\nexport xy=/b; rm \"$x/a\"", "/a:ARLFSBC "),
    (b"#!/bin/sh\nexport y=x; rm \"$x/a\"", "/a:ARLFSBC "),
    (b"#!/bin/sh\nunset x; rm \"$x/a\"", ""),
    (b"#!/bin/sh\nexport \"$1\"; rm \"$x/a\"", ""),
    (b"#!/bin/sh\nunset z \"$y\"; rm \"$x/a\" /b", ""),
    (b"#!/bin/sh\nexport \"$1\"; rm /a", "/a:ARLFSBC "),
    // wherever a command stands
    (b"#!/bin/sh\nf() { rm /a; }", "/a:ARLFSBC "),
    (b"#!/bin/sh\ny=$(rm /a)", "/a:ARLFSBC "),
    (b"#!/bin/sh\necho \"$(rm /a)\"", "/a:ARLFSBC "),
    (
        b"#!/bin/sh\nif rm /a; then mkdir /b; else rmdir /c; fi",
        "/a:ARLFSBC /b:ALD /c:ALD ",
    ),
    (
        b"#!/bin/sh\ncase x in y) rm /a ;; *) touch /b ;; esac",
        "/a:ARLFSBC /b:ARL ",
    ),
    (
        b"#!/bin/sh\nwhile rm /a; do touch /b; done",
        "/a:ARLFSBC /b:ARL ",
    ),
    (
        b"#!/bin/sh\n! rm /a || ( touch /b ) && { mkdir /c; }",
        "/a:ARLFSBC /b:ARL /c:ALD ",
    ),
    (b"#!/bin/sh\nrm /a >/dev/null 2>&1", "/a:ARLFSBC "),
    (
        b"#!/bin/sh\nfor x in \"$(rm /a)\"; do touch /b; done",
        "/a:ARLFSBC /b:ARL ",
    ),
];

// Whether a script needs what its row says.
fn script_needs(alloc: Global, row: &(&'static [u8], &str)) -> bool {
    let script: [File; 1] = [("p/postinst", row.0)];
    is_said(
        alloc,
        Sought::Answer,
        Scenario::Install,
        ALONE,
        FILES,
        &script,
        row.1,
    )
}

#[test]
fn scripts_need_what_their_commands_take(rt: HostRuntime) {
    for row in SCRIPTS {
        assert!(rt; script_needs(rt.alloc(), row), "{:?}", row.0);
    }
}

// A scenario, the words of the request, scripts and perhaps another base, and what is needed.
const ROWS: &[(Scenario, &str, &[File], &str)] = &[
    (
        Scenario::Install,
        ALONE,
        &[("b", b""), ("p/postinst", b"#!/bin/sh\nrm /a")],
        "",
    ),
    (
        Scenario::Install,
        ALONE,
        &[
            ("b", b"plain\nfits\nplain\n"),
            ("p/postinst", b"#!/bin/sh\nrm /a"),
        ],
        "/a:ARLFSBC ",
    ),
    (
        Scenario::Remove,
        ALONE,
        &[
            ("p/preinst", b"#!/bin/sh\nrm /a"),
            ("p/postinst", b"#!/bin/sh\nrm /b"),
            ("p/prerm", b"#!/bin/sh\nrm /c"),
            ("p/postrm", b"#!/bin/sh\nrm /d"),
        ],
        "/a:ARLFSBC /b:ARLFSBC /c:ARLFSBC /d:ARLFSBC ",
    ),
    // along the links of the base, without the last name
    (
        Scenario::Install,
        ALONE,
        &[
            ("b", b"link /bin usr/bin\nplain\n"),
            ("p/postinst", b"#!/bin/sh\nrm /bin/a"),
        ],
        "/bin>usr/bin /usr/bin:D /usr:ALD /usr/bin:ALD /usr/bin/a:ARLFSBC ",
    ),
    (
        Scenario::Install,
        ALONE,
        &[
            ("b", b"link /bin usr/bin\nplain\n"),
            ("p/postinst", b"#!/bin/sh\nrm /bin"),
        ],
        "/bin>usr/bin /usr/bin:D /bin:ARLFSBC ",
    ),
    // a stated call is no change
    (
        Scenario::Install,
        ALONE,
        &[
            ("b", b"call cp ok\nplain\n"),
            ("p/postinst", b"#!/bin/sh\ncp /a/b /c/d"),
        ],
        "",
    ),
    // the scripts of the old package, in upgrade and install-again alone
    (
        Scenario::Upgrade,
        BOTH,
        &[
            ("p/postinst", b"#!/bin/sh\nrm /a"),
            ("o/prerm", b"#!/bin/sh\ntouch /b"),
        ],
        "/a:ARLFSBC /b:ARL ",
    ),
    (
        Scenario::InstallAgain,
        BOTH,
        &[
            ("p/postinst", b"#!/bin/sh\nrm /a"),
            ("o/prerm", b"#!/bin/sh\ntouch /b"),
        ],
        "/a:ARLFSBC /b:ARL ",
    ),
    (
        Scenario::Install,
        BOTH,
        &[
            ("p/postinst", b"#!/bin/sh\nrm /a"),
            ("o/prerm", b"#!/bin/sh\ntouch /b"),
        ],
        "/a:ARLFSBC ",
    ),
    (
        Scenario::Remove,
        BOTH,
        &[
            ("p/postinst", b"#!/bin/sh\nrm /a"),
            ("o/prerm", b"#!/bin/sh\ntouch /b"),
        ],
        "/a:ARLFSBC ",
    ),
    (
        Scenario::Purge,
        BOTH,
        &[
            ("p/postinst", b"#!/bin/sh\nrm /a"),
            ("o/prerm", b"#!/bin/sh\ntouch /b"),
        ],
        "/a:ARLFSBC ",
    ),
    (
        Scenario::PurgeLater,
        BOTH,
        &[
            ("p/postinst", b"#!/bin/sh\nrm /a"),
            ("o/prerm", b"#!/bin/sh\ntouch /b"),
        ],
        "/a:ARLFSBC ",
    ),
    (
        Scenario::Upgrade,
        ALONE,
        &[("p/postinst", b"#!/bin/sh\nrm /a")],
        "/a:ARLFSBC /a:ARLFSBC ",
    ),
];

#[test]
fn scenarios_need_what_their_packages_scripts_take(rt: HostRuntime) {
    for row in ROWS {
        assert!(rt;
            is_said(
                rt.alloc(),
                Sought::Answer,
                row.0,
                row.1,
                FILES,
                row.2,
                row.3
            ),
            "{}",
            row.3
        );
    }
}

// A postinst, and the end of the brief report on its installation under `dir /etc`, without `plain` and with it.
const REPORTS: &[(&[u8], &str, &str)] = &[
    (
        b"#!/bin/sh\nrm -f \"${DPKG_ROOT:-}/etc/shells\"",
        "verdict 1\n",
        "verdict 0\n",
    ),
    (
        b"#!/bin/sh\nmkdir -p /etc/foo",
        "verdict 1\n",
        "verdict 2\n",
    ),
];

// Whether the report on the installation with a script under a base ends so.
fn report_ends(alloc: Global, base: &'static [u8], script: &'static [u8], end: &str) -> bool {
    let others: [File; 2] = [("b", base), ("p/postinst", script)];
    ends_so(
        alloc,
        Sought::Report,
        Scenario::Install,
        ALONE,
        FILES,
        &others,
        end,
    )
}

#[test]
fn commands_meet_what_they_take(rt: HostRuntime) {
    for row in REPORTS {
        assert!(rt;
            report_ends(rt.alloc(), b"dir /etc\n", row.0, row.1),
            "{:?}",
            row.0
        );
        assert!(rt;
            report_ends(rt.alloc(), b"dir /etc\nplain\n", row.0, row.2),
            "{:?} plain",
            row.0
        );
    }
}
