//! What start trees need. Behind a path stand the kinds that it may have: A nothing, R a regular file, L a link, O
//! another thing, D a directory; or, behind `=`, the names that its entries may have.

use crate::answers::{File, Sought, is_said};
use dpkg_scenarios::Scenario;

const FILES: &[File] = &[
    (
        "p/list",
        b"/.\n/etc\n/etc/foo\n/etc/foo/a.conf\n/usr/x\n/l -> x\n",
    ),
    ("p/conffiles", b"/etc/foo/a.conf\n"),
    ("o/list", b"/etc\n/etc/old\n/usr/x\n/o.conf\n/m -> x\n"),
    ("o/conffiles", b"/o.conf\n"),
];

// The list of an old package with folders that the new one lists, and others.
const OLD_FOLDERS: &[u8] = b"/etc\n/etc/foo\n/etc/foo/z\n/g\n/g/a\n/g/c.conf\n/g/d\n/g/d/e\n";

const BOTH: &str = "check p --old o --base b";

const ALONE: &str = "check p --base b";

// A scenario, the words of the request, the base, and what is needed.
const ROWS: &[(Scenario, &str, &[File], &str)] = &[
    (
        Scenario::Install,
        BOTH,
        &[("b", b"dir /etc\nfile /f\n# none\nabsent /n\nnodir /x/y\n")],
        "/etc:D /f:R /n:A /x/y:ARLFSBC ",
    ),
    (
        Scenario::Install,
        BOTH,
        &[("b", b"dir /etc\nfits\nfile /f\nfits\n")],
        "/etc:D /f:R /etc:AD /etc/foo:AD /etc/foo/a.conf:AR /usr/x:ARLFSBC /l:ARLFSBC ",
    ),
    (
        Scenario::InstallAgain,
        BOTH,
        &[("b", b"dir /usr\n")],
        "/usr:D /etc/foo/a.conf:ARLFSBC ",
    ),
    (
        Scenario::InstallAgain,
        BOTH,
        &[("b", b"fits")],
        "/etc/foo/a.conf:ARLFSBC /etc:AD /etc/foo:AD /etc/foo/a.conf:AR /usr/x:ARLFSBC /l:ARLFSBC ",
    ),
    (
        Scenario::Upgrade,
        BOTH,
        &[("b", b"")],
        "/etc:D /etc/old:ARLFSBC /usr/x:ARLFSBC /o.conf:ARLFSBC /m:ARLFSBC ",
    ),
    (
        Scenario::Upgrade,
        BOTH,
        &[("b", b"fits\n")],
        "/etc:D /etc/old:ARLFSBC /usr/x:ARLFSBC /o.conf:ARLFSBC /m:ARLFSBC /etc/foo:AD /etc/foo/a.conf:AR /l:ARLFSBC ",
    ),
    (
        Scenario::Remove,
        BOTH,
        &[("b", b"fits\ndir /a\n")],
        "/a:D /etc:D /etc/foo:D /etc/foo/a.conf:ARLFSBC /usr/x:ARLFSBC /l:ARLFSBC ",
    ),
    (
        Scenario::Purge,
        BOTH,
        &[("b", b"fits\n")],
        "/etc:D /etc/foo:D /etc/foo/a.conf:ARLFSBC /usr/x:ARLFSBC /l:ARLFSBC ",
    ),
    (
        Scenario::PurgeLater,
        BOTH,
        &[("b", b"fits\n")],
        "/etc/foo/a.conf:ARLFSBC ",
    ),
    // A package is its own old one where no other is named.
    (
        Scenario::Upgrade,
        ALONE,
        &[("b", b"fits\n")],
        "/etc:D /etc/foo:D /etc/foo/a.conf:ARLFSBC /usr/x:ARLFSBC /l:ARLFSBC ",
    ),
    // The package's folders hold no foreign entry.
    (Scenario::Install, BOTH, &[("b", b"own\n")], ""),
    (
        Scenario::InstallAgain,
        BOTH,
        &[("b", b"own\n")],
        "/etc/foo/a.conf:ARLFSBC ",
    ),
    (
        Scenario::Remove,
        BOTH,
        &[("b", b"own\ncall x ok\n")],
        "/etc:D /etc/foo:D /etc/foo/a.conf:ARLFSBC /usr/x:ARLFSBC /l:ARLFSBC /etc=,foo /etc/foo=,a.conf ",
    ),
    (
        Scenario::Purge,
        BOTH,
        &[("b", b"dir /etc\nown\nown\n")],
        "/etc:D /etc:D /etc/foo:D /etc/foo/a.conf:ARLFSBC /usr/x:ARLFSBC /l:ARLFSBC /etc/foo=,a.conf ",
    ),
    (
        Scenario::Remove,
        BOTH,
        &[("b", b"own\ndir /etc/foo/b\n")],
        "/etc/foo/b:D /etc:D /etc/foo:D /etc/foo/a.conf:ARLFSBC /usr/x:ARLFSBC /l:ARLFSBC ",
    ),
    (
        Scenario::PurgeLater,
        BOTH,
        &[("b", b"own\n")],
        "/etc/foo/a.conf:ARLFSBC /etc:AD /etc=,foo /etc/foo:AD /etc/foo=,a.conf ",
    ),
    (
        Scenario::Upgrade,
        BOTH,
        &[("b", b"own\n")],
        "/etc:D /etc/old:ARLFSBC /usr/x:ARLFSBC /o.conf:ARLFSBC /m:ARLFSBC ",
    ),
    (
        Scenario::Upgrade,
        BOTH,
        &[
            ("b", b"own\n"),
            ("o/list", OLD_FOLDERS),
            ("o/conffiles", b"/g/c.conf\n"),
        ],
        "/etc:D /etc/foo:D /etc/foo/z:ARLFSBC /g:D /g/a:ARLFSBC /g/c.conf:ARLFSBC /g/d:D /g/d/e:ARLFSBC /g=,a,c.conf,d /g/d=,e ",
    ),
    (
        Scenario::Upgrade,
        BOTH,
        &[
            ("b", b"own\ndir /g/d\n"),
            ("o/list", OLD_FOLDERS),
            ("o/conffiles", b""),
        ],
        "/g/d:D /etc:D /etc/foo:D /etc/foo/z:ARLFSBC /g:D /g/a:ARLFSBC /g/c.conf:ARLFSBC /g/d:D /g/d/e:ARLFSBC ",
    ),
];

#[test]
fn start_trees_need(rt: HostRuntime) {
    for row in ROWS {
        assert!(rt;
            is_said(
                rt.alloc(),
                Sought::Answer,
                row.0,
                row.1,
                FILES,
                row.2,
                row.3
            ),
            "{}",
            row.3
        );
    }
}
