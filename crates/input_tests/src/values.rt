//! What a request comes to.

use crate::answers::{File, answer};
use std::test::Fail;

const FILES: &[File<'static>] = &[
    ("p/control", b"Package: a\nVersion: 2.0-1\n"),
    ("p/list", b"/.\n/etc\n/etc/a\n/etc/b\n/l -> etc\n"),
    ("p/conffiles", b"/etc/b\n"),
    ("p/preinst", b"#!/bin/sh\n"),
    ("p/prerm", b"#!/bin/sh -e\n"),
    ("o/list", b"/usr/\n"),
    ("o/postinst", b"#!/bin/sh -e\n"),
    ("o/postrm", b"#!/bin/sh\n"),
    (
        "b",
        b"dir /etc\n# x\nabsent /etc/a\nfile /f\n\nnodir /n\nfits\n",
    ),
    ("c", b"own\ncall x ok\nfits\ncall y fails\n"),
    (
        "e",
        b"versions\nlink /bin usr/bin\nown /usr\ncall x asks /a b\nremoved\nown\nlink /a /b\nplain\nruns\n",
    ),
    ("t", b"d /etc\nf /etc/a\n"),
    ("s", b"#!/bin/sh -e\n"),
    ("lax", b"#!/bin/sh\nset -e\n"),
];

// The words of a request, and what is read for it: packages, of which a script of theirs that there is none of is left
// out, the base that is named or else the usual one, a tree, the script of a program, and nothing for a load; of a pair
// also its scenario and the new package's name.
const READ: &[(&str, &str)] = &[
    (
        "run p --old o --base b --scenario upgrade --tree t",
        "new 2.0-1 x-s- d/etc f/etc/a c/etc/b l/l\nold 0 -s-x d/usr\nbase d/etc a/etc/a f/f n/n fits\nd /etc\nf /etc/a\n",
    ),
    (
        "check p --old o --base b",
        "new 2.0-1 x-s- d/etc f/etc/a c/etc/b l/l\nold 0 -s-x d/usr\nbase d/etc a/etc/a f/f n/n fits\n",
    ),
    (
        "check p",
        "new 2.0-1 x-s- d/etc f/etc/a c/etc/b l/l\nbase d/etc d/usr d/usr/bin d/usr/sbin d/usr/lib d/usr/share d/usr/share/doc d/var d/var/lib d/var/log d/var/cache d/srv d/tmp fits\n",
    ),
    (
        "check o --base b",
        "new 0 -s-x d/usr\nbase d/etc a/etc/a f/f n/n fits\n",
    ),
    (
        "check o --base c",
        "new 0 -s-x d/usr\nbase fits own ok/x fails/y\n",
    ),
    (
        "check o --base e",
        "new 0 -s-x d/usr\nbase l/bin>usr/bin l/a>/b own/usr own runs removed versions plain asks/a b/x\n",
    ),
    ("translate s", "strict\n"),
    ("translate lax", "lax\n"),
    ("load 7", "load\n"),
    ("load --limit=3 500", "load\n"),
    (
        "pair p --with o --scenario disappear --base c",
        "disappear a\nnew 2.0-1 x-s- d/etc f/etc/a c/etc/b l/l\nold 0 -s-x d/usr\nbase fits own ok/x fails/y\n",
    ),
    (
        "twice o --base c",
        "twice unnamed\nnew 0 -s-x d/usr\nbase fits own ok/x fails/y\n",
    ),
];

#[test]
fn requests_are_read(rt: HostRuntime) -> Result<(), Fail> {
    for row in READ {
        match answer(rt.alloc(), row.0, FILES, 0) {
            Ok(text) => assert!(rt; text.as_slice() == row.1.as_bytes(), "{}", row.1),
            Err(_) => return Err(Fail::from(row.0)),
        }
    }
    Ok(())
}
