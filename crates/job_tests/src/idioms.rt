//! What maintainers write with `cp`, `chmod`, `chown`, `chgrp`, `install -d`, `unlink`, `basename` and `dirname`, with
//! all outcomes, worked by hand from the rows of the acts.

use crate::stated::Row;

// A base, the package's postinst, and the brief report.
pub(crate) const IDIOMS: &[Row] = &[
    // A mode is set.
    (
        b"dir /srv\n",
        b"#!/bin/sh\nchmod 0755 /srv/a\n",
        r"colis brief 2
scenario install outcomes 3
outcome 1 incomplete link 3:10
trace 3:10:65
outcome 2 failed Half-Configured
trace 3:10:66
outcome 3 done Installed
trace 3:10:67
verdict 1
",
    ),
    // An owner by another name than root, without and with what is stated of it.
    (
        b"dir /srv\n",
        b"#!/bin/sh\nchown www-data /srv/a\n",
        r"colis brief 2
scenario install outcomes 1
outcome 1 incomplete call 3:10
trace
verdict 2
",
    ),
    // The same, where it is stated that each call succeeds.
    (
        b"dir /srv\ncall chown ok\n",
        b"#!/bin/sh\nchown www-data:adm /srv/a\n",
        r"colis brief 2
scenario install outcomes 1
outcome 1 done Installed
trace
verdict 0
",
    ),
    // A default file is copied, and its mode set, where there is none.
    (
        b"dir /srv\nfile /srv/default\nabsent /srv/a\n",
        b"#!/bin/sh\nset -e\nif [ ! -e /srv/a ]; then\n  cp -a /srv/default /srv/a\n  chmod 644 /srv/a\nfi\n",
        r"colis brief 2
scenario install outcomes 1
outcome 1 done Installed
trace 3:20:66 3:44:69 3:72:67
verdict 0
",
    ),
    // It is copied whatever it is.
    (
        b"dir /srv\nabsent /srv/a\n",
        b"#!/bin/sh\nset -e\ncp -p /srv/default /srv/a\n",
        r"colis brief 2
scenario install outcomes 5
outcome 1 incomplete link 3:17
trace 3:17:65
outcome 2 failed Half-Configured
trace 3:17:66
outcome 3 failed Half-Configured
trace 3:17:67
outcome 4 done Installed
trace 3:17:69
outcome 5 incomplete run 3:17
trace 3:17:82
verdict 1
",
    ),
    // Directories are made with a mode.
    (
        b"dir /srv\nabsent /srv/foo\n",
        b"#!/bin/sh\nset -e\ninstall -d -m 750 /srv/foo/cache\nchgrp root /srv/foo\n",
        r"colis brief 2
scenario install outcomes 1
outcome 1 done Installed
trace 3:17:68 3:17:68 3:17:68 3:50:67
verdict 0
",
    ),
    // A file for each of some names.
    (
        b"dir /srv\nabsent /srv/a\nabsent /srv/b\n",
        b"#!/bin/sh\nset -e\nfor f in /x/a.conf /x/b.conf; do\n  touch \"/srv/$(basename \"$f\" .conf)\"\ndone\n",
        r"colis brief 2
scenario install outcomes 1
outcome 1 done Installed
trace 3:52:67 3:52:67
verdict 0
",
    ),
    // The directory of a file.
    (
        b"dir /srv\nabsent /srv/foo\n",
        b"#!/bin/sh\nset -e\nf=/srv/foo/x\n[ -d \"$(dirname \"$f\")\" ] || mkdir \"$(dirname \"$f\")\"\n",
        r"colis brief 2
scenario install outcomes 1
outcome 1 done Installed
trace 3:30:66 3:58:68
verdict 0
",
    ),
    // A link is taken away, where one stands there.
    (
        b"dir /srv\nnodir /srv/a\n",
        b"#!/bin/sh\nset -e\n[ ! -L /srv/a ] || unlink /srv/a\n",
        r"colis brief 2
scenario install outcomes 2
outcome 1 done Installed
trace 3:17:66
outcome 2 done Installed
trace 3:17:67 3:36:68
verdict 0
",
    ),
    // A directory with all below it is copied, and then taken away.
    (
        b"dir /srv\ndir /srv/a\nabsent /srv/b\n",
        b"#!/bin/sh\nset -e\ncp -r /srv/a /srv/b\nrm -r /srv/a\n",
        r"colis brief 2
scenario install outcomes 1
outcome 1 done Installed
trace 3:17:77 3:37:69
verdict 0
",
    ),
    // A file is copied over one that may be there.
    (
        b"dir /srv\nfile /srv/a\nnodir /srv/b\n",
        b"#!/bin/sh\ncp -f /srv/a /srv/b\n",
        r"colis brief 2
scenario install outcomes 3
outcome 1 done Installed
trace 3:10:69
outcome 2 incomplete link 3:10
trace 3:10:70
outcome 3 incomplete run 3:10
trace 3:10:71
verdict 2
",
    ),
    // A function of the name, before its definition.
    (
        b"dir /srv\nfile /srv/a\nabsent /srv/b\n",
        b"#!/bin/sh\ncp /srv/a /srv/b\ncp() {\n  touch /srv/c\n}\n",
        r"colis brief 2
scenario install outcomes 1
outcome 1 done Installed
trace 3:10:69
verdict 0
",
    ),
    // Behind it.
    (
        b"dir /srv\nfile /srv/a\nabsent /srv/c\n",
        b"#!/bin/sh\ncp() {\n  touch /srv/c\n}\ncp /srv/a /srv/b\n",
        r"colis brief 2
scenario install outcomes 1
outcome 1 done Installed
trace 3:19:67
verdict 0
",
    ),
    // By a computed name.
    (
        b"dir /srv\nfile /srv/a\n",
        b"#!/bin/sh\ncp() {\n  touch /srv/c\n}\nx=cp\n$x /srv/a /srv/b\n",
        r"colis brief 2
scenario install outcomes 1
outcome 1 incomplete call 3:39
trace
verdict 2
",
    ),
    // A copy to itself.
    (
        b"dir /srv\n",
        b"#!/bin/sh\ncp /srv/a /srv/a\n",
        r"colis brief 2
scenario install outcomes 1
outcome 1 incomplete same 3:10
trace
verdict 2
",
    ),
];
