//! Stores in which variables are to be symbolic links to targets: what is left, their clauses, and the trees that they
//! show.

use crate::steps::Step::{At, Clause, Lead, LeadLink, LeadMade, Limit, Refuse, Shows};
use crate::steps::{Course, Step, Words, goes};
use feature_trees::Kind;
use tree_clauses::Var;

const A: Words = &[b"a"];

const BELOW: Words = &[b"a", b"b"];

const OTHER: Words = &[b"c"];

// Steps on a store of all trees.
const STEPS: &[(&str, &[Step])] = &[
    ("a place", &[Lead(A, b"t", true)]),
    ("no bytes", &[Lead(A, b"", true)]),
    (
        "twice the same target",
        &[Lead(A, b"t", true), Lead(A, b"t", true)],
    ),
    (
        "another target",
        &[Lead(A, b"t", true), Lead(A, b"tt", false)],
    ),
    (
        "another place",
        &[Lead(A, b"t", true), Lead(OTHER, b"u", true)],
    ),
    (
        "below a link is nothing",
        &[Lead(A, b"t", true), Limit(BELOW, "absent", None)],
    ),
    (
        "below a link is no file",
        &[Lead(A, b"t", true), Refuse(BELOW, "file", None)],
    ),
    (
        "no link is above a directory",
        &[Limit(BELOW, "dir", None), Lead(A, b"t", false)],
    ),
    (
        "a directory before",
        &[Limit(A, "dir", None), Lead(A, b"t", false)],
    ),
    (
        "a link before",
        &[Limit(A, "link", None), Lead(A, b"t", true)],
    ),
    (
        "a link behind",
        &[Lead(A, b"t", true), Limit(A, "link", None)],
    ),
    (
        "a directory behind",
        &[Lead(A, b"t", true), Refuse(A, "dir", None)],
    ),
    ("the tree of files", &[Lead(&[], b"t", false)]),
    ("a made link", &[LeadLink(b"t", b"t", true)]),
    (
        "a made link to another target",
        &[LeadLink(b"t", b"u", false)],
    ),
    ("a made directory", &[LeadMade(Kind::Dir)]),
    ("a made file", &[LeadMade(Kind::Reg)]),
    ("a made nothing", &[LeadMade(Kind::Absent)]),
    (
        "two links",
        &[
            Lead(&[b"bin"], b"usr/bin", true),
            Limit(&[b"lib"], "link", None),
            Clause(TWO_LINKS),
            Shows(LINKS_SHOWN),
        ],
    ),
];

// Where `/bin` is a link to `usr/bin`, and `/lib` one to any target.
const TWO_LINKS: &str = "clause start v0 now v0
kind v0 dir
entry v0 bin v1
kind v1 link
target v1 usr/bin
entry v0 lib v2
kind v2 link
";

const LINKS_SHOWN: &str = "l /bin usr/bin
l /lib x
";

// The store that two forks come from knows of the target of neither.
const FORKED: Course = (
    "forks have their own targets",
    &[At(&[b"bin"], Var(1))],
    &[],
    &[Lead(&[b"bin"], b"t", true)],
    &[Lead(&[b"bin"], b"u", true)],
    &[
        Clause("clause start v0 now v0\nkind v0 dir\nentry v0 bin v1\n"),
        Shows("d /bin\n"),
    ],
);

#[test]
fn paths_are_led_to_targets(rt: HostRuntime) {
    for row in STEPS {
        let course: Course = (row.0, row.1, &[], &[], &[], &[]);
        assert!(rt; goes(rt.alloc(), &course), "{}", row.0);
    }
    assert!(rt; goes(rt.alloc(), &FORKED));
}
