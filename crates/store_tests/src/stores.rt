//! Stores after one call or some: their clauses, and the trees that they show.

use crate::steps::Step::{
    At, Clause, Fill, Limit, Literals, Put, PutFilled, Refuse, Shows, ShowsBytes, ShowsEntries,
    TakeAway, Widen,
};
use crate::steps::{Course, Words, goes};
use feature_trees::Kind;
use tree_clauses::Var;

const NOW: Words = &[];

const NAME: &[u8] = b"a";

const DEEP: Words = &[NAME; 64];

const TWO_SHOWN: &str = "d /etc
d /usr
d /usr/bin
";

// Where `/etc` and `/usr/bin` are directories.
const TWO_DIRECTORIES: &str = "clause start v0 now v0
kind v0 dir
entry v0 etc v1
kind v1 dir
entry v0 usr v2
entry v2 bin v3
kind v3 dir
";

// Where `/etc` is a pipe, a block device or nothing.
const PIPE_OR_BLOCK: &str = "clause start v0 now v0
kind v0 dir
entry v0 etc v1
kind v1 absent,fifo,block
";

// An empty directory where nothing stood.
const ONE_MADE: &str = "clause start v0 now v3
kind v0 dir
entry v0 a v1
kind v1 absent
kind v2 dir
fence v2 {}
similar v3 {a} v0
entry v3 a v2
";

// And nothing where a file stood.
const ONE_GONE: &str = "clause start v0 now v7
kind v0 dir
entry v0 a v1
kind v1 absent
kind v2 dir
fence v2 {}
similar v3 {a} v0
entry v3 a v2
kind v4 absent
entry v0 c v5
kind v5 reg
kind v6 absent
similar v7 {c} v3
entry v7 c v6
";

// A directory `/etc` that holds an empty directory `b` alone.
const ONE_IN_ONE: &str = "clause start v0 now v4
kind v0 dir
kind v1 dir
fence v1 {}
kind v2 dir
fence v2 {}
similar v3 {b} v1
entry v3 b v2
similar v4 {etc} v0
entry v4 etc v3
";

const COURSES: &[Course] = &[
    (
        "starts anywhere",
        &[Clause("clause start v0 now v0\nkind v0 dir\n"), Shows("")],
        &[],
        &[],
        &[],
        &[],
    ),
    (
        "limits",
        &[
            Limit(&[b"etc"], "dir", Some(Var(1))),
            Limit(&[b"usr", b"bin"], "dir", Some(Var(3))),
            At(&[b"usr", b"bin"], Var(3)),
            Clause(TWO_DIRECTORIES),
            Shows(TWO_SHOWN),
        ],
        &[],
        &[],
        &[],
        &[],
    ),
    (
        "forks keep their pairs",
        &[
            Limit(&[b"etc"], "dir", Some(Var(1))),
            Limit(&[b"usr", b"bin"], "dir", Some(Var(3))),
        ],
        &[Refuse(NOW, "file", None), Refuse(NOW, "all", None)],
        &[Clause(TWO_DIRECTORIES), Shows(TWO_SHOWN)],
        &[],
        &[],
    ),
    (
        "shows each kind",
        &[
            Limit(&[b"etc", b"r"], "file", None),
            Limit(&[b"etc", b"l"], "link", None),
            Limit(&[b"etc", b"a"], "absent", None),
            Limit(&[b"etc", b"d"], "all", None),
            Shows("d /etc\nd /etc/d\nl /etc/l x\nf /etc/r\n"),
        ],
        &[],
        &[],
        &[],
        &[],
    ),
    (
        "shows each special kind",
        &[
            Limit(&[b"etc", b"p"], "pipe or absent", None),
            Limit(&[b"etc", b"s"], "socket or absent", None),
            Limit(&[b"etc", b"b"], "block or absent", None),
            Limit(&[b"etc", b"c"], "char or absent", None),
            Limit(&[b"etc", b"x"], "special", None),
            Shows("d /etc\nb /etc/b\nc /etc/c\np /etc/p\ns /etc/s\np /etc/x\n"),
        ],
        &[],
        &[],
        &[],
        &[],
    ),
    (
        "limits to a set with pipes",
        &[
            Limit(&[b"etc"], "pipe, block or absent", Some(Var(1))),
            Clause(PIPE_OR_BLOCK),
            Shows("p /etc\n"),
        ],
        &[],
        &[],
        &[],
        &[],
    ),
    (
        "takes deep paths",
        // the line of the k-th name has 2 k + 3 bytes
        &[Limit(DEEP, "dir", Some(Var(64))), ShowsBytes(4352)],
        &[],
        &[],
        &[],
        &[],
    ),
    (
        "takes many entries",
        &[Widen(2000), ShowsEntries(2000)],
        &[],
        &[],
        &[],
        &[],
    ),
    (
        "derives",
        &[
            Limit(&[b"a"], "absent", None),
            Put(b"a", Kind::Dir),
            Clause(ONE_MADE),
            Shows(""),
        ],
        &[],
        &[],
        &[],
        &[],
    ),
    (
        "derives twice",
        &[
            Limit(&[b"a"], "absent", None),
            Put(b"a", Kind::Dir),
            At(&[b"a", b"b"], Var(4)),
            Limit(&[b"c"], "file", Some(Var(5))),
            Put(b"c", Kind::Absent),
            // the definition of the tree now has this limit already: it writes nothing
            Limit(NOW, "dir", None),
            Clause(ONE_GONE),
            Shows("f /c\n"),
        ],
        &[],
        &[],
        &[],
        &[],
    ),
    (
        "derives beside a fork",
        &[
            Limit(&[b"a"], "absent", None),
            Put(b"a", Kind::Dir),
            At(&[b"a", b"b"], Var(4)),
            Limit(&[b"c"], "file", Some(Var(5))),
            Put(b"c", Kind::Absent),
        ],
        &[],
        // it has the next variable, and is no file again
        &[Refuse(&[b"c"], "file", Some(Var(6)))],
        &[],
        &[Clause(ONE_GONE), Shows("f /c\n")],
    ),
    (
        "derives made ones",
        &[
            PutFilled,
            Clause(ONE_IN_ONE),
            At(&[b"etc", b"b"], Var(2)),
            // nothing stands beside it
            Refuse(&[b"etc", b"c"], "dir", None),
        ],
        &[],
        &[],
        &[],
        &[],
    ),
    (
        "derives a thousand times",
        &[
            TakeAway(1000),
            // the k-th entry, from 0 on, is variable 2 k + 1, and the directory without it 2 k + 2
            At(NOW, Var(2000)),
            At(&[b"0000"], Var(1)),
            At(&[b"0999"], Var(1999)),
            Limit(&[b"x"], "file", Some(Var(2001))),
            // a kind of the start tree, three literals for each entry, and two for the last
            Literals(3003),
            Shows("f /x\n"),
        ],
        &[],
        &[],
        &[],
        &[],
    ),
    (
        "fills what is derived a thousand times",
        &[
            TakeAway(1000),
            Fill,
            Shows("f /aaaaaaaaaaaaaaaaaaaaaaaaaaaaaaaa\n"),
            Limit(&[b"x"], "link", None),
            Shows("l /x x\n"),
        ],
        &[],
        &[],
        &[],
        &[],
    ),
];

#[test]
fn stores_go_as_written(rt: HostRuntime) {
    for course in COURSES {
        assert!(rt; goes(rt.alloc(), course), "{}", course.0);
    }
}
