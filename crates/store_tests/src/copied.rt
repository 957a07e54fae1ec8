//! Cases of the setting of a mode and of copies: the row, its answer, and the clause of the trees that take it.

use crate::cases::Printed;

/// Rows of `chmod` and `cp`.
pub(crate) const COPIES: &[Printed] = &[
    (
        "chmod 755 /a",
        67,
        "ok",
        1,
        "clause start v0 now v0
kind v0 dir
kind v0 dir
entry v0 a v1
kind v1 reg,fifo,socket,block,char,dir
",
    ),
    (
        "cp /a /b",
        67,
        "failed",
        1,
        "clause start v0 now v0
kind v0 dir
kind v0 dir
entry v0 a v1
kind v1 dir
kind v0 absent,reg,link,fifo,socket,block,char,dir
",
    ),
    (
        "cp /a /b",
        69,
        "ok",
        3,
        "clause start v0 now v3
kind v0 dir
kind v0 dir
entry v0 a v1
kind v1 reg
kind v0 dir
entry v0 b v2
kind v2 absent,reg
similar v3 {b} v0
entry v3 b v1
",
    ),
    (
        "cp /a/b /c",
        72,
        "ok",
        6,
        "clause start v0 now v6
kind v0 dir
kind v0 dir
entry v0 a v1
kind v1 dir
entry v1 b v2
kind v2 reg
kind v0 dir
entry v0 c v3
kind v3 dir
entry v3 b v4
kind v4 absent,reg
similar v5 {b} v3
entry v5 b v2
similar v6 {c} v0
entry v6 c v5
",
    ),
    (
        "cp -r /a /b",
        80,
        "ok",
        5,
        "clause start v0 now v5
kind v0 dir
kind v0 dir
entry v0 a v1
kind v1 dir
kind v0 dir
entry v0 b v2
kind v2 dir
entry v2 a v3
kind v3 absent
similar v4 {a} v2
entry v4 a v1
similar v5 {b} v0
entry v5 b v4
",
    ),
    (
        "cp -r /a /b",
        82,
        "run",
        1,
        "clause start v0 now v0
kind v0 dir
kind v0 dir
entry v0 a v1
kind v1 fifo,socket,block,char
kind v0 absent,reg,link,fifo,socket,block,char,dir
",
    ),
    (
        "cp /a /b/c",
        129,
        "link",
        2,
        "clause start v0 now v0
kind v0 dir
kind v0 dir
entry v0 a v1
kind v1 reg
kind v0 dir
entry v0 b v2
kind v2 link
",
    ),
    (
        "cp -r /a /b/c",
        129,
        "link",
        2,
        "clause start v0 now v0
kind v0 dir
kind v0 dir
entry v0 a v1
kind v1 reg,dir
kind v0 dir
entry v0 b v2
kind v2 link
",
    ),
];
