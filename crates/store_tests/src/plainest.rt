//! The start trees in which nothing is there that need not be.

use crate::emptied::without;
use crate::steps::Step::{Fence, FillAt, FillWithout, Limit, ShowsPlainest};
use crate::steps::{Course, Words, directory_text, goes, is_left, walk};
use clause_solver::Store;
use feature_trees::Kinds;
use script_names::{Bytes, List, Memory, Name, NameFault};
use std::alloc::Global;

const ROOT: Words = &[];

const SRV: Words = &[b"srv"];

const DEEP: Words = &[b"srv", b"a"];

/// Whether a pair is left where a path has entries under these names alone.
pub(crate) fn fences(
    alloc: Global,
    s: &mut Store,
    words: &[&[u8]],
    names: &[&[u8]],
) -> Result<bool, NameFault> {
    let x = walk(alloc, s, words)?;
    let mut fence = List::new(alloc);
    for name in names {
        let name = Name::read(alloc, name)?;
        fence.add(name)?;
    }
    let left = s.fence(x, &fence)?;
    Ok(left)
}

/// Whether a pair is left where a path is not empty.
pub(crate) fn fills_at(alloc: Global, s: &mut Store, words: &[&[u8]]) -> Result<bool, NameFault> {
    let x = walk(alloc, s, words)?;
    let left = s.not_empty(x)?;
    Ok(left)
}

/// Whether a pair is left where a path is a directory that is not empty without its entry of a name.
pub(crate) fn fills_without(
    alloc: Global,
    s: &mut Store,
    words: &[&[u8]],
    name: &[u8],
) -> Result<bool, NameFault> {
    let x = walk(alloc, s, words)?;
    let name = Name::read(alloc, name)?;
    match without(s, x, &name)? {
        None => Ok(false),
        Some(y) => {
            let left = s.not_empty(y)?;
            Ok(left)
        }
    }
}

// The plainest tree of a store, by a limit that leaves all pairs.
fn plainest_text(alloc: Global, s: &mut Store) -> Result<Bytes, Memory> {
    let now = s.now();
    if !is_left(s, now, Kinds::all()) {
        return Bytes::from_slice(alloc, b"no pair");
    }
    let tree = s.plainest_tree(alloc)?;
    directory_text(alloc, &tree)
}

/// Whether a store has a pair and this plainest tree.
pub(crate) fn shows_plainest(alloc: Global, s: &mut Store, text: &[u8]) -> bool {
    match plainest_text(alloc, s) {
        Ok(shown) => shown.as_slice() == text,
        Err(_) => false,
    }
}

const COURSES: &[Course] = &[
    (
        "leaves out what may be missing",
        &[
            Limit(&[b"etc", b"r"], "all", None),
            Limit(&[b"srv", b"d"], "dir", None),
            ShowsPlainest("d /srv\nd /srv/d\n"),
        ],
        &[],
        &[],
        &[],
        &[],
    ),
    (
        "keeps one of two names",
        &[
            Fence(SRV, &[b"a", b"b"]),
            FillAt(SRV),
            ShowsPlainest("d /srv\nd /srv/a\n"),
        ],
        // the first one is taken away
        &[
            Limit(&[b"srv", b"a"], "absent", None),
            ShowsPlainest("d /srv\nd /srv/b\n"),
        ],
        // the second one has to be there
        &[
            Limit(&[b"srv", b"b"], "file", None),
            ShowsPlainest("d /srv\nf /srv/b\n"),
        ],
        &[],
        &[],
    ),
    (
        "keeps nothing below a name that is kept",
        &[
            Fence(SRV, &[b"a", b"b"]),
            FillAt(SRV),
            Fence(DEEP, &[b"x", b"y"]),
            ShowsPlainest("d /srv\nd /srv/a\n"),
        ],
        // it is to have an entry itself
        &[
            FillAt(DEEP),
            ShowsPlainest("d /srv\nd /srv/a\nd /srv/a/x\n"),
        ],
        &[],
        &[],
        &[],
    ),
    (
        "keeps a name for two directories",
        &[
            Fence(SRV, &[b"a", b"b", b"c"]),
            FillAt(SRV),
            FillWithout(SRV, b"a"),
            ShowsPlainest("d /srv\nd /srv/b\n"),
        ],
        // the last one goes first, so that no other can go then
        &[
            FillWithout(SRV, b"b"),
            ShowsPlainest("d /srv\nd /srv/a\nd /srv/b\n"),
        ],
        &[],
        &[],
        &[],
    ),
    (
        "keeps two names where no name serves two directories",
        &[
            Fence(SRV, &[b"a", b"b"]),
            FillWithout(SRV, b"a"),
            FillWithout(SRV, b"b"),
            ShowsPlainest("d /srv\nd /srv/a\nd /srv/b\n"),
        ],
        &[],
        &[],
        &[],
        &[],
    ),
    (
        "leaves a directory open that has no fence",
        &[
            FillAt(ROOT),
            ShowsPlainest("f /aaaaaaaaaaaaaaaaaaaaaaaaaaaaaaaa\n"),
            Fence(ROOT, &[b"a", b"b"]),
            ShowsPlainest("d /a\n"),
        ],
        &[],
        &[],
        &[],
        &[],
    ),
];

#[test]
fn plainest_trees_are_shown(rt: HostRuntime) {
    for course in COURSES {
        assert!(rt; goes(rt.alloc(), course), "{}", course.0);
    }
}
