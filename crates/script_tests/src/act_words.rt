use feature_trees::Kinds;
use script_names::{Bytes, List, Memory, Path};
use script_places::{act_name, deed_of_mark, push_kinds, row_words};
use std::alloc::Global;
use std::test::Fail;
use utility_calls::acts::Act;
use utility_calls::deeds::Deed;

// A set of kinds, and its words.
const KINDS: &[(Kinds, &[u8])] = &[
    (
        Kinds {
            absent: true,
            dir: true,
            ..Kinds::NONE
        },
        b"missing or a directory",
    ),
    (
        Kinds {
            reg: true,
            dir: true,
            ..Kinds::SPECIAL
        },
        b"there, and no link",
    ),
    (
        Kinds {
            dir: false,
            ..Kinds::ALL
        },
        b"no directory",
    ),
    (
        Kinds {
            absent: true,
            fifo: true,
            char: true,
            ..Kinds::NONE
        },
        b"missing or a pipe or a character device",
    ),
    (
        Kinds {
            socket: true,
            ..Kinds::NONE
        },
        b"a socket",
    ),
    (
        Kinds {
            fifo: false,
            ..Kinds::ALL
        },
        b"missing or a file or a link or a socket or a block device or a character device or a directory",
    ),
];

// Whether a set has these words.
fn is_told(alloc: Global, row: &(Kinds, &[u8])) -> Result<bool, Memory> {
    let mut text = Bytes::new(alloc);
    push_kinds(&mut text, row.0)?;
    Ok(text.as_slice() == row.1)
}

#[test]
fn kinds_are_told(rt: HostRuntime) -> Result<(), Fail> {
    for row in KINDS {
        assert!(rt; is_told(rt.alloc(), row)?, "{row:?}");
    }
    Ok(())
}

// Whether the second mark of a run that asks, keeps the tree and removes is told of the removal.
fn is_removal(alloc: Global) -> Result<bool, Memory> {
    let asks = Deed::Does(Act::Exists(Path::new(List::new(alloc), false)));
    let remove = Act::Remove {
        p: Path::new(List::new(alloc), false),
        force: true,
        deep: false,
    };
    let deeds = vec![in alloc; asks, Deed::Keeps, Deed::Does(remove)]?;
    match deed_of_mark(deeds.as_slice(), 1) {
        Some(Deed::Does(act)) => Ok(
            act_name(act) == b"rm -f".as_slice()
                && row_words(act, 67) == b"fails: a directory stands there".as_slice()
                && row_words(act, 2) == b"a link stands on the way".as_slice(),
        ),
        _ => Ok(false),
    }
}

#[test]
fn a_mark_is_told_by_its_deed(rt: HostRuntime) -> Result<(), Fail> {
    assert!(rt; is_removal(rt.alloc())?);
    Ok(())
}
