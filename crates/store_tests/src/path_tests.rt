use crate::asked_path::{AskedPath, AskedPaths};
use crate::questions::answered;
use crate::two_acts::all_paths;
use case_paths::PathsFault;
use script_names::{Done, List, Name, Path};
use std::process::Abort;
use std::test::Fail;

// The rows of the two acts on each path, and what it ends with.
const PATHS: &[(u8, u8, Done)] = &[
    (65, 67, Done::Failed),
    (66, 68, Done::Ok),
    (67, 67, Done::Failed),
];

fn machine<R: Abort + AllocGlobal>(rt: &R) -> Result<AskedPath, Fail> {
    let mut names = List::new(rt.alloc());
    names.add(Name::read(rt.alloc(), b"a")?)?;
    assert!(rt; names.len() == 1);
    let path = Path::new(names, false);
    Ok(AskedPath { path })
}

// A machine that asks for paths of one name each, in turn.
fn questions<R: Abort + AllocGlobal>(rt: &R, names: &[u8]) -> Result<AskedPaths, Fail> {
    let mut paths = List::new(rt.alloc());
    for name in names {
        let mut parts = List::new(rt.alloc());
        parts.add(Name::read(rt.alloc(), &[*name])?)?;
        paths.add(Path::new(parts, false))?;
    }
    Ok(AskedPaths { paths })
}

#[test]
fn a_directory_is_asked_for_and_made(rt: HostRuntime) -> Result<(), Fail> {
    let machine = machine(&rt)?;
    let found = all_paths(rt.alloc(), &machine, 3)?;
    assert_eq!(rt; found.len(), 3);
    for at in 0usize..3 {
        if let Some(path) = found.get(at) {
            let marks = path.state.trace.listed(rt.alloc())?;
            let rows = match marks.as_slice() {
                [asked, made] => (asked.row, made.row, path.value),
                _ => (0, 0, path.value),
            };
            assert_eq!(rt; rows, PATHS[at]);
        }
    }
    Ok(())
}

#[test]
fn two_have_no_room(rt: HostRuntime) -> Result<(), Fail> {
    let machine = machine(&rt)?;
    match all_paths(rt.alloc(), &machine, 2) {
        Err(PathsFault::Over) => (),
        _ => assert!(rt; false, "room for three paths"),
    }
    Ok(())
}

// The rows of a question: a link, nothing, or something else stands there.
const ROWS: &[u8] = &[65, 66, 67];

// Whichever run is followed first, it parts from others at each of its three acts: those of lower rows at an early act
// and at a later one come before it, those of higher rows behind it.
#[test]
fn paths_come_by_their_rows(rt: HostRuntime) -> Result<(), Fail> {
    let machine = questions(&rt, b"abc")?;
    let found = answered(rt.alloc(), &machine, 27)?;
    assert_eq!(rt; found.len(), 27);
    for at in 0usize..27 {
        if let Some(path) = found.get(at) {
            let marks = path.state.trace.listed(rt.alloc())?;
            let rows = match marks.as_slice() {
                [a, b, c] => (a.row, b.row, c.row),
                _ => (0, 0, 0),
            };
            assert_eq!(rt; rows, (ROWS[at / 9], ROWS[at / 3 % 3], ROWS[at % 3]));
        }
    }
    Ok(())
}

// One run from the first stage parts from eight others, at four acts.
#[test]
fn forks_of_one_run_have_no_room(rt: HostRuntime) -> Result<(), Fail> {
    let machine = questions(&rt, b"abcd")?;
    for room in [8, 80] {
        match answered(rt.alloc(), &machine, room) {
            Err(PathsFault::Over) => (),
            _ => assert!(rt; false, "room for 81 paths"),
        }
    }
    Ok(())
}
