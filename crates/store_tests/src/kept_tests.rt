//! Runs that keep the tree and put back from it: their paths, worked out by the tables of the rows.

use crate::keeping::kept_paths;
use crate::kept_path::{KeptPath, KeptStep};
use case_paths::Found;
use script_names::{Done, List, Memory, Name, Path, Reason};
use std::alloc::Global;
use std::process::Abort;
use std::test::Fail;

// Steps at `/a`, and their paths: the rows, and what the last step answers.
type Run = (&'static [KeptStep], &'static [(&'static [u8], Done)]);

const RUNS: &[Run] = &[
    (&[], &[(&[], Done::Ok)]),
    (&[KeptStep::Keeps], &[(&[], Done::Ok)]),
    // the start tree is the kept tree: what stood there stands there again, and is asked for
    (
        &[KeptStep::Places, KeptStep::Returns, KeptStep::Asks],
        &[
            (&[67, 67, 67], Done::Ok),
            (&[68, 68, 65], Done::Stopped(Reason::Link)),
            (&[68, 68, 66], Done::Failed),
            (&[68, 68, 67], Done::Ok),
        ],
    ),
    // it is put back where it stands already
    (
        &[KeptStep::Asks, KeptStep::Returns],
        &[
            (&[65, 68], Done::Ok),
            (&[66, 68], Done::Ok),
            (&[67, 67], Done::Ok),
            (&[67, 68], Done::Ok),
        ],
    ),
    // a directory is not put back
    (
        &[KeptStep::Removes, KeptStep::Returns, KeptStep::Asks],
        &[
            (&[66, 68, 66], Done::Failed),
            (&[69, 68, 65], Done::Stopped(Reason::Link)),
            (&[69, 68, 67], Done::Ok),
            (&[69, 69, 66], Done::Failed),
        ],
    ),
    // the file that was placed is kept, whatever stood there before
    (
        &[
            KeptStep::Places,
            KeptStep::Keeps,
            KeptStep::Discards,
            KeptStep::Returns,
            KeptStep::Asks,
        ],
        &[(&[67, 67, 67, 67], Done::Ok), (&[68, 68, 68, 67], Done::Ok)],
    ),
    // nothing is kept, and put back in place of a file
    (
        &[
            KeptStep::Discards,
            KeptStep::Keeps,
            KeptStep::Places,
            KeptStep::Returns,
            KeptStep::Asks,
        ],
        &[
            (&[67, 67, 67, 67], Done::Ok),
            (&[68, 68, 68, 66], Done::Failed),
        ],
    ),
    // the tree that was kept last counts
    (
        &[
            KeptStep::Asks,
            KeptStep::Keeps,
            KeptStep::Discards,
            KeptStep::Keeps,
            KeptStep::Returns,
            KeptStep::Asks,
        ],
        &[
            (&[65, 68, 68, 66], Done::Failed),
            (&[66, 68, 68, 66], Done::Failed),
            (&[67, 67, 67, 67], Done::Ok),
            (&[67, 68, 68, 66], Done::Failed),
        ],
    ),
];

// The machine that does these steps at `/a`.
fn machine<R: Abort + AllocGlobal>(rt: &R, steps: &[KeptStep]) -> Result<KeptPath, Fail> {
    let mut names = List::new(rt.alloc());
    names.add(Name::read(rt.alloc(), b"a")?)?;
    assert!(rt; names.len() == 1);
    let path = Path::new(names, false);
    let mut own = List::new(rt.alloc());
    for step in steps {
        own.add(*step)?;
    }
    Ok(KeptPath { path, steps: own })
}

// Whether a path has these rows, and ends with this answer.
fn is_as(alloc: Global, path: &Found<Done>, wanted: &(&[u8], Done)) -> Result<bool, Memory> {
    let listed = path.state.trace.listed(alloc)?;
    let marks = listed.as_slice();
    let rows = wanted.0;
    if marks.len() != rows.len() {
        return Ok(false);
    }
    for at in 0..rows.len() {
        if marks[at].row != rows[at] {
            return Ok(false);
        }
    }
    Ok(path.value == wanted.1)
}

// Whether the steps have these paths and no others.
fn goes_so<R: Abort + AllocGlobal>(
    rt: &R,
    steps: &[KeptStep],
    wanted: &[(&[u8], Done)],
) -> Result<bool, Fail> {
    let machine = machine(rt, steps)?;
    let found = kept_paths(rt.alloc(), &machine, wanted.len())?;
    let paths = found.as_slice();
    if paths.len() != wanted.len() {
        return Ok(false);
    }
    for at in 0..wanted.len() {
        if !is_as(rt.alloc(), &paths[at], &wanted[at])? {
            return Ok(false);
        }
    }
    Ok(true)
}

#[test]
fn what_is_kept_is_put_back(rt: HostRuntime) -> Result<(), Fail> {
    for run in RUNS {
        assert!(rt; goes_so(&rt, run.0, run.1)?, "{run:?}");
    }
    Ok(())
}
