//! Scenarios that workers answer, at once and in their order.

use super::{Called, Case, Ended, NOTHING, Row, call_by, see};
use case_pool::{Gate, Open};
use script_names::Memory;
use std::alloc::Global;
use std::sync::atomic::{AtomicBool, AtomicU64, Ordering};
use std::test::Fail;
use std::thread::Threads;

// A gate that counts who has entered. The first to enter looks for a second one, and notes whether it saw one.
#[derive(Drop)]
struct Counting {
    entered: AtomicU64,
    saw_another: AtomicBool,
}

impl Gate for Counting {
    fn enter(&self) {
        if self.entered.fetch_add(1, Ordering::SeqCst) > 0 {
            return;
        }
        for _ in 0..200_000_000u32 {
            if self.entered.load(Ordering::SeqCst) > 1 {
                self.saw_another.store(true, Ordering::SeqCst);
                return;
            }
        }
    }
}

impl Counting {
    fn new() -> Counting {
        Counting {
            entered: AtomicU64::new(0),
            saw_another: AtomicBool::new(false),
        }
    }
}

// Calls of six scenarios each: the words, the files, and the status. What they say is taken from other calls.
const WORKED: &[Called] = &[
    Called(&["check", "p", "--brief"], NOTHING, (0, b"", b"")),
    Called(&["check", "p"], NOTHING, (0, b"", b"")),
    Called(&["check", "p", "--json"], NOTHING, (0, b"", b"")),
    Called(&["load", "2"], &[], (1, b"", b"")),
];

fn are_same(bytes: &[u8], others: &[u8]) -> bool {
    bytes == others
}

// Whether both calls wrote the same text, and the first ended as it has to.
fn is_same_report(first: &Ended, second: &Ended, case: &Case) -> bool {
    first.status == case.status
        && are_same(first.out.bytes(), second.out.bytes())
        && first.err.bytes().is_empty()
}

// Whether the text of workers that enter the gate is that of workers that enter an open one.
fn reports_the_same<R: Threads + Sync>(
    rt: &R,
    alloc: Global,
    gate: &Counting,
    case: &Case,
) -> Result<bool, Memory> {
    let ended = call_by(rt, alloc, gate, case)?;
    let alone = call_by(rt, alloc, &Open::new(), case)?;
    Ok(is_same_report(&ended, &alone, case))
}

// Whether the report is the same, whether two workers were at work at once, and how often a worker entered.
fn six_scenarios<R: Threads + Sync>(
    rt: &R,
    alloc: Global,
    call: &Called,
) -> Result<(bool, bool, u64), Memory> {
    let gate = Counting::new();
    let same = reports_the_same(rt, alloc, &gate, &call.case())?;
    Ok((
        same,
        gate.saw_another.load(Ordering::SeqCst),
        gate.entered.load(Ordering::SeqCst),
    ))
}

// All six scenarios enter, each once, two of them at once, and the report is the same.
#[test]
fn six_scenarios_at_once(rt: HostRuntime) -> Result<(), Fail> {
    for (number, call) in WORKED.iter().enumerate() {
        assert_eq!(rt;
            six_scenarios(&rt, rt.alloc(), call)?,
            (true, true, 6),
            "row {number}"
        );
    }
    Ok(())
}

const UNFIT: Called = Called(
    &["check", "p", "--base", "b"],
    &[
        ("p/list", b"/.\n/usr\n/usr/bin\n/usr/bin/x\n"),
        ("b", b"file /usr\n"),
    ],
    (3, b"", b"colis: no start tree for upgrade\n"),
);

// A directory of the package is a file on the system: in no tree is the package installed, so that upgrade, remove and
// purge have no start tree. The first of them is named.
#[test]
fn the_first_of_scenarios_that_are_refused(rt: HostRuntime) -> Result<(), Fail> {
    see(&rt, &UNFIT, 0)
}
