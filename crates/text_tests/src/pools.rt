//! Numbers as jobs, their doubles as answers, and gates that count who has entered.

use case_pool::{Gate, Open, map_jobs};
use script_names::{List, Memory};
use std::alloc::Global;
use std::sync::atomic::{AtomicBool, AtomicU64, Ordering};
use std::test::Fail;
use std::thread::Threads;

// As many jobs as there are workers, one fewer and one more, and others.
const COUNTS: &[u32] = &[0, 1, 2, 63, 64, 65, 200];

// How often at most the first to enter looks for another.
const LOOKS: u32 = 200_000_000;

// Counts who has entered. The first to enter looks whether another enters while it is inside.
#[derive(Drop)]
struct Counting {
    looks: u32,
    entered: AtomicU64,
    saw_another: AtomicBool,
}

impl Counting {
    fn looking(looks: u32) -> Counting {
        Counting {
            looks,
            entered: AtomicU64::new(0),
            saw_another: AtomicBool::new(false),
        }
    }
}

impl Gate for Counting {
    fn enter(&self) {
        if self.entered.fetch_add(1, Ordering::SeqCst) > 0 {
            return;
        }
        for _ in 0..self.looks {
            if self.entered.load(Ordering::SeqCst) > 1 {
                self.saw_another.store(true, Ordering::SeqCst);
                return;
            }
        }
    }
}

fn listed(alloc: Global, numbers: &[u32]) -> Result<List<u32>, Memory> {
    let mut list = List::new(alloc);
    for number in numbers {
        list.add(*number)?;
    }
    Ok(list)
}

// The numbers below `count`, each that many times.
fn multiples(alloc: Global, count: u32, times: u32) -> Result<List<u32>, Memory> {
    let mut list = List::new(alloc);
    for number in 0..count {
        list.add(number.wrapping_mul(times))?;
    }
    Ok(list)
}

// Whether the doubles of the numbers come in order, with a gate that each job enters.
fn doubles<W: Threads + Sync, G: Gate>(
    rt: &W,
    alloc: Global,
    gate: &G,
    jobs: &List<u32>,
    wanted: &[u32],
) -> bool {
    let f = |job: &u32| -> Result<u32, Memory> {
        gate.enter();
        Ok(job.wrapping_mul(2))
    };
    match map_jobs(rt, alloc, jobs, 1, &f) {
        Ok(answers) => answers.as_slice() == wanted,
        Err(_) => false,
    }
}

// Whether the doubles of the numbers below `count` come in order, and each job was taken up once.
fn doubled_once<W: Threads + Sync>(rt: &W, alloc: Global, count: u32) -> Result<bool, Memory> {
    let gate = Counting::looking(0);
    let jobs = multiples(alloc, count, 1)?;
    let wanted = multiples(alloc, count, 2)?;
    let whole = doubles(rt, alloc, &gate, &jobs, wanted.as_slice());
    Ok(whole && gate.entered.load(Ordering::SeqCst) == u64::from(count))
}

#[test]
fn doubles_come_in_order(rt: HostRuntime) -> Result<(), Fail> {
    let alloc = rt.alloc();
    let gate = Open::new();
    let (Ok(none), Ok(three)) = (listed(alloc, &[]), listed(alloc, &[3, 1, 2])) else {
        return Err(Fail::from("memory"));
    };
    assert!(rt; doubles(&rt, alloc, &gate, &none, &[]));
    assert!(rt; doubles(&rt, alloc, &gate, &three, &[6, 2, 4]));
    Ok(())
}

#[test]
fn each_job_is_taken_up_once(rt: HostRuntime) {
    for count in COUNTS {
        assert!(rt; doubled_once(&rt, rt.alloc(), *count).unwrap_or(false));
    }
}

#[test]
fn two_jobs_run_at_once(rt: HostRuntime) -> Result<(), Fail> {
    let alloc = rt.alloc();
    let gate = Counting::looking(LOOKS);
    let Ok(six) = listed(alloc, &[1, 2, 3, 4, 5, 6]) else {
        return Err(Fail::from("memory"));
    };
    assert!(rt; doubles(&rt, alloc, &gate, &six, &[2, 4, 6, 8, 10, 12]));
    assert_eq!(rt; gate.entered.load(Ordering::SeqCst), 6);
    assert!(rt; gate.saw_another.load(Ordering::SeqCst));
    Ok(())
}
