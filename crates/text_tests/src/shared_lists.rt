//! Lists of many lengths, changed and forked in turn, each beside a plain list that is changed in the same way.

ghost use Rattle.std.specs.Prelude.{◌≡◌, ◌+◌, ◌<◌, ◌≤◌, length, IfOk};

use script_names::Memory;
use shared_table::{Shared, Steps};
use std::alloc::Global;
use std::marker::Brand;
use std::sync::ledger::{Blank, Ledger};
use std::test::Fail;

// How many items a list begins with, and a place at which it is changed.
const ROWS: &[(u32, usize)] = &[
    (0, 0),
    (1, 0),
    (15, 14),
    (16, 0),
    (16, 15),
    (17, 0),
    (17, 16),
    (255, 254),
    (256, 16),
    (256, 255),
    (257, 15),
    (257, 256),
    (4096, 255),
    (4096, 4095),
    (4097, 256),
    (4097, 4096),
];

// A list, and a plain list with the same items.
#[derive(Drop)]
struct Pair {
    list: Shared<u32>,
    plain: Vec<u32>,
}

impl Pair {
    // The numbers below `count`, in order.
    fn counted<L: Ledger>(alloc: Global, count: u32, steps: &mut Steps<L>) -> Result<Pair, Memory> {
        let mut pair = Pair {
            list: Shared::new(alloc),
            plain: Vec::new(alloc),
        };
        for number in 0..count {
            pair.push(number, steps)?;
        }
        Ok(pair)
    }

    fn fork<L: Ledger>(&self, steps: &mut Steps<L>) -> Result<Pair, Memory> {
        Ok(Pair {
            list: self.list.fork(steps)?,
            plain: self.plain.clone()?,
        })
    }

    fn set<L: Ledger>(&mut self, at: usize, item: u32, steps: &mut Steps<L>) -> Result<(), Memory> {
        if at < self.list.len() {
            self.list.set(at, item, steps)?;
        }
        if let Some(place) = self.plain.get_mut(at) {
            *place = item;
        }
        Ok(())
    }

    fn push<L: Ledger>(&mut self, item: u32, steps: &mut Steps<L>) -> Result<(), Memory> {
        self.plain.reserve(1)?;
        self.list.push(item, steps)?;
        self.plain.push(item)?;
        Ok(())
    }

    // Whether the list has the items of the plain one, and none behind them.
    fn agrees(&self) -> bool {
        for (at, item) in self.plain.iter().enumerate() {
            if self.list.get(at) != Some(item) {
                return false;
            }
        }
        self.list.len() == self.plain.len() && self.list.get(self.plain.len()).is_none()
    }
}

// A list and its fork, each changed beside the other.
fn changed_pair<L: Ledger>(
    alloc: Global,
    count: u32,
    at: usize,
    steps: &mut Steps<L>,
) -> Result<(Pair, Pair), Memory> {
    let mut first = Pair::counted(alloc, count, steps)?;
    let mut second = first.fork(steps)?;
    first.set(at, 100_001, steps)?;
    second.push(100_002, steps)?;
    Ok((first, second))
}

// Both are changed further.
fn change<L: Ledger>(
    first: &mut Pair,
    second: &mut Pair,
    at: usize,
    steps: &mut Steps<L>,
) -> Result<(), Memory> {
    second.set(at, 100_003, steps)?;
    first.push(100_004, steps)?;
    first.set(at, 100_005, steps)
}

// Whether a fork of the second agrees with its plain list where both are changed further.
fn fork_agrees<L: Ledger>(
    first: &mut Pair,
    second: &mut Pair,
    at: usize,
    steps: &mut Steps<L>,
) -> Result<bool, Memory> {
    let third = second.fork(steps)?;
    change(first, second, at, steps)?;
    Ok(third.agrees())
}

// A list and two forks, each changed beside the others; whether all agree with their plain lists.
fn changed_in_turn<L: Ledger>(
    alloc: Global,
    count: u32,
    at: usize,
    blank: Blank,
) -> Result<bool, Memory>
    requires name { blank.name ≡ L.name }
    requires parts { blank.parts ≡ L.parts }
    requires some { 0 < blank.parts }
{
    let mut steps = Steps::<L>::start(blank);
    let (mut first, mut second) = changed_pair(alloc, count, at, &mut steps)?;
    let third = fork_agrees(&mut first, &mut second, at, &mut steps)?;
    Ok(first.agrees() && second.agrees() && third)
}

#[test]
fn lists_are_changed_beside_their_forks(rt: HostRuntime) -> Result<(), Fail> {
    for row in ROWS {
        let Ok(agree) = changed_in_turn::<Brand>(rt.alloc(), row.0, row.1, Blank::new(1)) else {
            return Err(Fail::from("want of memory"));
        };
        assert!(rt; agree, "{} items, place {}", row.0, row.1);
    }
    Ok(())
}

// What a list beside its fork is after a set and a push, each done or, for want of memory, not.
#[derive(Drop)]
struct Changed {
    agree: bool,
    done: bool,
}

fn changed_or_kept<L: Ledger>(alloc: Global, count: u32, blank: Blank) -> Result<Changed, Memory>
    requires name { blank.name ≡ L.name }
    requires parts { blank.parts ≡ L.parts }
    requires some { 0 < blank.parts }
{
    let mut steps = Steps::<L>::start(blank);
    let mut list = Pair::counted(alloc, count, &mut steps)?;
    let fork = list.fork(&mut steps)?;
    let set = list.set(3, 100_001, &mut steps).is_ok();
    let pushed = list.push(100_002, &mut steps).is_ok();
    Ok(Changed {
        agree: list.agrees() && fork.agrees(),
        done: set && pushed,
    })
}

#[test]
fn changes_are_done_or_leave_the_list(rt: HostRuntime) -> Result<(), Fail> {
    for count in [17u32, 257] {
        let Ok(changed) = changed_or_kept::<Brand>(rt.alloc(), count, Blank::new(1)) else {
            return Err(Fail::from("want of memory"));
        };
        assert!(rt; changed.agree, "{count} items");
        if !changed.done {
            return Err(Fail::from("want of memory"));
        }
    }
    Ok(())
}

// The numbers below `count`, in order.
fn counted<L: Ledger>(
    alloc: Global,
    count: u32,
    steps: &mut Steps<L>,
) -> Result<Shared<u32>, Memory>
    ensures { IfOk result (λ list. length list ≡ count) }
{
    let mut list = Shared::new(alloc);
    for number in 0..count {
        list.push(number, steps)?;
    }
    Ok(list)
}

// 17 is below 16 ^ 2: one set takes at most three steps.
fn one_set_takes_three_steps<L: Ledger>(
    list: &mut Shared<u32>,
    at: usize,
    item: u32,
    steps: &mut Steps<L>,
) -> Result<(), Memory>
    requires entries { length list.old ≡ 17 }
    requires within { at < 17 }
    ensures { steps.new ≤ steps.old + 3 }
{
    list.set(at, item, steps)
}

// A list of 17 items after one set, and the fork that was made before.
fn set_beside_a_fork<L: Ledger>(
    alloc: Global,
    blank: Blank,
) -> Result<(Shared<u32>, Shared<u32>), Memory>
    requires name { blank.name ≡ L.name }
    requires parts { blank.parts ≡ L.parts }
    requires some { 0 < blank.parts }
{
    let mut steps = Steps::<L>::start(blank);
    let mut list = counted(alloc, 17, &mut steps)?;
    let fork = list.fork(&mut steps)?;
    one_set_takes_three_steps(&mut list, 3, 99, &mut steps)?;
    Ok((list, fork))
}

// Whether the list has the numbers below 17, and none behind them.
fn is_counted(list: &Shared<u32>) -> bool {
    for at in 0..17usize {
        if list.get(at) != Some(&(at as u32)) {
            return false;
        }
    }
    list.get(17).is_none()
}

#[test]
fn a_fork_reads_as_before(rt: HostRuntime) -> Result<(), Fail> {
    let Ok((list, fork)) = set_beside_a_fork::<Brand>(rt.alloc(), Blank::new(1)) else {
        return Err(Fail::from("want of memory"));
    };
    assert!(rt; list.get(3) == Some(&99) && list.get(16) == Some(&16));
    assert!(rt; is_counted(&fork));
    Ok(())
}
