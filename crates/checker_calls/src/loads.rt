//! The summary of the report on a made package.

ghost use Rattle.std.specs.Prelude.{◌≤◌, IfOk};
ghost use Rattle.command_words.specs.declared.limits.TheConstants.{MOST_LOAD};
ghost use Rattle.checker_calls.specs.Loads.{AreLoaded, EndingsGive, LoadGives};

use crate::faults::TaskFault;
use crate::scenarios::chosen_accounts;
use crate::written::Written;
use case_pool::Gate;
use checker_input::Packages;
use command_words::USUAL_TURNS;
use load_maker::load;
use load_summary::{ScenarioEndings, load_verdict, render_load};
use script_names::{Bytes, List, Memory};
use std::alloc::Global;
use std::thread::Threads;
use system_base::Base;

/// How many turns of loops a run of a made package has.
pub const TURNS: u32 = USUAL_TURNS;

// The packages of a load: the made package of this number, which is its own old one, on the usual base.
fn load_packages(alloc: Global, number: u32) -> Result<Packages, Memory>
    requires { 1 ≤ number × number ≤ MOST_LOAD }
    ensures { IfOk result (AreLoaded number) }
{
    let new_package = load(alloc, number as u16)?;
    let base = Base::usual(alloc)?;
    Ok(Packages {
        new_package,
        old_package: None,
        base,
        name: Bytes::new(alloc),
    })
}

// How the outcomes of all scenarios end, or why the first of them that has none is refused.
fn load_endings<R: Threads + Sync, G: Gate>(
    rt: &R,
    alloc: Global,
    gate: &G,
    packages: &Packages,
    limit: u32,
) -> Result<List<ScenarioEndings>, TaskFault>
    ensures { EndingsGive packages.now limit result }
{
    chosen_accounts(rt, alloc, gate, packages, TURNS, limit, None)
}

// The summary of the report on the packages of a load, in all scenarios, and its verdict; or why there is none. No
// report is made for it.
fn write_summary<R: Threads + Sync, G: Gate>(
    rt: &R,
    alloc: Global,
    gate: &G,
    packages: &Packages,
    number: u32,
    limit: u32,
) -> Result<Written, TaskFault>
    requires { AreLoaded number packages.now }
    ensures { LoadGives number limit result }
{
    let scenarios = load_endings(rt, alloc, gate, packages, limit)?;
    let text = render_load(alloc, number, &scenarios)?;
    let status = load_verdict(&scenarios);
    Ok(Written { text, status })
}

/// The summary of the report on the made package of this number, and its verdict; or why there is none.
pub fn write_load<R: Threads + Sync, G: Gate>(
    rt: &R,
    alloc: Global,
    gate: &G,
    number: u32,
    limit: u32,
) -> Result<Written, TaskFault>
    requires { 1 ≤ number × number ≤ MOST_LOAD }
    ensures { LoadGives number limit result }
{
    let packages = load_packages(alloc, number)?;
    write_summary(rt, alloc, gate, &packages, number, limit)
}
