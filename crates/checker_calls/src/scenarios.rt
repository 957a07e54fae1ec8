//! From each chosen scenario to its answer: workers make of each scenario's job an account, or say why there is none.

ghost use Rattle.std.specs.Prelude.{◌≡◌, ◌≤◌, IfOk};
ghost use Rattle.std.specs.List.{AllZip};
ghost use Rattle.package_jobs.specs.Made.{AreProgramsOf};
ghost use Rattle.checker_calls.specs.Accounts.{AccountGives, AccountsGive};
ghost use Rattle.checker_calls.specs.Reports.{chosen};
ghost use Rattle.checker_calls.specs.Settled.{settled};

use crate::account::Account;
use crate::faults::{TaskFault, task_fault};
use case_pool::{Gate, map_jobs};
use checker_input::Packages;
use dpkg_scenarios::{Scenario, checked_scenarios};
use package_jobs::{Programs, is_plain, job_with, needs_of, programs_of};
use script_names::{List, Memory};
use std::alloc::Global;
use std::thread::Threads;

// A package with as many entries at most has few.
const FEW_ENTRIES: usize = 64;

// The scenarios that are chosen: one, or else all that a check answers for, in the order in which they are reported.
fn chosen_scenarios(alloc: Global, scenario: Option<Scenario>) -> Result<List<Scenario>, Memory>
    ensures { IfOk result (λ scenarios. scenarios ≡ chosen scenario) }
{
    match scenario {
        Some(scenario) => List::copies(alloc, &[scenario]),
        None => List::copies(alloc, checked_scenarios()),
    }
}

// How many scenarios at the end are one worker's. Without a postrm and a configuration file there is little to do in
// the purge of a package that was removed before; where there is no prerm either, and the package has few entries, in
// a removal and a purge too. No clause rests on the number.
fn light_scenarios(packages: &Packages) -> usize
    ensures { 1 ≤ result × result ≤ 3 }
{
    let package = &packages.new_package;
    if !is_plain(package) {
        return 1;
    }
    if package.scripts.prerm.is_none() && package.entries.len() <= FEW_ENTRIES {
        return 3;
    }
    2
}

// The account of a scenario, or why there is none.
fn scenario_account<A: Account>(
    alloc: Global,
    packages: &Packages,
    programs: &Programs,
    turns: u32,
    limit: u32,
    scenario: Scenario,
) -> Result<A, TaskFault>
    requires { AreProgramsOf packages.now programs.now }
    ensures { AccountGives A.tells packages.now turns limit scenario result }
{
    let job = job_with(alloc, scenario, packages, programs, turns)?;
    let needs = needs_of(alloc, scenario, packages)?;
    match A::of_job(alloc, &job, &needs, limit) {
        Ok(account) => Ok(account),
        Err(fault) => Err(task_fault(fault, scenario, limit)),
    }
}

// What workers answer of each scenario, in the scenarios' order: its account, or why there is none. A worker enters the
// gate when it takes up a scenario.
fn scenario_accounts<R: Threads + Sync, G: Gate, A: Account + Send>(
    rt: &R,
    alloc: Global,
    gate: &G,
    packages: &Packages,
    programs: &Programs,
    turns: u32,
    limit: u32,
    scenarios: &List<Scenario>,
) -> Result<List<Result<A, TaskFault>>, Memory>
    requires { AreProgramsOf packages.now programs.now }
    ensures { IfOk result (AllZip (AccountGives A.tells packages.now turns limit) scenarios.now) }
{
    let answer = move |scenario: &Scenario| -> Result<Result<A, TaskFault>, Memory>
        requires { AreProgramsOf packages.now programs.now }
        ensures { IfOk result (AccountGives A.tells packages.entry.now turns limit scenario.now) }
    {
        gate.enter();
        let account = scenario_account(alloc, packages, programs, turns, limit, *scenario);
        Ok(account)
    };
    let answers = map_jobs(rt, alloc, scenarios, light_scenarios(packages), &answer)?;
    Ok(answers)
}

// The values of results, or the first fault in their order.
fn settle<T: Drop, E: Drop>(
    alloc: Global,
    results: List<Result<T, E>>,
) -> Result<Result<List<T>, E>, Memory>
    ensures { IfOk result (λ all. all ≡ settled results) }
{
    let mut values = List::new(alloc);
    for result in results.into_vec() {
        match result {
            Ok(value) => values.add(value)?,
            Err(fault) => return Ok(Err(fault)),
        }
    }
    Ok(Ok(values))
}

/// What is answered of one scenario, or of each: its account, or why there is none.
pub fn each_account<R: Threads + Sync, G: Gate, A: Account + Send>(
    rt: &R,
    alloc: Global,
    gate: &G,
    packages: &Packages,
    programs: &Programs,
    turns: u32,
    limit: u32,
    scenario: Option<Scenario>,
) -> Result<List<Result<A, TaskFault>>, Memory>
    requires { AreProgramsOf packages.now programs.now }
    ensures { IfOk result (AllZip (AccountGives A.tells packages.now turns limit) (chosen scenario)) }
{
    let scenarios = chosen_scenarios(alloc, scenario)?;
    let answers = scenario_accounts(
        rt, alloc, gate, packages, programs, turns, limit, &scenarios,
    )?;
    Ok(answers)
}

/// The accounts of one scenario, or of all; or why the first of them that has none is refused.
pub fn chosen_accounts<R: Threads + Sync, G: Gate, A: Account + Send>(
    rt: &R,
    alloc: Global,
    gate: &G,
    packages: &Packages,
    turns: u32,
    limit: u32,
    scenario: Option<Scenario>,
) -> Result<List<A>, TaskFault>
    ensures { AccountsGive A.tells packages.now turns limit (chosen scenario) result }
{
    let scenarios = chosen_scenarios(alloc, scenario)?;
    let programs = programs_of(alloc, packages)?;
    let answers = scenario_accounts(
        rt, alloc, gate, packages, &programs, turns, limit, &scenarios,
    )?;
    let all = settle(alloc, answers)?;
    all
}
