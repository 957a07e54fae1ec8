//! The report on a pair of packages, or on a package that is configured twice.

ghost use Rattle.std.specs.Prelude.{◌≡◌, None};
ghost use Rattle.package_jobs.specs.Kept.{kept_of};
ghost use Rattle.checker_calls.specs.Pairs.{PairGives};

use crate::faults::{Refusal, TaskFault};
use crate::reports::{make_report, written};
use crate::written::Written;
use case_pool::Gate;
use checker_input::Packages;
use dpkg_scenarios::Scenario;
use package_jobs::kept_of;
use report_text::render_pair;
use std::alloc::Global;
use std::thread::Threads;

// The report on one scenario of a pair of which no file is kept, and its verdict; or why the scenario is refused.
fn report_pair<R: Threads + Sync, G: Gate>(
    rt: &R,
    alloc: Global,
    gate: &G,
    packages: &Packages,
    turns: u32,
    limit: u32,
    scenario: Scenario,
) -> Result<Written, TaskFault>
    requires { kept_of scenario packages.now ≡ None }
    ensures { PairGives packages.now turns limit scenario result }
{
    let report = match make_report(rt, alloc, gate, packages, turns, limit, Some(scenario)) {
        Ok(report) => report,
        Err(fault) => return Err(fault),
    };
    let text = render_pair(alloc, &report)?;
    Ok(written(&report, text))
}

/// The report on one scenario of a pair, and its verdict; or why there is none: a file of the other package is kept, or
/// the scenario is refused.
pub fn write_pair<R: Threads + Sync, G: Gate>(
    rt: &R,
    alloc: Global,
    gate: &G,
    packages: &Packages,
    turns: u32,
    limit: u32,
    scenario: Scenario,
) -> Result<Written, TaskFault>
    ensures { PairGives packages.now turns limit scenario result }
{
    let kept = kept_of(alloc, scenario, packages)?;
    match kept {
        Some(path) => Err(TaskFault::Refused(Refusal::Kept { path })),
        None => report_pair(rt, alloc, gate, packages, turns, limit, scenario),
    }
}
