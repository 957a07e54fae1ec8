//! The report on packages, scenario by scenario.

ghost use Rattle.std.specs.Prelude.{◌≡◌, map, IfOk};
ghost use Rattle.outcome_report.specs.OutcomeReport.{verdict_of};
ghost use Rattle.report_text.specs.Told.{Tells};
ghost use Rattle.report_text.specs.Whole.{IsRepresentable};
ghost use Rattle.checker_calls.specs.Accounts.{AccountsGive};
ghost use Rattle.checker_calls.specs.Reports.{chosen, layout_of, PartsGive, ReportGives};

use crate::account::BriefPart;
use crate::faults::TaskFault;
use crate::scenarios::chosen_accounts;
use crate::written::Written;
use case_pool::Gate;
use checker_input::Packages;
use command_words::Layout;
use dpkg_scenarios::Scenario;
use outcome_report::{Report, verdict};
use report_json::render_json;
use report_text::{Telling, ToldPart, is_representable, join_told, told_verdict};
use script_names::{Bytes, List, Memory};
use std::alloc::Global;
use std::thread::Threads;

/// The report on one scenario, or on all; or why the first of them that has none is refused.
pub fn make_report<R: Threads + Sync, G: Gate>(
    rt: &R,
    alloc: Global,
    gate: &G,
    packages: &Packages,
    turns: u32,
    limit: u32,
    scenario: Option<Scenario>,
) -> Result<Report, TaskFault>
    ensures { PartsGive packages.now turns limit (chosen scenario) result }
{
    let parts = chosen_accounts(rt, alloc, gate, packages, turns, limit, scenario)?;
    Ok(Report { parts })
}

// What is told of parts, of what is told briefly of them.
fn told_parts(alloc: Global, parts: List<BriefPart>) -> Result<List<ToldPart>, Memory>
    ensures { IfOk result (λ told. told ≡ map (λ part. part.told) parts) }
{
    let mut told = List::new(alloc);
    for part in parts.into_vec() {
        told.add(part.told)?;
    }
    Ok(told)
}

// What is told, wholly or briefly, of the parts of that report, which is not made; or why the first of them that has
// none is refused.
fn tell_report<R: Threads + Sync, G: Gate>(
    rt: &R,
    alloc: Global,
    gate: &G,
    packages: &Packages,
    turns: u32,
    limit: u32,
    scenario: Option<Scenario>,
    telling: Telling,
) -> Result<List<ToldPart>, TaskFault>
    ensures { AccountsGive (Tells telling) packages.now turns limit (chosen scenario) result }
{
    match telling {
        Telling::Wholly => chosen_accounts(rt, alloc, gate, packages, turns, limit, scenario),
        Telling::Briefly => {
            let parts = chosen_accounts(rt, alloc, gate, packages, turns, limit, scenario)?;
            let told = told_parts(alloc, parts)?;
            Ok(told)
        }
    }
}

/// A text of a report, with the report's verdict.
pub fn written(report: &Report, text: Bytes) -> Written
    ensures text { result.text ≡ text }
    ensures status { result.status ≡ verdict_of report.now }
    ensures representable { IsRepresentable report.now }
{
    is_representable(report);
    let status = verdict(report);
    Written { text, status }
}

// The report on packages as it is told, wholly or briefly, and its verdict; or why there is none.
fn write_told<R: Threads + Sync, G: Gate>(
    rt: &R,
    alloc: Global,
    gate: &G,
    packages: &Packages,
    turns: u32,
    limit: u32,
    scenario: Option<Scenario>,
    telling: Telling,
) -> Result<Written, TaskFault>
    ensures { ReportGives packages.now turns limit (chosen scenario) (layout_of telling) result }
{
    let told = tell_report(rt, alloc, gate, packages, turns, limit, scenario, telling)?;
    let status = told_verdict(&told);
    let text = join_told(alloc, telling, told)?;
    Ok(Written { text, status })
}

/// The report on packages in a layout, and its verdict; or why there is none.
pub fn write_report<R: Threads + Sync, G: Gate>(
    rt: &R,
    alloc: Global,
    gate: &G,
    packages: &Packages,
    turns: u32,
    limit: u32,
    scenario: Option<Scenario>,
    layout: Layout,
) -> Result<Written, TaskFault>
    ensures { ReportGives packages.now turns limit (chosen scenario) layout result }
{
    match layout {
        Layout::Plain => write_told(
            rt,
            alloc,
            gate,
            packages,
            turns,
            limit,
            scenario,
            Telling::Wholly,
        ),
        Layout::Brief => write_told(
            rt,
            alloc,
            gate,
            packages,
            turns,
            limit,
            scenario,
            Telling::Briefly,
        ),
        Layout::Json => {
            let report = make_report(rt, alloc, gate, packages, turns, limit, scenario)?;
            let text = render_json(alloc, &report)?;
            Ok(written(&report, text))
        }
    }
}
