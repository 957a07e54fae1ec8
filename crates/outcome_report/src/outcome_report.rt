ghost use Rattle.std.specs.Prelude.{◌≡◌, ◌↔◌, map, IsTrue, IfOk};
ghost use Rattle.scenario_runs.specs.Runs.{scenario_run};
ghost use Rattle.start_trees.specs.Needs.{IsStart};
ghost use Rattle.outcome_report.specs.OutcomeReport.{Agrees, AllEntries, PartAnswers};
ghost use Rattle.outcome_report.specs.Replays.{AllReplay};

use crate::replay::{Replay, keep_replay};
use dpkg_scenarios::{Ending, Scenario};
use scenario_outcomes::{Outcome, OutcomesFault, outcomes};
use scenario_runs::{Job, run};
use script_names::{Copied, List, Mark, Memory};
use start_trees::Need;
use std::alloc::Global;

/// An outcome, what is kept of the run from the tree that it shows, and whether that run ends as it says.
#[derive(Drop)]
pub struct ReportEntry {
    pub outcome: Outcome,
    pub replayed: Replay,
    pub confirmed: bool,
}

impl Copied for ReportEntry {
    fn copy(&self, alloc: Global) -> Result<ReportEntry, Memory> {
        let outcome = self.outcome.copy(alloc)?;
        let replayed = self.replayed.copy(alloc)?;
        Ok(ReportEntry {
            outcome,
            replayed,
            confirmed: self.confirmed,
        })
    }
}

/// The outcomes of one scenario.
#[derive(Drop)]
pub struct ReportPart {
    pub scenario: Scenario,
    pub entries: List<ReportEntry>,
}

impl Copied for ReportPart {
    fn copy(&self, alloc: Global) -> Result<ReportPart, Memory> {
        let entries = self.entries.copy(alloc)?;
        Ok(ReportPart {
            scenario: self.scenario,
            entries,
        })
    }
}

/// The outcomes of all scenarios that were asked for.
#[derive(Drop)]
pub struct Report {
    pub parts: List<ReportPart>,
}

impl Copied for Report {
    fn copy(&self, alloc: Global) -> Result<Report, Memory> {
        let parts = self.parts.copy(alloc)?;
        Ok(Report { parts })
    }
}

// Whether two endings are the same.
fn same_ending(a: Ending, b: Ending) -> bool
    ensures { IsTrue result ↔ (a ≡ b) }
{
    a == b
}

// Whether two traces are the same.
fn same_trace(a: &[Mark], b: &[Mark]) -> bool
    ensures { IsTrue result ↔ (a.now ≡ b.now) }
{
    a == b
}

/// The entry of any outcome and of what is kept of any run: it is confirmed where the two have the same ending and the
/// same trace.
pub fn make_entry(outcome: Outcome, replayed: Replay) -> ReportEntry
    ensures outcome { result.outcome ≡ outcome }
    ensures replayed { result.replayed ≡ replayed }
    ensures confirmed { IsTrue result.confirmed ↔ Agrees result }
{
    let same_ending = same_ending(replayed.ending, outcome.ending);
    let same_trace = same_trace(replayed.trace.as_slice(), outcome.trace.as_slice());
    ReportEntry {
        outcome,
        replayed,
        confirmed: same_ending & same_trace,
    }
}

// The entries of outcomes that the job's runs end as.
fn make_entries(
    alloc: Global,
    job: &Job,
    outcomes: List<Outcome>,
) -> Result<List<ReportEntry>, Memory>
    requires { AllReplay (scenario_run job.now) outcomes }
    ensures outcomes { IfOk result (λ entries. map (λ entry. entry.outcome) entries ≡ outcomes) }
    ensures entries { IfOk result (AllEntries (scenario_run job.now)) }
{
    let mut entries = List::new(alloc);
    for outcome in outcomes.into_vec() {
        let replayed = run(alloc, job, &outcome.shown)?;
        entries.add(make_entry(outcome, keep_replay(replayed)))?;
    }
    Ok(entries)
}

/// The part of a report on a job's scenario, over all trees of files that have what is needed. `NoStart` exactly where
/// there is no such tree, and `Over` exactly where the runs from them have more than `limit` different traces.
pub fn make_part(
    alloc: Global,
    job: &Job,
    needs: &List<Need>,
    limit: u32,
) -> Result<ReportPart, OutcomesFault>
    ensures answers { PartAnswers (scenario_run job.now) (IsStart needs.now) limit result }
    ensures scenario { IfOk result (λ part. part.scenario ≡ job.now.scenario) }
{
    match outcomes(alloc, job, needs, limit) {
        Ok(outcomes) => {
            let entries = make_entries(alloc, job, outcomes)?;
            Ok(ReportPart {
                scenario: job.scenario,
                entries,
            })
        }
        Err(fault) => Err(fault),
    }
}
