//! What is made of a scenario: an account of the part of a report on it.

ghost use Rattle.std.specs.Prelude.{◌≡◌};
ghost use Rattle.scenario_runs.specs.Runs.{scenario_run};
ghost use Rattle.start_trees.specs.Needs.{IsStart};
ghost use Rattle.outcome_report.specs.declared.outcome_report.ReportPart.{ReportPart};
ghost use Rattle.report_text.specs.declared.told_part.Telling.TheVariants.{Wholly, Briefly};
ghost use Rattle.report_text.specs.Told.{Tells};
ghost use Rattle.load_summary.specs.Endings.{endings_of};
ghost use Rattle.checker_calls.specs.Accounts.{JobGives};

use load_summary::ScenarioEndings;
use outcome_report::{ReportPart, make_part};
use report_text::{Telling, ToldPart, tell_part};
use scenario_outcomes::{OutcomesFault, endings};
use scenario_runs::Job;
use script_names::List;
use start_trees::Need;
use std::alloc::Global;

/// An account of the part of a report on a scenario.
pub trait Account: Drop {
    // The account tells this part.
    ghost tells: { ReportPart → Self → Type 0 };

    /// The account of the part on a job's scenario, over all trees of files that have what is needed. `NoStart` and
    /// `Over` come as for `make_part`.
    fn of_job(
        alloc: Global,
        job: &Job,
        needs: &List<Need>,
        limit: u32,
    ) -> Result<Self, OutcomesFault>
        ensures { JobGives tells (scenario_run job.now) (IsStart needs.now) limit job.now.scenario result };
}

// The part itself.
impl Account for ReportPart {
    ghost tells = { λ part account. part ≡ account };

    fn of_job(
        alloc: Global,
        job: &Job,
        needs: &List<Need>,
        limit: u32,
    ) -> Result<ReportPart, OutcomesFault> {
        let part = make_part(alloc, job, needs, limit);
        part
    }
}

// The lines on it, told outcome by outcome, so that no part is made.
impl Account for ToldPart {
    ghost tells = { Tells Wholly };

    fn of_job(
        alloc: Global,
        job: &Job,
        needs: &List<Need>,
        limit: u32,
    ) -> Result<ToldPart, OutcomesFault> {
        let told = tell_part(alloc, job, needs, limit, Telling::Wholly);
        told
    }
}

/// What is told briefly of a part.
#[derive(Drop)]
pub struct BriefPart {
    pub told: ToldPart,
}

// Its brief lines, told in the same way.
impl Account for BriefPart {
    ghost tells = { λ part account. Tells Briefly part account.told };

    fn of_job(
        alloc: Global,
        job: &Job,
        needs: &List<Need>,
        limit: u32,
    ) -> Result<BriefPart, OutcomesFault> {
        match tell_part(alloc, job, needs, limit, Telling::Briefly) {
            Ok(told) => Ok(BriefPart { told }),
            Err(fault) => Err(fault),
        }
    }
}

// How its outcomes end; nothing else of them is made.
impl Account for ScenarioEndings {
    ghost tells = { λ part account. endings_of part ≡ account };

    fn of_job(
        alloc: Global,
        job: &Job,
        needs: &List<Need>,
        limit: u32,
    ) -> Result<ScenarioEndings, OutcomesFault> {
        match endings(alloc, job, needs, limit) {
            Ok(endings) => Ok(ScenarioEndings {
                scenario: job.scenario,
                endings,
            }),
            Err(fault) => Err(fault),
        }
    }
}
