//! The runs of a job from all trees at once, as a machine whose paths can be found.

ghost use Rattle.std.specs.Prelude.{◌≡◌};
ghost use Rattle.scenario_runs.specs.Performed.{ArePerformed};
ghost use Rattle.scenario_outcomes.specs.PerformedOnce.{files_once};
ghost use Rattle.scenario_runs.specs.Deciding.{decision_of, decision_performed};

use case_paths::{Machine, Ran};
use dpkg_scenarios::Ending;
use feature_trees::Value;
use scenario_runs::theorems::scenario_runs_are_decided;
use scenario_runs::{Job, Replayed, ScriptCall, run};
use script_names::{List, Memory};
use std::alloc::Global;

/// The runs of a job, which are one walk.
#[derive(Drop)]
pub(crate) struct JobRuns<'a> {
    job: &'a Job,
    ghost performed: { ArePerformed job.now.files } by { files_once job.now.files },
}

impl<'a> JobRuns<'a> {
    /// The runs of this job.
    pub(crate) fn of(job: &'a Job) -> JobRuns<'a>
        ensures { result.job.now ≡ job.now }
    {
        job.acts_are_performed();
        JobRuns { job }
    }
}

impl<'a> Machine for JobRuns<'a> {
    type End = (Ending, List<ScriptCall>);

    ghost decision = { λ m. decision_of m.job.now m.performed };

    fn run(&self, alloc: Global, start: &Value) -> Result<Ran<(Ending, List<ScriptCall>)>, Memory> {
        scenario_runs_are_decided();
        let Replayed {
            ending,
            trace,
            after: _,
            calls,
            deeds,
        } = run(alloc, self.job, start)?;
        Ok(Ran {
            value: (ending, calls),
            trace,
            deeds,
        })
    }

    ghost performed = { λ m. decision_performed m.job.now m.performed };
}
