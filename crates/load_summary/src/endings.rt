//! The endings of scenarios, and what they make of the verdict.

ghost use Rattle.std.specs.Prelude.{◌≡◌};
ghost use Rattle.outcome_report.specs.declared.outcome_report.Report.{Report};
ghost use Rattle.outcome_report.specs.OutcomeReport.{verdict_of};
ghost use Rattle.load_summary.specs.Endings.{HasEndings, ends_so, endings_verdict};

use dpkg_scenarios::{Ending, Judged, Scenario, ending_verdict, verdict_on};
use script_names::{Copied, List, Memory};
use std::alloc::Global;

/// The endings of the outcomes of one scenario, in the outcomes' order.
#[derive(Drop)]
pub struct ScenarioEndings {
    pub scenario: Scenario,
    pub endings: List<Ending>,
}

impl Copied for ScenarioEndings {
    fn copy(&self, alloc: Global) -> Result<ScenarioEndings, Memory> {
        let endings = self.endings.copy(alloc)?;
        Ok(ScenarioEndings {
            scenario: self.scenario,
            endings,
        })
    }
}

// Whether an ending of the scenario has this verdict.
fn ends_so(scenario: &ScenarioEndings, verdict: u8) -> bool
    ensures { result ≡ ends_so verdict scenario.now }
{
    scenario
        .endings
        .as_slice()
        .iter()
        .any(|ending| ending_verdict(*ending) == verdict)
}

impl Judged for ScenarioEndings {
    ghost failed = { ends_so 1 };

    ghost unfinished = { ends_so 2 };

    fn has_failed(&self) -> bool {
        ends_so(self, 1)
    }

    fn is_unfinished(&self) -> bool {
        ends_so(self, 2)
    }
}

/// The verdict on the endings together.
pub(crate) fn endings_verdict(scenarios: &[ScenarioEndings]) -> u8
    ensures { result ≡ endings_verdict scenarios.now }
{
    verdict_on(scenarios)
}

/// The verdict of a report, from the endings of its outcomes.
pub fn load_verdict(scenarios: &List<ScenarioEndings>) -> u8
    ensures { (report : Report) → HasEndings report scenarios.now → result ≡ verdict_of report }
{
    endings_verdict(scenarios.as_slice())
}
