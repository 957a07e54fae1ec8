ghost use Rattle.std.specs.Prelude.{◌≡◌};
ghost use Rattle.outcome_report.specs.OutcomeReport.{part_has, verdict_of};
ghost use Rattle.dpkg_scenarios.specs.Verdicts.{ending_verdict};

use crate::outcome_report::{Report, ReportPart};
use dpkg_scenarios::{Judged, ending_verdict, verdict_on};
use scenario_runs::Replayed;

// Whether an outcome of the part has this verdict.
fn part_has(part: &ReportPart, verdict: u8) -> bool
    ensures { result ≡ part_has verdict part.now }
{
    part.entries
        .as_slice()
        .iter()
        .any(|entry| ending_verdict(entry.outcome.ending) == verdict)
}

impl Judged for ReportPart {
    ghost failed = { part_has 1 };

    ghost unfinished = { part_has 2 };

    fn has_failed(&self) -> bool {
        part_has(self, 1)
    }

    fn is_unfinished(&self) -> bool {
        part_has(self, 2)
    }
}

/// The verdict of a report.
pub fn verdict(report: &Report) -> u8
    ensures { result ≡ verdict_of report.now }
{
    verdict_on(report.parts.as_slice())
}

/// The status of a run: 0 where it is done, 1 where it failed, 2 where it is incomplete or bound.
pub fn run_status(replayed: &Replayed) -> u8
    ensures { result ≡ ending_verdict replayed.now.ending }
{
    ending_verdict(replayed.ending)
}
