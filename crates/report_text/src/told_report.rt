//! A report, from what is told of its parts.

ghost use Rattle.std.specs.Prelude.{◌≡◌, ◌++◌, IfOk};
ghost use Rattle.std.specs.List.{flat_map};
ghost use Rattle.outcome_report.specs.declared.outcome_report.Report.{Report};
ghost use Rattle.outcome_report.specs.OutcomeReport.{verdict_of};
ghost use Rattle.report_text.specs.declared.told_part.Telling.{Telling};
ghost use Rattle.report_text.specs.declared.told_part.ToldPart.{ToldPart};
ghost use Rattle.report_text.specs.Told.{first_words, first_line, lines_of, report_lines, AreTold};

use crate::report_text::put_verdict_line;
use crate::told_part::{Telling, ToldPart};
use dpkg_scenarios::{Judged, verdict_on};
use script_names::{Bytes, List, Memory};
use shown_texts::push_line;
use std::alloc::Global;

impl Judged for ToldPart {
    ghost failed = { λ told. told.failed };

    ghost unfinished = { λ told. told.unfinished };

    fn has_failed(&self) -> bool {
        self.failed
    }

    fn is_unfinished(&self) -> bool {
        self.unfinished
    }
}

/// The verdict of a report, from what is told of its parts.
pub fn told_verdict(told: &List<ToldPart>) -> u8
    ensures { (telling : Telling) (report : Report) → AreTold telling report.parts told.now → result ≡ verdict_of report }
{
    verdict_on(told.as_slice())
}

// What stands in the first line of a report that is told so.
fn first_words(telling: Telling) -> &'static [u8]
    ensures { result.now ≡ first_words telling }
{
    match telling {
        Telling::Wholly => b"colis report 2",
        Telling::Briefly => b"colis brief 2",
    }
}

// The first line of a report and the lines of its parts, without a verdict.
fn join_lines(alloc: Global, telling: Telling, told: List<ToldPart>) -> Result<Bytes, Memory>
    ensures { IfOk result (λ text. text ≡ first_line telling ++ flat_map lines_of told) }
{
    let mut text = Bytes::new(alloc);
    push_line(&mut text, first_words(telling))?;
    for part in told.into_vec() {
        text.extend(part.text.as_slice())?;
    }
    Ok(text)
}

/// The text of a report, or its brief text, from what is told of its parts.
pub fn join_told(alloc: Global, telling: Telling, told: List<ToldPart>) -> Result<Bytes, Memory>
    ensures { IfOk result (λ text. (report : Report) → AreTold telling report.parts told → text ≡ report_lines telling report) }
{
    let verdict = verdict_on(told.as_slice());
    let mut text = join_lines(alloc, telling, told)?;
    put_verdict_line(&mut text, verdict)?;
    Ok(text)
}
