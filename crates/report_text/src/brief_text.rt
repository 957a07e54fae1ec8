ghost use Rattle.std.specs.Prelude.{◌≡◌, ◌++◌, IfOk, OnOk};
ghost use Rattle.std.specs.List.{flat_map};
ghost use Rattle.report_text.specs.BriefText.{brief_entry, brief_part, brief_text};

use crate::report_text::{put_outcome, put_scenario, put_trace, put_verdict};
use outcome_report::{Report, ReportEntry, ReportPart};
use script_names::{Bytes, Memory};
use shown_texts::push_line;
use std::alloc::Global;

/// Adds the lines of an outcome's number, ending and trace.
#[tactic(auto, unfolding(crate::specs::BriefText::brief_entry))]
pub(crate) fn put_brief_entry(text: &mut Bytes, entry: &ReportEntry) -> Result<(), Memory>
    ensures { OnOk result (text.new ≡ text.old ++ brief_entry entry.now) }
{
    put_outcome(text, entry)?;
    put_trace(text, entry.outcome.trace.as_slice())
}

fn put_entries(text: &mut Bytes, entries: &[ReportEntry]) -> Result<(), Memory>
    ensures { OnOk result (text.new ≡ text.old ++ flat_map brief_entry entries.now) }
{
    for entry in entries {
        put_brief_entry(text, entry)?;
    }
    Ok(())
}

#[tactic(auto, unfolding(crate::specs::BriefText::brief_part))]
fn put_part(text: &mut Bytes, part: &ReportPart) -> Result<(), Memory>
    ensures { OnOk result (text.new ≡ text.old ++ brief_part part.now) }
{
    put_scenario(text, part)?;
    put_entries(text, part.entries.as_slice())
}

fn put_parts(text: &mut Bytes, parts: &[ReportPart]) -> Result<(), Memory>
    ensures { OnOk result (text.new ≡ text.old ++ flat_map brief_part parts.now) }
{
    for part in parts {
        put_part(text, part)?;
    }
    Ok(())
}

/// The brief text of a report: the endings and the traces of the outcomes, and the verdict.
#[tactic(auto, unfolding(crate::specs::BriefText::brief_text))]
pub fn render_brief(alloc: Global, report: &Report) -> Result<Bytes, Memory>
    ensures { IfOk result (λ text. text ≡ brief_text report.now) }
{
    let mut text = Bytes::new(alloc);
    push_line(&mut text, b"colis brief 2")?;
    put_parts(&mut text, report.parts.as_slice())?;
    put_verdict(&mut text, report)?;
    Ok(text)
}
