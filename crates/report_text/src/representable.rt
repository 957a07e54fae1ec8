// That a report is one that the program's types represent, said of values of these types. These calls change nothing.
ghost use Rattle.report_text.specs.Whole.{IsRepresentableEntry, AllRepresentable, AllPartsRepresentable};
ghost use Rattle.report_text.specs.Whole.{IsRepresentable};

use crate::representable_clauses::is_representable_clause;
use crate::representable_pieces::{are_calls, are_representable_marks, is_representable_ending};
use crate::representable_trees::is_representable_tree;
use outcome_report::{Report, ReportEntry, ReportPart};

/// An entry is one that its type represents.
pub(crate) fn is_entry(entry: &ReportEntry)
    ensures { IsRepresentableEntry entry.now }
{
    let _number = entry.outcome.number;
    is_representable_ending(&entry.outcome.ending);
    are_representable_marks(entry.outcome.trace.as_slice());
    is_representable_clause(&entry.outcome.clause);
    are_calls(entry.replayed.calls.as_slice());
    is_representable_tree(&entry.outcome.shown);
    is_representable_tree(&entry.replayed.after);
}

// The program's types represent entries.
fn are_entries(entries: &[ReportEntry])
    ensures { AllRepresentable entries.now }
{
    let mut left = entries;
    while let [entry, rest @ ..] = left {
        is_entry(entry);
        left = rest;
    }
}

// The program's types represent the entries of parts.
fn are_parts(parts: &[ReportPart])
    ensures { AllPartsRepresentable parts.now }
{
    let mut left = parts;
    while let [part, rest @ ..] = left {
        are_entries(part.entries.as_slice());
        left = rest;
    }
}

/// The report is one that the program's types represent: its numbers fit their types, the names of its trees rise, and
/// its names and words are of bytes. The call changes nothing.
pub fn is_representable(report: &Report)
    ensures { IsRepresentable report.now }
{
    are_parts(report.parts.as_slice());
}
