ghost use Rattle.std.specs.Prelude.{◌≡◌};
ghost use Rattle.std.specs.List.{list_all};
ghost use Rattle.report_json.specs.FirstVersion.{is_first_entry, is_first_part, is_first, has_text};

use feature_trees::Version;
use outcome_report::{Report, ReportEntry, ReportPart};

// Whether an outcome and its replay have a text of the first version.
fn is_first_entry(entry: &ReportEntry) -> bool
    ensures { result ≡ is_first_entry entry.now }
{
    if !entry.outcome.clause.has_first_kinds() {
        return false;
    }
    if !entry.outcome.shown.has_only_pipes() {
        return false;
    }
    entry.replayed.after.has_only_pipes()
}

// Whether outcomes have one.
fn are_first_entries(entries: &[ReportEntry]) -> bool
    ensures { result ≡ list_all is_first_entry entries.now }
{
    entries.iter().all(|entry| is_first_entry(entry))
}

// Whether scenarios have one.
fn are_first_parts(parts: &[ReportPart]) -> bool
    ensures { result ≡ list_all is_first_part parts.now }
{
    parts
        .iter()
        .all(|part| are_first_entries(part.entries.as_slice()))
}

/// Whether the report has a text of the version: of the first it has one where each set of kinds in a clause has all
/// four special kinds or none of them, and each special thing in a tree is a pipe.
pub fn has_text(version: Version, report: &Report) -> bool
    ensures { result ≡ has_text version report.now }
{
    match version {
        Version::First => are_first_parts(report.parts.as_slice()),
        Version::Second => true,
    }
}
