//! What holds of the JSON texts of reports, for readers of them.

ghost use Rattle.report_reader.specs.Laws.{ReportsReadBack};

/// The JSON text of a whole report is read as the report, in each version of which it has a text.
pub fn reports_read_back()
    ensures { ReportsReadBack }
{}
