//! What holds of the texts of reports, for their readers.

ghost use Rattle.report_text.specs.PieceLaws.{PiecesReadBack};
ghost use Rattle.report_text.specs.TextLaws.{EndingsTellBriefTexts, TextsTellReports};

/// The brief text of a report on some scenarios is told by the endings and the traces of their outcomes alone.
pub fn endings_tell_brief_texts()
    ensures { EndingsTellBriefTexts }
{}

/// The pieces of a report's text are read back: its scenarios, endings, traces and calls.
pub fn pieces_read_back()
    ensures { PiecesReadBack }
{}

/// The text of a whole report tells the report: two whole reports with the same text are the same.
pub fn texts_tell_reports()
    ensures { TextsTellReports }
{}
