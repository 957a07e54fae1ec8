//! What holds of the JSON texts of reports, for readers of them.

ghost use Rattle.report_json.specs.Laws.{ValuesTellReports, VersionsAreApart, JsonTextsTellReports};

/// The JSON value of a whole report tells the report, in each version of which it has a text, and so does its JSON
/// text: two with the same are the same. No value is one of both versions.
pub fn json_tells_reports()
    ensures values { ValuesTellReports }
    ensures apart { VersionsAreApart }
    ensures texts { JsonTextsTellReports }
{}
