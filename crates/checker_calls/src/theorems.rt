//! What a report means for those who read it, and what holds of refusals.

ghost use Rattle.checker_calls.specs.Laws.{QuietScenario, QuietReport, UnfailedScenario, UnfailedReport};
ghost use Rattle.checker_calls.specs.Laws.{FailedScenario, FailedReport, WholeReports};
ghost use Rattle.checker_calls.specs.Laws.{PlainTextsTellReports, JsonTextsTellReports};
ghost use Rattle.checker_calls.specs.Laws.{OneReportStatus, OneBriefText, OneStatus, OneText, OneRefusal};
ghost use Rattle.checker_calls.specs.Laws.{GroupsTellSystems, PredictionsTellSystems};

use package_jobs::theorems::more_turns_change_no_written_run;
use report_json::theorems::json_tells_reports;
use report_text::theorems::{endings_tell_brief_texts, texts_tell_reports};

/// Of a scenario that is reported with outcomes that are all done, the run from each start tree is done: it fails from
/// none, and from none does it end where nothing is specified or no turn is left. With more turns of loops than it was
/// reported with it is the same run. Where the report's status is 0, this holds of each chosen scenario.
pub fn a_quiet_scenario_fails_nowhere()
    ensures scenario { QuietScenario }
    ensures report { QuietReport }
{
    more_turns_change_no_written_run();
}

/// Of a scenario that is reported without failed outcomes, though with incomplete or bound ones, the run from no start
/// tree fails, with the turns of loops that it was reported with. Unless a run ended for want of a turn, it is the same
/// run with more turns. Where the report's status is not 1, this holds of each chosen scenario.
pub fn an_unfailed_scenario_fails_nowhere()
    ensures scenario { UnfailedScenario }
    ensures report { UnfailedReport }
{
    more_turns_change_no_written_run();
}

/// Of a scenario that is reported with a failed outcome, the run from the tree that is shown, which is a start tree, is
/// the one of which the report tells the replay, and it fails, with more turns of loops too. Where the report's status
/// is 1, a chosen scenario fails from some start tree.
pub fn a_failure_is_real()
    ensures scenario { FailedScenario }
    ensures report { FailedReport }
{
    more_turns_change_no_written_run();
}

/// What is reported of the chosen scenarios is a whole report: each shown tree and each tree that is left is a
/// directory, each replay ends as its outcome says, the outcomes of a scenario are numbered from 1, and the scenarios
/// are different and in the order of the tables.
pub fn reports_are_whole()
    ensures { WholeReports }
{}

/// The plain text of a check tells its report: two checks that answer the same plain text, of whatever packages, report
/// the same outcomes, with the same traces, clauses, trees and replays.
pub fn plain_texts_tell_reports()
    ensures { PlainTextsTellReports }
{
    texts_tell_reports();
}

/// The JSON text of a check tells its report: two checks that answer the same JSON text, of whatever packages, report
/// the same outcomes, with the same traces, clauses, trees and replays.
pub fn json_texts_tell_reports()
    ensures { JsonTextsTellReports }
{
    json_tells_reports();
}

/// The status of a check, and the text of a brief one, follow from the packages, the turns of loops and the scenarios:
/// two checks of the same have the same.
pub fn one_brief_report()
    ensures status { OneReportStatus }
    ensures text { OneBriefText }
{
    endings_tell_brief_texts();
}

/// The status of a call that is answered with a text follows from its words and from what the files hold. So does the
/// text of a brief check, of a run, of a translation, of a load and of a prediction.
pub fn one_text()
    ensures status { OneStatus }
    ensures text { OneText }
{
    endings_tell_brief_texts();
}

/// A request is refused for one reason: the first file that is at fault, or else the first scenario that cannot be
/// reported.
pub fn one_refusal()
    ensures { OneRefusal }
{}

/// What an explanation tells of systems: each start tree of a scenario has the facts that are told of the group which
/// its outcome is in, and where these are told as exact, no start tree has them whose outcome is in another group. Each
/// outcome is in one group.
pub fn groups_tell_systems()
    ensures { GroupsTellSystems }
{}

/// What a prediction by a scenario's report tells of systems: for a start tree the outcome with which the run from it
/// ends, and for any other tree that it is none.
pub fn predictions_tell_systems()
    ensures { PredictionsTellSystems }
{}
