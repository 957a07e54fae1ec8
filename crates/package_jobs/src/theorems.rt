//! What holds of the runs of packages as they are written.

ghost use Rattle.package_jobs.specs.Laws.{MoreTurnsSameRun};

use colis_meaning::theorems::runs_are_lawful;
use scenario_runs::theorems::more_turns_change_nothing;
use shell_to_colis::theorems::programs_do_the_same;

/// The run of a scenario from a tree, by the shell's own rules, that did not end for want of a turn of a loop is the
/// same run with more turns.
pub fn more_turns_change_no_written_run()
    ensures { MoreTurnsSameRun }
{
    runs_are_lawful();
    programs_do_the_same();
    more_turns_change_nothing();
}
