//! What holds of the rows of acts and of backs, and of decisions and walks, for the layers above.

ghost use Rattle.utility_calls.specs.Ways.{ParentsAreDirs};
ghost use Rattle.utility_calls.specs.ActRows.{RowApplies, NoOtherApplies};
ghost use Rattle.utility_calls.specs.ActChanges.{QuestionsChangeNothing, OnlySuccessesChange, ActsKeepDirs};
ghost use Rattle.utility_calls.specs.ActChanges.{ActsKeepSound, ChangesHaveNames, ChangesAreInDirectories};
ghost use Rattle.utility_calls.specs.BackLaws.{OneBackRow, BacksKeepDirs, BacksKeepSound, BacksAreInDirectories};
ghost use Rattle.utility_calls.specs.BackLaws.{WalksPlayBehind, WalksFollow, DecisionsAreWalks};
ghost use Rattle.utility_calls.specs.Decisions.{PlaysBehind};
ghost use Rattle.utility_calls.specs.Performed.{CallsHavePerformedActs};

use feature_trees::theorems::puts_are_local;

/// A path is in a directory exactly where every strict prefix of it is a directory, so that a value can be put there.
pub fn parents_are_dirs()
    ensures { ParentsAreDirs }
{}

/// To each act that meets its conditions, on each tree, exactly one row of the table applies.
pub fn one_act_row()
    ensures applies { RowApplies }
    ensures alone { NoOtherApplies }
{}

/// A question has no effect, nor has an act that does not succeed; an act leaves a directory a directory and a sound
/// tree sound, and the paths of one that has an effect have names.
pub fn acts_change_trees()
    ensures questions { QuestionsChangeNothing }
    ensures unchanged { OnlySuccessesChange }
    ensures dir { ActsKeepDirs }
    ensures sound { ActsKeepSound }
    ensures named { ChangesHaveNames }
{
    puts_are_local();
}

/// What an act puts or takes away is in a directory: every strict prefix of its path is one.
pub fn changes_are_in_directories()
    ensures { ChangesAreInDirectories }
{}

/// Each act that a call comes to meets the conditions of acts, whatever the call's words.
pub fn planned_acts_are_performed()
    ensures { CallsHavePerformedActs }
{}

/// A decision that is played behind a trace and acts gives what it gives behind none, with these before it.
pub fn decisions_play_behind<A>()
    ensures { PlaysBehind A }
{}

/// To each back, on each tree and kept tree, exactly one row of the table applies. A back leaves a directory a
/// directory and a sound tree sound, and what it puts or takes away is in a directory.
pub fn one_back_row()
    ensures one { OneBackRow }
    ensures dir { BacksKeepDirs }
    ensures sound { BacksKeepSound }
    ensures parents { BacksAreInDirectories }
{
    puts_are_local();
}

/// A walk that is played behind a trace and deeds gives what it gives behind none, with these before it; two walks are
/// played one behind the other; and a decision over acts is a walk that leaves the kept tree.
pub fn walks_are_lawful<A, B>()
    ensures behind { WalksPlayBehind A }
    ensures follow { WalksFollow A B }
    ensures embedded { DecisionsAreWalks A }
{}
