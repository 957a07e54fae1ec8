//! What holds of the rules, for the layers above.

ghost use Rattle.shell_rules.specs.Laws.{Lawfulness};
ghost use Rattle.shell_rules.specs.RuleLaws.{ExpansionsKeep, CommandsKeep, LoopsKeep, CallsKeep, WholeRunsKeep};
ghost use Rattle.shell_rules.specs.RuleLaws.{TrimmedIsOne, MatchesDecides, SpecialNamesAreNoUtilities};
ghost use Rattle.shell_rules.specs.RuleLaws.{PlansHavePerformedActs, NoPremisesNoChange};
ghost use Rattle.shell_rules.specs.Examples.{Hold, strict_examples, status_examples, loop_examples};
ghost use Rattle.shell_rules.specs.Examples.{word_examples, act_examples, order_examples, case_examples};
ghost use Rattle.shell_rules.specs.Examples.{stated_examples, version_examples, PlansHold};
ghost use Rattle.shell_rules.specs.Scopes.{SubshellsClose, OutputsClose, FunctionsClose, QuietsClose};

/// Each rule keeps four laws where its parts do: a run only adds to the trace, it has no more turns left than it began
/// with, its premises stay, and one that is not bound is the same run with more turns, but for the turns that are left.
pub fn rules_are_lawful()
    ensures expansions { ExpansionsKeep Lawfulness }
    ensures commands { CommandsKeep Lawfulness }
    ensures loops { LoopsKeep Lawfulness }
    ensures calls { CallsKeep Lawfulness }
    ensures whole { WholeRunsKeep }
{}

/// What goes out of a subshell, a command substitution, the body of a function and a command whose output is taken
/// away, however they end; all else is as before.
pub fn scopes_close()
    ensures subshells { SubshellsClose }
    ensures outputs { OutputsClose }
    ensures functions { FunctionsClose }
    ensures quiet { QuietsClose }
{}

/// The text that a substitution gives and the test of a pattern are those of shell_words.
pub fn words_agree()
    ensures trimmed { TrimmedIsOne }
    ensures patterns { MatchesDecides }
{}

/// The names of what changes the shell itself are no names of utilities.
pub fn special_names_are_no_utilities()
    ensures { SpecialNamesAreNoUtilities }
{}

/// Each act that a command comes to under the premises of a run meets the conditions of acts.
pub fn planned_acts_are_performed()
    ensures { PlansHavePerformedActs }
{}

/// Where nothing is stated a command comes to what its fields come to, unless its name was computed and is a
/// function's.
pub fn no_premises_no_change()
    ensures { NoPremisesNoChange }
{}

/// The worked examples of the rules come to what is wanted.
pub fn examples_hold()
    ensures strict { Hold strict_examples }
    ensures status { Hold status_examples }
    ensures loops { Hold loop_examples }
    ensures words { Hold word_examples }
    ensures acts { Hold act_examples }
    ensures order { Hold order_examples }
    ensures cases { Hold case_examples }
    ensures stated { Hold stated_examples }
    ensures versions { Hold version_examples }
    ensures plans { PlansHold }
{}
