//! What holds of printed texts, for the layers above: what shell_syntax prints is cut into the same parts and tokens.

ghost use Rattle.token_laws.specs.PrintedLaws.{QuotedIsOnePart, ParamIsOnePart, AllIsOnePart, RunIsOnePart};
ghost use Rattle.token_laws.specs.PrintedLaws.{WordsReadBack, WordTokensReadBack, AllTokensReadBack};
ghost use Rattle.token_laws.specs.PrintedLaws.{OperatorsReadBack, SubstitutionsClose};

/// Quoted bytes are printed so that they are cut into one quoted part that has these bytes, whatever they are: none, a
/// newline, a quote of either kind, `$`, a backquote or a backslash (XCU 2.2 Quoting).
pub fn quoted_bytes_read_back()
    ensures { QuotedIsOnePart }
{}

/// A parameter expansion that some text spells is printed so that it is cut into one part that names the same
/// parameter and has the same default, in double quotes exactly where it was; likewise `"$@"` (XCU 2.5, 2.6.2).
pub fn expansions_read_back()
    ensures param { ParamIsOnePart }
    ensures all { AllIsOnePart }
{}

/// A command substitution is printed so that it is cut into one part that has the tokens of its body, in double quotes
/// exactly where it was (XCU 2.6.3 Command Substitution).
pub fn substitutions_read_back()
    ensures { RunIsOnePart }
{}

/// A word without substitutions that some text spells is printed so that it is read as the same parts.
pub fn words_read_back()
    ensures { WordsReadBack }
{}

/// Such a word is printed, behind a blank, so that it is cut as one token, whatever tokens follow; likewise `"$@"`.
pub fn word_tokens_read_back()
    ensures words { WordTokensReadBack }
    ensures all { AllTokensReadBack }
{}

/// An operator or a redirection is printed so that it is cut as its one token (XCU 2.3 Token Recognition, 2.7
/// Redirection), and the parenthesis of a substitution so that it closes it (2.6.3 Command Substitution).
pub fn operators_read_back()
    ensures tokens { OperatorsReadBack }
    ensures closing { SubstitutionsClose }
{}
