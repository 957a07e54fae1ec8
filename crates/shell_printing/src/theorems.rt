//! Laws of printed scripts, for the layers above.

ghost use Rattle.shell_printing.specs.Laws.{CutRunsAreLongest, OffsetsDoNotMatter, PrintedFirstLinesAreRead};
ghost use Rattle.shell_printing.specs.Laws.{PrintedScriptsReadBack};
ghost use Rattle.shell_printing.specs.Laws.{PrintedTextsAreTokens, PrintedTokensSpell, PrintedTokensSpellAgain};

use token_laws::printed::{
    expansions_read_back, operators_read_back, quoted_bytes_read_back, word_tokens_read_back,
};
use token_laws::theorems::{openings_are_spelled, parts_are_spelled, runs_are_longest};

/// What tokens spell does not depend on where they stand (XCU 2.10 Shell Grammar): tokens that are the same but for
/// their offsets spell, within 64 levels, the same script but for its offsets.
pub fn offsets_do_not_matter()
    ensures { OffsetsDoNotMatter }
{}

/// In the tokens of a text the runs of plain bytes of each word are longest, also in the words of substitutions (XCU
/// 2.3 Token Recognition).
pub fn cut_runs_are_longest()
    ensures { CutRunsAreLongest }
{
    runs_are_longest();
    parts_are_spelled();
}

/// The tokens of what a script is printed as spell it again (XCU 2.10 Shell Grammar): where some text spells a script,
/// and no token is too deep, those of the printed script, wherever they stand, spell within 64 levels the same script
/// but for its offsets. The same holds of any tokens in whose words the runs are longest.
pub fn printed_tokens_spell()
    ensures texts { PrintedTokensSpell }
    ensures tokens { PrintedTokensSpellAgain }
{
    cut_runs_are_longest();
}

/// What `print_script` of shell_syntax prints is the script's first line and the texts of these tokens, one after
/// another, each token behind a blank, but a newline. The first line is read as one with the script's `-e`, and the
/// tokens' texts are all that stands behind it.
pub fn printed_texts_are_tokens()
    ensures texts { PrintedTextsAreTokens }
    ensures first_lines { PrintedFirstLinesAreRead }
{}

/// The text of a printed script is cut into tokens that spell the script again (XCU 2.3 Token Recognition, 2.10 Shell
/// Grammar): where some text spells a script, and no token is too deep, that is cut into the tokens of the printed
/// script, but for their offsets, and spells within 64 levels the same script but for its offsets.
pub fn printed_scripts_read_back()
    ensures { PrintedScriptsReadBack }
{
    word_tokens_read_back();
    quoted_bytes_read_back();
    expansions_read_back();
    operators_read_back();
    runs_are_longest();
    parts_are_spelled();
    openings_are_spelled();
    printed_tokens_spell();
    printed_texts_are_tokens();
}
