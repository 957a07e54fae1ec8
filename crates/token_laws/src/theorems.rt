//! What holds of cuts, for the layers above; and that what is seen in a text is what is spelled there, so that the
//! tables of specs/ can be read by the standard: specs/Spelling.antt and the files Spelled.. of specs/.

ghost use Rattle.std.specs.Prelude.{false, true};
ghost use Rattle.token_laws.specs.Laws.{OneCut, OneCutAtAnyDepth, CutsWithinLimit, OnlyDeepIsRefused};
ghost use Rattle.token_laws.specs.Laws.{CutsAreTiled, OffsetsRise, TextsAreCutApart, ReadingsMove};
ghost use Rattle.token_laws.specs.Laws.{TextsAloneAreCutApart};
ghost use Rattle.token_laws.specs.Laws.{QuotesAreOnePart, QuotesAreCut};
ghost use Rattle.token_laws.specs.Laws.{PlainRunsAreLongest, QuotedRunsAreLongest};
ghost use Rattle.token_laws.specs.Laws.{OperatorsAreLongest, RedirectionsAreSpelled, FirstLinesAreSpelled};
ghost use Rattle.token_laws.specs.Laws.{PartsAreSpelled, AllArgsAreSpelled, SubstitutionsAreSpelled};
ghost use Rattle.token_laws.specs.Laws.{DoubleQuotesAreSpelled, BytesAreSpelled};
ghost use Rattle.token_laws.specs.Laws.{PassedAreSpelled, WordsAreSpelled};
ghost use Rattle.token_laws.specs.Laws.{EndsAreSpelled, RedirectedWordsEnd, TokensEnd};
ghost use Rattle.token_laws.specs.Laws.{FaultsAreSpelled, WrongFormsAreSpelled, NulsAreSpelled};
ghost use Rattle.token_laws.specs.Laws.{OtherFirstLinesAreRefused, FaultsStand};
ghost use Rattle.shell_lexer.specs.Parts.{inner, look};
ghost use Rattle.shell_lexer.specs.SpelledEnds.{AtTextEnd, IsWordEnd};

/// A text is cut into tokens in one way, with the limit of 64 substitutions and without one.
pub fn one_cut()
    ensures within_limit { OneCut }
    ensures at_any_depth { OneCutAtAnyDepth }
{}

/// The limit only refuses: what is cut with it is cut the same way without it, and a text that is cut without it has
/// no fault but a substitution inside 64 others.
pub fn limit_only_refuses()
    ensures cuts { CutsWithinLimit }
    ensures faults { OnlyDeepIsRefused }
{}

/// A text that is cut is made up of its tokens: each byte behind the first line is in a blank, a comment, a joined
/// line or exactly one token, and the offsets of the tokens rise strictly (XCU 2.3 Token Recognition).
pub fn cuts_are_tiled()
    ensures tiled { CutsAreTiled }
    ensures rise { OffsetsRise }
{}

/// What stands before a newline does not see what is behind it (XCU 2.3 Token Recognition): a text that is cut, a
/// newline and a second text are cut into the tokens of the cut, the newline's, and those of the second text, with the
/// offsets that they have there, which are those of the second text alone, moved. The first text has a whole first
/// line and does not end in a backslash.
pub fn texts_are_cut_apart()
    ensures apart { TextsAreCutApart }
    ensures moved { ReadingsMove }
    ensures alone { TextsAloneAreCutApart }
{}

/// Double quotes round bytes without `$`, backquote, backslash and `"` are one quoted part that has these bytes (XCU
/// 2.2.3 Double-Quotes): wherever they stand, and as the one word of a script.
pub fn quotes_keep_bytes()
    ensures one_part { QuotesAreOnePart }
    ensures cut { QuotesAreCut }
{}

/// The runs of a word are longest: of its parts no plain run is empty or stands directly behind another; and the same
/// of quoted runs in double quotes, but for the empty quotes, which are one empty part (XCU 2.2.3 Double-Quotes).
pub fn runs_are_longest()
    ensures plain { PlainRunsAreLongest }
    ensures quoted { QuotedRunsAreLongest }
{}

/// What begins at a place is an operator, or a whole redirection, exactly where its spelling stands there and no
/// longer operator does (XCU 2.3 Token Recognition, 2.10.2 Shell Grammar Rules).
pub fn operators_are_longest()
    ensures { OperatorsAreLongest }
{}

/// What begins at a place is one of the five redirections exactly where one of its spellings stands there (XCU 2.7
/// Redirection): for standard output `>`, `1>`, `>>`, `1>>`, for standard error `2>`, `2>>`, for standard input `<`,
/// `0<`, each with blanks and the word `/dev/null`; and the words `>&2`, `1>&2`, `2>&1`.
pub fn redirections_are_spelled()
    ensures { RedirectionsAreSpelled }
{}

/// What stands in a word outside double quotes, and inside them, is a part that holds no others exactly where that
/// part is spelled there: a parameter (XCU 2.6.2 Parameter Expansion), and outside double quotes what is quoted by
/// `'` or by a backslash (2.2.1, 2.2.2).
pub fn parts_are_spelled()
    ensures outside { PartsAreSpelled look false }
    ensures inside { PartsAreSpelled inner true }
{}

/// `$@` (XCU 2.5.2 Special Parameters), the beginning of a substitution (2.6.3 Command Substitution) and a double
/// quote (2.2.3) are seen exactly where they are spelled, outside double quotes and inside them.
pub fn openings_are_spelled()
    ensures all_args { AllArgsAreSpelled look }
    ensures all_args_inside { AllArgsAreSpelled inner }
    ensures substitution { SubstitutionsAreSpelled look }
    ensures substitution_inside { SubstitutionsAreSpelled inner }
    ensures double_quote { DoubleQuotesAreSpelled look }
    ensures double_quote_inside { DoubleQuotesAreSpelled inner }
{}

/// A byte of a word stands for itself exactly where it has no other meaning there (XCU 2.2 Quoting, 2.6 Word
/// Expansions). Outside double quotes: a byte that no word ends before and that is no quote, backslash, backquote or
/// `$`. In them: any byte but `"`, `$`, a backquote and a backslash, and these behind a backslash. A `$` that begins
/// nothing, and a backslash that escapes nothing, stand for themselves.
pub fn bytes_are_spelled()
    ensures outside { BytesAreSpelled look false }
    ensures inside { BytesAreSpelled inner true }
{}

/// Where a token may begin, a blank, or a comment up to its line's end, is passed over exactly where it is spelled; and
/// what begins there is a word exactly where no blank, comment, operator or redirection does (XCU 2.3 Token
/// Recognition).
pub fn words_begin_as_spelled()
    ensures passed { PassedAreSpelled }
    ensures words { WordsAreSpelled }
{}

/// A word ends exactly at the text's end, before a blank, and before a byte that can be the first of an operator (XCU
/// 2.3 Token Recognition); so does the word of a redirection. In double quotes, and where a token may begin, nothing
/// but the text's end is an end.
pub fn ends_are_spelled()
    ensures word { EndsAreSpelled look IsWordEnd }
    ensures redirected { RedirectedWordsEnd }
    ensures inside { EndsAreSpelled inner AtTextEnd }
    ensures tokens { TokensEnd }
{}

/// A fault is seen exactly where it is spelled, with its offset. Where a token may begin: a lone `&`, `((`, `<<`, and a
/// `<` or `>` of no supported redirection. In a word, outside double quotes and inside them: a single quote without its
/// end, `${` of a parameter in which the text ends, a backquote, `$((`, and any other parameter form. In the whole
/// text: the first NUL, and a first line that is not of the form. The offset of a text's fault is that of the bytes by
/// which it is named: the quote or the `$` that is open, the `$` that is too deep, what a form begins with.
pub fn faults_are_spelled()
    ensures token { WrongFormsAreSpelled }
    ensures outside { FaultsAreSpelled look false }
    ensures inside { FaultsAreSpelled inner true }
    ensures nul { NulsAreSpelled }
    ensures first_line { OtherFirstLinesAreRefused }
    ensures places { FaultsStand }
{}

/// A first line is accepted, with `-e` or without, exactly where it is spelled as one.
pub fn first_lines_are_spelled()
    ensures { FirstLinesAreSpelled }
{}
