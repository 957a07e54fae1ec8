ghost use Rattle.std.specs.Prelude.{◌≡◌, ◌≤◌, ◌&&◌, not, drop, length};
ghost use Rattle.std.specs.List.{list_all};
ghost use Rattle.utility_calls.specs.Options.{is_end, is_option, option_count, options as options_of, behind};
ghost use Rattle.utility_calls.specs.Options.{is_ended};
ghost use Rattle.utility_calls.specs.Options.{unended, has_letter, option_fits, option_with};

use script_names::Bytes;

// Whether a word is `--`.
pub(crate) fn is_end(word: &[u8]) -> bool
    ensures { result ≡ is_end word.now }
{
    word == b"--".as_slice()
}

// Whether a word has two bytes or more, of which the first is `-`.
pub(crate) fn is_option(word: &[u8]) -> bool
    ensures { result ≡ is_option word.now }
{
    match word {
        [] => false,
        [_] => false,
        [first, _, ..] => *first == b'-',
    }
}

// How many words from the first on are options.
fn count_options(words: &[Bytes]) -> usize
    ensures count { result ≡ option_count words.now }
    ensures few { result ≤ length words.now }
{
    let mut count = 0;
    let mut left = words;
    while let [word, rest @ ..] = left {
        if !is_leading(word.as_slice()) {
            return count;
        }
        count += 1;
        left = rest;
    }
    count
}

// Whether a word is an option, of which `--` is none.
fn is_leading(word: &[u8]) -> bool
    ensures { result ≡ (is_option word.now && not (is_end word.now)) }
{
    is_option(word) && !is_end(word)
}

// The options in front, and what stands behind them.
pub(crate) fn split_options(words: &[Bytes]) -> (&[Bytes], &[Bytes])
    ensures options { result.0.now ≡ options_of words.now }
    ensures behind { result.1.now ≡ behind words.now }
{
    let count = count_options(words);
    words.split_at(count)
}

// Whether the first word is `--`, and the words without it.
pub(crate) fn unended(words: &[Bytes]) -> (bool, &[Bytes])
    ensures ended { result.0 ≡ is_ended words.now }
    ensures rest { result.1.now ≡ unended words.now }
{
    match words {
        [] => (false, words),
        [word, rest @ ..] => {
            if is_end(word.as_slice()) {
                (true, rest)
            } else {
                (false, words)
            }
        }
    }
}

// Whether a letter is among these.
pub(crate) fn has_letter(letters: &[u8], letter: u8) -> bool
    ensures { result ≡ has_letter letters.now letter }
{
    letters.iter().any(|b| *b == letter)
}

// A word without its first byte.
fn behind_dash(word: &[u8]) -> &[u8]
    ensures { result.now ≡ drop 1 word.now }
{
    match word {
        [] => word,
        [_, rest @ ..] => rest,
    }
}

// Whether each letter is among these.
fn letters_fit(letters: &[u8], own: &[u8]) -> bool
    ensures { result ≡ list_all (has_letter letters.now) own.now }
{
    own.iter().all(|b| has_letter(letters, *b))
}

// Whether an option has letters of these alone: one, or where they may be joined, several.
fn option_fits(joined: bool, letters: &[u8], word: &[u8]) -> bool
    ensures { result ≡ option_fits joined letters.now word.now }
{
    (joined || word.len() == 2) && letters_fit(letters, behind_dash(word))
}

// Whether each of the options has letters of these alone: one, or where they may be joined, several.
pub(crate) fn options_fit(joined: bool, letters: &[u8], options: &[Bytes]) -> bool
    ensures { result ≡ list_all (option_fits joined letters.now) options.now }
{
    options
        .iter()
        .all(|word| option_fits(joined, letters, word.as_slice()))
}

// Whether an option has this letter.
fn option_has(letter: u8, word: &[u8]) -> bool
    ensures { result ≡ has_letter (drop 1 word.now) letter }
{
    has_letter(behind_dash(word), letter)
}

// Whether one of the options has this letter.
pub(crate) fn has_option(letter: u8, options: &[Bytes]) -> bool
    ensures { result ≡ option_with letter options.now }
{
    options
        .iter()
        .any(|word| option_has(letter, word.as_slice()))
}
