ghost use Rattle.std.specs.Prelude.{◌≡◌};
ghost use Rattle.std.specs.List.{list_any};
ghost use Rattle.script_names.specs.Paths.{is_slash};
ghost use Rattle.utility_calls.specs.PathStrings.{begins_with_slash, has_adjacent_slashes, is_operand, is_path_string};
ghost use Rattle.utility_calls.specs.PathStrings.{without_last_slash, last_part, front_part, file_part, directory_part};
ghost use Rattle.utility_calls.specs.PathStrings.{base_name, dir_name, without_suffix};

use crate::options::is_option;

// Whether the first byte is `/`.
fn begins_with_slash(bytes: &[u8]) -> bool
    ensures { result ≡ begins_with_slash bytes.now }
{
    match bytes {
        [] => false,
        [first, ..] => *first == b'/',
    }
}

// Whether two `/` stand side by side.
fn has_adjacent_slashes(word: &[u8]) -> bool
    ensures { result ≡ has_adjacent_slashes word.now }
{
    let mut left = word;
    while let [byte, rest @ ..] = left {
        if *byte == b'/' && begins_with_slash(rest) {
            return true;
        }
        left = rest;
    }
    false
}

// Whether a word is an operand, by whether `--` ended the options.
pub(crate) fn is_operand(ended: bool, word: &[u8]) -> bool
    ensures { result ≡ is_operand ended word.now }
{
    ended || !is_option(word)
}

// Whether a word is a string of which `basename` and `dirname` have a meaning here.
pub(crate) fn is_path_string(ended: bool, word: &[u8]) -> bool
    ensures { result ≡ is_path_string ended word.now }
{
    is_operand(ended, word) && !word.is_empty() && !has_adjacent_slashes(word)
}

// A string without a `/` at its end, unless it is `/`.
fn without_last_slash(word: &[u8]) -> &[u8]
    ensures { result.now ≡ without_last_slash word.now }
{
    if word.len() > 1 && word.ends_with(b"/") {
        return &word[..word.len() - 1];
    }
    word
}

// What stands behind the last `/`, or all where there is none.
fn last_part(word: &[u8]) -> &[u8]
    ensures { result.now ≡ last_part word.now }
{
    let last = word.split(|byte| *byte == b'/').last();
    match last {
        Some(part) => part,
        None => &[],
    }
}

// What stands before the last `/`.
fn front_part(word: &[u8]) -> &[u8]
    ensures { result.now ≡ front_part word.now }
{
    let front = word.len().saturating_sub(last_part(word).len());
    &word[..front.saturating_sub(1)]
}

// The last part of a string without a slash at its end; of `/` that is `/`.
fn file_part(word: &[u8]) -> &[u8]
    ensures { result.now ≡ file_part word.now }
{
    if word == b"/".as_slice() {
        return word;
    }
    last_part(word)
}

// Whether a byte is `/`.
fn has_slash(word: &[u8]) -> bool
    ensures { result ≡ list_any is_slash word.now }
{
    word.iter().any(|byte| *byte == b'/')
}

// The directory of a string without a slash at its end.
fn directory_part(word: &[u8]) -> &[u8]
    ensures { result.now ≡ directory_part word.now }
{
    if !has_slash(word) {
        return b".";
    }
    let front = front_part(word);
    if front.is_empty() {
        return b"/";
    }
    front
}

// What `basename` writes of a string.
pub(crate) fn base_name(word: &[u8]) -> &[u8]
    ensures { result.now ≡ base_name word.now }
{
    file_part(without_last_slash(word))
}

// What `dirname` writes of a string.
pub(crate) fn dir_name(word: &[u8]) -> &[u8]
    ensures { result.now ≡ dir_name word.now }
{
    directory_part(without_last_slash(word))
}

// A name without this suffix, where it has it and is not the suffix alone.
pub(crate) fn without_suffix<'a>(suffix: &[u8], name: &'a [u8]) -> &'a [u8]
    ensures { result.now ≡ without_suffix suffix.now name.now }
{
    if suffix.len() < name.len() && name.ends_with(suffix) {
        return &name[..name.len() - suffix.len()];
    }
    name
}
