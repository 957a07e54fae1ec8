ghost use Rattle.std.specs.Prelude.{◌≡◌, ◌&&◌, length};
ghost use Rattle.std.specs.List.{list_all, slice_split};
ghost use Rattle.utility_calls.specs.Modes.{has_at_most, is_octal_digit, is_octal_mode, is_who, is_operator};
ghost use Rattle.utility_calls.specs.Modes.{is_of_action, behind_who, are_actions, is_mode_clause, is_comma};
ghost use Rattle.utility_calls.specs.Modes.{is_symbolic_mode, is_mode, is_account, is_colon, is_owner, says};
ghost use Rattle.script_names.specs.ShellNames.{is_digit};

use crate::options::has_letter;

/// What a utility sets of each of its operands but the first, which says to what.
#[derive(Clone, Copy, Debug, PartialEq, Eq)]
pub enum Setting {
    /// `chmod`
    Mode,
    /// `chown`
    Owner,
    /// `chgrp`
    Group,
}

// Whether a word has one byte or more, and at most so many.
fn has_at_most(most: usize, word: &[u8]) -> bool
    ensures { result ≡ has_at_most most word.now }
{
    !word.is_empty() && word.len() <= most
}

// Whether a byte is `0` to `7`.
fn is_octal_digit(byte: u8) -> bool
    ensures { result ≡ is_octal_digit byte }
{
    b'0' <= byte && byte <= b'7'
}

// Whether a byte is `0` to `9`.
fn is_digit(byte: u8) -> bool
    ensures { result ≡ is_digit byte }
{
    b'0' <= byte && byte <= b'9'
}

// Whether each byte is `0` to `7`.
fn are_octal_digits(word: &[u8]) -> bool
    ensures { result ≡ list_all is_octal_digit word.now }
{
    word.iter().all(|byte| is_octal_digit(*byte))
}

// Whether each byte is `0` to `9`.
fn are_digits(word: &[u8]) -> bool
    ensures { result ≡ list_all is_digit word.now }
{
    word.iter().all(|byte| is_digit(*byte))
}

// Whether a word is a mode as a number.
pub(crate) fn is_octal_mode(word: &[u8]) -> bool
    ensures { result ≡ is_octal_mode word.now }
{
    has_at_most(4, word) && are_octal_digits(word)
}

// Whether a byte is one of the letters that say whose permissions are meant.
fn is_who(byte: u8) -> bool
    ensures { result ≡ is_who byte }
{
    has_letter(b"ugoa", byte)
}

// Whether a byte is an operator.
fn is_operator(byte: u8) -> bool
    ensures { result ≡ is_operator byte }
{
    has_letter(b"+-=", byte)
}

// Whether a byte is an operator, or one of the letters of permissions.
fn is_of_action(byte: u8) -> bool
    ensures { result ≡ is_of_action byte }
{
    has_letter(b"+-=rwxXst", byte)
}

// Whether each byte is an operator, or one of the letters of permissions.
fn are_of_actions(bytes: &[u8]) -> bool
    ensures { result ≡ list_all is_of_action bytes.now }
{
    bytes.iter().all(|byte| is_of_action(*byte))
}

// A clause of a mode without the letters in front that say whose permissions are meant.
fn behind_who(clause: &[u8]) -> &[u8]
    ensures { result.now ≡ behind_who clause.now }
{
    let mut left = clause;
    while let [byte, rest @ ..] = left {
        if !is_who(*byte) {
            return left;
        }
        left = rest;
    }
    left
}

// Whether bytes are one or more actions of a clause.
fn are_actions(bytes: &[u8]) -> bool
    ensures { result ≡ are_actions bytes.now }
{
    match bytes {
        [] => false,
        [first, rest @ ..] => is_operator(*first) && are_of_actions(rest),
    }
}

// Whether bytes are a clause of a mode.
fn is_mode_clause(clause: &[u8]) -> bool
    ensures { result ≡ is_mode_clause clause.now }
{
    are_actions(behind_who(clause))
}

// Whether a word is a mode as clauses.
fn is_symbolic_mode(word: &[u8]) -> bool
    ensures { result ≡ is_symbolic_mode word.now }
{
    word.split(|byte| *byte == b',')
        .all(|clause| is_mode_clause(clause))
}

// Whether a word is a mode.
fn is_mode(word: &[u8]) -> bool
    ensures { result ≡ is_mode word.now }
{
    is_octal_mode(word) || is_symbolic_mode(word)
}

// Whether bytes are a number of one to nine digits.
fn is_number(bytes: &[u8]) -> bool
    ensures { result ≡ (has_at_most 9 bytes.now && list_all is_digit bytes.now) }
{
    has_at_most(9, bytes) && are_digits(bytes)
}

// Whether bytes are a user or a group.
fn is_account(bytes: &[u8]) -> bool
    ensures { result ≡ is_account bytes.now }
{
    bytes == b"root".as_slice() || is_number(bytes)
}

// Whether what stands between the colons of a word are users or groups.
fn are_accounts(word: &[u8]) -> bool
    ensures { result ≡ list_all is_account (slice_split is_colon word.now) }
{
    word.split(|byte| *byte == b':')
        .all(|part| is_account(part))
}

// How many parts the colons of a word cut it into.
fn count_parts(word: &[u8]) -> usize
    ensures { result ≡ length (slice_split is_colon word.now) }
{
    word.split(|byte| *byte == b':').count()
}

// Whether a word is an owner.
fn is_owner(word: &[u8]) -> bool
    ensures { result ≡ is_owner word.now }
{
    count_parts(word) <= 2 && are_accounts(word)
}

// Whether a word says what is set.
pub(crate) fn says(setting: Setting, word: &[u8]) -> bool
    ensures { result ≡ says setting word.now }
{
    match setting {
        Setting::Mode => is_mode(word),
        Setting::Owner => is_owner(word),
        Setting::Group => is_account(word),
    }
}
