ghost use Rattle.std.specs.Prelude.{◌≡◌, ◌≤◌, ◌++◌, length, IfOk};
ghost use Rattle.std.specs.Option.{is_some};
ghost use Rattle.script_names.specs.CommandNames.{is_one_of};
ghost use Rattle.script_names.specs.ShellNames.{is_digit, is_letter, is_name_byte};
ghost use Rattle.script_places.specs.CommandEnds.{opened};
ghost use Rattle.script_places.specs.WordPlaces.{at_arrow, at_gap, at_parting, at_rest, at_word, begins_word, ends_word, first_word, first_words};
ghost use Rattle.script_places.specs.WordPlaces.{goes_on, has_value, is_assignment, is_broken, is_comment, is_named, is_outside};
ghost use Rattle.script_places.specs.WordPlaces.{is_behind_paren, is_parting, is_redirection, is_word, is_unsure, named_byte, opening_words, opens, parts};
ghost use Rattle.script_places.specs.WordPlaces.{role_behind, within_command, word_length};

use crate::command_ends::{Within, is_arrow, is_arrow_place, is_end, is_text, opened, scan};
use script_names::{Bytes, Memory};
use std::alloc::Global;

// What a scanner of a script stands at.
#[derive(Clone, Copy, Debug, PartialEq, Eq)]
pub enum Role {
    // Where the next word can be the first of a command.
    Next,
    // The same, directly behind a parenthesis that was closed.
    Closed,
    // Where the next word is the file of a redirection, and a command can begin behind it.
    File,
    // In the first word of a command.
    Name,
    // In another word of a command, or behind one.
    Other,
    // Behind a word of which a joined line is a part: which words are which is not looked at.
    Unsure,
}

/// A script with a newline in place of each byte that is in no word with which a command can begin: such words stand
/// behind operators that part commands, behind parentheses and reserved words, and behind assignments and redirections
/// there (POSIX.1-2017, XCU 2.9 Shell Commands, 2.10.2). Bytes that quote others are left.
pub fn first_words(alloc: Global, script: &[u8]) -> Result<Bytes, Memory>
    ensures { IfOk result (λ words. words ≡ first_words script.now) }
{
    let mut words = Bytes::new(alloc);
    let mut around = Vec::new(alloc);
    let mut within = Within::Gap;
    let mut role = Role::Next;
    let mut left = script;
    while let [byte, rest @ ..] = left {
        let next = scan(&mut around, within, *byte)?;
        role = role_behind(role, within, next, left);
        words.push(named_byte(role, *byte))?;
        within = next;
        left = rest;
    }
    Ok(words)
}

// What the scanner stands at behind the first byte of a text.
fn role_behind(role: Role, within: Within, next: Within, text: &[u8]) -> Role
    ensures { result ≡ role_behind role within next text.now }
{
    match text {
        [] => role,
        [byte, ..] => {
            if is_unsure(role) || is_broken(within, *byte) {
                return Role::Unsure;
            }
            if parts(within, *byte) {
                return at_parting(*byte);
            }
            within_command(role, within, next, text)
        }
    }
}

// The same, where the byte parts no commands and breaks no word.
fn within_command(role: Role, within: Within, next: Within, text: &[u8]) -> Role
    ensures { result ≡ within_command role within next text.now }
{
    if begins_word(role, within, next) {
        return at_word(role, text);
    }
    if is_arrow_place(next) {
        return at_arrow(role);
    }
    if is_outside(next) {
        return at_gap(role);
    }
    at_rest(role)
}

// Behind a further byte of a word or of a comment.
fn at_rest(role: Role) -> Role
    ensures { result ≡ at_rest role }
{
    if is_behind_paren(role) {
        Role::Next
    } else {
        role
    }
}

// Behind a byte that parts commands.
fn at_parting(byte: u8) -> Role
    ensures { result ≡ at_parting byte }
{
    if byte == b')' {
        Role::Closed
    } else {
        Role::Next
    }
}

// At the begin of a word.
fn at_word(role: Role, text: &[u8]) -> Role
    ensures { result ≡ at_word role text.now }
{
    match role {
        Role::Next | Role::Closed => {
            if goes_on(text) {
                Role::Next
            } else {
                Role::Name
            }
        }
        Role::File => Role::Next,
        Role::Name => Role::Other,
        Role::Other => { if opens(text) { Role::Next } else { Role::Other } }
        Role::Unsure => Role::Unsure,
    }
}

// Behind the arrow of a redirection.
fn at_arrow(role: Role) -> Role
    ensures { result ≡ at_arrow role }
{
    match role {
        Role::Next | Role::Closed | Role::File => Role::File,
        Role::Name | Role::Other => Role::Other,
        Role::Unsure => Role::Unsure,
    }
}

// Behind a blank.
fn at_gap(role: Role) -> Role
    ensures { result ≡ at_gap role }
{
    match role {
        Role::Next | Role::Closed => Role::Next,
        Role::File => Role::File,
        Role::Name | Role::Other => Role::Other,
        Role::Unsure => Role::Unsure,
    }
}

// Whether it is not looked at which words are which.
fn is_unsure(role: Role) -> bool
    ensures { result ≡ is_unsure role }
{
    match role {
        Role::Unsure => true,
        Role::Next | Role::Closed | Role::File => false,
        Role::Name | Role::Other => false,
    }
}

// Whether a byte may be one of the first word of a command.
fn is_named(role: Role) -> bool
    ensures { result ≡ is_named role }
{
    match role {
        Role::Name | Role::Unsure => true,
        Role::Next | Role::Closed | Role::File | Role::Other => false,
    }
}

// That byte, or a newline in place of any other.
fn named_byte(role: Role, byte: u8) -> u8
    ensures { result ≡ named_byte role byte }
{
    if is_named(role) { byte } else { b'\n' }
}

// Whether a place is outside words and comments.
fn is_outside(within: Within) -> bool
    ensures { result ≡ is_outside within }
{
    match within {
        Within::Gap | Within::Arrow | Within::GapEscape | Within::ArrowEscape => true,
        Within::Word | Within::WordDollar | Within::WordEscape | Within::Comment => false,
        Within::Single | Within::Double | Within::DoubleEscape | Within::DoubleDollar => false,
        Within::WordBrace | Within::DoubleBrace => false,
    }
}

// Whether a place is in a comment.
fn is_comment(within: Within) -> bool
    ensures { result ≡ is_comment within }
{
    match within {
        Within::Comment => true,
        Within::Gap | Within::Arrow | Within::GapEscape | Within::ArrowEscape => false,
        Within::Word | Within::WordDollar | Within::WordEscape => false,
        Within::Single | Within::Double | Within::DoubleEscape | Within::DoubleDollar => false,
        Within::WordBrace | Within::DoubleBrace => false,
    }
}

// Whether a place is in a word, outside quotes.
fn is_word(within: Within) -> bool
    ensures { result ≡ is_word within }
{
    match within {
        Within::Word => true,
        Within::Gap | Within::Arrow | Within::GapEscape | Within::ArrowEscape => false,
        Within::Comment | Within::WordDollar | Within::WordEscape => false,
        Within::Single | Within::Double | Within::DoubleEscape | Within::DoubleDollar => false,
        Within::WordBrace | Within::DoubleBrace => false,
    }
}

// Whether the scanner is directly behind a parenthesis that was closed.
fn is_behind_paren(role: Role) -> bool
    ensures { result ≡ is_behind_paren role }
{
    match role {
        Role::Closed => true,
        Role::Next | Role::File | Role::Name | Role::Other | Role::Unsure => false,
    }
}

// Whether a word begins between two places.
fn begins_word(role: Role, within: Within, next: Within) -> bool
    ensures { result ≡ begins_word role within next }
{
    let outside = is_outside(within) || is_behind_paren(role) && is_word(within);
    outside && !is_outside(next) && !is_comment(next)
}

// The byte of an operator that parts commands.
fn is_parting(byte: u8) -> bool
    ensures { result ≡ is_parting byte }
{
    is_end(byte) || (byte == b'&' || byte == b'(')
}

// Whether a byte opens a substitution or a subshell.
fn is_opening(within: Within, byte: u8) -> bool
    ensures { result ≡ is_some (opened within byte) }
{
    opened(within, byte).is_some()
}

// Whether a byte parts commands.
fn parts(within: Within, byte: u8) -> bool
    ensures { result ≡ parts within byte }
{
    let operator = is_text(within) && !is_arrow_place(within) && is_parting(byte);
    is_opening(within, byte) || operator || is_comment(within) && byte == b'\n'
}

// Whether a word goes on in the next line.
fn is_broken(within: Within, byte: u8) -> bool
    ensures { result ≡ is_broken within byte }
{
    match within {
        Within::WordEscape => byte == b'\n',
        Within::Gap | Within::Arrow | Within::GapEscape | Within::ArrowEscape => false,
        Within::Word | Within::WordDollar | Within::Comment => false,
        Within::Single | Within::Double | Within::DoubleEscape | Within::DoubleDollar => false,
        Within::WordBrace | Within::DoubleBrace => false,
    }
}

/// Whether a byte ends a word where it stands in no quotes: a blank, a newline, or one that begins an operator.
pub fn ends_word(byte: u8) -> bool
    ensures { result ≡ ends_word byte }
{
    let blank = byte == b' ' || (byte == b'\t' || byte == b'\n');
    let list = byte == b';' || (byte == b'&' || byte == b'|');
    let other = (byte == b'<' || byte == b'>') || (byte == b'(' || byte == b')');
    blank || (list || other)
}

// How many bytes stand before the first that ends a word.
fn word_length(text: &[u8]) -> usize
    ensures length { result ≡ word_length text.now }
    ensures within { result ≤ length text.now }
{
    let mut found = 0usize;
    let mut left = text;
    while let [byte, rest @ ..] = left {
        if ends_word(*byte) {
            return found;
        }
        found += 1;
        left = rest;
    }
    found
}

/// What stands in a text before the first blank, newline or byte that begins an operator.
pub fn first_word(text: &[u8]) -> &[u8]
    ensures { result.now ≡ first_word text.now }
{
    &text[..word_length(text)]
}

// Whether a word is a reserved one behind which a command can begin, or which ends one that others can follow.
fn is_opening_word(word: &[u8]) -> bool
    ensures { result ≡ is_one_of word.now opening_words }
{
    word == b"if".as_slice()
        || word == b"then".as_slice()
        || word == b"elif".as_slice()
        || word == b"else".as_slice()
        || word == b"fi".as_slice()
        || word == b"while".as_slice()
        || word == b"until".as_slice()
        || word == b"do".as_slice()
        || word == b"done".as_slice()
        || word == b"esac".as_slice()
        || word == b"{".as_slice()
        || word == b"}".as_slice()
        || word == b"!".as_slice()
}

// Whether a text begins with such a word.
fn opens(text: &[u8]) -> bool
    ensures { result ≡ opens text.now }
{
    is_opening_word(first_word(text))
}

// A letter or an underscore.
fn is_letter(byte: u8) -> bool
    ensures { result ≡ is_letter byte }
{
    let small = b'a' <= byte && byte <= b'z';
    let large = b'A' <= byte && byte <= b'Z';
    small || large || byte == b'_'
}

// A digit.
fn is_digit(byte: u8) -> bool
    ensures { result ≡ is_digit byte }
{
    b'0' <= byte && byte <= b'9'
}

// A letter, an underscore or a digit.
fn is_name_byte(byte: u8) -> bool
    ensures { result ≡ is_name_byte byte }
{
    is_letter(byte) || is_digit(byte)
}

// Whether a text begins with bytes of a name, and an equals sign behind them.
fn has_value(text: &[u8]) -> bool
    ensures { result ≡ has_value text.now }
{
    let mut left = text;
    while let [byte, rest @ ..] = left {
        if *byte == b'=' {
            return true;
        }
        if !is_name_byte(*byte) {
            return false;
        }
        left = rest;
    }
    false
}

// Whether a text begins with an assignment.
fn is_assignment(text: &[u8]) -> bool
    ensures { result ≡ is_assignment text.now }
{
    match text {
        [] => false,
        [byte, rest @ ..] => is_letter(*byte) && has_value(rest),
    }
}

// Whether a text begins with a redirection.
fn is_redirection(text: &[u8]) -> bool
    ensures { result ≡ is_redirection text.now }
{
    let mut left = text;
    while let [byte, rest @ ..] = left {
        if is_arrow(*byte) {
            return true;
        }
        if !is_digit(*byte) {
            return false;
        }
        left = rest;
    }
    false
}

// Whether a text begins with a word behind which a command can begin.
fn goes_on(text: &[u8]) -> bool
    ensures { result ≡ goes_on text.now }
{
    opens(text) || (is_assignment(text) || is_redirection(text))
}
