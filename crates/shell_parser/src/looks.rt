//! What stands at a place, and how a word looks.

ghost use Rattle.std.specs.Prelude.{◌≡◌, ◌≤◌, length, drop, nat_eq, if◌then◌else◌, Some as Found};
ghost use Rattle.std.specs.List.{list_all, list_any};
ghost use Rattle.std.specs.Str.{bytes_eq};
ghost use Rattle.script_names.specs.Ascii.{equals};
ghost use Rattle.script_names.specs.ShellNames as names;
ghost use Rattle.script_names.specs.ShellNames.{is_shell_name};
ghost use Rattle.shell_grammar.specs.Look.{look as look_of, kind_look as kind_look_of, word_look as word_look_of};
ghost use Rattle.shell_grammar.specs.Look.{seen_look, whole_look as whole_look_of, begun_look as begun_look_of};
ghost use Rattle.shell_grammar.specs.Look.{begins_assignment, reserved as reserved_of};
ghost use Rattle.shell_lexer.specs.declared.token.TokenKind.{out-TokenKind};
ghost use Rattle.shell_lexer.specs.declared.token.RawPart.{out-RawPart};

use crate::assignments::up_to_equals;
use shell_grammar::{Look, Reserved};
use shell_lexer::{RawPart, Token, TokenKind};

/// How the token at a place looks, or that the tokens have ended there.
pub fn look(ts: &[Token], at: usize) -> Look
    requires { at ≤ length ts.now }
    ensures { result ≡ look_of (drop at ts.now) }
{
    match ts.get(at) {
        Some(token) => kind_look(&token.kind),
        None => Look::AtEnd,
    }
}

fn kind_look(kind: &TokenKind) -> Look
    ensures { result ≡ kind_look_of (out-TokenKind kind.now) }
{
    match kind {
        TokenKind::Word(raws) => word_look(raws.as_slice()),
        TokenKind::Newline => Look::Newline,
        TokenKind::Semi => Look::Semi,
        TokenKind::DoubleSemi => Look::DoubleSemi,
        TokenKind::AndAnd => Look::AndAnd,
        TokenKind::OrOr => Look::OrOr,
        TokenKind::Bar => Look::Bar,
        TokenKind::LeftParen => Look::LeftParen,
        TokenKind::RightParen => Look::RightParen,
        TokenKind::Redirect(which) => Look::Redirection(*which),
    }
}

fn word_look(raws: &[RawPart]) -> Look
    ensures { result ≡ word_look_of raws.now }
{
    match raws.get(0) {
        Some(first) => first_look(first, raws.len() == 1),
        None => Look::Other,
    }
}

/// A word by its first part, and whether that is all of it.
fn first_look(first: &RawPart, alone: bool) -> Look
    ensures { result ≡ seen_look (out-RawPart first.now) alone }
{
    match first {
        RawPart::Plain(text) => {
            if alone {
                return whole_look(text.as_slice());
            }
            begun_look(text.as_slice())
        }
        RawPart::Quoted(_) => Look::Other,
        RawPart::Param { .. } => Look::Other,
        RawPart::All => Look::Other,
        RawPart::Run { .. } => Look::Other,
    }
}

fn whole_look(text: &[u8]) -> Look
    ensures { result ≡ whole_look_of text.now (reserved_of text.now) }
{
    match reserved(text) {
        Some(which) => Look::Keyword(which),
        None => {
            if is_name(text) {
                return Look::Name;
            }
            begun_look(text)
        }
    }
}

fn begun_look(text: &[u8]) -> Look
    ensures { result ≡ begun_look_of text.now }
{
    if assigns(text) {
        return Look::Assignment;
    }
    Look::Other
}

/// Whether a name and a `=` stand at its beginning.
fn assigns(text: &[u8]) -> bool
    ensures { result ≡ begins_assignment text.now }
{
    has_equals(text) && is_name(up_to_equals(text))
}

fn has_equals(text: &[u8]) -> bool
    ensures { result ≡ list_any (λ b. nat_eq b equals) text.now }
{
    text.iter().any(|byte| *byte == b'=')
}

fn is_name(text: &[u8]) -> bool
    ensures { result ≡ is_shell_name text.now }
{
    match text {
        [] => false,
        [first, rest @ ..] => is_letter(*first) && are_name_bytes(rest),
    }
}

fn are_name_bytes(text: &[u8]) -> bool
    ensures { result ≡ list_all names.is_name_byte text.now }
{
    text.iter().all(|byte| is_name_byte(*byte))
}

fn is_name_byte(byte: u8) -> bool
    ensures { result ≡ names.is_name_byte byte }
{
    is_letter(byte) || (48 <= byte && byte <= 57)
}

fn is_letter(byte: u8) -> bool
    ensures { result ≡ names.is_letter byte }
{
    (97 <= byte && byte <= 122) || (65 <= byte && byte <= 90) || byte == 95
}

/// Which reserved word it is.
fn reserved(text: &[u8]) -> Option<Reserved>
    ensures { result ≡ reserved_of text.now }
{
    let found = or_word(text, b"esac", Reserved::Esac, None);
    let found = or_word(text, b"case", Reserved::Case, found);
    let found = or_word(text, b"until", Reserved::Until, found);
    let found = or_word(text, b"while", Reserved::While, found);
    let found = or_word(text, b"done", Reserved::Done, found);
    let found = or_word(text, b"do", Reserved::Do, found);
    let found = or_word(text, b"in", Reserved::In, found);
    let found = or_word(text, b"for", Reserved::For, found);
    let found = or_word(text, b"fi", Reserved::Fi, found);
    let found = or_word(text, b"else", Reserved::Else, found);
    let found = or_word(text, b"elif", Reserved::Elif, found);
    let found = or_word(text, b"then", Reserved::Then, found);
    let found = or_word(text, b"if", Reserved::If, found);
    let found = or_word(text, b"!", Reserved::Bang, found);
    let found = or_word(text, b"}", Reserved::Close, found);
    or_word(text, b"{", Reserved::Open, found)
}

/// The word that is spelled so, if the text spells it, else the other.
fn or_word(
    text: &[u8],
    spelling: &[u8],
    which: Reserved,
    other: Option<Reserved>,
) -> Option<Reserved>
    ensures { result ≡ (if bytes_eq text.now spelling.now then Found which else other) }
{
    if text == spelling {
        return Some(which);
    }
    other
}
