ghost use Rattle.std.specs.Prelude.{◌≡◌, map};
ghost use Rattle.shell_rules.specs.Planned.{spelled_by};
ghost use Rattle.colis_meaning.specs.Meaning.{co_str, co_piece, co_fields, all_static, are_static};

use colis_syntax::{Fields, Str, StrPiece};
use shell_rules::Spelled;

// Whether a string stands for its own bytes.
fn is_literal(string: &Str) -> bool
    ensures { result ≡ (co_str string.now).static }
{
    match string {
        Str::Lit(_) => true,
        Str::Var(_) => false,
        Str::Arg(_) => false,
        Str::Count => false,
        Str::Or(_, _) => false,
        Str::Output(_) => false,
        Str::Join(_) => false,
    }
}

// Whether a piece of a word stands for its own bytes, plain or quoted.
fn is_static_piece(piece: &StrPiece) -> bool
    ensures { result ≡ (co_piece piece.now).static }
{
    match piece {
        StrPiece::Plain(string) => is_literal(string),
        StrPiece::Quoted(string) => is_literal(string),
        StrPiece::Split(_) => false,
    }
}

// Whether all pieces stand for their own bytes.
fn all_static(pieces: &[StrPiece]) -> bool
    ensures { result ≡ all_static (map co_piece pieces.now) }
{
    for piece in pieces {
        if !is_static_piece(piece) {
            return false;
        }
    }
    true
}

// Whether a word of a command is spelled out.
fn is_static(word: &Fields) -> bool
    ensures { result ≡ (co_fields word.now).static }
{
    match word {
        Fields::Word(pieces) => all_static(pieces.as_slice()),
        Fields::Args => false,
    }
}

/// Whether the first two words of a command are spelled out.
pub(crate) fn spelled_by(words: &[Fields]) -> Spelled
    ensures { result ≡ spelled_by (are_static (map co_fields words.now)) }
{
    match words {
        [] => Spelled {
            name: false,
            operand: false,
        },
        [name] => Spelled {
            name: is_static(name),
            operand: false,
        },
        [name, operand, ..] => Spelled {
            name: is_static(name),
            operand: is_static(operand),
        },
    }
}
