ghost use Rattle.std.specs.Prelude.{◌≡◌, ◌++◌, map, IfOk, OnOk};
ghost use Rattle.shell_words.specs.Words.{word, letters_of, marked, is_blank, is_unquoted};
ghost use Rattle.shell_words.specs.Patterns.{pattern_letters};

use crate::piece::Piece;
use script_names::{List, Memory};
use std::alloc::Global;

/// A letter of a word: a byte with the mark of its piece, or the place where a quoted piece begins.
#[derive(Clone, Copy)]
pub enum Letter {
    Quote,
    Quoted(u8),
    Plain(u8),
    Split(u8),
}

// The letters of a word, in order.
pub fn letters(alloc: Global, pieces: &[Piece]) -> Result<List<Letter>, Memory>
    ensures { IfOk result (λ letters. letters ≡ word pieces.now) }
{
    let mut out = List::new(alloc);
    for piece in pieces {
        add_piece(&mut out, piece)?;
    }
    Ok(out)
}

// The letters of a pattern, in order.
pub fn pattern_letters(alloc: Global, pieces: &[Piece]) -> Result<List<Letter>, Memory>
    ensures { IfOk result (λ letters. letters ≡ pattern_letters pieces.now) }
{
    let mut out = List::new(alloc);
    for piece in pieces {
        add_bytes(&mut out, piece)?;
    }
    Ok(out)
}

// The letters of a piece, behind those that are there.
fn add_piece(out: &mut List<Letter>, piece: &Piece) -> Result<(), Memory>
    ensures { OnOk result (out.new ≡ out.old ++ letters_of piece.now) }
{
    if piece.quoted {
        out.add(Letter::Quote)?;
    }
    add_bytes(out, piece)
}

// The bytes of a piece with their mark, behind the letters that are there.
fn add_bytes(out: &mut List<Letter>, piece: &Piece) -> Result<(), Memory>
    ensures { OnOk result (out.new ≡ out.old ++ map (marked piece.now.quoted piece.now.split) piece.now.text) }
{
    let quoted = piece.quoted;
    let split = piece.split;
    for byte in piece.text.as_slice() {
        out.add(marked(quoted, split, *byte))?;
    }
    Ok(())
}

// A byte of a piece with the piece's mark.
fn marked(quoted: bool, split: bool, byte: u8) -> Letter
    ensures { result ≡ marked quoted split byte }
{
    if quoted {
        Letter::Quoted(byte)
    } else if split {
        Letter::Split(byte)
    } else {
        Letter::Plain(byte)
    }
}

// Whether the letter is a space, tab or newline of a split piece.
pub fn is_blank(letter: &Letter) -> bool
    ensures { result ≡ is_blank letter.now }
{
    match letter {
        Letter::Quote | Letter::Quoted(_) | Letter::Plain(_) => false,
        Letter::Split(b) => *b == b' ' || *b == b'\t' || *b == b'\n',
    }
}

// Whether the letter is this byte, and not quoted.
pub fn is_unquoted(letter: &Letter, byte: u8) -> bool
    ensures { result ≡ is_unquoted byte letter.now }
{
    match letter {
        Letter::Quote | Letter::Quoted(_) => false,
        Letter::Plain(b) | Letter::Split(b) => *b == byte,
    }
}
