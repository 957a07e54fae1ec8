ghost use Rattle.std.specs.Prelude.{◌≡◌, ◌&&◌, true, false};

use script_names::{Bytes, Copied, Memory};
use std::alloc::Global;
use std::marker::Model;

/// A piece of an expanded word: its bytes, and where they come from. Bytes that were quoted stay as they are; bytes of
/// an expansion that was not quoted are split (POSIX.1-2017, XCU 2.6.5 Field Splitting); a piece with neither mark is
/// plain text of the script. No piece has both marks.
#[derive(Debug, Drop)]
pub struct Piece {
    pub text: Bytes,
    pub split: bool,
    pub quoted: bool,
}

impl Model for Piece {
    ghost use Rattle.std.specs.Prelude.{◌≡◌, ◌&&◌, false};
    ghost use Rattle.shell_words.specs.Pieces.{PieceParts};

    ghost Value = { PieceParts };

    ghost view = { λ p. record { text = p.text; split = p.split; quoted = p.quoted } };

    ghost invariant = { λ p. (p.split && p.quoted) ≡ false };
}

impl Piece {
    /// Plain text of the script.
    pub fn plain(text: Bytes) -> Piece
        ensures { result ≡ record { text = text; split = false; quoted = false } }
    {
        Piece {
            text,
            split: false,
            quoted: false,
        }
    }

    /// Quoted text.
    pub fn quoted(text: Bytes) -> Piece
        ensures { result ≡ record { text = text; split = false; quoted = true } }
    {
        Piece {
            text,
            split: false,
            quoted: true,
        }
    }

    /// What an expansion gave that was not quoted.
    pub fn split(text: Bytes) -> Piece
        ensures { result ≡ record { text = text; split = true; quoted = false } }
    {
        Piece {
            text,
            split: true,
            quoted: false,
        }
    }

    /// Says of the piece that it has at most one mark.
    pub fn is_sound(&self)
        ensures { (self.now.split && self.now.quoted) ≡ false }
    {
        let _text = &self.text;
    }
}

impl Copied for Piece {
    fn copy(&self, alloc: Global) -> Result<Piece, Memory> {
        let text = self.text.copy(alloc)?;
        Ok(Piece {
            text,
            split: self.split,
            quoted: self.quoted,
        })
    }
}
