ghost use Rattle.std.specs.Prelude.{◌≡◌, ◌<◌, ◌≤◌, length, take, drop};
ghost use Rattle.checker_io.specs.Pieces.{TakesAll};
ghost use Rattle.checker_io.specs.Sink.{WriteCause};

use crate::sink::{Sink, SinkFault};

/// How many bytes are written at once, but for the last ones of a text.
pub const PIECE: usize = 65_536;

// The piece that begins at a place of a text: 65,536 bytes, or the rest where that is shorter.
fn next_piece(text: &[u8], done: usize) -> &[u8]
    requires { done ≤ length text.now }
    ensures { result.now ≡ take PIECE (drop done text.now) }
{
    let size = PIECE.min(text.len() - done);
    &text[done..done + size]
}

/// Writes a text in pieces of 65,536 bytes and a last shorter one, up to the first fault.
pub fn write_text<K: Sink>(sink: &mut K, text: &[u8]) -> Result<(), SinkFault>
    ensures takes { TakesAll (K.state sink.old).taken (K.state sink.new).taken text.now result }
    ensures cause { WriteCause (K.state sink.old).faults (K.state sink.new).faults result }
{
    let mut done = 0;
    while done < text.len() {
        let piece = next_piece(text, done);
        match sink.write(piece) {
            Ok(()) => {}
            Err(fault) => return Err(fault),
        }
        done += piece.len();
    }
    Ok(())
}
