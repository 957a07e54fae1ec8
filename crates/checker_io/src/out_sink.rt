ghost use Rattle.std.specs.Prelude.{◌≡◌, ◌≢◌, Err, OnErr};
ghost use Rattle.checker_io.specs.Faults.{one_more};
ghost use Rattle.checker_io.specs.OutSink.{writer_of, faults_of, out_state, TakesPiece};
ghost use Rattle.checker_io.specs.Sink.{WriteTakes, WriteCause};
ghost use Rattle.checker_io.specs.declared.sink.SinkFault.TheVariants.{Memory};

use crate::sink::{Sink, SinkFault};
use std::io::Write;

/// A sink over a writer of std. It tells nothing of what it took.
#[derive(Drop)]
pub struct OutSink<W: Write + Drop> {
    inner: W,
    faults: u64,
}

impl<W: Write + Drop> OutSink<W> {
    /// A sink over this writer, of which no write failed yet.
    pub fn new(inner: W) -> OutSink<W>
        ensures writer { writer_of result ≡ inner }
        ensures faults { faults_of result ≡ 0 }
    {
        OutSink { inner, faults: 0 }
    }
}

// Writes all of a piece, or answers that it failed. A writer that takes nothing of the rest has failed.
fn write_piece<W: Write>(inner: &mut W, piece: &[u8]) -> bool
    ensures { TakesPiece (W.contents inner.old) (W.contents inner.new) piece.now result }
{
    let mut done = 0;
    while done < piece.len() {
        match inner.write(&piece[done..]) {
            Ok(0) | Err(_) => return false,
            Ok(count) => done += count,
        }
    }
    inner.flush().is_ok()
}

impl<W: Write + Drop> Sink for OutSink<W> {
    ghost state = { out_state };

    fn write(&mut self, piece: &[u8]) -> Result<(), SinkFault>
        ensures cause { WriteCause (faults_of self.old) (faults_of self.new) result }
        ensures writer { WriteTakes (W.contents (writer_of self.old)) (W.contents (writer_of self.new))
            piece.now result }
        ensures never { result ≢ Err Memory }
        ensures counts { OnErr result (faults_of self.new ≡ one_more (faults_of self.old)) }
    {
        if write_piece(&mut self.inner, piece) {
            Ok(())
        } else {
            self.faults = self.faults.saturating_add(1);
            Err(SinkFault::Failed)
        }
    }
}
