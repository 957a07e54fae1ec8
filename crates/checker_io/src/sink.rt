ghost use Rattle.checker_io.specs.Sink.{SinkState, WriteTakes, WriteCause};

use script_names::{Copied, Memory};
use std::alloc::Global;

/// Why a piece was not taken whole.
#[derive(Clone, Copy, Debug, PartialEq, Eq)]
pub enum SinkFault {
    /// The piece could not be written; its first bytes were taken, perhaps none.
    Failed,
    /// Want of memory: nothing of the piece was taken.
    Memory,
}

impl Copied for SinkFault {
    fn copy(&self, _alloc: Global) -> Result<SinkFault, Memory> {
        Ok(*self)
    }
}

/// Where bytes are written.
pub trait Sink {
    // The bytes that it took, where it tells that, and its count of faults.
    ghost state: { Self → SinkState };

    /// Takes the whole piece, or after a fault the first bytes of it.
    fn write(&mut self, piece: &[u8]) -> Result<(), SinkFault>
        ensures takes { WriteTakes (state self.old).taken (state self.new).taken piece.now result }
        ensures cause { WriteCause (state self.old).faults (state self.new).faults result };
}
