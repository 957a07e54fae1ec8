ghost use Rattle.std.specs.Prelude.{◌≡◌};
ghost use Rattle.checker_calls.specs.Delivery.{LineEnds, Delivers, NoMemoryEnds};

use checker_io::{Sink, SinkFault, write_text};
use script_names::Bytes;

// The status of a call that was refused.
const REFUSED: u8 = 3;

// The status of a call of which a read failed.
const READ_FAILED: u8 = 4;

// The status of a call of which a write failed.
const WRITE_FAILED: u8 = 5;

/// The status of a call for which memory was missing.
pub const OUT_OF_MEMORY: u8 = 6;

/// What a call of the program comes to: a text for standard output with its status, a line for standard error, or want
/// of memory.
#[derive(Drop)]
pub enum Reply {
    Text { text: Bytes, status: u8 },
    Refused { line: Bytes },
    ReadFailed { line: Bytes },
    NoMemory,
}

// Writes a line, and answers the status that is left.
fn write_line<E: Sink>(err: &mut E, line: &[u8], status: u8) -> u8
    ensures { LineEnds (E.state err.old) (E.state err.new) line.now status result }
{
    match write_text(err, line) {
        Ok(()) => status,
        Err(SinkFault::Failed) => WRITE_FAILED,
        Err(SinkFault::Memory) => OUT_OF_MEMORY,
    }
}

// Says that memory is missing, where it can.
fn write_no_memory<E: Sink>(err: &mut E) -> u8
    ensures { NoMemoryEnds (E.state err.old) (E.state err.new) result }
{
    let _ = write_text(err, b"colis: out of memory\n");
    OUT_OF_MEMORY
}

/// Writes the reply to standard output or standard error, and answers the exit status.
pub fn deliver<O: Sink, E: Sink>(reply: &Reply, out: &mut O, err: &mut E) -> u8
    ensures { Delivers reply.now (O.state out.old) (O.state out.new) (E.state err.old) (E.state err.new) result }
{
    match reply {
        Reply::Text { text, status } => match write_text(out, text.as_slice()) {
            Ok(()) => *status,
            Err(SinkFault::Failed) => write_line(err, b"colis: write failed\n", WRITE_FAILED),
            Err(SinkFault::Memory) => write_no_memory(err),
        },
        Reply::Refused { line } => write_line(err, line.as_slice(), REFUSED),
        Reply::ReadFailed { line } => write_line(err, line.as_slice(), READ_FAILED),
        Reply::NoMemory => write_no_memory(err),
    }
}
