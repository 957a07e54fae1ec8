ghost use Rattle.std.specs.Prelude.{◌≡◌, ◌++◌, [], ◌∷◌, Some, OnOk, OnErr};
ghost use Rattle.checker_io.specs.MemSink.{MemBytes, MemWrites, taken_at, sink_state};
ghost use Rattle.checker_io.specs.Sink.{WriteTakes, WriteCause};

use crate::sink::{Sink, SinkFault};
use script_names::Memory;
use std::alloc::Global;
use std::marker::Model;

/// A write that is to fail: its number, counted from 1, and how many bytes it takes before.
#[derive(Clone, Copy)]
pub struct Failing {
    number: u64,
    taken: u32,
}

// How many bytes the write of that number takes before it fails, if it is to fail.
fn taken_at(failing: &[Failing], number: u64) -> Option<u32>
    ensures { result ≡ taken_at failing.now number }
{
    match failing.iter().find(|fault| fault.number == number) {
        Some(fault) => Some(fault.taken),
        None => None,
    }
}

/// A sink in memory, which tells all. Its writes can be made to fail, by their number.
#[derive(Drop)]
pub struct MemSink {
    bytes: Vec<u8>,
    failing: Vec<Failing>,
    writes: u64,
    faults: u64,
}

impl Model for MemSink {
    ghost use Rattle.checker_io.specs.MemSink.{MemBytes};

    ghost Value = { MemBytes };

    ghost view = { λ s. record {
      bytes = s.bytes.items;
      failing = s.failing.items;
      writes = s.writes;
      faults = s.faults;
    } };
}

impl MemSink {
    /// A sink that took nothing, none of whose writes is to fail.
    pub fn new(alloc: Global) -> MemSink
        ensures { result ≡ record { bytes = []; failing = []; writes = 0; faults = 0 } }
    {
        MemSink {
            bytes: Vec::new(alloc),
            failing: Vec::new(alloc),
            writes: 0,
            faults: 0,
        }
    }

    /// The write of that number, counted from 1, is to fail once it took that many bytes, or the whole piece where
    /// that has fewer. The first call for a number counts. For want of memory the sink is as before.
    pub fn fail_at(&mut self, n: u32, taken: u32) -> Result<(), Memory>
        ensures ok { OnOk result (self.new
            ≡ record self.old { failing = self.old.failing ++ record { number = n; taken = taken } ∷ [] }) }
        ensures err { OnErr result (self.new ≡ self.old) }
    {
        self.failing.push(Failing {
            number: u64::from(n),
            taken,
        })?;
        Ok(())
    }

    /// The bytes that it took.
    pub fn bytes(&self) -> &[u8]
        ensures { result.now ≡ self.now.bytes }
    {
        self.bytes.as_slice()
    }
}

impl Sink for MemSink {
    ghost state = { sink_state };

    fn write(&mut self, piece: &[u8]) -> Result<(), SinkFault>
        ensures takes { WriteTakes (Some self.old.bytes) (Some self.new.bytes) piece.now result }
        ensures cause { WriteCause self.old.faults self.new.faults result }
        ensures exact { MemWrites self.old self.new piece.now result }
    {
        self.writes = self.writes.saturating_add(1);
        match taken_at(&self.failing, self.writes) {
            Some(count) => {
                let count = piece.len().min(count as usize);
                if self.bytes.extend_from_slice(&piece[..count]).is_err() {
                    return Err(SinkFault::Memory);
                }
                self.faults = self.faults.saturating_add(1);
                Err(SinkFault::Failed)
            }
            None => match self.bytes.extend_from_slice(piece) {
                Ok(()) => Ok(()),
                Err(_) => Err(SinkFault::Memory),
            },
        }
    }
}
