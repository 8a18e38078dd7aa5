//! A sink into memory.
ghost use Rattle.std.specs.Prelude.{◌≡◌, [], is_err, IfOk, OnOk, OnErr};
ghost use Rattle.std.specs.Io.KnownBytes.{Appends};
ghost use Rattle.io_ports.specs.Faults.{Rose};
ghost use Rattle.io_ports.specs.MemStreams.{put_fails, sink_after, sink_port};
ghost use Rattle.io_ports.specs.Streams.{AppendsPrefix};

use crate::failed::Failed;
use crate::memory::NoMemory;
use crate::sink::Sink;
use std::alloc::Global;
use std::marker::Model;

/// A sink into memory, which takes a number of bytes in all and fails at the calls that it is told to.
#[derive(Debug, Drop)]
pub struct MemSink {
    bytes: Vec<u8>,
    calls: u64,
    faults: u64,
    failing: Vec<u64>,
    room: u64,
}

impl Model for MemSink {
    ghost use Rattle.std.specs.Prelude.{◌≤◌, vec_len, vec_capacity};
    ghost use Rattle.io_ports.specs.MemStreams.{MemPut};

    ghost Value = { MemPut };

    ghost view = { λ s. record { bytes = s.bytes.items; calls = s.calls; faults = s.faults; failing = s.failing.items; room = s.room } };

    ghost invariant = { λ s. (vec_len s.bytes ≤ s.room) × (s.room ≤ vec_capacity s.bytes) };
}

impl MemSink {
    /// An empty sink that takes at most `room` bytes in all and fails at the calls whose numbers, from 1,
    /// are in `failing`. It takes its memory at once. `NoMemory` where that was refused.
    pub fn new(alloc: Global, failing: &[u64], room: u64) -> Result<MemSink, NoMemory>
        ensures ok { IfOk result (λ sink. sink ≡ record { bytes = []; calls = 0; faults = 0; failing = failing.now; room = room }) }
    {
        let bytes = Vec::with_capacity(alloc, room as usize)?;
        let failing = Vec::from_slice(alloc, failing)?;
        Ok(MemSink {
            bytes,
            calls: 0,
            faults: 0,
            failing,
            room,
        })
    }

    /// The bytes put so far, lent.
    pub fn bytes(&self) -> &[u8]
        ensures bytes { result.now ≡ self.now.bytes }
    {
        self.bytes.as_slice()
    }
}

impl Sink for MemSink {
    ghost port = { sink_port };

    /// A call that fails by its number appends nothing. One that would pass the room appends what there
    /// is room for.
    fn put(&mut self, bytes: &[u8]) -> Result<(), Failed>
        ensures bytes { OnOk result (Appends (sink_port self.old).bytes (sink_port self.new).bytes bytes.now) }
        ensures err { OnErr result (AppendsPrefix (sink_port self.old).bytes (sink_port self.new).bytes bytes.now) }
        ensures ok { OnOk result (self.new.faults ≡ self.old.faults) }
        ensures failed { OnErr result (Rose self.old.faults self.new.faults) }

        ensures after { self.new ≡ sink_after self.old bytes.now }
        ensures refused { is_err result ≡ put_fails self.old bytes.now }
    {
        self.calls = self.calls.saturating_add(1);
        if self.failing.contains(&self.calls) {
            self.faults = self.faults.saturating_add(1);
            return Err(Failed);
        }
        let spare = self.room as usize - self.bytes.len();
        let fitting = bytes.len().min(spare);
        self.bytes.extend_from_slice(&bytes[..fitting]).unwrap();
        if fitting < bytes.len() {
            self.faults = self.faults.saturating_add(1);
            return Err(Failed);
        }
        Ok(())
    }
}
