//! A source over bytes in memory.
ghost use Rattle.std.specs.Prelude.{◌≡◌, ◌≤◌, length, take, drop, is_err, IfOk, OnOk, OnErr};
ghost use Rattle.std.specs.Io.{ReadsAtMost};
ghost use Rattle.std.specs.Io.KnownBytes.{ReadConsumes};
ghost use Rattle.io_ports.specs.Faults.{Rose};
ghost use Rattle.io_ports.specs.MemStreams.{is_failing, given_count, source_after, source_port};

use crate::failed::Failed;
use crate::memory::NoMemory;
use crate::source::Source;
use std::alloc::Global;
use std::marker::Model;

/// A source over bytes in memory, which gives them in pieces and fails at the calls that it is told to.
#[derive(Debug, Drop)]
pub struct MemSource {
    bytes: Vec<u8>,
    at: usize,
    calls: u64,
    faults: u64,
    failing: Vec<u64>,
    piece: usize,
}

impl Model for MemSource {
    ghost use Rattle.std.specs.Prelude.{◌≤◌, drop, vec_len};
    ghost use Rattle.io_ports.specs.MemStreams.{MemLeft};

    ghost Value = { MemLeft };

    ghost view = { λ s. record { left = drop s.at s.bytes.items; calls = s.calls; faults = s.faults; failing = s.failing.items; piece = s.piece } };

    ghost invariant = { λ s. (s.at ≤ vec_len s.bytes) × (1 ≤ s.piece) };
}

impl MemSource {
    /// A source of a copy of `bytes` that gives at most `piece` bytes a call and fails at the calls whose
    /// numbers, from 1, are in `failing`. `NoMemory` where memory for the copies was refused.
    pub fn new(
        alloc: Global,
        bytes: &[u8],
        failing: &[u64],
        piece: usize,
    ) -> Result<MemSource, NoMemory>
        requires { 1 ≤ piece }
        ensures ok { IfOk result (λ source. source ≡ record { left = bytes.now; calls = 0; faults = 0; failing = failing.now; piece = piece }) }
    {
        let bytes = Vec::from_slice(alloc, bytes)?;
        let failing = Vec::from_slice(alloc, failing)?;
        Ok(MemSource {
            bytes,
            at: 0,
            calls: 0,
            faults: 0,
            failing,
            piece,
        })
    }
}

impl Source for MemSource {
    ghost port = { source_port };

    /// Gives as much as is left, as `buf` holds and as a piece has, or fails by the call's number. What
    /// stands in `buf` behind the bytes given stays, and all of it where the call fails.
    fn take(&mut self, buf: &mut [u8]) -> Result<usize, Failed>
        ensures bound { ReadsAtMost result buf.new }
        ensures bytes { ReadConsumes (source_port self.old).bytes (source_port self.new).bytes result buf.new }
        ensures ok { OnOk result (self.new.faults ≡ self.old.faults) }
        ensures failed { OnErr result (Rose self.old.faults self.new.faults) }

        ensures after { self.new ≡ source_after self.old (length buf.old) }
        ensures err { is_err result ≡ is_failing self.old.failing self.old.calls }
        ensures count { IfOk result (λ count. count ≡ given_count self.old (length buf.old)) }
        ensures kept { OnErr result (buf.new ≡ buf.old) }
        ensures rest { IfOk result (λ count. drop count buf.new ≡ drop count buf.old) }
    {
        self.calls = self.calls.saturating_add(1);
        if self.failing.contains(&self.calls) {
            self.faults = self.faults.saturating_add(1);
            return Err(Failed);
        }
        let (_given, rest) = self.bytes.as_slice().split_at(self.at);
        let count = rest.len().min(buf.len()).min(self.piece);
        copy_front(buf, rest, count);
        self.at += count;
        Ok(count)
    }
}

/// Copies the first `count` bytes of `from` to the front of `buf`.
fn copy_front(buf: &mut [u8], from: &[u8], count: usize)
    requires source { count ≤ length from.now }
    requires room { count ≤ length buf.old }
    ensures front { take count buf.new ≡ take count from.now }
    ensures rest { drop count buf.new ≡ drop count buf.old }
{
    let (front, _rest) = buf.split_at_mut(count);
    let (copied, _left) = from.split_at(count);
    front.copy_from_slice(copied);
}
