//! Streams that record how they are used.
ghost use Rattle.std.specs.Prelude.{◌≡◌, [], IfOk};

use io_ports::{Failed, Sink, Source};
use std::alloc::{AllocError, Global};
use std::cell::Cell;

/// A source that records how much each take asks for, and how much a sink had taken by then.
#[derive(Drop)]
pub(crate) struct Recording<'a> {
    left: &'a [u8],
    piece: usize,
    put: &'a Cell<u64>,
    takes: Vec<(usize, u64)>,
}

impl<'a> Recording<'a> {
    /// A source of these bytes, in pieces of at most so many, beside a sink that counts what it takes.
    pub(crate) fn new(
        alloc: Global,
        bytes: &'a [u8],
        piece: usize,
        put: &'a Cell<u64>,
    ) -> Recording<'a>
        ensures left { result.left.now ≡ bytes.entry.now }
        ensures piece { result.piece ≡ piece }
        ensures takes { result.takes.items ≡ [] }
    {
        Recording {
            left: bytes,
            piece,
            put,
            takes: Vec::new(alloc),
        }
    }

    /// Of each take, how many bytes it asked for and how many the sink had taken.
    pub(crate) fn takes(&self) -> &[(usize, u64)]
        ensures { result.now ≡ self.now.takes.items }
    {
        self.takes.as_slice()
    }
}

impl Source for Recording<'_> {
    ghost use Rattle.std.specs.Prelude.{None};

    ghost port = { λ _. record { bytes = None; faults = 18446744073709551615 } };

    fn take(&mut self, buf: &mut [u8]) -> Result<usize, Failed> {
        if self.takes.push((buf.len(), self.put.get())).is_err() {
            return Err(Failed);
        }
        let count = self.left.len().min(buf.len()).min(self.piece);
        let (given, left) = self.left.split_at(count);
        let (front, _rest) = buf.split_at_mut(count);
        front.copy_from_slice(given);
        self.left = left;
        Ok(count)
    }
}

/// A sink that counts the bytes it takes.
#[derive(Drop)]
pub(crate) struct Counting<'a> {
    pub(crate) put: &'a Cell<u64>,
}

impl Sink for Counting<'_> {
    ghost use Rattle.std.specs.Prelude.{None};

    ghost port = { λ _. record { bytes = None; faults = 0 } };

    fn put(&mut self, bytes: &[u8]) -> Result<(), Failed> {
        let count = self.put.get();
        self.put.set(count.saturating_add(bytes.len() as u64));
        Ok(())
    }
}

/// A source that gives a first frame, and then WRITE frames of the greatest length without end.
#[derive(Drop)]
pub(crate) struct Endless {
    bytes: Vec<u8>,
    again: usize,
    at: usize,
    taken: u64,
}

impl Endless {
    /// A source of this frame and then of WRITE frames.
    pub(crate) fn new(alloc: Global, first: &[u8]) -> Result<Endless, AllocError>
        ensures { IfOk result (λ source. source.taken ≡ 0) }
    {
        let mut bytes = Vec::from_slice(alloc, first)?;
        // A len of 135,168, and the opcode 16.
        bytes.extend_from_slice(&[0, 0x10, 2, 0, 16])?;
        for _ in 5..135_168 {
            bytes.push(0)?;
        }
        Ok(Endless {
            bytes,
            again: first.len(),
            at: 0,
            taken: 0,
        })
    }

    /// How many bytes were taken.
    pub(crate) fn taken(&self) -> u64
        ensures { result ≡ self.now.taken }
    {
        self.taken
    }
}

impl Source for Endless {
    ghost use Rattle.std.specs.Prelude.{None};

    ghost port = { λ _. record { bytes = None; faults = 0 } };

    fn take(&mut self, buf: &mut [u8]) -> Result<usize, Failed> {
        let rest = self.bytes.as_slice().get(self.at..).unwrap_or(&[]);
        let count = rest.len().min(buf.len());
        let (given, left) = rest.split_at(count);
        let (front, _rest) = buf.split_at_mut(count);
        front.copy_from_slice(given);
        self.at = if left.is_empty() {
            self.again
        } else {
            self.at.saturating_add(count)
        };
        self.taken = self.taken.saturating_add(count as u64);
        Ok(count)
    }
}
