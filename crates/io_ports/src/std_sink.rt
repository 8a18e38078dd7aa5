//! A sink over a writer of std.
ghost use Rattle.std.specs.Prelude.{◌≡◌, IsErr};
ghost use Rattle.io_ports.specs.Faults.{next_count};

use crate::failed::Failed;
use crate::sink::Sink;
use std::io::Write;

/// A sink over a writer of std, as standard output. It tells the bytes that the writer tells, which for a
/// standard stream is none.
#[derive(Drop)]
pub struct StdSink<W> {
    to: W,
    faults: u64,
}

impl<W> StdSink<W> {
    /// A sink over this writer, of which no call has failed.
    pub fn new(to: W) -> StdSink<W>
        ensures { result ≡ record { to = to; faults = 0 } }
    {
        StdSink { to, faults: 0 }
    }

    /// Counts one more failed call.
    fn fail(&mut self) -> Result<(), Failed>
        ensures err { IsErr result }
        ensures kept { self.new ≡ record self.old { faults = next_count self.old.faults } }
    {
        self.faults = self.faults.saturating_add(1);
        Err(Failed)
    }
}

impl<W: Write> Sink for StdSink<W> {
    ghost port = { λ s. record { bytes = W.contents s.to; faults = s.faults } };

    /// Writes until all is taken, then flushes. Each error, and a write that takes nothing, is a fault.
    fn put(&mut self, bytes: &[u8]) -> Result<(), Failed> {
        let mut at = 0;
        while at < bytes.len() {
            let (_taken, rest) = bytes.split_at(at);
            match self.to.write(rest) {
                Ok(count) if count > 0 => at += count,
                _ => return self.fail(),
            }
        }
        match self.to.flush() {
            Ok(()) => Ok(()),
            Err(_) => self.fail(),
        }
    }
}
