//! A source over a reader of std.
ghost use Rattle.std.specs.Prelude.{◌≡◌};

use crate::failed::Failed;
use crate::source::Source;
use std::io::Read;

/// A source over a reader of std, as standard input. It tells the bytes that the reader tells, which for
/// a standard stream is none.
#[derive(Drop)]
pub struct StdSource<R> {
    from: R,
    faults: u64,
}

impl<R> StdSource<R> {
    /// A source over this reader, of which no call has failed.
    pub fn new(from: R) -> StdSource<R>
        ensures { result ≡ record { from = from; faults = 0 } }
    {
        StdSource { from, faults: 0 }
    }
}

impl<R: Read> Source for StdSource<R> {
    ghost port = { λ s. record { bytes = R.remaining s.from; faults = s.faults } };

    /// Makes one read. Each error of it is a fault.
    fn take(&mut self, buf: &mut [u8]) -> Result<usize, Failed> {
        match self.from.read(buf) {
            Ok(count) => Ok(count),
            Err(_) => {
                self.faults = self.faults.saturating_add(1);
                Err(Failed)
            }
        }
    }
}
