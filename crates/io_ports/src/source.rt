//! Where bytes come from, as a trait.
ghost use Rattle.std.specs.Prelude.{◌≡◌, OnOk, OnErr};
ghost use Rattle.std.specs.Io.{ReadsAtMost};
ghost use Rattle.std.specs.Io.KnownBytes.{ReadConsumes};
ghost use Rattle.io_ports.specs.Faults.{Rose};
ghost use Rattle.io_ports.specs.Ports.{Port};

use crate::failed::Failed;

/// Where bytes come from.
pub trait Source {
    // What it tells: the bytes that it has left, where it tells them, and how many of its calls have failed.
    ghost port: { Self → Port };

    /// Moves the next bytes to the front of `buf` and answers how many, at most what `buf` holds. With a
    /// `buf` that isn't empty it answers 0 only at the end of input. The count of faults rises by one
    /// where it answers `Failed`, and then nothing was taken; else it stays.
    fn take(&mut self, buf: &mut [u8]) -> Result<usize, Failed>
        ensures bound { ReadsAtMost result buf.new }
        ensures bytes { ReadConsumes (port self.old).bytes (port self.new).bytes result buf.new }
        ensures ok { OnOk result ((port self.new).faults ≡ (port self.old).faults) }
        ensures failed { OnErr result (Rose (port self.old).faults (port self.new).faults) };
}
