//! Where bytes go, as a trait.
ghost use Rattle.std.specs.Prelude.{◌≡◌, OnOk, OnErr};
ghost use Rattle.std.specs.Io.KnownBytes.{Appends};
ghost use Rattle.io_ports.specs.Faults.{Rose};
ghost use Rattle.io_ports.specs.Ports.{Port};
ghost use Rattle.io_ports.specs.Streams.{AppendsPrefix};

use crate::failed::Failed;

/// Where bytes go.
pub trait Sink {
    // What it tells: the bytes put into it, where it tells them, and how many of its calls have failed.
    ghost port: { Self → Port };

    /// Appends all of `bytes`. The count of faults rises by one where it answers `Failed`, and then a
    /// prefix of them was appended, which may be empty; else the count stays.
    fn put(&mut self, bytes: &[u8]) -> Result<(), Failed>
        ensures bytes { OnOk result (Appends (port self.old).bytes (port self.new).bytes bytes.now) }
        ensures err { OnErr result (AppendsPrefix (port self.old).bytes (port self.new).bytes bytes.now) }
        ensures ok { OnOk result ((port self.new).faults ≡ (port self.old).faults) }
        ensures failed { OnErr result (Rose (port self.old).faults (port self.new).faults) };
}
