//! Why the body of a request is not read.
use io_ports::NoMemory;

/// Why the body of a request wasn't read: the first fault in the order of reading, or that memory for the
/// request was refused.
#[derive(Clone, Copy, Debug, PartialEq, Eq)]
pub enum BodyFault {
    /// Memory for a name, a target, a content or the forgotten nodes was refused.
    NoMemory,
    /// The body has fewer bytes than its fixed part or, for WRITE, than its size tells.
    Short,
    /// A name has no zero byte at its end.
    NoZeroByte,
    /// Bytes stand after the last part.
    LongTail,
    /// The bytes after BATCH_FORGET's fixed part aren't its count times 16.
    BadCount,
}

impl From<NoMemory> for BodyFault {
    ghost use Rattle.std.specs.Prelude.{◌≡◌};
    ghost use Rattle.fuse_requests.specs.declared.fault.BodyFault.TheVariants as faults;

    ghost from_gives = { λ _ fault. fault ≡ faults.NoMemory };

    fn from(_refused: NoMemory) -> BodyFault {
        BodyFault::NoMemory
    }
}
