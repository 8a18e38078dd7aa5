//! Why the frame of a reply is not read.
ghost use Rattle.std.specs.Prelude.{◌≡◌};
ghost use Rattle.fuse_replies.specs.declared.fault.ReplyFault.TheVariants as faults;

use io_ports::NoMemory;
use std::alloc::AllocFailed;

/// Why bytes were not read as a reply.
#[derive(Clone, Copy, Debug, PartialEq, Eq)]
pub enum ReplyFault {
    /// Memory for the reply was refused.
    NoMemory,
    /// The bytes are no reply of the kind that was asked for.
    Malformed,
}

impl From<NoMemory> for ReplyFault {
    ghost from_gives = { λ _ fault. fault ≡ faults.NoMemory };

    fn from(_refused: NoMemory) -> ReplyFault {
        ReplyFault::NoMemory
    }
}

impl<T: Drop> From<AllocFailed<T>> for ReplyFault {
    ghost from_gives = { λ _ fault. fault ≡ faults.NoMemory };

    fn from(_refused: AllocFailed<T>) -> ReplyFault {
        ReplyFault::NoMemory
    }
}
