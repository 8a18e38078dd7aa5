//! A record, what it shows, and what comes of an observation.
ghost use Rattle.std.specs.Prelude.{◌≡◌, IfOk};

use bucket_api::Meta;
use io_ports::NoMemory;
use std::alloc::Global;

/// What the bucket showed of a key.
#[derive(Drop)]
pub enum Shown {
    /// There is nothing.
    Absent,
    /// There is something: a directory that was found by what lies in it.
    Present,
    /// There is an object, and this is what the bucket told of it.
    Object(Meta),
}

impl Shown {
    /// An equal value of its own. `NoMemory` where memory for it was refused.
    pub fn copy(&self, alloc: Global) -> Result<Shown, NoMemory>
        ensures ok { IfOk result (λ copy. copy ≡ self.now) }
    {
        Ok(match self {
            Shown::Absent => Shown::Absent,
            Shown::Present => Shown::Present,
            Shown::Object(meta) => Shown::Object(meta.copy(alloc)?),
        })
    }
}

/// One observation that is kept, to be used in place of a further look into the bucket.
#[derive(Drop)]
pub struct Record {
    /// The moment of the log entry that showed it.
    pub moment: u64,
    /// The tick, in seconds, at which the call that asked for it was taken.
    pub tick: u64,
    /// What was shown.
    pub shown: Shown,
}

/// What comes of an observation.
#[derive(Debug, Clone, Copy, PartialEq, Eq)]
pub enum Learned {
    /// It is its key's record from now on, and the most recently used one.
    Kept,
    /// It is below the watermark, or older than its key's record, so it isn't kept.
    Behind,
    /// Memory for a record was refused, to a key that had none.
    NoMemory,
}
