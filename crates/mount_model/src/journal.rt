//! The journal of a mount: which calls were taken and done, in what order, and what each has seen of the bucket.
use crate::gate::CallId;
use fuse_requests::Request;
use io_ports::Row;

/// Where a call learned what one of its lookups of a name shows.
#[derive(Clone, Copy, Debug, PartialEq, Eq)]
pub struct Use {
    /// The moment in the bucket's log, from 1, of the operation that showed it.
    pub moment: u64,
    /// Whether the call itself made that operation. Else a record of it served.
    pub own: bool,
    /// Whether a record of the call's own operation was kept; false for a record.
    pub kept: bool,
}

/// How a call ended.
#[derive(Clone, Copy, Debug, PartialEq, Eq)]
pub enum How {
    /// It was performed to its end.
    Ok,
    /// Memory was refused to it on the way.
    NoMemory,
}

/// What became of a whole source that a call read.
#[derive(Clone, Copy, Debug, PartialEq, Eq)]
pub enum Fill {
    /// The call read none that could be kept.
    Nothing,
    /// It is kept.
    Kept,
    /// Memory for it was refused.
    NoMemory,
}

/// One entry of a mount's journal. A front is the number of events of the bucket's log that the mount had seen when it
/// made the entry.
#[derive(Drop)]
pub enum JournalEntry {
    /// A call was taken.
    Take {
        /// Which call.
        call: CallId,
        /// How many events had been seen.
        front: u64,
        /// What the call asks.
        request: Request,
    },
    /// A call was done, and has its reply.
    Done {
        /// Which call.
        call: CallId,
        /// How many events had been seen.
        front: u64,
        /// How it ended.
        how: How,
        /// Where it learned what its lookups show, in their order.
        uses: Row<Use>,
        /// What became of a whole source that it read.
        fill: Fill,
    },
    /// The clock went on.
    Tick {
        /// How many events had been seen.
        front: u64,
        /// By how many seconds.
        seconds: u64,
    },
}
