//! What a thread holds of a bucket in memory.
use crate::kept::Kept;
use std::marker::Model;
use turn_lock::Seat;

/// A pass to a bucket in memory. It may go to another thread.
///
/// To a contract it is its bucket, its own lane, the lanes that it holds, the beginning of the log that it has seen, its
/// own events, and how many faults it has met.
#[derive(Drop)]
pub struct MemPass {
    pub(crate) seat: Seat<Kept>,
    pub(crate) lane: u64,
    pub(crate) faults: u64,
}

impl Model for MemPass {
    ghost use Rattle.turn_lock.specs.Seats.{Lock};
    ghost use Rattle.bucket_api.specs.Passes.{PassState};
    ghost use Rattle.logged_bucket.specs.LoggedState.{LoggedState};
    ghost use Rattle.mem_bucket.specs.MemPasses.{pass_of, IsSeated};

    ghost Value = { PassState (Lock LoggedState) };

    ghost view = { λ p. pass_of p.seat p.faults };

    ghost invariant = { λ p. IsSeated p.seat p.lane };
}
