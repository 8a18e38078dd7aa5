//! What a thread holds of a lock.
ghost use Rattle.std.specs.Prelude.{◌≡◌, true, is_some};

use crate::booked::Booked;
use crate::known::Known;
use std::marker::Model;

// A seat at the lock's table.
pub(crate) type Place<S> = atomic_table::Seat<Option<S>, Known<S, <S as Booked>::Entry>>;

/// A seat at a lock. It has no bytes, and may go to another thread.
///
/// To a contract it is its lock, its own number, the numbers that it holds, the beginning of the book that it has seen,
/// the entries that it made itself, and whether it is entered. While it holds a number, no other seat can make an entry
/// of that number. A seat that is dropped keeps its numbers for good, and one that is entered the turn.
#[derive(Drop)]
pub struct Seat<S: Booked> {
    pub(crate) place: Place<S>,
    // What the lock was made with is known.
    ghost live: { is_some place.me.0.first ≡ true },
}

impl<S: Booked> Model for Seat<S> {
    ghost use Rattle.std.specs.Prelude.{◌≡◌, []};
    ghost use Rattle.lane_spec.specs.declared.Numbers.TheVariants.{Only};
    ghost use Rattle.turn_lock.specs.Seats.{SeatState, seat_state, slots_out};

    ghost Value = { SeatState S S.Entry };

    ghost view = { λ s. seat_state s.place.table_id s.place.me.0 s.live };

    ghost invariant = { λ s. (s.place.me.1 ≡ slots_out s.place.me.0.entered) × (s.place.me.0.met_held ≡ Only []) };
}
