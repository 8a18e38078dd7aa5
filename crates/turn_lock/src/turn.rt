//! The lock.
ghost use Rattle.std.specs.Prelude.{◌≡◌, ◌^◌, ◌<◌, true, false, [], length, IsTrue, IsFalse, IfOk};
ghost use Rattle.lane_spec.specs.Numbers.{has, HasAll, without, together};
ghost use Rattle.lane_spec.specs.Going.{longer};
ghost use Rattle.turn_lock.specs.Book.{AllMade, GoesOn, MayAppend, StandsFor};
ghost use Rattle.turn_lock.specs.Seats.{Lock, Appends, first_seat, split_off};

use crate::booked::Booked;
use crate::known::Known;
use crate::rule::{ByTheBook, Glance, Leave};
use crate::seat::Seat;
use crate::steps::{AWAITED, FREE, LENGTH, STATE, TURN, give, take_in, take_turn, write_next};
use atomic_table::Table;
use io_ports::NoMemory;
use std::alloc::Global;
use std::marker::{Brand, Model};
use std::snapshot::Snapshot;
use std::sync::Wait;

/// A lock with a book of entries, which only grows. Who enters is handed the state, which stands for the whole book.
///
/// To a contract it is which lock it is, and the state that it was made with. What two seats have seen are beginnings of
/// one book.
#[derive(Drop)]
pub struct Turn<S: Booked> {
    table: Table<Option<S>, Known<S, S::Entry>, Snapshot<S>, ByTheBook, Global>,
}

impl<S: Booked> Model for Turn<S> {
    ghost use Rattle.std.specs.Prelude.{◌≡◌};
    ghost use Rattle.turn_lock.specs.Seats.{Lock};

    ghost Value = { Lock S };

    ghost view = { λ t. record { table = t.table.shared.table_id; first = t.table.shared.key.value } };

    ghost invariant = { λ t. (t.table.shared.table_id.words ≡ 2) × (t.table.shared.table_id.slots ≡ 1) };
}

impl<S: Booked> Turn<S> {
    /// A lock with an empty book, and its first seat, which has the number 0 and holds all numbers.
    ///
    /// After `NoMemory` the state is dropped.
    pub fn new(alloc: Global, state: S) -> Result<(Turn<S>, Seat<S>), NoMemory>
        requires { S.entries state ≡ [] }
        ensures ok { IfOk result (λ t. (t.0.first ≡ state) × (t.1 ≡ first_seat t.0)) }
    {
        let first = Snapshot::of(&state);
        let Ok(mut slots) = Vec::with_capacity(alloc, 1) else {
            return Err(NoMemory);
        };
        slots.push_reserved(Some(state));
        let Ok((table, place)) = Table::new(alloc, &[FREE, 0], slots, &first) else {
            return Err(NoMemory);
        };
        Ok((Turn { table }, Seat { place }))
    }

    /// Waits for the turn and takes the state, which stands for the whole book. The seat has then seen the book.
    ///
    /// Where nobody has the turn this is one exchange of a word. Else the thread spins and yields for a little, and then
    /// sleeps until another one leaves.
    pub fn enter<T: Wait>(&self, rt: &T, seat: &mut Seat<S>) -> S
        requires lock { seat.old.lock ≡ self.now }
        requires outside { IsFalse seat.old.entered }
        requires own { IsTrue (has seat.old.held seat.old.number) }
        ensures stands { StandsFor S.entries S.home S.may_make self.now.first seat.new.seen result }
        ensures seen { GoesOn seat.old.held seat.old.seen seat.new.seen }
        ensures kept { seat.new ≡ record seat.old { seen = seat.new.seen; entered = true } }
    {
        self.enter_counted(rt, seat).0
    }

    /// Enters, and answers how many tries for the turn it took.
    pub(crate) fn enter_counted<T: Wait>(&self, rt: &T, seat: &mut Seat<S>) -> (S, u64)
        requires lock { seat.old.lock ≡ self.now }
        requires outside { IsFalse seat.old.entered }
        requires own { IsTrue (has seat.old.held seat.old.number) }
        ensures stands { StandsFor S.entries S.home S.may_make self.now.first seat.new.seen result.0 }
        ensures seen { GoesOn seat.old.held seat.old.seen seat.new.seen }
        ensures kept { seat.new ≡ record seat.old { seen = seat.new.seen; entered = true } }
    {
        let board = &self.table.shared;
        let tries = take_turn(rt, board, &mut seat.place);
        (board.exchange(&mut seat.place, STATE, None).unwrap(), tries)
    }

    /// Adds the next entry of the state's list to the book: the first that the seat has not seen. It is then one of the
    /// seat's own.
    pub fn append(&self, seat: &mut Seat<S>, state: &S)
        requires lock { seat.old.lock ≡ self.now }
        requires entered { IsTrue seat.old.entered }
        requires next { MayAppend S.may_make seat.old.number seat.old.seen (S.entries state.now) }
        requires room { length (S.entries state.now) < 2 ^ 63 }
        ensures added { Appends (S.entries state.now) seat.old seat.new }
        ensures kept { seat.new ≡ record seat.old { seen = seat.new.seen; mine = seat.new.mine } }
    {
        write_next::<S, Brand>(&self.table.shared, &mut seat.place, state);
    }

    /// Gives the state back and frees the turn. It wakes a thread that sleeps until then.
    pub fn leave(&self, seat: &mut Seat<S>, state: S)
        requires lock { seat.old.lock ≡ self.now }
        requires entered { IsTrue seat.old.entered }
        requires stands { StandsFor S.entries S.home S.may_make self.now.first seat.old.seen state }
        ensures kept { seat.new ≡ record seat.old { entered = false } }
    {
        let board = &self.table.shared;
        board.exchange(&mut seat.place, STATE, Some(state));
        if board.swap::<Leave>(&mut seat.place, TURN, FREE) == AWAITED {
            board.wake_one(TURN);
        }
    }

    /// A new seat that has seen as much, with the number for its own. The number goes over to it.
    pub fn split(&self, seat: &mut Seat<S>, number: u64) -> Seat<S>
        requires lock { seat.old.lock ≡ self.now }
        requires outside { IsFalse seat.old.entered }
        requires held { IsTrue (has seat.old.held number) }
        ensures new { result ≡ split_off seat.old number }
        ensures kept { seat.new ≡ record seat.old { held = without seat.old.held number } }
    {
        let place = give::<S, Brand>(&self.table.shared, &mut seat.place, number);
        Seat { place }
    }

    /// Takes in another seat: its numbers, and what it had seen where that is more. It waits for nobody.
    pub fn meet(&self, seat: &mut Seat<S>, other: Seat<S>)
        requires lock { (seat.old.lock ≡ self.now) × (other.lock ≡ self.now) }
        requires outside { IsFalse seat.old.entered × IsFalse other.entered }
        ensures kept { seat.new ≡ record seat.old { seen = longer seat.old.seen other.seen; held = together seat.old.held other.held } }
        ensures seen { GoesOn seat.old.held seat.old.seen seat.new.seen }
        ensures met { GoesOn other.held other.seen seat.new.seen }
    {
        let Seat { place } = other;
        take_in(&self.table.shared, &mut seat.place, place);
    }

    /// Looks at the book, and answers how many entries it has. It waits for nobody. Each entry that the seat has then seen
    /// may be made by the number that it bears.
    pub fn glance(&self, seat: &mut Seat<S>) -> u64
        requires lock { seat.old.lock ≡ self.now }
        ensures length { result ≡ length seat.new.seen }
        ensures seen { GoesOn seat.old.held seat.old.seen seat.new.seen }
        ensures made { AllMade S.may_make seat.new.seen }
        ensures kept { seat.new ≡ record seat.old { seen = seat.new.seen } }
    {
        self.table.shared.load::<Glance>(&mut seat.place, LENGTH)
    }

    /// Ends the lock and gives its state back. The seat holds all numbers, so what it has seen is the whole book.
    pub fn close(self, seat: Seat<S>) -> S
        requires lock { seat.lock ≡ self }
        requires outside { IsFalse seat.entered }
        requires all { HasAll seat.held }
        ensures { StandsFor S.entries S.home S.may_make self.first seat.seen result }
    {
        let Turn { table } = self;
        let Seat { place } = seat;
        let mut closed = table.close_with(place);
        let state = closed.take(STATE);
        closed.free();
        state.unwrap()
    }
}
