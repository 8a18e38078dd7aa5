//! What no clause says of the lock: that threads take turns, and what their seats have seen.
ghost use Rattle.std.specs.Prelude.{◌≡◌, [], IsTrue, IsFalse, IfOk};
ghost use Rattle.lane_spec.specs.Numbers.{has};
ghost use Rattle.turn_lock.specs.Seats.{first_seat};

use crate::{Booked, Seat, Turn};
use io_ports::NoMemory;
use std::alloc::Global;
use std::sync::Wait;
use std::sync::atomic::{AtomicBool, Ordering};
use std::test::Fail;
use std::thread;
use std::thread::Threads;

/// How often a thread looks for what another one does, before it gives up.
const TURNS: u64 = 67_108_864;

/// How often a thread yields while it has the turn and another one waits for it.
const PAUSE: u64 = 10_000;

/// How many tries for the turn only a thread takes that does not sleep.
const SPINNING: u64 = 1_000;

/// Each entry is the number of the seat that made it.
#[derive(Drop)]
struct Visits {
    by: Vec<u64>,
}

impl Booked for Visits {
    type Entry = u64;

    ghost Home = { Unit {0} };

    ghost home = { λ s. tt };

    ghost entries = { λ s. s.by.items };

    ghost may_make = { λ n e. e ≡ n };
}

impl Visits {
    fn count(&self, number: u64) -> usize {
        self.by.iter().filter(|by| **by == number).count()
    }
}

fn opened(alloc: Global) -> Result<(Turn<Visits>, Seat<Visits>), NoMemory>
    ensures { IfOk result (λ t. t.1 ≡ first_seat t.0) }
{
    Turn::new(
        alloc,
        Visits {
            by: Vec::new(alloc),
        },
    )
}

/// Makes an entry, and answers whether there was memory for it.
fn visit<T: Wait>(rt: &T, turn: &Turn<Visits>, seat: &mut Seat<Visits>, number: u64) -> bool
    requires lock { seat.old.lock ≡ turn.now }
    requires outside { IsFalse seat.old.entered }
    requires own { IsTrue (has seat.old.held number) }
    requires number { seat.old.number ≡ number }
    ensures kept { seat.new ≡ record seat.old { seen = seat.new.seen; mine = seat.new.mine } }
{
    visit_counted(rt, turn, seat, number).is_some()
}

/// Makes an entry, and answers how many tries for the turn it took; none where there was no memory for it.
fn visit_counted<T: Wait>(
    rt: &T,
    turn: &Turn<Visits>,
    seat: &mut Seat<Visits>,
    number: u64,
) -> Option<u64>
    requires lock { seat.old.lock ≡ turn.now }
    requires outside { IsFalse seat.old.entered }
    requires own { IsTrue (has seat.old.held number) }
    requires number { seat.old.number ≡ number }
    ensures kept { seat.new ≡ record seat.old { seen = seat.new.seen; mine = seat.new.mine } }
{
    let (mut visits, tries) = turn.enter_counted(rt, seat);
    let Ok(()) = visits.by.push(number) else {
        turn.leave(seat, visits);
        return None;
    };
    turn.append(seat, &visits);
    turn.leave(seat, visits);
    Some(tries)
}

/// Makes that many entries, and answers whether there was memory for all.
fn visit_often<T: Wait>(
    rt: &T,
    turn: &Turn<Visits>,
    mut seat: Seat<Visits>,
    number: u64,
    count: u64,
) -> (Seat<Visits>, bool)
    requires lock { seat.lock ≡ turn.now }
    requires outside { IsFalse seat.entered }
    requires own { IsTrue (has seat.held number) }
    requires number { seat.number ≡ number }
    ensures kept { result.0 ≡ record seat { seen = result.0.seen; mine = result.0.mine } }
{
    let mut all = true;
    for _ in 0..count {
        all = visit(rt, turn, &mut seat, number) && all;
    }
    (seat, all)
}

/// Two threads make a thousand entries each.
fn two_visitors<R: Threads + Wait + Sync>(
    rt: &R,
    alloc: Global,
) -> Result<(Visits, bool), NoMemory> {
    let (turn, mut home) = opened(alloc)?;
    let one = turn.split(&mut home, 1);
    let two = turn.split(&mut home, 2);
    let shared = &turn;
    let (one, two) = thread::join(
        rt,
        move || -> (Seat<Visits>, bool)
            requires { (one.lock ≡ shared.now) × IsFalse one.entered × IsTrue (has one.held 1) × (one.number ≡ 1) }
            ensures { result.0 ≡ record one { seen = result.0.seen; mine = result.0.mine } }
        { visit_often(rt, shared, one, 1, 1000) },
        move || -> (Seat<Visits>, bool)
            requires { (two.lock ≡ shared.now) × IsFalse two.entered × IsTrue (has two.held 2) × (two.number ≡ 2) }
            ensures { result.0 ≡ record two { seen = result.0.seen; mine = result.0.mine } }
        { visit_often(rt, shared, two, 2, 1000) },
    );
    turn.meet(&mut home, one.0);
    turn.meet(&mut home, two.0);
    Ok((turn.close(home), one.1 && two.1))
}

/// Looks at a flag until it is set. Not for ever.
fn sees(flag: &AtomicBool) -> bool {
    for _ in 0..TURNS {
        if flag.load(Ordering::SeqCst) {
            return true;
        }
        thread::yield_now();
    }
    false
}

/// Keeps the turn until the other thread has glanced.
fn hold<T: Wait>(
    rt: &T,
    turn: &Turn<Visits>,
    mut seat: Seat<Visits>,
    entered: &AtomicBool,
    glanced: &AtomicBool,
) -> (Seat<Visits>, bool)
    requires lock { seat.lock ≡ turn.now }
    requires outside { IsFalse seat.entered }
    requires own { IsTrue (has seat.held seat.number) }
    ensures kept { result.0 ≡ record seat { seen = result.0.seen } }
{
    let visits = turn.enter(rt, &mut seat);
    entered.store(true, Ordering::SeqCst);
    let seen = sees(glanced);
    turn.leave(&mut seat, visits);
    (seat, seen)
}

/// Glances while the other thread has the turn.
fn glance_within(
    turn: &Turn<Visits>,
    mut seat: Seat<Visits>,
    entered: &AtomicBool,
    glanced: &AtomicBool,
) -> (Seat<Visits>, bool)
    requires lock { seat.lock ≡ turn.now }
    ensures kept { result.0 ≡ record seat { seen = result.0.seen } }
{
    let seen = sees(entered);
    turn.glance(&mut seat);
    glanced.store(true, Ordering::SeqCst);
    (seat, seen)
}

/// One thread has the turn until another one has glanced.
fn holder_and_glancer<R: Threads + Wait + Sync>(
    rt: &R,
    alloc: Global,
) -> Result<(Visits, bool), NoMemory> {
    let (turn, mut home) = opened(alloc)?;
    let one = turn.split(&mut home, 1);
    let two = turn.split(&mut home, 2);
    let (entered, glanced) = (AtomicBool::new(false), AtomicBool::new(false));
    let (shared, first, second) = (&turn, &entered, &glanced);
    let (one, two) = thread::join(
        rt,
        move || -> (Seat<Visits>, bool)
            requires { (one.lock ≡ shared.now) × IsFalse one.entered × IsTrue (has one.held one.number) }
            ensures { result.0 ≡ record one { seen = result.0.seen } }
        { hold(rt, shared, one, first, second) },
        move || -> (Seat<Visits>, bool)
            requires { two.lock ≡ shared.now }
            ensures { result.0 ≡ record two { seen = result.0.seen } }
        { glance_within(shared, two, first, second) },
    );
    turn.meet(&mut home, one.0);
    turn.meet(&mut home, two.0);
    Ok((turn.close(home), one.1 && two.1))
}

/// Makes an entry with another thread waiting for the turn.
fn visit_slowly<T: Wait>(
    rt: &T,
    turn: &Turn<Visits>,
    mut seat: Seat<Visits>,
    entered: &AtomicBool,
) -> (Seat<Visits>, bool)
    requires lock { seat.lock ≡ turn.now }
    requires outside { IsFalse seat.entered }
    requires own { IsTrue (has seat.held 1) }
    requires number { seat.number ≡ 1 }
    ensures kept { result.0 ≡ record seat { seen = result.0.seen; mine = result.0.mine } }
{
    let mut visits = turn.enter(rt, &mut seat);
    entered.store(true, Ordering::SeqCst);
    for _ in 0..PAUSE {
        thread::yield_now();
    }
    let Ok(()) = visits.by.push(1) else {
        turn.leave(&mut seat, visits);
        return (seat, false);
    };
    turn.append(&mut seat, &visits);
    turn.leave(&mut seat, visits);
    (seat, true)
}

/// Makes an entry once the other thread has the turn, and so after it. It sleeps meanwhile: it takes few tries.
fn visit_after<T: Wait>(
    rt: &T,
    turn: &Turn<Visits>,
    mut seat: Seat<Visits>,
    entered: &AtomicBool,
) -> (Seat<Visits>, bool)
    requires lock { seat.lock ≡ turn.now }
    requires outside { IsFalse seat.entered }
    requires own { IsTrue (has seat.held 2) }
    requires number { seat.number ≡ 2 }
    ensures kept { result.0 ≡ record seat { seen = result.0.seen; mine = result.0.mine } }
{
    let seen = sees(entered);
    let few = match visit_counted(rt, turn, &mut seat, 2) {
        Some(tries) => tries < SPINNING,
        None => false,
    };
    (seat, seen && few)
}

/// One thread waits for the turn while the other one has it.
fn one_after_another<R: Threads + Wait + Sync>(
    rt: &R,
    alloc: Global,
) -> Result<(Visits, bool), NoMemory> {
    let (turn, mut home) = opened(alloc)?;
    let one = turn.split(&mut home, 1);
    let two = turn.split(&mut home, 2);
    let entered = AtomicBool::new(false);
    let (shared, flag) = (&turn, &entered);
    let (one, two) = thread::join(
        rt,
        move || -> (Seat<Visits>, bool)
            requires { (one.lock ≡ shared.now) × IsFalse one.entered × IsTrue (has one.held 1) × (one.number ≡ 1) }
            ensures { result.0 ≡ record one { seen = result.0.seen; mine = result.0.mine } }
        { visit_slowly(rt, shared, one, flag) },
        move || -> (Seat<Visits>, bool)
            requires { (two.lock ≡ shared.now) × IsFalse two.entered × IsTrue (has two.held 2) × (two.number ≡ 2) }
            ensures { result.0 ≡ record two { seen = result.0.seen; mine = result.0.mine } }
        { visit_after(rt, shared, two, flag) },
    );
    turn.meet(&mut home, one.0);
    turn.meet(&mut home, two.0);
    Ok((turn.close(home), one.1 && two.1))
}

/// The lengths that two seats of one thread find, before they have met and after.
fn lengths<T: Wait>(rt: &T, alloc: Global) -> Result<(Visits, [u64; 4]), NoMemory> {
    let (turn, mut home) = opened(alloc)?;
    let at_first = turn.glance(&mut home);
    let mut other = turn.split(&mut home, 7);
    visit(rt, &turn, &mut home, 0);
    let by_other = turn.glance(&mut other);
    visit(rt, &turn, &mut other, 7);
    let before = turn.glance(&mut home);
    turn.meet(&mut home, other);
    let after = turn.glance(&mut home);
    Ok((turn.close(home), [at_first, by_other, before, after]))
}

#[test]
fn a_glance_does_not_wait_for_the_turn(rt: HostRuntime) -> Result<(), Fail> {
    let (visits, in_time) = holder_and_glancer(&rt, rt.alloc())?;
    assert!(rt; in_time);
    assert_eq!(rt; visits.by.len(), 0);
    Ok(())
}

#[test]
fn the_state_stands_for_what_two_threads_made(rt: HostRuntime) -> Result<(), Fail> {
    let (visits, had_room) = two_visitors(&rt, rt.alloc())?;
    assert!(rt; had_room);
    assert_eq!(rt; visits.by.len(), 2000);
    assert_eq!(rt; visits.count(1), 1000);
    assert_eq!(rt; visits.count(2), 1000);
    Ok(())
}

#[test]
fn who_leaves_wakes_who_waits(rt: HostRuntime) -> Result<(), Fail> {
    let (visits, in_time) = one_after_another(&rt, rt.alloc())?;
    assert!(rt; in_time);
    assert_eq!(rt; visits.by.as_slice(), [1, 2].as_slice());
    Ok(())
}

#[test]
fn seats_of_one_thread_see_one_book(rt: HostRuntime) -> Result<(), Fail> {
    let (visits, lengths) = lengths(&rt, rt.alloc())?;
    assert_eq!(rt; lengths, [0, 1, 2, 2]);
    assert_eq!(rt; visits.by.as_slice(), [0, 7].as_slice());
    Ok(())
}
