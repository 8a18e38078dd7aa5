//! The bucket in memory.
ghost use Rattle.std.specs.Prelude.{◌≡◌, ◌≤◌, ◌^◌, ◌-◌, [], length, IsTrue, IfOk, OnOk, OnErr};
ghost use Rattle.lane_spec.specs.Numbers.{has, HasAll, without, together};
ghost use Rattle.lane_spec.specs.Going.{longer};
ghost use Rattle.turn_lock.specs.Seats.{Lock};
ghost use Rattle.bucket_api.specs.Operation.{operation, IsAllowed};
ghost use Rattle.bucket_api.specs.BucketState.{IsWithin};
ghost use Rattle.bucket_api.specs.Log.{state_at, FollowsScript};
ghost use Rattle.bucket_api.specs.Scripts.{script_of, IsScript, FaultsByScript};
ghost use Rattle.bucket_api.specs.Passes.{LogGoesOn, SeesMore, IsBucketPass, Acts, faults_after, first_pass, split_pass, both_faults};
ghost use Rattle.logged_bucket.specs.LoggedState.{LoggedState};
ghost use Rattle.mem_bucket.specs.MemPasses.{origin_of};

use crate::kept::Kept;
use crate::mem_pass::MemPass;
use bucket_api::{Answer, Bucket, Event, Op, Scripted};
use bucket_plain::Plain;
use io_ports::{NoMemory, Row};
use std::alloc::Global;
use std::marker::Model;
use std::sync::Wait;
use turn_lock::Turn;

/// A bucket in memory with a log, that many threads share. Its faults come as a script says: a `Failed` operation has no
/// effect, a `Lost` one its whole effect, both are answered by a fault, and no other is.
///
/// To a contract it is its lock, with the bucket before the log and the script.
#[derive(Drop)]
pub struct MemBucket {
    turn: Turn<Kept>,
}

impl Model for MemBucket {
    ghost use Rattle.turn_lock.specs.Seats.{Lock};
    ghost use Rattle.logged_bucket.specs.LoggedState.{LoggedState};

    ghost Value = { Lock LoggedState };

    ghost view = { λ b. b.turn };
}

impl MemBucket {
    /// A bucket that begins as this one, with an empty log, and the first pass to it, which has the lane 0 and holds all
    /// lanes. The script's moments, which count from 1, rise, and none of its modes is `Done`.
    ///
    /// After `NoMemory` the bucket and the script are dropped.
    pub fn new(
        alloc: Global,
        start: Plain,
        script: Row<Scripted>,
    ) -> Result<(MemBucket, MemPass), NoMemory>
        requires script { IsScript (script_of script.items) }
        requires small { IsWithin (2 ^ 62 - 1) start }
        ensures made { IfOk result (λ r. r.0.first ≡ record { start = start; script = script_of script.items; log = [] }) }
        ensures pass { IfOk result (λ r. r.1 ≡ first_pass (origin_of r.0)) }
    {
        let (turn, seat) = Turn::new(alloc, Kept::new(alloc, start, script))?;
        let pass = MemPass {
            seat,
            lane: 0,
            faults: 0,
        };
        Ok((MemBucket { turn }, pass))
    }

    /// The bucket after its whole log, and the log. The pass holds all lanes, so it has seen every event.
    pub fn finish(self, pass: MemPass) -> (Plain, Row<Event>)
        requires pass { pass.origin ≡ origin_of self }
        requires all { HasAll pass.held }
        ensures bucket { result.0 ≡ state_at self.first.start pass.seen (length pass.seen) }
        ensures log { result.1.items ≡ pass.seen }
        ensures script { FollowsScript self.first.script pass.seen }
    {
        let MemBucket { turn } = self;
        let MemPass {
            seat,
            lane: _,
            faults: _,
        } = pass;
        turn.close(seat).into_parts()
    }
}

impl Bucket for MemBucket {
    ghost use Rattle.turn_lock.specs.Seats.{Lock};
    ghost use Rattle.logged_bucket.specs.LoggedState.{LoggedState};
    ghost use Rattle.mem_bucket.specs.MemPasses.{origin_of};

    type Pass = MemPass;

    ghost Identity = { Lock LoggedState };

    ghost origin = { origin_of };

    ghost told = { λ p. p };

    // The copy of the operation that the log keeps is made before the lock is entered, and the count of faults is set
    // once it is left.
    fn act<T: Wait>(
        &self,
        rt: &T,
        alloc: Global,
        pass: &mut MemPass,
        op: &Op,
    ) -> Result<(u64, Answer), NoMemory>
        requires pass { pass.old.origin ≡ origin_of self.now }
        requires own { IsTrue (has pass.old.held pass.old.lane) }
        requires may { IsAllowed (operation op.now) }
        ensures ok { IfOk result (λ r. Acts (operation op.now) pass.old pass.new r.0 r.1) }
        ensures err { OnErr result (SeesMore pass.old pass.new) }
        ensures kept { pass.new ≡ record pass.old { seen = pass.new.seen; mine = pass.new.mine; faults = pass.new.faults } }
        ensures faults { pass.old.faults ≤ pass.new.faults }
        ensures valid { IsBucketPass pass.new }
        ensures script { OnOk result (FollowsScript self.now.first.script pass.new.seen) }
        ensures scripted { IfOk result (λ r. FaultsByScript self.now.first.script r.0 r.1) }
    {
        let lane = pass.lane;
        let op = op.copy(alloc)?;
        let mut kept = self.turn.enter(rt, &mut pass.seat);
        let Ok((moment, answer)) = kept.make(alloc, lane, op) else {
            self.turn.leave(&mut pass.seat, kept);
            return Err(NoMemory);
        };
        self.turn.append(&mut pass.seat, &kept);
        self.turn.leave(&mut pass.seat, kept);
        pass.faults = count(pass.faults, &answer);
        Ok((moment, answer))
    }

    fn split(&self, pass: &mut MemPass, lane: u64) -> MemPass {
        MemPass {
            seat: self.turn.split(&mut pass.seat, lane),
            lane,
            faults: 0,
        }
    }

    fn meet(&self, pass: &mut MemPass, other: MemPass) {
        let MemPass {
            seat,
            lane: _,
            faults,
        } = other;
        self.turn.meet(&mut pass.seat, seat);
        pass.faults = pass.faults.saturating_add(faults);
    }

    fn glance(&self, pass: &mut MemPass) -> u64 {
        self.turn.glance(&mut pass.seat)
    }
}

/// The count of faults after an answer.
fn count(faults: u64, answer: &Answer) -> u64
    ensures counted { result ≡ faults_after answer.now faults }
    ensures kept { faults ≤ result }
{
    match answer {
        Answer::Fault => faults.saturating_add(1),
        _ => faults,
    }
}
