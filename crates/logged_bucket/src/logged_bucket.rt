//! The bucket with its log.
ghost use Rattle.std.specs.Prelude.{◌≡◌, ◌≤◌, ◌^◌, ◌-◌, [], length, IfOk, OnOk, OnErr};
ghost use Rattle.bucket_api.specs.Operation.{operation, IsAllowed};
ghost use Rattle.bucket_api.specs.BucketState.{IsBucket, IsWithin, HasRoom};
ghost use Rattle.bucket_api.specs.Log.{state_at, state_by, answer_by, FollowsScript};
ghost use Rattle.bucket_api.specs.Scripts.{script_of, IsScript};
ghost use Rattle.logged_bucket.specs.Logging.{MakesEvent};

use crate::script::next_mode;
use bucket_api::{Answer, Event, Mode, Op, Scripted, moment_at};
use bucket_plain::Plain;
use io_ports::{NoMemory, Row};
use std::alloc::Global;
use std::marker::Model;
use std::snapshot::Snapshot;

/// The most events of a log: one less than the book of a lock has room for.
const MOST_EVENTS: u64 = (1 << 63) - 1;

/// A bucket in memory with the log of its operations and the script of its faults: a `Failed` operation has no effect, a
/// `Lost` one its whole effect, both are answered by a fault, and no other is.
///
/// Clauses see it as the bucket before the log, the script, and the log.
#[derive(Drop)]
pub struct LoggedBucket {
    bucket: Plain,
    log: Row<Event>,
    script: Row<Scripted>,
    /// How much of the script is behind: its first moments, up to the last event's.
    behind: usize,
    /// The bucket before the log, which has no bytes.
    start: Snapshot<Plain>,
}

impl Model for LoggedBucket {
    ghost use Rattle.std.specs.Prelude.{drop};
    ghost use Rattle.bucket_api.specs.Scripts.{script_of};
    ghost use Rattle.logged_bucket.specs.LoggedState.{LoggedState};

    ghost Value = { LoggedState };

    ghost use Rattle.logged_bucket.specs.Logging.{IsLogged};

    ghost view = { λ b. record { start = b.start.value; script = script_of b.script.items; log = b.log.items } };

    ghost invariant = { λ b. IsLogged (record { start = b.start.value; script = script_of b.script.items; log = b.log.items }) b.bucket (drop b.behind (script_of b.script.items)) };
}

impl LoggedBucket {
    /// A bucket with an empty log. The script's moments, which count from 1, rise, and none of its modes is `Done`. It
    /// takes no memory.
    pub fn new(alloc: Global, start: Plain, script: Row<Scripted>) -> LoggedBucket
        requires script { IsScript (script_of script.items) }
        requires small { IsWithin (2 ^ 62 - 1) start }
        ensures { result ≡ record { start = start; script = script_of script.items; log = [] } }
    {
        let before = Snapshot::of(&start);
        start.last();
        LoggedBucket {
            bucket: start,
            log: Row::new(alloc),
            script,
            behind: 0,
            start: before,
        }
    }

    /// Makes the operation, as the log's next event, and gives the event's moment and its answer. After `NoMemory`
    /// nothing has changed.
    pub fn act(&mut self, alloc: Global, lane: u64, op: Op) -> Result<(u64, Answer), NoMemory>
        requires may { IsAllowed (operation op) }
        ensures ok { IfOk result (λ r. MakesEvent lane (operation op) self.old self.new r.0 r.1) }
        ensures err { OnErr result (self.new ≡ self.old) }
    {
        let events = self.log.len();
        if events >= MOST_EVENTS {
            return Err(NoMemory);
        }
        self.log.reserve(1)?;
        let moment = moment_at(events);
        let (mode, behind) = next_mode(self.script.as_slice(), self.behind, events);
        let answer = apply_by(&mut self.bucket, alloc, mode, &op)?;
        self.log.push(Event { lane, op, mode });
        self.behind = behind;
        Ok((moment, answer))
    }

    /// The bucket as it stands after its log.
    pub fn bucket(&self) -> &Plain
        ensures bucket { result.now ≡ state_at self.now.start self.now.log (length self.now.log) }
        ensures script { FollowsScript self.now.script self.now.log }
    {
        &self.bucket
    }

    /// The log. The event at a moment stands one place before it.
    pub fn log(&self) -> &Row<Event>
        ensures { result.now.items ≡ self.now.log }
    {
        &self.log
    }

    /// The bucket after its log, and the log.
    pub fn into_parts(self) -> (Plain, Row<Event>)
        ensures bucket { result.0 ≡ state_at self.start self.log (length self.log) }
        ensures log { result.1.items ≡ self.log }
        ensures script { FollowsScript self.script self.log }
    {
        let LoggedBucket {
            bucket,
            log,
            script: _,
            behind: _,
            start: _,
        } = self;
        (bucket, log)
    }
}

/// Makes an operation in a mode: one that fails has no effect, and one whose answer is lost has its whole effect.
fn apply_by(bucket: &mut Plain, alloc: Global, mode: Mode, op: &Op) -> Result<Answer, NoMemory>
    requires room { HasRoom bucket.old }
    requires may { IsAllowed (operation op.now) }
    ensures ok { IfOk result (λ answer. answer ≡ answer_by mode (operation op.now) bucket.old) }
    ensures after { OnOk result (bucket.new ≡ state_by mode (operation op.now) bucket.old) }
    ensures kept { OnErr result (bucket.new ≡ bucket.old) }
{
    match mode {
        Mode::Done => bucket.apply(alloc, op),
        Mode::Failed => Ok(Answer::Fault),
        Mode::Lost => {
            bucket.apply(alloc, op)?;
            Ok(Answer::Fault)
        }
    }
}
