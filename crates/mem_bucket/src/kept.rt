//! What the lock of a shared bucket keeps.
ghost use Rattle.std.specs.Prelude.{◌≡◌, ◌^◌, ◌-◌, [], length, IfOk, OnErr};
ghost use Rattle.bucket_api.specs.Operation.{operation, IsAllowed};
ghost use Rattle.bucket_api.specs.BucketState.{IsWithin};
ghost use Rattle.bucket_api.specs.Log.{state_at, FollowsScript};
ghost use Rattle.bucket_api.specs.Scripts.{script_of, IsScript};
ghost use Rattle.logged_bucket.specs.Logging.{MakesEvent};

use bucket_api::{Answer, Event, Op, Scripted};
use bucket_plain::Plain;
use io_ports::{NoMemory, Row};
use logged_bucket::LoggedBucket;
use std::alloc::Global;
use std::marker::Model;
use turn_lock::Booked;

/// What the lock keeps: a bucket with its log. It stands for the log, and its home is the bucket before the log, with
/// the script.
#[derive(Drop)]
pub struct Kept {
    logged: LoggedBucket,
}

impl Model for Kept {
    ghost use Rattle.logged_bucket.specs.LoggedState.{LoggedState};

    ghost Value = { LoggedState };

    ghost view = { λ k. k.logged };
}

impl Booked for Kept {
    ghost use Rattle.std.specs.Prelude.{ℕ, List};
    ghost use Rattle.bucket_api.specs.declared.events.Mode.{Mode};
    ghost use Rattle.bucket_api.specs.BucketState.{BucketState};
    ghost use Rattle.mem_bucket.specs.Homes.{home_of, MayMake};

    type Entry = Event;

    ghost Home = { BucketState × List (ℕ × Mode) };

    ghost home = { home_of };

    ghost entries = { λ k. k.log };

    ghost may_make = { MayMake };
}

impl Kept {
    /// A bucket with an empty log.
    pub(crate) fn new(alloc: Global, start: Plain, script: Row<Scripted>) -> Kept
        requires script { IsScript (script_of script.items) }
        requires small { IsWithin (2 ^ 62 - 1) start }
        ensures { result ≡ record { start = start; script = script_of script.items; log = [] } }
    {
        Kept {
            logged: LoggedBucket::new(alloc, start, script),
        }
    }

    /// Makes the operation, as the log's next event. After `NoMemory` nothing has changed.
    ///
    /// All of this is done under the lock. Room in the log can only be made here, since others fill it. The answer is a
    /// copy of what the bucket holds at this moment, so it is made here too.
    pub(crate) fn make(
        &mut self,
        alloc: Global,
        lane: u64,
        op: Op,
    ) -> Result<(u64, Answer), NoMemory>
        requires may { IsAllowed (operation op) }
        ensures ok { IfOk result (λ r. MakesEvent lane (operation op) self.old self.new r.0 r.1) }
        ensures err { OnErr result (self.new ≡ self.old) }
    {
        self.logged.act(alloc, lane, op)
    }

    /// The bucket after its log, and the log.
    pub(crate) fn into_parts(self) -> (Plain, Row<Event>)
        ensures bucket { result.0 ≡ state_at self.start self.log (length self.log) }
        ensures log { result.1.items ≡ self.log }
        ensures script { FollowsScript self.script self.log }
    {
        let Kept { logged } = self;
        logged.into_parts()
    }
}
