//! The kinds of bucket that the table is tried on.
ghost use Rattle.bucket_api.specs.Operation.{operation, IsAllowed};
ghost use Rattle.std.specs.Prelude.{◌^◌, ◌-◌, ◌≡◌, [], IfOk};
ghost use Rattle.bucket_api.specs.BucketState.{IsWithin};
ghost use Rattle.bucket_api.specs.Scripts.{script_of, IsScript};

use crate::{MemBucket, MemPass};
use bucket_api::{Answer, Bucket, Op, Scripted};
use bucket_plain::Plain;
use io_ports::{NoMemory, Row};
use std::alloc::Global;
use std::marker::Model;
use std::process::Abort;
use std::sync::Wait;

/// A bucket that is tried.
pub(super) trait Tried {
    /// Makes one more operation.
    fn ask<R: Abort + AllocGlobal + Wait>(&mut self, rt: &R, op: &Op) -> Result<Answer, NoMemory>
        requires { IsAllowed (operation op.now) };
}

/// A bucket of one caller, and a number that none of its generations and metagenerations is above.
#[derive(Drop)]
pub(super) struct Alone {
    bucket: Plain,
    most: u64,
}

impl Model for Alone {
    ghost use Rattle.bucket_api.specs.BucketState.{BucketState, IsBucket, IsWithin};

    ghost Value = { BucketState };

    ghost view = { λ t. t.bucket };

    ghost invariant = { λ t. IsBucket t.bucket × IsWithin t.most t.bucket };
}

impl Alone {
    /// A bucket that never held an object.
    pub(super) fn new(alloc: Global) -> Alone {
        Alone {
            bucket: Plain::new(alloc),
            most: 0,
        }
    }
}

impl Tried for Alone {
    fn ask<R: Abort + AllocGlobal + Wait>(&mut self, rt: &R, op: &Op) -> Result<Answer, NoMemory> {
        assert!(rt; self.most < 1000);
        let answer = self.bucket.apply(rt.alloc(), op)?;
        self.most += 1;
        Ok(answer)
    }
}

/// A bucket that many share, with its one pass.
#[derive(Drop)]
pub(super) struct Shared {
    bucket: MemBucket,
    pass: MemPass,
}

impl Model for Shared {
    ghost use Rattle.std.specs.Prelude.{◌≡◌, IsTrue, ℕ};
    ghost use Rattle.lane_spec.specs.Numbers.{has};
    ghost use Rattle.mem_bucket.specs.MemPasses.{origin_of};

    ghost Value = { ℕ };

    ghost view = { λ s. s.pass.faults };

    ghost invariant = { λ s. (s.pass.origin ≡ origin_of s.bucket) × IsTrue (has s.pass.held s.pass.lane) };
}

impl Shared {
    /// A bucket that never held an object, with a script of its faults.
    pub(super) fn new(alloc: Global, script: Row<Scripted>) -> Result<Shared, NoMemory>
        requires { IsScript (script_of script.items) }
        ensures { IfOk result (λ shared. shared ≡ 0) }
    {
        let (bucket, pass) = MemBucket::new(alloc, Plain::new(alloc), script)?;
        Ok(Shared { bucket, pass })
    }

    /// How many faults its pass has met.
    pub(super) fn faults(&self) -> u64
        ensures { result ≡ self.now }
    {
        self.pass.faults
    }
}

impl Tried for Shared {
    fn ask<R: Abort + AllocGlobal + Wait>(&mut self, rt: &R, op: &Op) -> Result<Answer, NoMemory> {
        let (_, answer) = self.bucket.act(rt, rt.alloc(), &mut self.pass, op)?;
        Ok(answer)
    }
}
