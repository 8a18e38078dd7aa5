//! The bucket of a mount on one thread.
ghost use Rattle.std.specs.Prelude.{◌≡◌, ◌<◌, ◌≤◌, ◌+◌, ◌^◌, IfOk, OnOk, OnErr};
ghost use Rattle.bucket_api.specs.BucketState.{BucketState, HasRoom, IsBucket, IsWithin};
ghost use Rattle.bucket_api.specs.BucketStep.{answer_to, state_after};
ghost use Rattle.bucket_api.specs.Operation.{operation, IsAllowed};
ghost use Rattle.mount_core.specs.Stores.{most};

use bucket_api::{Answer, Op};
use bucket_plain::Plain;
use io_ports::NoMemory;
use std::alloc::Global;
use std::marker::Model;

/// The most operations that are made on a bucket, so that no number comes to its end.
const MOST_OPERATIONS: u64 = 1 << 48;

/// A bucket, and how many operations were made on it.
#[derive(Drop)]
pub(crate) struct Store {
    bucket: Plain,
    made: u64,
}

impl Model for Store {
    ghost use Rattle.mount_core.specs.Stores.{Counted, IsCounted};

    ghost Value = { Counted };

    ghost view = { λ s. record { bucket = s.bucket; made = s.made } };

    ghost invariant = { λ s. IsCounted (record { bucket = s.bucket; made = s.made }) };
}

impl Store {
    /// A bucket on which no operation was made yet. Its generations and metagenerations are at most 2^62.
    pub(crate) fn new(bucket: Plain) -> Store
        requires within { IsWithin (2 ^ 62) bucket }
        ensures store { result ≡ record { bucket = bucket; made = 0 } }
        ensures valid { IsBucket bucket }
    {
        bucket.last();
        Store { bucket, made: 0 }
    }

    /// Makes an operation: its moment, from 1, and its answer. The content of an insert is moved into the bucket. `NoMemory`
    /// where memory for the answer or the object was refused, or once 2^48 operations were made; then nothing was made, and
    /// the operation is let go.
    pub(crate) fn make(&mut self, alloc: Global, op: Op) -> Result<(u64, Answer), NoMemory>
        requires may { IsAllowed (operation op) }
        ensures ok { IfOk result (λ made. (made.0 ≡ self.old.made + 1) × (made.1 ≡ answer_to (operation op) self.old.bucket)) }
        ensures after { OnOk result (self.new ≡ record { bucket = state_after (operation op) self.old.bucket; made = self.old.made + 1 }) }
        ensures bounded { OnOk result (self.old.made < most) }
        ensures valid { IsBucket self.old.bucket }
        ensures err { OnErr result (self.new ≡ self.old) }
    {
        if self.made >= MOST_OPERATIONS {
            return Err(NoMemory);
        }
        let answer = apply_whole(&mut self.bucket, alloc, op)?;
        self.made += 1;
        Ok((self.made, answer))
    }

    /// What the bucket, as it stands, answers an operation that changes nothing. It is not counted. `NoMemory` where memory
    /// for the answer was refused.
    pub(crate) fn look(&mut self, alloc: Global, op: &Op) -> Result<Answer, NoMemory>
        requires may { IsAllowed (operation op.now) }
        requires quiet { (b : BucketState) → state_after (operation op.now) b ≡ b }
        ensures ok { IfOk result (λ answer. answer ≡ answer_to (operation op.now) self.old.bucket) }
        ensures valid { IsBucket self.old.bucket }
        ensures kept { self.new ≡ self.old }
    {
        self.bucket.apply(alloc, op)
    }

    /// The bucket as it stands.
    pub(crate) fn bucket(&self) -> &Plain
        ensures { result.now ≡ self.now.bucket }
    {
        &self.bucket
    }
}

/// Makes an operation that is given whole: the content of an insert is moved into the bucket, and not copied.
fn apply_whole(bucket: &mut Plain, alloc: Global, op: Op) -> Result<Answer, NoMemory>
    requires room { HasRoom bucket.old }
    requires may { IsAllowed (operation op) }
    ensures ok { IfOk result (λ answer. answer ≡ answer_to (operation op) bucket.old) }
    ensures after { OnOk result (bucket.new ≡ state_after (operation op) bucket.old) }
    ensures kept { OnErr result (bucket.new ≡ bucket.old) }
{
    match op {
        Op::Insert {
            name,
            content,
            pairs,
            only,
            stamp,
        } => bucket.insert(alloc, &name, content, &pairs, only, stamp),
        op => bucket.apply(alloc, &op),
    }
}
