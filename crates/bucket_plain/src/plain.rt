//! A bucket in memory.
ghost use Rattle.std.specs.Prelude.{◌≡◌, IfOk, OnOk, OnErr};
ghost use Rattle.bucket_api.specs.Operation.{operation, IsAllowed};
ghost use Rattle.bucket_api.specs.BucketState.{empty_bucket, IsBucket, HasRoom};
ghost use Rattle.bucket_api.specs.BucketStep.{answer_to, state_after};

use bucket_api::{Answer, Object, Op};
use io_ports::{NoMemory, Text};
use std::alloc::Global;
use std::collections::BTreeMap;
use std::marker::Model;

/// A bucket in memory: its live objects by name, and the last generation that it gave. Clauses see
/// it as a bucket's plain data; names rise in it, each object stands under its own name with a
/// generation from 1 to the last one given, and no content is longer than 16,777,216 bytes.
#[derive(Drop)]
pub struct Plain {
    pub(crate) objects: BTreeMap<Text, Object>,
    pub(crate) last: u64,
}

impl Model for Plain {
    ghost use Rattle.bucket_api.specs.BucketState.{BucketState, IsBucket};

    ghost Value = { BucketState };

    ghost view = { λ p. record { entries = p.objects.entries; last = p.last } };

    ghost invariant = { λ p. IsBucket (record { entries = p.objects.entries; last = p.last }) };
}

impl Plain {
    /// A bucket without objects, which has given no generation yet. It takes no memory.
    pub fn new(alloc: Global) -> Plain
        ensures { result ≡ empty_bucket }
    {
        Plain {
            objects: BTreeMap::new(alloc),
            last: 0,
        }
    }

    /// A bucket with these live objects, which has given the generations up to `last`.
    pub fn from_objects(objects: BTreeMap<Text, Object>, last: u64) -> Plain
        requires { IsBucket (record { entries = objects.entries; last = last }) }
        ensures { result ≡ record { entries = objects.entries; last = last } }
    {
        Plain { objects, last }
    }

    /// A bucket that is equal to this one.
    pub fn copy(&self, alloc: Global) -> Result<Plain, NoMemory>
        ensures ok { IfOk result (λ copy. copy ≡ self.now) }
    {
        let mut objects = BTreeMap::new(alloc);
        for (name, object) in &self.objects {
            let name = name.copy(alloc)?;
            let object = object.copy(alloc)?;
            objects.insert(name, object)?;
        }
        Ok(Plain {
            objects,
            last: self.last,
        })
    }

    /// The live objects by name.
    pub fn objects(&self) -> &BTreeMap<Text, Object>
        ensures { result.now.entries ≡ self.now.entries }
    {
        &self.objects
    }

    /// The last generation that was given, 0 where none was.
    pub fn last(&self) -> u64
        ensures value { result ≡ self.now.last }
        ensures bucket { IsBucket self.now }
    {
        self.last
    }

    /// Makes the operation, and gives its answer, which is never a fault.
    ///
    /// An answer other than `Meta` and `Done` has changed nothing, and so has `NoMemory`.
    pub fn apply(&mut self, alloc: Global, op: &Op) -> Result<Answer, NoMemory>
        requires room { HasRoom self.old }
        requires may { IsAllowed (operation op.now) }
        ensures ok { IfOk result (λ answer. answer ≡ answer_to (operation op.now) self.old) }
        ensures after { OnOk result (self.new ≡ state_after (operation op.now) self.old) }
        ensures kept { OnErr result (self.new ≡ self.old) }
    {
        match op {
            Op::Stat { name } => self.stat(alloc, name),
            Op::Read {
                name,
                generation,
                first,
                count,
            } => self.read(alloc, name, *generation, *first, *count),
            Op::Insert {
                name,
                content,
                pairs,
                only,
                stamp,
            } => {
                let content = content.copy(alloc)?;
                self.insert(alloc, name, content, pairs, *only, *stamp)
            },
            Op::Update {
                name,
                pairs,
                only,
                only_meta,
                stamp,
            } => self.update(alloc, name, pairs, *only, *only_meta, *stamp),
            Op::Delete { name, only } => Ok(self.delete(name, *only)),
            Op::Copy {
                from,
                generation,
                to,
                stamp,
            } => self.copy_object(alloc, from, *generation, to, *stamp),
            Op::List {
                prefix,
                slash,
                max,
                after,
            } => self.list(alloc, prefix, *slash, *max, after),
        }
    }
}
