//! The operations that change the bucket.
ghost use Rattle.std.specs.Prelude.{◌≡◌, ◌+◌, ◌^◌, ◌<◌, ◌-◌, IfOk, OnOk, OnErr};
ghost use Rattle.bucket_api.specs.Operation.{insert, update, delete, copy, IsAllowed};
ghost use Rattle.bucket_api.specs.BucketState.{generation_at, metageneration_at, HasRoom, IsStored};
ghost use Rattle.bucket_api.specs.Metadata.{KeysRise};
ghost use Rattle.bucket_api.specs.BucketStep.{answer_to, state_after, is_met, new_object, with_new, with_pairs};

use crate::pairs::merged;
use crate::plain::Plain;
use bucket_api::{Answer, Meta, Object, Pair, copy_pairs};
use io_ports::{Bytes, NoMemory, Row, Text};
use std::alloc::Global;

impl Plain {
    /// Makes what `apply` makes of an `Insert` with these parts, and takes the content by value: it is moved into the
    /// bucket and not copied. `only` is the generation that must be live, where 0 asks that none is (Cloud Storage:
    /// `ifGenerationMatch`); `stamp` is the second of the change.
    ///
    /// An answer other than `Meta` has changed nothing, and so has `NoMemory`; the content is let go then.
    pub fn insert(
        &mut self,
        alloc: Global,
        name: &Text,
        content: Bytes,
        pairs: &Row<Pair>,
        only: Option<u64>,
        stamp: u64,
    ) -> Result<Answer, NoMemory>
        requires room { HasRoom self.old }
        requires may { IsAllowed (insert name.now content pairs.now.items only stamp) }
        ensures ok { IfOk result (λ answer. answer ≡ answer_to (insert name.now content pairs.now.items only stamp) self.old) }
        ensures after { OnOk result (self.new ≡ state_after (insert name.now content pairs.now.items only stamp) self.old) }
        ensures kept { OnErr result (self.new ≡ self.old) }
    {
        let (generation, metageneration) = self.numbers(name);
        if !is_met(only, generation) {
            return Ok(Answer::Precondition {
                generation,
                metageneration,
            });
        }
        let object = self.made(alloc, name, content, pairs, stamp)?;
        self.put(alloc, name, object)
    }

    /// More pairs for the live generation, which gets one more metageneration. `NoMemory` leaves all as it was.
    pub(crate) fn update(
        &mut self,
        alloc: Global,
        name: &Text,
        pairs: &Row<Pair>,
        only: Option<u64>,
        only_meta: Option<u64>,
        stamp: u64,
    ) -> Result<Answer, NoMemory>
        requires room { HasRoom self.old }
        requires may { IsAllowed (update name.now pairs.now.items only only_meta stamp) }
        ensures ok { IfOk result (λ answer. answer ≡ answer_to (update name.now pairs.now.items only only_meta stamp) self.old) }
        ensures after { OnOk result (self.new ≡ state_after (update name.now pairs.now.items only only_meta stamp) self.old) }
        ensures kept { OnErr result (self.new ≡ self.old) }
    {
        let Some(object) = self.live(name) else {
            return Ok(Answer::NotFound);
        };
        if !is_met(only, object.meta.generation) || !is_met(only_meta, object.meta.metageneration) {
            return Ok(refused(&object.meta));
        }
        let meta = updated(alloc, &object.meta, pairs, stamp)?;
        let answer = meta.copy(alloc)?;
        self.objects.get_mut(name).unwrap().meta = meta;
        Ok(Answer::Meta(answer))
    }

    /// Takes the live object away, where its generation is the one asked for. It takes no memory.
    pub(crate) fn delete(&mut self, name: &Text, only: Option<u64>) -> Answer
        ensures answer { result ≡ answer_to (delete name.now only) self.old }
        ensures after { self.new ≡ state_after (delete name.now only) self.old }
    {
        let Some(object) = self.live(name) else {
            return Answer::NotFound;
        };
        if !is_met(only, object.meta.generation) {
            return refused(&object.meta);
        }
        let _ = self.objects.remove(name);
        Answer::Done
    }

    /// A new generation under `to` with the content and pairs of a live one. `NoMemory` leaves all as it was.
    pub(crate) fn copy_object(
        &mut self,
        alloc: Global,
        from: &Text,
        generation: u64,
        to: &Text,
        stamp: u64,
    ) -> Result<Answer, NoMemory>
        requires room { HasRoom self.old }
        requires may { IsAllowed (copy from.now generation to.now stamp) }
        ensures ok { IfOk result (λ answer. answer ≡ answer_to (copy from.now generation to.now stamp) self.old) }
        ensures after { OnOk result (self.new ≡ state_after (copy from.now generation to.now stamp) self.old) }
        ensures kept { OnErr result (self.new ≡ self.old) }
    {
        match self.live(from) {
            Some(object) if object.meta.generation == generation => {
                let object = self.copied(alloc, to, object, stamp)?;
                self.put(alloc, to, object)
            }
            _ => Ok(Answer::NotFound),
        }
    }

    /// The live generation and metageneration, both 0 where none is live.
    fn numbers(&self, name: &Text) -> (u64, u64)
        ensures generation { result.0 ≡ generation_at self.now name.now }
        ensures metageneration { result.1 ≡ metageneration_at self.now name.now }
    {
        match self.live(name) {
            Some(object) => (object.meta.generation, object.meta.metageneration),
            None => (0, 0),
        }
    }

    /// An object with this content, under the next generation.
    fn made(
        &self,
        alloc: Global,
        name: &Text,
        content: Bytes,
        pairs: &Row<Pair>,
        stamp: u64,
    ) -> Result<Object, NoMemory>
        requires { self.now.last < 2 ^ 64 - 1 }
        ensures ok { IfOk result (λ object. object ≡ new_object self.now name.now content pairs.now.items stamp) }
    {
        let meta = Meta {
            name: name.copy(alloc)?,
            generation: self.last + 1,
            metageneration: 1,
            size: content.as_slice().len() as u64,
            updated: stamp,
            pairs: copy_pairs(alloc, pairs)?,
        };
        Ok(Object { meta, content })
    }

    /// The object's content and pairs under another name and the next generation.
    fn copied(
        &self,
        alloc: Global,
        to: &Text,
        object: &Object,
        stamp: u64,
    ) -> Result<Object, NoMemory>
        requires { self.now.last < 2 ^ 64 - 1 }
        ensures ok { IfOk result (λ copy. copy ≡ new_object self.now to.now object.now.content object.now.meta.pairs stamp) }
    {
        let content = object.content.copy(alloc)?;
        self.made(alloc, to, content, &object.meta.pairs, stamp)
    }

    /// Puts an object that has the next generation, and answers what is told of it.
    fn put(&mut self, alloc: Global, name: &Text, object: Object) -> Result<Answer, NoMemory>
        requires room { self.old.last < 2 ^ 64 - 1 }
        requires stored { IsStored (self.old.last + 1) name.now object }
        ensures ok { IfOk result (λ answer. answer ≡ Answer.Meta object.meta) }
        ensures after { OnOk result (self.new ≡ with_new self.old name.now object) }
        ensures kept { OnErr result (self.new ≡ self.old) }
    {
        let answer = object.meta.copy(alloc)?;
        let name = name.copy(alloc)?;
        let Ok(_) = self.objects.insert(name, object) else {
            return Err(NoMemory);
        };
        self.last += 1;
        Ok(Answer::Meta(answer))
    }
}

/// Whether a precondition on a number is met. The number is 0 where no object is live.
fn is_met(only: Option<u64>, live: u64) -> bool
    ensures { result ≡ is_met only live }
{
    match only {
        Some(only) => only == live,
        None => true,
    }
}

fn refused(meta: &Meta) -> Answer
    ensures { result ≡ Answer.Precondition meta.now.generation meta.now.metageneration }
{
    Answer::Precondition {
        generation: meta.generation,
        metageneration: meta.metageneration,
    }
}

/// What is told of an object once the pairs are added or put in their places.
fn updated(alloc: Global, live: &Meta, pairs: &Row<Pair>, stamp: u64) -> Result<Meta, NoMemory>
    requires room { live.now.metageneration < 2 ^ 64 - 1 }
    requires rise { KeysRise pairs.now.items }
    ensures ok { IfOk result (λ meta. meta ≡ record live.now { metageneration = live.now.metageneration + 1; updated = stamp; pairs = with_pairs live.now.pairs pairs.now.items }) }
{
    Ok(Meta {
        name: live.name.copy(alloc)?,
        generation: live.generation,
        metageneration: live.metageneration + 1,
        size: live.size,
        updated: stamp,
        pairs: merged(alloc, &live.pairs, pairs)?,
    })
}
