//! The operations that change nothing.
ghost use Rattle.std.specs.Prelude.{◌≡◌, ◌≤◌, min, length, IfOk, take, drop, option_copied};
ghost use Rattle.bucket_api.specs.Operation.{stat, read, list};
ghost use Rattle.bucket_api.specs.BucketState.{object_at, IsBucket};
ghost use Rattle.bucket_api.specs.BucketStep.{answer_to};

use crate::plain::Plain;
use bucket_api::{Answer, Object};
use bucket_list::page;
use io_ports::{Bytes, NoMemory, Text};
use std::alloc::Global;

impl Plain {
    /// The live object of a name.
    pub(crate) fn live(&self, name: &Text) -> Option<&Object>
        ensures found { option_copied result ≡ object_at self.now name.now }
        ensures bucket { IsBucket self.now }
    {
        self.objects.get(name)
    }

    /// The metadata of the live object.
    pub(crate) fn stat(&self, alloc: Global, name: &Text) -> Result<Answer, NoMemory>
        ensures ok { IfOk result (λ answer. answer ≡ answer_to (stat name.now) self.now) }
    {
        match self.live(name) {
            Some(object) => Ok(Answer::Meta(object.meta.copy(alloc)?)),
            None => Ok(Answer::NotFound),
        }
    }

    /// At most `count` bytes from `first` on of a generation that is live, fewer at its end.
    pub(crate) fn read(
        &self,
        alloc: Global,
        name: &Text,
        generation: u64,
        first: u64,
        count: u64,
    ) -> Result<Answer, NoMemory>
        ensures ok { IfOk result (λ answer. answer ≡ answer_to (read name.now generation first count) self.now) }
    {
        match self.live(name) {
            Some(object) if object.meta.generation == generation => Ok(Answer::Bytes(part(
                alloc,
                &object.content,
                first,
                count,
            )?)),
            _ => Ok(Answer::NotFound),
        }
    }

    /// One page of the names.
    pub(crate) fn list(
        &self,
        alloc: Global,
        prefix: &Text,
        slash: bool,
        max: u64,
        after: &Option<Text>,
    ) -> Result<Answer, NoMemory>
        requires { 1 ≤ max }
        ensures ok { IfOk result (λ answer. answer ≡ answer_to (list prefix.now slash max after.now) self.now) }
    {
        let after = after.as_ref().map(|key| key.as_str());
        let shown = page(alloc, &self.objects, prefix.as_str(), slash, max, after)?;
        Ok(Answer::Page(shown))
    }
}

/// At most `count` bytes from the place `first` on, none where it lies past the end.
fn part(alloc: Global, content: &Bytes, first: u64, count: u64) -> Result<Bytes, NoMemory>
    ensures ok { IfOk result (λ bytes. bytes ≡ take count (drop first content.now)) }
{
    let content = content.as_slice();
    let (_, rest) = content.split_at(within(content, first));
    let (bytes, _) = rest.split_at(within(rest, count));
    Bytes::of(alloc, bytes)
}

fn within(bytes: &[u8], place: u64) -> usize
    ensures { result ≡ min place (length bytes.now) }
{
    let len = bytes.len();
    if place < len as u64 {
        place as usize
    } else {
        len
    }
}
