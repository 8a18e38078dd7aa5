//! The operations by Cloud Storage's table, one after another.
ghost use Rattle.std.specs.Prelude.{IfOk};
ghost use Rattle.bucket_api.specs.Metadata.{KeysRise};
ghost use Rattle.bucket_api.specs.Names.{IsObjectName};
ghost use Rattle.bucket_api.specs.Operation.{operation, IsAllowed};

use crate::Plain;
use bucket_api::{Answer, Meta, Op, Pair, allowed};
use io_ports::{Bytes, NoMemory, Row, Text};
use std::alloc::Global;
use std::collections::BTreeMap;
use std::marker::Model;
use std::process::Abort;
use std::test::Fail;

/// A bucket that is tried, and a number that none of its generations and metagenerations is above.
#[derive(Drop)]
struct Tried {
    bucket: Plain,
    most: u64,
}

impl Model for Tried {
    ghost use Rattle.bucket_api.specs.BucketState.{BucketState, IsBucket, IsWithin};

    ghost Value = { BucketState };

    ghost view = { λ t. t.bucket };

    ghost invariant = { λ t. IsBucket t.bucket × IsWithin t.most t.bucket };
}

impl Tried {
    /// A bucket that never held an object.
    fn new(alloc: Global) -> Tried {
        Tried {
            bucket: Plain::new(alloc),
            most: 0,
        }
    }

    /// A bucket whose objects are all gone.
    fn emptied(alloc: Global, last: u64) -> Tried {
        Tried {
            bucket: Plain::from_objects(BTreeMap::new(alloc), last),
            most: last,
        }
    }

    /// Makes one more operation.
    fn apply<R: Abort + AllocGlobal>(&mut self, rt: &R, op: &Op) -> Result<Answer, NoMemory>
        requires { IsAllowed (operation op.now) }
    {
        assert!(rt; self.most < 1000);
        let answer = self.bucket.apply(rt.alloc(), op)?;
        self.most += 1;
        Ok(answer)
    }

    /// Makes the operation, and compares its answer, as `shown` shows it.
    fn ask<R: Abort + AllocGlobal>(
        &mut self,
        rt: &R,
        op: &Op,
        expected: &str,
    ) -> Result<(), NoMemory>
        requires { IsAllowed (operation op.now) }
    {
        let answer = self.apply(rt, op)?;
        assert_eq!(rt; shown(rt.alloc(), &answer)?.as_str(), expected);
        Ok(())
    }

    fn stat<R: Abort + AllocGlobal>(&mut self, rt: &R, expected: &str) -> Result<(), NoMemory> {
        let op = Op::Stat {
            name: object_name(rt, "f")?,
        };
        self.ask(rt, &op, expected)
    }

    fn read<R: Abort + AllocGlobal>(
        &mut self,
        rt: &R,
        generation: u64,
        first: u64,
        count: u64,
        expected: &str,
    ) -> Result<(), NoMemory> {
        let op = Op::Read {
            name: object_name(rt, "f")?,
            generation,
            first,
            count,
        };
        self.ask(rt, &op, expected)
    }

    fn insert<R: Abort + AllocGlobal>(
        &mut self,
        rt: &R,
        only: Option<u64>,
        expected: &str,
    ) -> Result<(), NoMemory> {
        let op = Op::Insert {
            name: object_name(rt, "f")?,
            content: Bytes::of(rt.alloc(), b"hello")?,
            pairs: no_pairs(rt.alloc()),
            only,
            stamp: 5,
        };
        self.ask(rt, &op, expected)
    }

    /// Gives the bucket a content, and compares its answer.
    fn give<R: Abort + AllocGlobal>(
        &mut self,
        rt: &R,
        only: Option<u64>,
        expected: &str,
    ) -> Result<(), NoMemory> {
        let answer = self.insert_given(rt, only)?;
        assert_eq!(rt; shown(rt.alloc(), &answer)?.as_str(), expected);
        Ok(())
    }

    /// Moves the content `moved` into the bucket.
    fn insert_given<R: Abort + AllocGlobal>(
        &mut self,
        rt: &R,
        only: Option<u64>,
    ) -> Result<Answer, NoMemory> {
        assert!(rt; self.most < 1000);
        let name = object_name(rt, "f")?;
        let content = Bytes::of(rt.alloc(), b"moved")?;
        assert!(rt; content.as_slice().len() == 5);
        let pairs = no_pairs(rt.alloc());
        let answer = self
            .bucket
            .insert(rt.alloc(), &name, content, &pairs, only, 6)?;
        self.most += 1;
        Ok(answer)
    }

    fn update<R: Abort + AllocGlobal>(
        &mut self,
        rt: &R,
        pair: (&str, &str),
        only_meta: Option<u64>,
        expected: &str,
    ) -> Result<(), NoMemory> {
        let op = Op::Update {
            name: object_name(rt, "f")?,
            pairs: one_pair(rt.alloc(), pair.0, pair.1)?,
            only: None,
            only_meta,
            stamp: 9,
        };
        self.ask(rt, &op, expected)
    }

    fn delete<R: Abort + AllocGlobal>(
        &mut self,
        rt: &R,
        only: u64,
        expected: &str,
    ) -> Result<(), NoMemory> {
        let op = Op::Delete {
            name: object_name(rt, "f")?,
            only: Some(only),
        };
        self.ask(rt, &op, expected)
    }

    fn copy<R: Abort + AllocGlobal>(
        &mut self,
        rt: &R,
        generation: u64,
        expected: &str,
    ) -> Result<(), NoMemory> {
        let op = Op::Copy {
            from: object_name(rt, "f")?,
            generation,
            to: object_name(rt, "g")?,
            stamp: 7,
        };
        self.ask(rt, &op, expected)
    }

    fn list<R: Abort + AllocGlobal>(&mut self, rt: &R, expected: &str) -> Result<(), NoMemory> {
        let op = Op::List {
            prefix: Text::of(rt.alloc(), "")?,
            slash: false,
            max: 10,
            after: None,
        };
        self.ask(rt, &op, expected)
    }
}

/// An answer as text: what is told of an object as `shown_meta` shows it, the bytes that were read,
/// the number of a page's items, and the live generation and metageneration behind `precondition`.
fn shown(alloc: Global, answer: &Answer) -> Result<String, NoMemory> {
    match answer {
        Answer::Meta(meta) => shown_meta(alloc, meta),
        Answer::Bytes(bytes) => {
            let text = str::from_utf8(bytes.as_slice()).unwrap_or("no text");
            Ok(format!(in alloc; "read {text}")?)
        }
        Answer::Page(page) => Ok(format!(in alloc; "items {}", page.items.len())?),
        Answer::Done => Ok(String::from_str(alloc, "done")?),
        Answer::NotFound => Ok(String::from_str(alloc, "not found")?),
        Answer::Precondition {
            generation,
            metageneration,
        } => Ok(format!(in alloc; "precondition {generation} {metageneration}")?),
        Answer::Fault => Ok(String::from_str(alloc, "fault")?),
    }
}

/// The generation, the metageneration, the second of the last change, and each pair.
fn shown_meta(alloc: Global, meta: &Meta) -> Result<String, NoMemory> {
    let mut text = format!(in alloc;
        "{} {} at {}",
        meta.generation, meta.metageneration, meta.updated
    )?;
    for pair in meta.pairs.as_slice() {
        text.push_str(" ")?;
        text.push_str(pair.key.as_str())?;
        text.push_str("=")?;
        text.push_str(pair.value.as_str())?;
    }
    Ok(text)
}

fn object_name<R: Abort + AllocGlobal>(rt: &R, name: &str) -> Result<Text, NoMemory>
    ensures { IfOk result IsObjectName }
{
    assert!(rt; allowed(name));
    Text::of(rt.alloc(), name)
}

fn no_pairs(alloc: Global) -> Row<Pair>
    ensures { KeysRise result.items }
{
    Row::new(alloc)
}

fn one_pair(alloc: Global, key: &str, value: &str) -> Result<Row<Pair>, NoMemory>
    ensures { IfOk result (λ pairs. KeysRise pairs.items) }
{
    let pair = Pair {
        key: Text::of(alloc, key)?,
        value: Text::of(alloc, value)?,
    };
    let mut pairs = Row::new(alloc);
    pairs.reserve(1)?;
    pairs.push(pair);
    Ok(pairs)
}

#[test]
fn each_generation_is_given_once(rt: HostRuntime) -> Result<(), Fail> {
    let mut tried = Tried::new(rt.alloc());
    tried.insert(&rt, None, "1 1 at 5")?;
    tried.update(&rt, ("k", "v"), Some(1), "1 2 at 9 k=v")?;
    tried.update(&rt, ("k", "w"), Some(1), "precondition 1 2")?;
    tried.insert(&rt, Some(0), "precondition 1 2")?;
    tried.delete(&rt, 2, "precondition 1 2")?;
    tried.delete(&rt, 1, "done")?;
    tried.stat(&rt, "not found")?;
    tried.insert(&rt, Some(1), "precondition 0 0")?;
    tried.insert(&rt, None, "2 1 at 5")?;
    Ok(())
}

#[test]
fn a_bucket_goes_on_after_its_last_generation(rt: HostRuntime) -> Result<(), Fail> {
    let mut tried = Tried::emptied(rt.alloc(), 41);
    tried.insert(&rt, None, "42 1 at 5")?;
    Ok(())
}

#[test]
fn reads_end_at_the_end_of_a_live_generation(rt: HostRuntime) -> Result<(), Fail> {
    let mut tried = Tried::new(rt.alloc());
    tried.insert(&rt, None, "1 1 at 5")?;
    tried.read(&rt, 1, 1, 2, "read el")?;
    tried.read(&rt, 1, 3, u64::MAX, "read lo")?;
    tried.read(&rt, 1, u64::MAX, u64::MAX, "read ")?;
    tried.insert(&rt, None, "2 1 at 5")?;
    tried.read(&rt, 1, 0, 1, "not found")?;
    Ok(())
}

#[test]
fn a_content_is_moved_into_the_bucket(rt: HostRuntime) -> Result<(), Fail> {
    let mut tried = Tried::new(rt.alloc());
    tried.insert(&rt, None, "1 1 at 5")?;
    tried.give(&rt, Some(0), "precondition 1 1")?;
    tried.give(&rt, Some(1), "2 1 at 6")?;
    tried.read(&rt, 2, 0, 9, "read moved")?;
    Ok(())
}

#[test]
fn copies_have_a_generation_of_their_own(rt: HostRuntime) -> Result<(), Fail> {
    let mut tried = Tried::new(rt.alloc());
    tried.insert(&rt, None, "1 1 at 5")?;
    tried.copy(&rt, 1, "2 1 at 7")?;
    tried.copy(&rt, 2, "not found")?;
    tried.list(&rt, "items 2")?;
    Ok(())
}

#[test]
fn updates_add_and_replace_pairs_in_order(rt: HostRuntime) -> Result<(), Fail> {
    let mut tried = Tried::new(rt.alloc());
    tried.insert(&rt, None, "1 1 at 5")?;
    tried.update(&rt, ("m", "1"), None, "1 2 at 9 m=1")?;
    tried.update(&rt, ("z", "2"), None, "1 3 at 9 m=1 z=2")?;
    tried.update(&rt, ("b", "3"), None, "1 4 at 9 b=3 m=1 z=2")?;
    tried.update(&rt, ("m", "4"), None, "1 5 at 9 b=3 m=4 z=2")?;
    Ok(())
}

#[test]
fn a_bucket_is_copied(rt: HostRuntime) -> Result<(), Fail> {
    let mut tried = Tried::new(rt.alloc());
    tried.insert(&rt, None, "1 1 at 5")?;
    let copy = tried.bucket.copy(rt.alloc())?;
    assert_eq!(rt; copy.last(), 1);
    assert_eq!(rt; copy.objects().len(), 1);
    Ok(())
}
