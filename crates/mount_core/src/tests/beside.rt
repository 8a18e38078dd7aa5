//! Requests on a mount, and beside them what another writer does in its bucket, and what stands there.
ghost use Rattle.std.specs.Prelude.{◌≡◌, IfOk};
ghost use Rattle.bucket_api.specs.BucketState.{BucketState};
ghost use Rattle.bucket_api.specs.BucketStep.{state_after};
ghost use Rattle.bucket_api.specs.Operation.{IsAllowed, operation};

use crate::Serial;
use crate::tests::no_pairs;
use crate::tests::steps::{Step, plays};
use bucket_api::{Answer, Op, allowed};
use io_ports::{Bytes, NoMemory, Text};
use std::alloc::Global;
use std::process::Abort;

/// What is done with a mount and with its bucket.
#[derive(Clone, Copy)]
pub(crate) enum Act<'a> {
    /// Requests are sent.
    Play(&'a [Step<'a>]),
    /// Another writer replaces the object `f`, or makes it.
    Replace(&'a str),
    /// Another writer deletes it.
    Remove,
    /// It has this generation and content.
    Holds(u64, &'a str),
    /// The object of this name has this content.
    Stands(&'a str, &'a str),
    /// No object of this name is live.
    Lacks(&'a str),
}

/// Does one after the other.
pub(crate) fn acts<R: Abort + AllocGlobal>(
    rt: &R,
    mount: &mut Serial,
    acts: &[Act<'_>],
) -> Result<(), NoMemory> {
    for one in acts {
        does(rt, mount, *one)?;
    }
    Ok(())
}

/// Does one of them.
fn does<R: Abort + AllocGlobal>(rt: &R, mount: &mut Serial, one: Act<'_>) -> Result<(), NoMemory> {
    match one {
        Act::Play(steps) => plays(rt, mount, steps),
        Act::Replace(content) => replace(rt, mount, content),
        Act::Remove => remove(rt, mount),
        Act::Holds(generation, content) => {
            assert!(rt; holds(rt, mount, "f", generation, content)?);
            Ok(())
        }
        Act::Stands(name, content) => {
            assert!(rt; stands(rt, mount, name, content)?);
            Ok(())
        }
        Act::Lacks(name) => {
            assert!(rt; lacks(rt, mount, name)?);
            Ok(())
        }
    }
}

/// Another writer replaces the object `f` in the bucket of the mount, or makes it.
fn replace<R: Abort + AllocGlobal>(
    rt: &R,
    mount: &mut Serial,
    content: &str,
) -> Result<(), NoMemory> {
    let op = insert_of(rt, content)?;
    make(rt.alloc(), mount, op)
}

/// Another writer deletes it.
fn remove<R: Abort + AllocGlobal>(rt: &R, mount: &mut Serial) -> Result<(), NoMemory> {
    let op = delete_of(rt)?;
    make(rt.alloc(), mount, op)
}

/// Makes an operation beside the mount.
fn make(alloc: Global, mount: &mut Serial, op: Op) -> Result<(), NoMemory>
    requires { IsAllowed (operation op) }
{
    mount.store.make(alloc, op)?;
    Ok(())
}

/// The object of a name has this content.
fn stands<R: Abort + AllocGlobal>(
    rt: &R,
    mount: &mut Serial,
    name: &str,
    content: &str,
) -> Result<bool, NoMemory> {
    let op = stat_of(rt, name)?;
    match mount.store.look(rt.alloc(), &op)? {
        Answer::Meta(meta) => holds(rt, mount, name, meta.generation, content),
        _ => Ok(false),
    }
}

/// No object of a name is live.
fn lacks<R: Abort + AllocGlobal>(rt: &R, mount: &mut Serial, name: &str) -> Result<bool, NoMemory> {
    let op = stat_of(rt, name)?;
    let answer = mount.store.look(rt.alloc(), &op)?;
    Ok(matches!(answer, Answer::NotFound))
}

/// The object of a name has this generation and content.
fn holds<R: Abort + AllocGlobal>(
    rt: &R,
    mount: &mut Serial,
    name: &str,
    generation: u64,
    content: &str,
) -> Result<bool, NoMemory> {
    let op = read_of(rt, name, generation)?;
    let answer = mount.store.look(rt.alloc(), &op)?;
    Ok(shows(&answer, content))
}

/// An answer is these bytes.
fn shows(answer: &Answer, content: &str) -> bool {
    match answer {
        Answer::Bytes(bytes) => bytes.as_slice() == content.as_bytes(),
        _ => false,
    }
}

/// The insert of `f`, stamped with the second 7.
fn insert_of<R: Abort + AllocGlobal>(rt: &R, content: &str) -> Result<Op, NoMemory>
    ensures { IfOk result (λ op. IsAllowed (operation op)) }
{
    assert!(rt; allowed("f"));
    assert!(rt; content.len() <= 100);
    Ok(Op::Insert {
        name: Text::of(rt.alloc(), "f")?,
        content: Bytes::of(rt.alloc(), content.as_bytes())?,
        pairs: no_pairs(rt.alloc()),
        only: None,
        stamp: 7,
    })
}

/// The delete of `f`.
fn delete_of<R: Abort + AllocGlobal>(rt: &R) -> Result<Op, NoMemory>
    ensures { IfOk result (λ op. IsAllowed (operation op)) }
{
    assert!(rt; allowed("f"));
    Ok(Op::Delete {
        name: Text::of(rt.alloc(), "f")?,
        only: None,
    })
}

/// The stat of a name.
fn stat_of<R: Abort + AllocGlobal>(rt: &R, name: &str) -> Result<Op, NoMemory>
    ensures may { IfOk result (λ op. IsAllowed (operation op)) }
    ensures quiet { IfOk result (λ op. (b : BucketState) → state_after (operation op) b ≡ b) }
{
    assert!(rt; allowed(name));
    Ok(Op::Stat {
        name: Text::of(rt.alloc(), name)?,
    })
}

/// The read of all bytes of a generation of a name.
fn read_of<R: Abort + AllocGlobal>(rt: &R, name: &str, generation: u64) -> Result<Op, NoMemory>
    ensures may { IfOk result (λ op. IsAllowed (operation op)) }
    ensures quiet { IfOk result (λ op. (b : BucketState) → state_after (operation op) b ≡ b) }
{
    assert!(rt; allowed(name));
    Ok(Op::Read {
        name: Text::of(rt.alloc(), name)?,
        generation,
        first: 0,
        count: 100,
    })
}
