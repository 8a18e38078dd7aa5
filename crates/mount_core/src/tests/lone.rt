//! A mount that keeps its log and its journal, and what happens to it: the calls of one lane, a writer beside them, and
//! seconds that pass.
ghost use Rattle.std.specs.Prelude.{◌≡◌, ◌+◌, ◌-◌, ◌^◌, IfOk, OnOk, OnErr};
ghost use Rattle.bucket_api.specs.BucketState.{IsWithin};
ghost use Rattle.bucket_api.specs.Operation.{operation, IsAllowed};
ghost use Rattle.bucket_api.specs.Scripts.{script_of, IsScript};
ghost use Rattle.mount_core.specs.Lones.{HasNext, HasNoCall};

use crate::Lone;
use crate::tests::ask::Ask;
use crate::tests::no_pairs;
use crate::tests::steps::Step;
use crate::tests::told::shows;
use bucket_api::{Op, Scripted, allowed};
use bucket_plain::Plain;
use fuse_replies::Reply;
use fuse_replies::errno::ENOMEM;
use io_ports::{Bytes, NoMemory, Row, Text};
use mount_model::{CallId, Config};
use std::alloc::Global;
use std::process::Abort;

/// What happens.
#[derive(Clone, Copy)]
pub(crate) enum Move<'a> {
    /// The next call of the lane 1.
    Call(Step<'a>),
    /// The writer of the lane 9 makes an object of five bytes, stamped with the second 7.
    Put(&'a str),
    /// So many seconds pass.
    Wait(u64),
}

/// How a mount is set.
#[derive(Clone, Copy)]
pub(crate) struct Setting {
    /// For how many seconds records serve, those of files as those of directories.
    pub lifetime: u64,
    /// How many are kept at most.
    pub capacity: u64,
    /// Whether directories are implicit.
    pub implicit: bool,
}

/// A mount over this bucket, with this script.
fn mounted<R: Abort + AllocGlobal>(
    rt: &R,
    setting: Setting,
    bucket: Plain,
    script: Row<Scripted>,
) -> Result<Lone, NoMemory>
    requires within { IsWithin (2 ^ 62 - 1) bucket }
    requires script { IsScript (script_of script.items) }
    ensures next { IfOk result (λ lone. HasNext lone (record { lane = 1; index = 1 })) }
    ensures beside { IfOk result (λ lone. HasNoCall lone 9) }
{
    assert!(rt; setting.lifetime <= 1000);
    assert!(rt; setting.capacity >= 1 && setting.capacity <= 1000);
    let config = Config {
        stat_lifetime: setting.lifetime,
        type_lifetime: setting.lifetime,
        record_capacity: setting.capacity,
        implicit_dirs: setting.implicit,
        ..Config::new()
    };
    Lone::new(rt.alloc(), &config, bucket, script)
}

/// Does all moves, one after the other, on a new mount over this bucket, with this script.
pub(crate) fn moved<R: Abort + AllocGlobal>(
    rt: &R,
    setting: Setting,
    bucket: Plain,
    script: Row<Scripted>,
    all: &[Move<'_>],
) -> Result<Lone, NoMemory>
    requires within { IsWithin (2 ^ 62 - 1) bucket }
    requires script { IsScript (script_of script.items) }
{
    let mut lone = mounted(rt, setting, bucket, script)?;
    let mut index = 1;
    for one in all {
        index = moves(rt, &mut lone, index, *one)?;
    }
    Ok(lone)
}

/// Does one move; the index of the next call.
fn moves<R: Abort + AllocGlobal>(
    rt: &R,
    lone: &mut Lone,
    index: u64,
    one: Move<'_>,
) -> Result<u64, NoMemory>
    requires next { HasNext lone.old (record { lane = 1; index = index }) }
    requires beside { HasNoCall lone.old 9 }
    ensures next { IfOk result (λ after. HasNext lone.new (record { lane = 1; index = after })) }
    ensures beside { OnOk result (HasNoCall lone.new 9) }
{
    match one {
        Move::Call(step) => calls(rt, lone, index, step),
        Move::Put(name) => puts(rt, lone, index, name),
        Move::Wait(seconds) => waits(lone, index, seconds),
    }
}

/// Sends the next request, and compares what it is told.
fn calls<R: Abort + AllocGlobal>(
    rt: &R,
    lone: &mut Lone,
    index: u64,
    step: Step<'_>,
) -> Result<u64, NoMemory>
    requires next { HasNext lone.old (record { lane = 1; index = index }) }
    requires beside { HasNoCall lone.old 9 }
    ensures next { IfOk result (λ after. HasNext lone.new (record { lane = 1; index = after })) }
    ensures beside { OnOk result (HasNoCall lone.new 9) }
{
    assert!(rt; index < 1000);
    let reply = sends_again(rt.alloc(), lone, index, step.0)?;
    if is_short(&reply) {
        return Err(NoMemory);
    }
    assert!(rt; shows(&reply, step.1), "at call {index}");
    Ok(index + 1)
}

/// The reply to the next request. Where memory is refused to it, it is sent once more, for nothing was added.
fn sends_again(alloc: Global, lone: &mut Lone, index: u64, ask: Ask<'_>) -> Result<Reply, NoMemory>
    requires next { HasNext lone.old (record { lane = 1; index = index }) }
    requires beside { HasNoCall lone.old 9 }
    ensures next { OnOk result (HasNext lone.new (record { lane = 1; index = index + 1 })) }
    ensures beside { OnOk result (HasNoCall lone.new 9) }
{
    if let Ok(reply) = sends(alloc, lone, index, ask) {
        return Ok(reply);
    }
    sends(alloc, lone, index, ask)
}

/// The reply to the next request.
fn sends(alloc: Global, lone: &mut Lone, index: u64, ask: Ask<'_>) -> Result<Reply, NoMemory>
    requires next { HasNext lone.old (record { lane = 1; index = index }) }
    requires beside { HasNoCall lone.old 9 }
    ensures next { OnOk result (HasNext lone.new (record { lane = 1; index = index + 1 })) }
    ensures beside { OnOk result (HasNoCall lone.new 9) }
    ensures err { OnErr result (lone.new ≡ lone.old) }
{
    let request = ask.request(alloc)?;
    let reply = lone.call(alloc, CallId { lane: 1, index }, request)?;
    Ok(reply)
}

/// Memory was refused to the call on its way.
fn is_short(reply: &Reply) -> bool {
    match reply {
        Reply::Error(errno) => *errno == ENOMEM,
        _ => false,
    }
}

/// The writer beside the mount makes an object; the index of the next call.
fn puts<R: Abort + AllocGlobal>(
    rt: &R,
    lone: &mut Lone,
    index: u64,
    name: &str,
) -> Result<u64, NoMemory>
    requires next { HasNext lone.old (record { lane = 1; index = index }) }
    requires beside { HasNoCall lone.old 9 }
    ensures next { IfOk result (λ after. HasNext lone.new (record { lane = 1; index = after })) }
    ensures beside { OnOk result (HasNoCall lone.new 9) }
{
    let op = insert_of(rt, name)?;
    lone.remote(rt.alloc(), 9, &op)?;
    Ok(index)
}

/// So many seconds pass; the index of the next call.
fn waits(lone: &mut Lone, index: u64, seconds: u64) -> Result<u64, NoMemory>
    requires next { HasNext lone.old (record { lane = 1; index = index }) }
    requires beside { HasNoCall lone.old 9 }
    ensures next { IfOk result (λ after. HasNext lone.new (record { lane = 1; index = after })) }
    ensures beside { OnOk result (HasNoCall lone.new 9) }
{
    lone.tick(seconds)?;
    Ok(index)
}

/// The insert of an object of five bytes.
fn insert_of<R: Abort + AllocGlobal>(rt: &R, name: &str) -> Result<Op, NoMemory>
    ensures { IfOk result (λ op. IsAllowed (operation op)) }
{
    assert!(rt; allowed(name));
    Ok(Op::Insert {
        name: Text::of(rt.alloc(), name)?,
        content: Bytes::of(rt.alloc(), b"hello")?,
        pairs: no_pairs(rt.alloc()),
        only: None,
        stamp: 7,
    })
}
