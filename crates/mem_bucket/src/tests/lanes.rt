//! Two lanes of one bucket, and what a lane sees of another.
ghost use Rattle.std.specs.Prelude.{◌≡◌, ◌≢◌, ◌<◌, ◌^◌, ◌-◌, [], ◌∷◌, IsTrue, IfOk, OnOk};
ghost use Rattle.lane_spec.specs.Numbers.{has, without, together};
ghost use Rattle.lane_spec.specs.declared.Numbers.TheVariants.{Only};
ghost use Rattle.bucket_api.specs.declared.events.Mode.TheVariants.{Done};
ghost use Rattle.bucket_api.specs.Operation.{operation, IsAllowed};
ghost use Rattle.bucket_api.specs.BucketState.{IsWithin};
ghost use Rattle.bucket_api.specs.Passes.{first_pass};
ghost use Rattle.mem_bucket.specs.MemPasses.{origin_of};

use super::operations::{insert, stat};
use super::scripts::one_fault;
use crate::{MemBucket, MemPass};
use bucket_api::{Answer, Bucket, Event, Mode, Op};
use bucket_plain::Plain;
use io_ports::{NoMemory, Row};
use std::process::Abort;
use std::sync::Wait;
use std::test::Fail;

/// A bucket whose one object has generation 1.
pub(super) fn one_object<R: Abort + AllocGlobal>(rt: &R) -> Result<Plain, NoMemory>
    ensures { IfOk result (IsWithin (2 ^ 62 - 1)) }
{
    let mut bucket = Plain::new(rt.alloc());
    let op = insert(rt, "f", None, 0)?;
    bucket.apply(rt.alloc(), &op)?;
    Ok(bucket)
}

/// A bucket with one object and one fault to come.
pub(super) fn opened<R: Abort + AllocGlobal>(
    rt: &R,
    moment: u64,
    mode: Mode,
) -> Result<(MemBucket, MemPass), NoMemory>
    requires later { 0 < moment }
    requires fault { mode ≢ Done }
    ensures { IfOk result (λ r. r.1 ≡ first_pass (origin_of r.0)) }
{
    let start = one_object(rt)?;
    let script = one_fault(rt.alloc(), moment, mode)?;
    MemBucket::new(rt.alloc(), start, script)
}

/// What an answer says in short, with the generation and the metageneration that it tells.
#[derive(Debug, Clone, Copy, PartialEq, Eq)]
pub(super) enum Short {
    Meta(u64, u64),
    Precondition(u64, u64),
    Fault,
    Other,
}

/// The answer in short.
pub(super) fn in_short(answer: &Answer) -> Short {
    match answer {
        Answer::Meta(meta) => Short::Meta(meta.generation, meta.metageneration),
        Answer::Precondition {
            generation,
            metageneration,
        } => Short::Precondition(*generation, *metageneration),
        Answer::Fault => Short::Fault,
        _ => Short::Other,
    }
}

/// Asks a shared bucket, and compares the moment and the answer.
fn ask<B: Bucket, R: Abort + AllocGlobal + Wait>(
    rt: &R,
    bucket: &B,
    pass: &mut B::Pass,
    op: &Op,
    expected: (u64, Short),
) -> Result<(), NoMemory>
    requires pass { (B.told pass.old).origin ≡ B.origin bucket.now }
    requires own { IsTrue (has (B.told pass.old).held (B.told pass.old).lane) }
    requires may { IsAllowed (operation op.now) }
    ensures kept { B.told pass.new ≡ record (B.told pass.old) { seen = (B.told pass.new).seen; mine = (B.told pass.new).mine; faults = (B.told pass.new).faults } }
{
    let (moment, answer) = bucket.act(rt, rt.alloc(), pass, op)?;
    assert_eq!(rt; moment, expected.0);
    assert_eq!(rt; in_short(&answer), expected.1);
    Ok(())
}

/// Asks for the object, as `ask` does.
fn look<B: Bucket, R: Abort + AllocGlobal + Wait>(
    rt: &R,
    bucket: &B,
    pass: &mut B::Pass,
    expected: (u64, Short),
) -> Result<(), NoMemory>
    requires pass { (B.told pass.old).origin ≡ B.origin bucket.now }
    requires own { IsTrue (has (B.told pass.old).held (B.told pass.old).lane) }
    ensures kept { B.told pass.new ≡ record (B.told pass.old) { seen = (B.told pass.new).seen; mine = (B.told pass.new).mine; faults = (B.told pass.new).faults } }
{
    let op = stat(rt, "f")?;
    ask(rt, bucket, pass, &op, expected)
}

/// Inserts where generation 1 is live, as `ask` does.
fn write<B: Bucket, R: Abort + AllocGlobal + Wait>(
    rt: &R,
    bucket: &B,
    pass: &mut B::Pass,
    expected: (u64, Short),
) -> Result<(), NoMemory>
    requires pass { (B.told pass.old).origin ≡ B.origin bucket.now }
    requires own { IsTrue (has (B.told pass.old).held (B.told pass.old).lane) }
    ensures kept { B.told pass.new ≡ record (B.told pass.old) { seen = (B.told pass.new).seen; mine = (B.told pass.new).mine; faults = (B.told pass.new).faults } }
{
    let op = insert(rt, "f", Some(1), 7)?;
    ask(rt, bucket, pass, &op, expected)
}

/// Asks for the object from a lane of its own, as `ask` does, and answers how many events the log then has.
fn look_from<B: Bucket, R: Abort + AllocGlobal + Wait>(
    rt: &R,
    bucket: &B,
    home: &mut B::Pass,
    lane: u64,
    expected: (u64, Short),
) -> Result<u64, NoMemory>
    requires home { (B.told home.old).origin ≡ B.origin bucket.now }
    requires held { IsTrue (has (B.told home.old).held lane) }
    ensures origin { (B.told home.new).origin ≡ (B.told home.old).origin }
    ensures held { OnOk result ((B.told home.new).held ≡ together (without (B.told home.old).held lane) (Only (lane ∷ []))) }
{
    let mut pass = bucket.split(home, lane);
    look(rt, bucket, &mut pass, expected)?;
    bucket.meet(home, pass);
    Ok(bucket.glance(home))
}

/// The log's events are of these lanes and have these modes.
fn has_events(log: &[Event], expected: &[(u64, Mode)]) -> bool {
    let mut events = log.iter().zip(expected);
    log.len() == expected.len()
        && events.all(|(event, (lane, mode))| event.lane == *lane && event.mode == *mode)
}

/// Two lanes insert where generation 1 is live, and the first one looks twice.
fn in_turn<R: Abort + AllocGlobal + Wait>(
    rt: &R,
    bucket: &MemBucket,
    one: &mut MemPass,
    two: &mut MemPass,
) -> Result<(), NoMemory>
    requires one { (one.old.origin ≡ origin_of bucket.now) × IsTrue (has one.old.held one.old.lane) }
    requires two { (two.old.origin ≡ origin_of bucket.now) × IsTrue (has two.old.held two.old.lane) }
    ensures one { one.new ≡ record one.old { seen = one.new.seen; mine = one.new.mine; faults = one.new.faults } }
    ensures two { two.new ≡ record two.old { seen = two.new.seen; mine = two.new.mine; faults = two.new.faults } }
{
    write(rt, bucket, one, (1, Short::Meta(2, 1)))?;
    write(rt, bucket, two, (2, Short::Precondition(2, 1)))?;
    look(rt, bucket, one, (3, Short::Fault))?;
    look(rt, bucket, one, (4, Short::Meta(2, 1)))
}

/// The bucket and its log once two lanes have met their home, whose faults are then those of both.
fn two_lanes<R: Abort + AllocGlobal + Wait>(rt: &R) -> Result<(Plain, Row<Event>), NoMemory> {
    let (bucket, mut home) = opened(rt, 3, Mode::Failed)?;
    let mut one = bucket.split(&mut home, 1);
    let mut two = bucket.split(&mut home, 2);
    in_turn(rt, &bucket, &mut one, &mut two)?;
    bucket.meet(&mut home, one);
    bucket.meet(&mut home, two);
    assert_eq!(rt; home.faults, 1);
    Ok(bucket.finish(home))
}

/// The first lane inserts, the answer is lost, and another lane looks.
fn lost_insert<R: Abort + AllocGlobal + Wait>(rt: &R) -> Result<(Plain, Row<Event>), NoMemory> {
    let (bucket, mut home) = opened(rt, 1, Mode::Lost)?;
    write(rt, &bucket, &mut home, (1, Short::Fault))?;
    write(rt, &bucket, &mut home, (2, Short::Precondition(2, 1)))?;
    let events = look_from(rt, &bucket, &mut home, 5, (3, Short::Meta(2, 1)))?;
    assert_eq!(rt; events, 3);
    Ok(bucket.finish(home))
}

#[test]
fn what_fails_has_no_effect(rt: HostRuntime) -> Result<(), Fail> {
    let (bucket, log) = two_lanes(&rt)?;
    let events = [
        (1, Mode::Done),
        (2, Mode::Done),
        (1, Mode::Failed),
        (1, Mode::Done),
    ];
    assert_eq!(rt; bucket.last(), 2);
    assert!(rt; has_events(log.as_slice(), &events));
    Ok(())
}

#[test]
fn what_is_lost_has_its_whole_effect(rt: HostRuntime) -> Result<(), Fail> {
    let (bucket, log) = lost_insert(&rt)?;
    let events = [(0, Mode::Lost), (0, Mode::Done), (5, Mode::Done)];
    assert_eq!(rt; bucket.last(), 2);
    assert!(rt; has_events(log.as_slice(), &events));
    Ok(())
}
