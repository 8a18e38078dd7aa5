//! What each errand asks, and what it ends in, by hand. Errno numbers are those of Linux.
ghost use Rattle.std.specs.Prelude.{IfOk};
ghost use Rattle.bucket_api.specs.Metadata.{KeysRise};
ghost use Rattle.bucket_api.specs.Names.{IsObjectName};
ghost use Rattle.plan_files.specs.Errands.{IsErrand, IsFlush};

use crate::{
    FileErrand, Reads, Standing, errno, insert_op, next_op, outcome_of_reads, outcome_of_stat,
    with_time,
};
use bucket_api::{Answer, Meta, Op, Pair, allowed};
use io_ports::{Bytes, NoMemory, Row, Text};
use mount_model::Next;
use staged_file::Wanted;
use std::alloc::Global;
use std::process::Abort;
use std::test::Fail;

/// The name `f`, which an object may have.
fn name<R: Abort + AllocGlobal>(rt: &R) -> Result<Text, NoMemory>
    ensures { IfOk result IsObjectName }
{
    let name = Text::of(rt.alloc(), "f")?;
    assert!(rt; allowed(name.as_str()));
    Ok(name)
}

/// Asks for the object `f`.
fn attr<R: Abort + AllocGlobal>(rt: &R) -> Result<FileErrand, NoMemory>
    ensures { IfOk result IsErrand }
{
    Ok(FileErrand::Attr { name: name(rt)? })
}

/// Reads so many bytes of generation 3 of `f`, from the second on.
fn source<R: Abort + AllocGlobal>(rt: &R, count: u64) -> Result<FileErrand, NoMemory>
    ensures { IfOk result IsErrand }
{
    Ok(FileErrand::Source {
        name: name(rt)?,
        generation: 3,
        wanted: Wanted { first: 1, count },
    })
}

/// Puts staged content in the place of generation 3 of `f`, of which so many bytes are wanted, from the second on.
fn flush<R: Abort + AllocGlobal>(rt: &R, count: u64) -> Result<FileErrand, NoMemory>
    ensures flush { IfOk result IsFlush }
    ensures errand { IfOk result IsErrand }
{
    let name = name(rt)?;
    Ok(FileErrand::Flush {
        name,
        generation: 3,
        wanted: Wanted { first: 1, count },
        pairs: no_pairs(rt.alloc()),
    })
}

/// No pairs: their keys rise.
fn no_pairs(alloc: Global) -> Row<Pair>
    ensures { KeysRise result.items }
{
    Row::new(alloc)
}

/// Sets the time of generation 3 of `f`.
fn touch<R: Abort + AllocGlobal>(rt: &R) -> Result<FileErrand, NoMemory>
    ensures { IfOk result IsErrand }
{
    Ok(FileErrand::Touch {
        name: name(rt)?,
        generation: 3,
        seconds: 5,
        nanos: 7,
    })
}

/// What is asked next.
#[derive(Clone, Copy, Debug, PartialEq, Eq)]
enum Asks {
    /// A stat.
    Stat,
    /// A read of a generation, from a place on, and of so many bytes.
    Read(u64, u64, u64),
    /// The insert of staged content.
    Insert,
    /// The update of generation 3 to five seconds and seven nanoseconds, stamped with the second 9.
    Update,
    /// Nothing, or another operation.
    Nothing,
}

/// What is asked next, at the second 9.
fn asked(alloc: Global, errand: &FileErrand, told: &[Answer]) -> Result<Asks, NoMemory>
    requires { IsErrand errand.now }
{
    match next_op(alloc, errand, 9, told)? {
        Next::Do(op) => Ok(asked_by(&op)),
        Next::Insert => Ok(Asks::Insert),
        Next::Finish => Ok(Asks::Nothing),
    }
}

/// What an operation asks.
fn asked_by(op: &Op) -> Asks {
    match op {
        Op::Stat { .. } => Asks::Stat,
        Op::Read {
            generation,
            first,
            count,
            ..
        } => Asks::Read(*generation, *first, *count),
        Op::Update {
            pairs,
            only: Some(3),
            only_meta: None,
            stamp: 9,
            ..
        } if are(pairs, &[TIME]) => Asks::Update,
        _ => Asks::Nothing,
    }
}

/// The time of five seconds and seven nanoseconds, as gcsfuse keeps it.
const TIME: (&str, &str) = ("gcsfuse_mtime", "1970-01-01T00:00:05.000000007Z");

/// Pairs have these keys and values.
fn are(pairs: &Row<Pair>, expected: &[(&str, &str)]) -> bool {
    let pairs = pairs.as_slice();
    pairs.len() == expected.len()
        && pairs.iter().zip(expected).all(|(pair, (key, value))| {
            pair.key.as_str() == *key && pair.value.as_str() == *value
        })
}

/// That the bucket has `f` with this generation.
fn object(alloc: Global, generation: u64) -> Result<Answer, NoMemory> {
    Ok(Answer::Meta(Meta {
        name: Text::of(alloc, "f")?,
        generation,
        metageneration: 1,
        size: 5,
        updated: 7,
        pairs: Row::new(alloc),
    }))
}

/// Two bytes.
fn bytes(alloc: Global) -> Result<Answer, NoMemory> {
    Ok(Answer::Bytes(Bytes::of(alloc, b"el")?))
}

/// One answer.
fn answered(alloc: Global, answer: Answer) -> Result<Row<Answer>, NoMemory> {
    let mut answers = Row::new(alloc);
    answers.reserve(1)?;
    answers.push(answer);
    Ok(answers)
}

#[test]
fn a_stat_is_asked_once(rt: HostRuntime) -> Result<(), Fail> {
    let errand = attr(&rt)?;
    assert_eq!(rt; asked(rt.alloc(), &errand, &[])?, Asks::Stat);
    assert_eq!(rt;
        asked(rt.alloc(), &errand, &[Answer::NotFound])?,
        Asks::Nothing
    );
    assert_eq!(rt; errno(&errand, &[Answer::NotFound]), 0);
    assert_eq!(rt; errno(&errand, &[Answer::Fault]), 5);
    Ok(())
}

#[test]
fn what_is_wanted_is_read_at_once(rt: HostRuntime) -> Result<(), Fail> {
    let errand = source(&rt, 2)?;
    assert_eq!(rt; asked(rt.alloc(), &errand, &[])?, Asks::Read(3, 1, 2));
    assert_eq!(rt;
        asked(rt.alloc(), &errand, &[bytes(rt.alloc())?])?,
        Asks::Nothing
    );
    assert_eq!(rt;
        errno(&errand, &[bytes(rt.alloc())?, Answer::NotFound]),
        116
    );
    assert_eq!(rt; errno(&errand, &[Answer::Fault]), 5);
    let nothing = source(&rt, 0)?;
    assert_eq!(rt; asked(rt.alloc(), &nothing, &[])?, Asks::Nothing);
    assert_eq!(rt; errno(&nothing, &[]), 0);
    Ok(())
}

/// A precondition that doesn't hold: generation 4 is live.
const OTHER: Answer = Answer::Precondition {
    generation: 4,
    metageneration: 1,
};

#[test]
fn a_flush_reads_what_it_wants_and_then_inserts_once(rt: HostRuntime) -> Result<(), Fail> {
    let errand = flush(&rt, 2)?;
    assert_eq!(rt; asked(rt.alloc(), &errand, &[])?, Asks::Read(3, 1, 2));
    let read = [bytes(rt.alloc())?];
    assert_eq!(rt; asked(rt.alloc(), &errand, &read)?, Asks::Insert);
    assert_eq!(rt;
        asked(rt.alloc(), &errand, &[Answer::NotFound])?,
        Asks::Nothing
    );
    assert_eq!(rt; errno(&errand, &[Answer::NotFound]), 116);
    let refused = [bytes(rt.alloc())?, OTHER];
    assert_eq!(rt; asked(rt.alloc(), &errand, &refused)?, Asks::Nothing);
    assert_eq!(rt; errno(&errand, &refused), 116);
    Ok(())
}

#[test]
fn a_flush_of_all_its_bytes_inserts_at_once(rt: HostRuntime) -> Result<(), Fail> {
    let errand = flush(&rt, 0)?;
    assert_eq!(rt; asked(rt.alloc(), &errand, &[])?, Asks::Insert);
    let made = [object(rt.alloc(), 4)?];
    assert_eq!(rt; asked(rt.alloc(), &errand, &made)?, Asks::Nothing);
    assert_eq!(rt; errno(&errand, &made), 0);
    assert_eq!(rt; errno(&errand, &[Answer::Fault]), 5);
    Ok(())
}

#[test]
fn an_insert_replaces_the_generation_that_was_shown(rt: HostRuntime) -> Result<(), Fail> {
    let errand = flush(&rt, 0)?;
    let content = Bytes::of(rt.alloc(), b"el")?;
    assert!(rt; content.as_slice().len() == 2);
    let op = insert_op(errand, 9, content);
    assert!(rt;
        matches!(
            op,
            Op::Insert {
                only: Some(3),
                stamp: 9,
                ..
            }
        )
    );
    Ok(())
}

#[test]
fn a_time_is_set_once(rt: HostRuntime) -> Result<(), Fail> {
    let errand = touch(&rt)?;
    assert_eq!(rt; asked(rt.alloc(), &errand, &[])?, Asks::Update);
    assert_eq!(rt; asked(rt.alloc(), &errand, &[OTHER])?, Asks::Nothing);
    assert_eq!(rt; errno(&errand, &[OTHER]), 116);
    assert_eq!(rt; errno(&errand, &[Answer::Fault]), 5);
    Ok(())
}

/// Pairs with these keys and values.
fn pairs_of(alloc: Global, texts: &[(&str, &str)]) -> Result<Row<Pair>, NoMemory> {
    let mut pairs = Vec::new(alloc);
    for (key, value) in texts {
        pairs.push(Pair {
            key: Text::of(alloc, key)?,
            value: Text::of(alloc, value)?,
        })?;
    }
    Ok(Row::from_vec(pairs))
}

#[test]
fn a_time_takes_the_place_of_the_one_that_was_set(rt: HostRuntime) -> Result<(), Fail> {
    let old = pairs_of(
        rt.alloc(),
        &[("a", "1"), ("gcsfuse_mtime", "2"), ("z", "3")],
    )?;
    let row = with_time(rt.alloc(), &old, 5, 7)?;
    assert!(rt; are(&row, &[("a", "1"), TIME, ("z", "3")]));
    let others = pairs_of(rt.alloc(), &[("a", "1"), ("z", "3")])?;
    let more = with_time(rt.alloc(), &others, 5, 7)?;
    assert!(rt; are(&more, &[("a", "1"), TIME, ("z", "3")]));
    Ok(())
}

/// Whether generation 3 is live, by the answer to the stat: 1 where it is, 0 where it isn't, 5 where the bucket failed.
fn stands(alloc: Global, answer: Answer) -> Result<u64, NoMemory> {
    match outcome_of_stat(3, answered(alloc, answer)?) {
        Standing::Live(meta) => Ok(meta.metageneration),
        Standing::Gone => Ok(0),
        Standing::Fault => Ok(5),
        Standing::Unasked => Ok(9),
    }
}

#[test]
fn a_generation_is_live_under_its_own_number_alone(rt: HostRuntime) -> Result<(), Fail> {
    assert_eq!(rt; stands(rt.alloc(), object(rt.alloc(), 3)?)?, 1);
    assert_eq!(rt; stands(rt.alloc(), object(rt.alloc(), 4)?)?, 0);
    assert_eq!(rt; stands(rt.alloc(), Answer::NotFound)?, 0);
    assert_eq!(rt; stands(rt.alloc(), Answer::Fault)?, 5);
    let read = [bytes(rt.alloc())?];
    assert_eq!(rt; outcome_of_reads(&read), Reads::Given);
    assert_eq!(rt; outcome_of_reads(&[Answer::NotFound]), Reads::Gone);
    Ok(())
}
