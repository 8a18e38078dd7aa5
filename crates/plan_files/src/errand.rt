//! Errands on files, and what each asks next.
ghost use Rattle.std.specs.Prelude.{◌≡◌, ◌≤◌, [], length, IfOk, IfSome, IsSome, OnErr, option_map};
ghost use Rattle.bucket_api.specs.Names.{IsObjectName};
ghost use Rattle.bucket_api.specs.Operation.{max_content, operation, read, IsAllowed};
ghost use Rattle.mount_model.specs.Observing.{next_step};
ghost use Rattle.mount_rules.specs.Plans.{ask};
ghost use Rattle.plan_files.specs.Errands.{asked_next, flush_next, insert_next, plan_of, read_of, touch_of, wanted_of, IsErrand, IsFlush, IsMade, IsTime, MayAsk};

use crate::times::with_time;
use bucket_api::{Answer, Op, Pair};
use io_ports::{Bytes, NoMemory, Row, Text};
use mount_model::Next;
use staged_file::Wanted;
use std::alloc::Global;

/// What a request on a file has to do on the bucket, as plain data made from what the request saw at its take.
#[derive(Drop)]
pub enum FileErrand {
    /// Asks for the object of a file's own name.
    Attr {
        /// The name.
        name: Text,
    },
    /// Reads bytes of a generation.
    Source {
        /// The name of its object.
        name: Text,
        /// The generation.
        generation: u64,
        /// The bytes that are wanted of it.
        wanted: Wanted,
    },
    /// Makes the staged content of a file a new generation of its object, only where the one that the file shows is live.
    Flush {
        /// The name of the object.
        name: Text,
        /// The generation that the file shows.
        generation: u64,
        /// The bytes that are wanted of it.
        wanted: Wanted,
        /// The metadata of the new generation, by rising keys.
        pairs: Row<Pair>,
    },
    /// Sets the time of a file on its object, only where the generation that the file shows is live.
    Touch {
        /// The name of the object.
        name: Text,
        /// The generation that the file shows.
        generation: u64,
        /// The second, at most 249,999,999,999.
        seconds: u64,
        /// The nanoseconds past that, at most 999,999,999.
        nanos: u32,
    },
}

/// What the errand asks of the bucket next, after it was answered so; `second` stamps what it makes. A stat and an update
/// are asked once. What is wanted of a generation is read at once; a flush then inserts its staged content, unless its read
/// wasn't given bytes. `NoMemory` comes only where an operation is still to be made, and so never behind the answer to an
/// insert or an update.
pub fn next_op(
    alloc: Global,
    errand: &FileErrand,
    second: u64,
    answers: &[Answer],
) -> Result<Next, NoMemory>
    requires { IsErrand errand.now }
    ensures ok { IfOk result (λ next. next_step next ≡ asked_next errand.now second answers.now) }
    ensures may { IfOk result (λ next. MayAsk (next_step next)) }
    ensures err { OnErr result (IsMade (asked_next errand.now second answers.now)) }
{
    match errand {
        FileErrand::Flush {
            name,
            generation,
            wanted,
            pairs: _,
        } => next_of_flush(alloc, name, *generation, wanted, answers),
        _ if !answers.is_empty() => Ok(Next::Finish),
        FileErrand::Attr { name } => Ok(Next::Do(Op::Stat {
            name: name.copy(alloc)?,
        })),
        FileErrand::Source { .. } => match read_op(alloc, errand)? {
            Some(op) => Ok(Next::Do(op)),
            None => Ok(Next::Finish),
        },
        FileErrand::Touch {
            name,
            generation,
            seconds,
            nanos,
        } => {
            let op = touch(alloc, name, *generation, *seconds, *nanos, second)?;
            Ok(Next::Do(op))
        }
    }
}

/// What a flush asks next: the read of what it wants, where it wants anything, and behind that its insert.
fn next_of_flush(
    alloc: Global,
    name: &Text,
    generation: u64,
    wanted: &Wanted,
    answers: &[Answer],
) -> Result<Next, NoMemory>
    requires { IsObjectName name.now }
    ensures ok { IfOk result (λ next. next_step next ≡ flush_next name.now generation wanted.now answers.now) }
    ensures may { IfOk result (λ next. MayAsk (next_step next)) }
    ensures err { OnErr result (IsMade (flush_next name.now generation wanted.now answers.now)) }
{
    if wanted.count == 0 {
        return Ok(insert_once(answers));
    }
    match answers {
        [] => Ok(Next::Do(read(alloc, name, generation, wanted)?)),
        [Answer::Bytes(_), rest @ ..] => Ok(insert_once(rest)),
        _ => Ok(Next::Finish),
    }
}

/// The insert of staged content is asked once.
fn insert_once(answers: &[Answer]) -> Next
    ensures ok { next_step result ≡ insert_next answers.now }
    ensures may { MayAsk (next_step result) }
{
    match answers {
        [] => Next::Insert,
        _ => Next::Finish,
    }
}

/// The read of all that the errand wants of a generation; none where it wants nothing. `NoMemory` comes only where it wants
/// something.
pub fn read_op(alloc: Global, errand: &FileErrand) -> Result<Option<Op>, NoMemory>
    requires { IsErrand errand.now }
    ensures ok { IfOk result (λ found. option_map operation found ≡ option_map read_of (wanted_of errand.now)) }
    ensures may { IfOk result (λ found. IfSome found (λ op. IsAllowed (operation op))) }
    ensures err { OnErr result (IsSome (wanted_of errand.now)) }
{
    match errand {
        FileErrand::Source {
            name,
            generation,
            wanted,
        }
        | FileErrand::Flush {
            name,
            generation,
            wanted,
            pairs: _,
        } if wanted.count > 0 => Ok(Some(read(alloc, name, *generation, wanted)?)),
        _ => Ok(None),
    }
}

/// The read of a range of a generation.
fn read(alloc: Global, name: &Text, generation: u64, wanted: &Wanted) -> Result<Op, NoMemory>
    requires { IsObjectName name.now }
    ensures ok { IfOk result (λ op. operation op ≡ read name.now generation wanted.now.first wanted.now.count) }
    ensures may { IfOk result (λ op. IsAllowed (operation op)) }
{
    Ok(Op::Read {
        name: name.copy(alloc)?,
        generation,
        first: wanted.first,
        count: wanted.count,
    })
}

/// The update of a time, where the generation that is shown is live.
fn touch(
    alloc: Global,
    name: &Text,
    shown: u64,
    seconds: u64,
    nanos: u32,
    second: u64,
) -> Result<Op, NoMemory>
    requires name { IsObjectName name.now }
    requires time { IsTime seconds nanos }
    ensures ok { IfOk result (λ op. operation op ≡ touch_of name.now shown seconds nanos second) }
    ensures may { IfOk result (λ op. IsAllowed (operation op)) }
{
    let pairs = with_time(alloc, &Row::new(alloc), seconds, nanos)?;
    Ok(Op::Update {
        name: name.copy(alloc)?,
        pairs,
        only: Some(shown),
        only_meta: None,
        stamp: second,
    })
}

/// The insert of a flush, with this content, at most 16,777,216 bytes; `second` stamps it. It takes no memory: what the
/// errand and the content own goes over into it.
pub fn insert_op(errand: FileErrand, second: u64, content: Bytes) -> Op
    requires flush { IsFlush errand }
    requires errand { IsErrand errand }
    requires short { length content ≤ max_content }
    ensures ok { plan_of errand content second [] ≡ ask (operation result) }
    ensures may { IsAllowed (operation result) }
{
    let FileErrand::Flush {
        name,
        generation,
        wanted: _,
        pairs,
    } = errand
    else {
        unreachable!();
    };
    Op::Insert {
        name,
        content,
        pairs,
        only: Some(generation),
        stamp: second,
    }
}
