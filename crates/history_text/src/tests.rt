//! Worked texts of each part of a history, and a sink that fails at each of its calls.
ghost use Rattle.std.specs.Prelude.{◌≡◌, length, IfOk};
ghost use Rattle.bucket_api.specs.Metadata.{KeysRise};
ghost use Rattle.bucket_api.specs.Names.{IsObjectName};
ghost use Rattle.bucket_api.specs.Operation.{operation, IsAllowed};
ghost use Rattle.history_text.specs.HistoryText.{CallsRise, IsPlayed};

use crate::{Played, WriteFault, write};
use bucket_api::{Event, Mode, Op, Pair, allowed};
use bucket_plain::Plain;
use fuse_requests::Request;
use io_ports::{Bytes, MemSink, NoMemory, Row, Text};
use mount_model::{CallId, Fill, How, JournalEntry, Use};
use std::alloc::Global;
use std::collections::BTreeMap;
use std::process::Abort;
use std::test::Fail;

/// What was played where nothing was.
fn nothing_played(alloc: Global) -> Played
    ensures { IsPlayed result }
{
    Played {
        replies: Row::new(alloc),
        calls: Row::new(alloc),
        bucket: Plain::new(alloc),
        log: Row::new(alloc),
        journal: Row::new(alloc),
    }
}

/// Writes the history. Whether the sink took all of it.
fn is_taken(alloc: Global, sink: &mut MemSink, played: &Played) -> Result<bool, NoMemory>
    requires { IsPlayed played.now }
{
    match write(alloc, sink, played) {
        Ok(()) => Ok(true),
        Err(WriteFault::Failed) => Ok(false),
        Err(WriteFault::NoMemory) => Err(NoMemory),
    }
}

/// Whether the text of the history is this one.
fn has_text(alloc: Global, played: &Played, text: &str) -> Result<bool, NoMemory>
    requires { IsPlayed played.now }
{
    let mut sink = MemSink::new(alloc, &[], 8_192)?;
    let taken = is_taken(alloc, &mut sink, played)?;
    Ok(taken && sink.bytes() == text.as_bytes())
}

/// Appends an item, with room that is asked for now.
fn add<T: Drop>(row: &mut Row<T>, item: T) -> Result<(), NoMemory> {
    row.reserve(1)?;
    row.push(item);
    Ok(())
}

/// A reply frame as 32-bit words: its length, its error, the request's number in two words, and the body.
type Words = &'static [u32];

/// The replies to INIT, to CREATE of node 2 with handle 1, to two WRITEs of two bytes, and to two FLUSHes.
const FRAMES: [Words; 6] = [
    &[
        80, 0, 1, 0, 7, 31, 131_072, 0x40021, 0x9000c, 131_072, 1, 0, 0, 0, 0, 0, 0, 0, 0, 0,
    ],
    &[
        160, 0, 2, 0, 2, 0, 0, 0, 0, 0, 0, 0, 0, 0, 2, 0, 0, 0, 0, 0, 0, 0, 0, 0, 0, 0, 0, 0, 0,
        0o100644, 1, 0, 0, 0, 4_096, 0, 1, 0, 0, 0,
    ],
    &[24, 0, 3, 0, 2, 0],
    &[24, 0, 4, 0, 2, 0],
    &[16, 0, 5, 0],
    &[16, 0, 6, 0],
];

/// The calls that they answer.
const CALLS: [CallId; 6] = [
    CallId { lane: 1, index: 1 },
    CallId { lane: 1, index: 2 },
    CallId { lane: 1, index: 3 },
    CallId { lane: 1, index: 4 },
    CallId { lane: 1, index: 5 },
    CallId { lane: 1, index: 6 },
];

/// How many events had been seen when each of them was taken, and when it was done.
const FRONTS: [(u64, u64); 6] = [(0, 0), (0, 1), (1, 1), (1, 1), (1, 2), (2, 2)];

/// A reply frame of these words.
fn frame_of(alloc: Global, words: Words) -> Result<Bytes, NoMemory> {
    let mut bytes = Vec::new(alloc);
    for word in words {
        bytes.extend_from_slice(&word.to_le_bytes())?;
    }
    Ok(Bytes::from_vec(bytes))
}

/// The rows of these frames.
fn frames_of(alloc: Global, frames: &[Words]) -> Result<Row<Bytes>, NoMemory>
    ensures { IfOk result (λ row. length row.items ≡ length frames.now) }
{
    let mut made = Vec::new(alloc);
    for frame in frames {
        made.push(frame_of(alloc, frame)?)?;
    }
    Ok(Row::from_vec(made))
}

/// What was played where these calls were answered, and all else stands as it was.
fn answered(alloc: Global, calls: &[CallId], frames: &[Words]) -> Result<Played, NoMemory>
    requires answered { length frames.now ≡ length calls.now }
    requires rise { CallsRise calls.now }
    ensures { IfOk result IsPlayed }
{
    let replies = frames_of(alloc, frames)?;
    let calls = Row::from_vec(Vec::from_slice(alloc, calls)?);
    let mut played = nothing_played(alloc);
    played.replies = replies;
    played.calls = calls;
    Ok(played)
}

/// The name of an object.
fn object_name<R: Abort + AllocGlobal>(rt: &R, name: &str) -> Result<Text, NoMemory>
    ensures { IfOk result IsObjectName }
{
    assert!(rt; allowed(name));
    Text::of(rt.alloc(), name)
}

/// The modification time of a file that was written in second 0.
fn mtime_pairs(alloc: Global) -> Result<Row<Pair>, NoMemory>
    ensures { IfOk result (λ pairs. KeysRise pairs.items) }
{
    let pair = Pair {
        key: Text::of(alloc, "gcsfuse_mtime")?,
        value: Text::of(alloc, "1970-01-01T00:00:00.000000000Z")?,
    };
    let mut pairs = Row::new(alloc);
    pairs.reserve(1)?;
    pairs.push(pair);
    Ok(pairs)
}

/// The insert of a flushed file, over the generation that it shows.
fn flush<R: Abort + AllocGlobal>(rt: &R, only: Option<u64>) -> Result<Op, NoMemory>
    ensures { IfOk result (λ op. IsAllowed (operation op)) }
{
    let name = object_name(rt, "f")?;
    let content = Bytes::of(rt.alloc(), b"abcd")?;
    let pairs = mtime_pairs(rt.alloc())?;
    Ok(Op::Insert {
        name,
        content,
        pairs,
        only,
        stamp: 0,
    })
}

/// A bucket with the flushed file, as its second generation.
fn flushed_bucket<R: Abort + AllocGlobal>(rt: &R) -> Result<Plain, NoMemory> {
    let op = flush(rt, None)?;
    let mut bucket = Plain::from_objects(BTreeMap::new(rt.alloc()), 1);
    let _answer = bucket.apply(rt.alloc(), &op)?;
    Ok(bucket)
}

/// The insert of a file that has nothing yet.
fn create(alloc: Global) -> Result<Op, NoMemory> {
    let name = Text::of(alloc, "f")?;
    Ok(Op::Insert {
        name,
        content: Bytes::from_vec(Vec::new(alloc)),
        pairs: Row::new(alloc),
        only: Some(0),
        stamp: 0,
    })
}

/// An event of lane 1.
fn event_of(op: Op, mode: Mode) -> Event {
    Event { lane: 1, op, mode }
}

/// The inserts of the created file and of its flush.
fn flushed_log<R: Abort + AllocGlobal>(rt: &R) -> Result<Row<Event>, NoMemory> {
    let mut log = Row::new(rt.alloc());
    add(&mut log, event_of(create(rt.alloc())?, Mode::Done))?;
    add(&mut log, event_of(flush(rt, Some(1))?, Mode::Done))?;
    Ok(log)
}

/// The entry of a call that was taken. A text doesn't tell its request.
fn taken(call: CallId, front: u64) -> JournalEntry {
    JournalEntry::Take {
        call,
        front,
        request: Request::Statfs,
    }
}

/// The entry of a call that was done.
fn done(call: CallId, front: u64, how: How, uses: Row<Use>, fill: Fill) -> JournalEntry {
    JournalEntry::Done {
        call,
        front,
        how,
        uses,
        fill,
    }
}

/// The calls taken and done, one after the other.
fn flushed_journal(alloc: Global) -> Result<Row<JournalEntry>, NoMemory> {
    let mut journal = Row::new(alloc);
    for (call, (before, after)) in CALLS.iter().zip(&FRONTS) {
        add(&mut journal, taken(*call, *before))?;
        add(
            &mut journal,
            done(*call, *after, How::Ok, Row::new(alloc), Fill::Nothing),
        )?;
    }
    Ok(journal)
}

/// What is told of a file that is created, written twice and flushed twice.
const FLUSHED: &str = "\
reply 1.1 50000000000000000100000000000000\
070000001f00000000000200210004000c000900000002000100000000000000\
0000000000000000000000000000000000000000000000000000000000000000
reply 1.2 a0000000000000000200000000000000\
0200000000000000000000000000000000000000000000000000000000000000\
0000000000000000020000000000000000000000000000000000000000000000\
0000000000000000000000000000000000000000000000000000000000000000\
00000000a4810000010000000000000000000000000000000010000000000000\
01000000000000000000000000000000
reply 1.3 180000000000000003000000000000000200000000000000
reply 1.4 180000000000000004000000000000000200000000000000
reply 1.5 10000000000000000500000000000000
reply 1.6 10000000000000000600000000000000
object 66 2 1 0 4 61626364 676373667573655f6d74696d65=313937302d30312d30315430303a30303a30302e3030303030303030305a
log 1 1 done insert 66 0 0 - -
log 2 1 done insert 66 1 0 676373667573655f6d74696d65=313937302d30312d30315430303a30303a30302e3030303030303030305a 61626364
take 1.1 0
done 1.1 0 ok
take 1.2 0
done 1.2 1 ok
take 1.3 1
done 1.3 1 ok
take 1.4 1
done 1.4 1 ok
take 1.5 1
done 1.5 2 ok
take 1.6 2
done 1.6 2 ok
end
";

#[test]
fn a_flushed_file_is_told_whole(rt: HostRuntime) -> Result<(), Fail> {
    let bucket = flushed_bucket(&rt)?;
    let log = flushed_log(&rt)?;
    let journal = flushed_journal(rt.alloc())?;
    let mut played = answered(rt.alloc(), &CALLS, &FRAMES)?;
    played.bucket = bucket;
    played.log = log;
    played.journal = journal;
    assert!(rt; has_text(rt.alloc(), &played, FLUSHED)?);
    Ok(())
}

/// A copy of a generation.
fn copied(alloc: Global, from: Text) -> Result<Op, NoMemory> {
    let to = Text::of(alloc, "c")?;
    Ok(Op::Copy {
        from,
        generation: 3,
        to,
        stamp: 0,
    })
}

/// A page of all names, behind a key.
fn listed(alloc: Global, after: Text) -> Result<Op, NoMemory> {
    let prefix = Text::of(alloc, "")?;
    Ok(Op::List {
        prefix,
        slash: false,
        max: 1,
        after: Some(after),
    })
}

/// An operation of each other kind.
fn other_operation(alloc: Global, number: u64) -> Result<Op, NoMemory> {
    let name = Text::of(alloc, "a/b")?;
    match number {
        1 => Ok(Op::Stat { name }),
        2 => Ok(Op::Read {
            name,
            generation: 3,
            first: 0,
            count: 131_072,
        }),
        3 => Ok(Op::Update {
            name,
            pairs: Row::new(alloc),
            only: Some(3),
            only_meta: None,
            stamp: 7,
        }),
        4 => Ok(Op::Delete { name, only: None }),
        5 => copied(alloc, name),
        6 => Ok(Op::List {
            prefix: name,
            slash: true,
            max: 1_000,
            after: None,
        }),
        _ => listed(alloc, name),
    }
}

/// What became of it.
fn other_mode(number: u64) -> Mode {
    match number {
        1 => Mode::Failed,
        3 => Mode::Lost,
        _ => Mode::Done,
    }
}

/// One event of each other kind, two of them faults.
fn other_log(alloc: Global) -> Result<Row<Event>, NoMemory> {
    let mut log = Row::new(alloc);
    for number in 1..8 {
        add(
            &mut log,
            event_of(other_operation(alloc, number)?, other_mode(number)),
        )?;
    }
    Ok(log)
}

/// A use of the call's own operation that was kept, one that was not, and a use of a record.
const USES: [Use; 3] = [
    Use {
        moment: 4,
        own: true,
        kept: true,
    },
    Use {
        moment: 5,
        own: true,
        kept: false,
    },
    Use {
        moment: 5,
        own: false,
        kept: false,
    },
];

/// A take, dones with uses and fills, and a tick.
fn other_journal(alloc: Global) -> Result<Row<JournalEntry>, NoMemory> {
    let mut journal = Row::new(alloc);
    let call = CallId { lane: 12, index: 7 };
    add(&mut journal, taken(call, 2))?;
    let uses = Row::from_vec(Vec::from_slice(alloc, &USES)?);
    add(&mut journal, done(call, 5, How::Ok, uses, Fill::Kept))?;
    add(
        &mut journal,
        done(call, 6, How::Ok, Row::new(alloc), Fill::Nothing),
    )?;
    add(
        &mut journal,
        done(call, 6, How::NoMemory, Row::new(alloc), Fill::NoMemory),
    )?;
    add(
        &mut journal,
        JournalEntry::Tick {
            front: 6,
            seconds: 9,
        },
    )?;
    Ok(journal)
}

/// The reply to a request that came before INIT; and none.
const OTHER_FRAMES: [Words; 2] = [&[16, 0xffff_ffb9, 2, 0], &[]];

/// The calls that they answer.
const OTHER_CALLS: [CallId; 2] = [CallId { lane: 2, index: 2 }, CallId { lane: 2, index: 3 }];

#[test]
fn each_operation_and_entry_has_its_words(rt: HostRuntime) -> Result<(), Fail> {
    let log = other_log(rt.alloc())?;
    let journal = other_journal(rt.alloc())?;
    let mut played = answered(rt.alloc(), &OTHER_CALLS, &OTHER_FRAMES)?;
    played.log = log;
    played.journal = journal;
    let text = "\
reply 2.2 10000000b9ffffff0200000000000000
reply 2.3 none
log 1 1 failed stat 612f62
log 2 1 done read 612f62 3 0 131072
log 3 1 lost update 612f62 3 * 7 -
log 4 1 done delete 612f62 *
log 5 1 done copy 612f62 3 63 0
log 6 1 done list 612f62 slash 1000 -
log 7 1 done list - flat 1 612f62
take 12.7 2
done 12.7 5 ok o4k o5d r5 fk
done 12.7 6 ok
done 12.7 6 nomemory fn
tick 6 9
end
";
    assert!(rt; has_text(rt.alloc(), &played, text)?);
    Ok(())
}

/// The insert of so many zeros.
fn zeros(alloc: Global, count: usize) -> Result<Op, NoMemory> {
    let content = vec![in alloc; 0u8; count]?;
    Ok(Op::Insert {
        name: Text::of(alloc, "f")?,
        content: Bytes::from_vec(content),
        pairs: Row::new(alloc),
        only: None,
        stamp: 0,
    })
}

/// What was played where one long content was inserted.
fn long_played(alloc: Global) -> Result<Played, NoMemory>
    ensures { IfOk result IsPlayed }
{
    let mut log = Row::new(alloc);
    add(&mut log, event_of(zeros(alloc, 70_000)?, Mode::Done))?;
    let mut played = nothing_played(alloc);
    played.log = log;
    Ok(played)
}

/// How many bytes a sink has whose call of this number fails, where they are a prefix of the text and it is told.
fn put_before(alloc: Global, played: &Played, call: u64, text: &[u8]) -> Result<usize, NoMemory>
    requires { IsPlayed played.now }
{
    let mut sink = MemSink::new(alloc, &[call], 200_000)?;
    let taken = is_taken(alloc, &mut sink, played)?;
    let told = !taken && text.starts_with(sink.bytes());
    Ok(if told { sink.bytes().len() } else { 200_000 })
}

#[test]
fn a_sink_is_given_pieces_and_keeps_a_prefix(rt: HostRuntime) -> Result<(), Fail> {
    let played = long_played(rt.alloc())?;
    let mut whole = MemSink::new(rt.alloc(), &[], 200_000)?;
    assert!(rt; is_taken(rt.alloc(), &mut whole, &played)?);
    let line = "log 1 1 done insert 66 * 0 - \nend\n";
    assert_eq!(rt; whole.bytes().len(), line.len() + 140_000);
    let mut before = 0usize;
    for call in 1..5 {
        let put = put_before(rt.alloc(), &played, call, whole.bytes())?;
        assert!(rt; put <= before.saturating_add(65_536), "at call {call}");
        before = put;
    }
    assert!(rt; whole.bytes().len() <= before.saturating_add(65_536));
    Ok(())
}
