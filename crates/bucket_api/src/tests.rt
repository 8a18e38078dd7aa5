//! Names by Cloud Storage's rule, copies of each kind, and events by their moments.
use crate::{Event, Meta, Mode, Object, Op, Pair, allowed, event_at};
use io_ports::{Bytes, NoMemory, Row, Text};
use std::alloc::Global;
use std::process::Abort;
use std::test::Fail;

/// So many of one text.
fn run_of(alloc: Global, text: &str, count: usize) -> Result<String, NoMemory> {
    let mut run = String::new(alloc);
    for _ in 0..count {
        run.push_str(text)?;
    }
    Ok(run)
}

// Cloud Storage's object naming requirements: 1 to 1,024 bytes of UTF-8, no carriage return, no
// line feed, and neither `.` nor `..`.
#[test]
fn names_are_those_of_cloud_storage(rt: HostRuntime) {
    for name in ["a", "...", "a/b/", "\u{e9}\u{2028}", "\0"] {
        assert!(rt; allowed(name), "at {name:?}");
    }
    for name in ["", ".", "..", "a\r", "\nb"] {
        assert!(rt; !allowed(name), "at {name:?}");
    }
}

#[test]
fn names_are_measured_in_bytes(rt: HostRuntime) -> Result<(), Fail> {
    let mut name = run_of(rt.alloc(), "\u{e9}", 512)?;
    assert!(rt; allowed(name.as_str()));
    name.push_str("a")?;
    assert!(rt; !allowed(name.as_str()));
    Ok(())
}

/// The pairs `k` with `v`, and `l` with an empty value.
fn two_pairs(alloc: Global) -> Result<Row<Pair>, NoMemory> {
    let mut pairs = Row::new(alloc);
    pairs.reserve(2)?;
    let key = Text::of(alloc, "k")?;
    let value = Text::of(alloc, "v")?;
    pairs.push(Pair { key, value });
    let key = Text::of(alloc, "l")?;
    let value = Text::of(alloc, "")?;
    pairs.push(Pair { key, value });
    Ok(pairs)
}

fn stat(alloc: Global) -> Result<Op, NoMemory> {
    let name = Text::of(alloc, "f")?;
    Ok(Op::Stat { name })
}

fn read(alloc: Global) -> Result<Op, NoMemory> {
    Ok(Op::Read {
        name: Text::of(alloc, "f")?,
        generation: 1,
        first: 2,
        count: 3,
    })
}

fn insert(alloc: Global) -> Result<Op, NoMemory> {
    Ok(Op::Insert {
        name: Text::of(alloc, "f")?,
        content: Bytes::of(alloc, b"hello")?,
        pairs: two_pairs(alloc)?,
        only: Some(4),
        stamp: 5,
    })
}

fn update(alloc: Global) -> Result<Op, NoMemory> {
    Ok(Op::Update {
        name: Text::of(alloc, "f")?,
        pairs: two_pairs(alloc)?,
        only: None,
        only_meta: Some(6),
        stamp: 7,
    })
}

fn delete(alloc: Global) -> Result<Op, NoMemory> {
    let name = Text::of(alloc, "f")?;
    Ok(Op::Delete {
        name,
        only: Some(8),
    })
}

fn copy(alloc: Global) -> Result<Op, NoMemory> {
    Ok(Op::Copy {
        from: Text::of(alloc, "f")?,
        generation: 9,
        to: Text::of(alloc, "g")?,
        stamp: 10,
    })
}

fn list(alloc: Global, after: Option<Text>) -> Result<Op, NoMemory> {
    let prefix = Text::of(alloc, "d/")?;
    Ok(Op::List {
        prefix,
        slash: true,
        max: 11,
        after,
    })
}

/// A content as text.
fn text_of(content: &Bytes) -> &str {
    str::from_utf8(content.as_slice()).unwrap_or("no text")
}

/// The pairs as text, each behind a blank.
fn told_pairs(alloc: Global, pairs: &Row<Pair>) -> Result<String, NoMemory> {
    let mut told = String::new(alloc);
    for pair in pairs.as_slice() {
        told.push_str(" ")?;
        told.push_str(pair.key.as_str())?;
        told.push_str("=")?;
        told.push_str(pair.value.as_str())?;
    }
    Ok(told)
}

/// The insert or the update as text: all that it asks, with `-` for a precondition that is not asked.
fn told_change(alloc: Global, op: &Op) -> Result<String, NoMemory> {
    match op {
        Op::Insert {
            name,
            content,
            pairs,
            only,
            stamp,
        } => {
            let (name, content, pairs) = (
                name.as_str(),
                text_of(content),
                told_pairs(alloc, pairs)?,
            );
            Ok(format!(in alloc; "insert {name} {content} only {only:?} at {stamp}{pairs}")?)
        }
        Op::Update {
            name,
            pairs,
            only,
            only_meta,
            stamp,
        } => {
            let (name, pairs) = (name.as_str(), told_pairs(alloc, pairs)?);
            Ok(format!(in alloc; "update {name} only {only:?} {only_meta:?} at {stamp}{pairs}")?)
        }
        _ => Ok(String::from_str(alloc, "no insert, no update")?),
    }
}

/// The operation as text: all that it asks.
fn told(alloc: Global, op: &Op) -> Result<String, NoMemory> {
    match op {
        Op::Stat { name } => Ok(format!(in alloc; "stat {}", name.as_str())?),
        Op::Read {
            name,
            generation,
            first,
            count,
        } => Ok(format!(in alloc; "read {} {generation} {first} {count}", name.as_str())?),
        Op::Delete { name, only } => Ok(format!(in alloc;
            "delete {} only {only:?}",
            name.as_str()
        )?),
        Op::Copy {
            from,
            generation,
            to,
            stamp,
        } => Ok(format!(in alloc;
            "copy {} {generation} {} at {stamp}",
            from.as_str(),
            to.as_str()
        )?),
        Op::List {
            prefix,
            slash,
            max,
            after,
        } => {
            let after = after.as_ref().map_or("-", Text::as_str);
            Ok(format!(in alloc; "list {} {slash} {max} {after}", prefix.as_str())?)
        }
        _ => told_change(alloc, op),
    }
}

/// The copy of the operation asks this.
fn is_copied<R: Abort + AllocGlobal>(rt: &R, op: Op, expected: &str) -> Result<(), NoMemory> {
    let copy = op.copy(rt.alloc())?;
    assert_eq!(rt; told(rt.alloc(), &copy)?.as_str(), expected);
    Ok(())
}

#[test]
fn a_copy_of_an_operation_asks_the_same(rt: HostRuntime) -> Result<(), Fail> {
    let alloc = rt.alloc();
    is_copied(&rt, stat(alloc)?, "stat f")?;
    is_copied(&rt, read(alloc)?, "read f 1 2 3")?;
    is_copied(
        &rt,
        insert(alloc)?,
        "insert f hello only Some(4) at 5 k=v l=",
    )?;
    is_copied(
        &rt,
        update(alloc)?,
        "update f only None Some(6) at 7 k=v l=",
    )?;
    Ok(())
}

#[test]
fn a_copy_of_a_delete_a_copy_or_a_list_asks_the_same(rt: HostRuntime) -> Result<(), Fail> {
    let alloc = rt.alloc();
    is_copied(&rt, delete(alloc)?, "delete f only Some(8)")?;
    is_copied(&rt, copy(alloc)?, "copy f 9 g at 10")?;
    is_copied(&rt, list(alloc, None)?, "list d/ true 11 -")?;
    is_copied(
        &rt,
        list(alloc, Some(Text::of(alloc, "d/f")?))?,
        "list d/ true 11 d/f",
    )?;
    Ok(())
}

/// An object with all fields apart.
fn object(alloc: Global) -> Result<Object, NoMemory> {
    let meta = Meta {
        name: Text::of(alloc, "f")?,
        generation: 1,
        metageneration: 2,
        size: 5,
        updated: 4,
        pairs: two_pairs(alloc)?,
    };
    let content = Bytes::of(alloc, b"hello")?;
    Ok(Object { meta, content })
}

/// What is told of an object as text.
fn told_meta(alloc: Global, meta: &Meta) -> Result<String, NoMemory> {
    let (name, pairs) = (meta.name.as_str(), told_pairs(alloc, &meta.pairs)?);
    let (generation, metageneration) = (meta.generation, meta.metageneration);
    Ok(format!(in alloc;
        "{name} {generation} {metageneration} {} {}{pairs}",
        meta.size, meta.updated
    )?)
}

#[test]
fn a_copy_of_an_object_is_equal_to_it(rt: HostRuntime) -> Result<(), Fail> {
    let copy = object(rt.alloc())?.copy(rt.alloc())?;
    assert_eq!(rt;
        told_meta(rt.alloc(), &copy.meta)?.as_str(),
        "f 1 2 5 4 k=v l="
    );
    assert_eq!(rt; text_of(&copy.content), "hello");
    Ok(())
}

/// An event of a lane.
fn event(alloc: Global, lane: u64) -> Result<Event, NoMemory> {
    let op = stat(alloc)?;
    let mode = Mode::Done;
    Ok(Event { lane, op, mode })
}

/// A log of two events, of the lanes 7 and 8.
fn two_events(alloc: Global) -> Result<Row<Event>, NoMemory> {
    let mut log = Row::new(alloc);
    log.reserve(2)?;
    log.push(event(alloc, 7)?);
    log.push(event(alloc, 8)?);
    Ok(log)
}

/// The lane of the event at a moment.
fn lane_at(log: &Row<Event>, moment: u64) -> Option<u64> {
    event_at(log.as_slice(), moment).map(|event| event.lane)
}

#[test]
fn moments_count_from_1(rt: HostRuntime) -> Result<(), Fail> {
    let log = two_events(rt.alloc())?;
    let lanes = [
        lane_at(&log, 0),
        lane_at(&log, 1),
        lane_at(&log, 2),
        lane_at(&log, 3),
    ];
    assert_eq!(rt; lanes, [None, Some(7), Some(8), None]);
    Ok(())
}
