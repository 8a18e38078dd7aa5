//! What a mount tells of itself: its log and its journal, after calls of one lane, a writer beside them, and seconds that
//! pass.
use crate::tests::ask::Ask::{
    Create, Getattr, Init, Lookup, Mkdir, Open, Read, Rename, Rmdir, Unlink,
};
use crate::tests::holding;
use crate::tests::journal::Used::{Kept, Recalled};
use crate::tests::lone::Move::{self, Call, Put, Wait};
use crate::tests::lone::{Setting, moved};
use crate::tests::told::Told::{
    Agreed, Attr, Content, Directory, Done, Errno, File, Fresh, Made, Opened,
};
use bucket_api::{Event, Mode, Op};
use io_ports::{NoMemory, Row};
use mount_model::{Fill, How, JournalEntry, Use};
use std::process::Abort;
use std::test::Fail;

/// An entry of the journal.
#[derive(Clone, Copy)]
enum Line<'a> {
    /// The call of this index was taken at this front.
    Take(u64, u64),
    /// It was done at this front, after these looks at names.
    Done(u64, u64, &'a [Used]),
    /// At this front so many seconds passed.
    Tick(u64, u64),
}

/// A look at a name, by its moment.
#[derive(Clone, Copy)]
enum Used {
    /// The call's own, of which a record was kept.
    Kept(u64),
    /// A record served it.
    Recalled(u64),
}

/// A mount, what happens to it, and the log and the journal that tell of it.
struct Scene<'a> {
    setting: Setting,
    /// The objects in its bucket, of five bytes each.
    names: &'a [&'a str],
    moves: &'a [Move<'a>],
    /// By lanes and operations, all done.
    events: &'a [(u64, char)],
    /// All of the lane 1.
    entries: &'a [Line<'a>],
}

/// An operation by its first letter.
fn letter(op: &Op) -> char {
    match op {
        Op::Stat { .. } => 's',
        Op::Read { .. } => 'r',
        Op::Insert { .. } => 'i',
        Op::Update { .. } => 'u',
        Op::Delete { .. } => 'd',
        Op::Copy { .. } => 'c',
        Op::List { .. } => 'l',
    }
}

/// The log has these events, by lanes and operations, all done.
fn has_events(log: &[Event], expected: &[(u64, char)]) -> bool {
    log.len() == expected.len()
        && log.iter().zip(expected).all(|(event, (lane, op))| {
            event.lane == *lane && letter(&event.op) == *op && event.mode == Mode::Done
        })
}

/// The journal has these entries, all of the lane 1.
fn has_entries(journal: &[JournalEntry], expected: &[Line<'_>]) -> bool {
    journal.len() == expected.len()
        && journal
            .iter()
            .zip(expected)
            .all(|(entry, line)| is_line(entry, *line))
}

/// An entry is this one.
fn is_line(entry: &JournalEntry, line: Line<'_>) -> bool {
    match entry {
        JournalEntry::Take { call, front, .. } => {
            matches!(line, Line::Take(index, at) if call.lane == 1 && call.index == index && *front == at)
        }
        JournalEntry::Done {
            call,
            front,
            how,
            uses,
            fill,
        } => {
            matches!(line, Line::Done(index, at, used) if call.lane == 1 && call.index == index && *front == at
                && *how == How::Ok && *fill == Fill::Nothing && are_used(uses.as_slice(), used))
        }
        JournalEntry::Tick { front, seconds } => {
            matches!(line, Line::Tick(at, passed) if *front == at && *seconds == passed)
        }
    }
}

/// Looks at names are these.
fn are_used(uses: &[Use], expected: &[Used]) -> bool {
    uses.len() == expected.len()
        && uses
            .iter()
            .zip(expected)
            .all(|(one, used)| is_used(*one, *used))
}

/// A look at a name is this one.
fn is_used(one: Use, used: Used) -> bool {
    match used {
        Kept(moment) => one.moment == moment && one.own && one.kept,
        Recalled(moment) => one.moment == moment && !one.own && !one.kept,
    }
}

/// All that was done is told so.
fn tells<R: Abort + AllocGlobal>(rt: &R, scene: &Scene<'_>) -> Result<(), NoMemory> {
    let bucket = holding(rt, scene.names)?;
    let lone = moved(rt, scene.setting, bucket, Row::new(rt.alloc()), scene.moves)?;
    let (_bucket, log, journal) = lone.finish();
    assert!(rt; has_events(log.as_slice(), scene.events));
    assert!(rt; has_entries(journal.as_slice(), scene.entries));
    Ok(())
}

/// Records of ten seconds.
const TEN: Setting = Setting {
    lifetime: 10,
    capacity: 1000,
    implicit: false,
};

/// Two calls, a writer, seconds that pass, and calls behind them: a look-up asks for a directory and then for a file, and a
/// record of nothing serves no more when its lifetime ends; it serves an open, a read is an event that is no look, and a
/// new directory is made without one.
const CALLS: Scene<'static> = Scene {
    setting: TEN,
    names: &[],
    moves: &[
        Call((Init, Agreed)),
        Call((Lookup(1, "f"), Errno(2))),
        Put("f"),
        Wait(10),
        Call((Lookup(1, "f"), File(2))),
        Call((Open(2), Opened(1))),
        Call((Read(2, 1, 0, 5), Content("hello"))),
        Call((Mkdir(1, "d"), Directory(3))),
    ],
    events: &[
        (1, 's'),
        (1, 's'),
        (9, 'i'),
        (1, 's'),
        (1, 's'),
        (1, 'r'),
        (1, 'i'),
    ],
    entries: &[
        Line::Take(1, 0),
        Line::Done(1, 0, &[]),
        Line::Take(2, 0),
        Line::Done(2, 2, &[Kept(1), Kept(2)]),
        Line::Tick(3, 10),
        Line::Take(3, 3),
        Line::Done(3, 5, &[Kept(4), Kept(5)]),
        Line::Take(4, 5),
        Line::Done(4, 5, &[Recalled(5)]),
        Line::Take(5, 5),
        Line::Done(5, 6, &[]),
        Line::Take(6, 6),
        Line::Done(6, 7, &[]),
    ],
};

/// Records serve until their lifetime ends, also where another writer has replaced the object meanwhile.
const LIFETIMES: Scene<'static> = Scene {
    setting: TEN,
    names: &["f"],
    moves: &[
        Call((Init, Agreed)),
        Call((Lookup(1, "f"), File(2))),
        Put("f"),
        Wait(9),
        Call((Lookup(1, "f"), File(2))),
        Wait(1),
        Call((Lookup(1, "f"), File(3))),
    ],
    events: &[(1, 's'), (1, 's'), (9, 'i'), (1, 's'), (1, 's')],
    entries: &[
        Line::Take(1, 0),
        Line::Done(1, 0, &[]),
        Line::Take(2, 0),
        Line::Done(2, 2, &[Kept(1), Kept(2)]),
        Line::Tick(3, 9),
        Line::Take(3, 3),
        Line::Done(3, 3, &[Recalled(1), Recalled(2)]),
        Line::Tick(3, 1),
        Line::Take(4, 3),
        Line::Done(4, 5, &[Kept(4), Kept(5)]),
    ],
};

/// Without a lifetime each look is made anew, that of an open too.
const NO_LIFETIME: Scene<'static> = Scene {
    setting: Setting {
        lifetime: 0,
        capacity: 1000,
        implicit: false,
    },
    names: &["f"],
    moves: &[
        Call((Init, Agreed)),
        Call((Lookup(1, "f"), File(2))),
        Call((Lookup(1, "f"), File(2))),
        Call((Open(2), Opened(1))),
    ],
    events: &[(1, 's'), (1, 's'), (1, 's'), (1, 's'), (1, 's')],
    entries: &[
        Line::Take(1, 0),
        Line::Done(1, 0, &[]),
        Line::Take(2, 0),
        Line::Done(2, 2, &[Kept(1), Kept(2)]),
        Line::Take(3, 2),
        Line::Done(3, 4, &[Kept(3), Kept(4)]),
        Line::Take(4, 4),
        Line::Done(4, 5, &[Kept(5)]),
    ],
};

/// Where one record is kept, that of the directory and that of the file push each other out.
const ONE_RECORD: Scene<'static> = Scene {
    setting: Setting {
        lifetime: 10,
        capacity: 1,
        implicit: false,
    },
    names: &["f"],
    moves: &[
        Call((Init, Agreed)),
        Call((Lookup(1, "f"), File(2))),
        Call((Lookup(1, "f"), File(2))),
        Call((Lookup(1, "f"), File(2))),
        Call((Getattr(2), Attr(2, 5, 1))),
    ],
    events: &[(1, 's'), (1, 's'), (1, 's'), (1, 's')],
    entries: &[
        Line::Take(1, 0),
        Line::Done(1, 0, &[]),
        Line::Take(2, 0),
        Line::Done(2, 2, &[Kept(1), Kept(2)]),
        Line::Take(3, 2),
        Line::Done(3, 3, &[Kept(3), Recalled(2)]),
        Line::Take(4, 3),
        Line::Done(4, 4, &[Recalled(3), Kept(4)]),
        Line::Take(5, 4),
        Line::Done(5, 4, &[Recalled(4)]),
    ],
};

/// A rename makes the records of both names go; a record serves its look at the directory, and its look at the object is its
/// own. What is absent is recorded too.
const RENAMED: Scene<'static> = Scene {
    setting: TEN,
    names: &["a", "b"],
    moves: &[
        Call((Init, Agreed)),
        Call((Lookup(1, "a"), File(2))),
        Call((Lookup(1, "b"), File(3))),
        Call((Rename(1, "a", 1, "b"), Done)),
        Call((Lookup(1, "b"), Fresh(4, 5))),
        Call((Lookup(1, "a"), Errno(2))),
        Call((Lookup(1, "a"), Errno(2))),
    ],
    events: &[
        (1, 's'),
        (1, 's'),
        (1, 's'),
        (1, 's'),
        (1, 's'),
        (1, 'c'),
        (1, 'd'),
        (1, 's'),
        (1, 's'),
    ],
    entries: &[
        Line::Take(1, 0),
        Line::Done(1, 0, &[]),
        Line::Take(2, 0),
        Line::Done(2, 2, &[Kept(1), Kept(2)]),
        Line::Take(3, 2),
        Line::Done(3, 4, &[Kept(3), Kept(4)]),
        Line::Take(4, 4),
        Line::Done(4, 7, &[Recalled(1), Kept(5)]),
        Line::Take(5, 7),
        Line::Done(5, 8, &[Recalled(3), Kept(8)]),
        Line::Take(6, 8),
        Line::Done(6, 9, &[Recalled(1), Kept(9)]),
        Line::Take(7, 9),
        Line::Done(7, 9, &[Recalled(1), Recalled(9)]),
    ],
};

/// Where directories are implicit, what is made or removed in one makes its record go too.
const IMPLICIT: Scene<'static> = Scene {
    setting: Setting {
        lifetime: 10,
        capacity: 1000,
        implicit: true,
    },
    names: &[],
    moves: &[
        Call((Init, Agreed)),
        Call((Mkdir(1, "d"), Directory(2))),
        Call((Lookup(1, "d"), Directory(2))),
        Call((Create(2, "f"), Made(3, 1))),
        Call((Lookup(1, "d"), Directory(2))),
        Call((Lookup(1, "d"), Directory(2))),
        Call((Unlink(2, "f"), Done)),
        Call((Rmdir(1, "d"), Done)),
        Call((Lookup(1, "d"), Errno(2))),
        Call((Lookup(1, "d"), Errno(2))),
    ],
    events: &[
        (1, 'i'),
        (1, 'l'),
        (1, 'i'),
        (1, 'l'),
        (1, 'd'),
        (1, 'l'),
        (1, 'd'),
        (1, 'l'),
        (1, 's'),
    ],
    entries: &[
        Line::Take(1, 0),
        Line::Done(1, 0, &[]),
        Line::Take(2, 0),
        Line::Done(2, 1, &[]),
        Line::Take(3, 1),
        Line::Done(3, 2, &[Kept(2)]),
        Line::Take(4, 2),
        Line::Done(4, 3, &[]),
        Line::Take(5, 3),
        Line::Done(5, 4, &[Kept(4)]),
        Line::Take(6, 4),
        Line::Done(6, 4, &[Recalled(4)]),
        Line::Take(7, 4),
        Line::Done(7, 5, &[]),
        Line::Take(8, 5),
        Line::Done(8, 7, &[]),
        Line::Take(9, 7),
        Line::Done(9, 9, &[Kept(8), Kept(9)]),
        Line::Take(10, 9),
        Line::Done(10, 9, &[Recalled(8), Recalled(9)]),
    ],
};

#[test]
fn a_log_and_a_journal_tell_all_that_was_done(rt: HostRuntime) -> Result<(), Fail> {
    tells(&rt, &CALLS)?;
    Ok(())
}

#[test]
fn records_serve_while_they_live(rt: HostRuntime) -> Result<(), Fail> {
    tells(&rt, &LIFETIMES)?;
    tells(&rt, &NO_LIFETIME)?;
    tells(&rt, &ONE_RECORD)?;
    Ok(())
}

#[test]
fn what_a_mount_writes_makes_records_go(rt: HostRuntime) -> Result<(), Fail> {
    tells(&rt, &RENAMED)?;
    tells(&rt, &IMPLICIT)?;
    Ok(())
}
