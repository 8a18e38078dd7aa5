//! Scenarios are played, and the whole text of each history is compared.
use super::ends::prints;
use super::{INIT, INIT_DONE, SOUND};
use io_ports::Text;
use std::alloc::Global;
use std::process::Abort;
use std::sync::Wait;
use std::test::Fail;
use std::thread::Threads;

/// What the one lane of a phase does.
#[derive(Clone, Copy)]
pub(crate) enum Lane<'a> {
    /// It makes calls: the frame of each, and of its reply.
    Calls(&'a [(&'a str, &'a str)]),
    /// It writes beside the mount: its operations, as they stand in a scenario.
    Remote(&'a str),
    /// It lets seconds pass, as they stand in a scenario.
    Clock(&'a str),
}

/// A scenario of phases with one lane each, and what its history tells.
#[derive(Clone, Copy)]
pub(crate) struct Scene<'a> {
    /// The members of the scenario in front of its phases, each with its comma.
    pub(crate) start: &'a str,
    pub(crate) phases: &'a [Lane<'a>],
    /// The lines behind the replies.
    pub(crate) told: &'a str,
}

/// The text of a scenario.
fn scenario_of(alloc: Global, scene: Scene<'_>) -> Result<String, Fail> {
    let mut text = String::from_str(alloc, "{")?;
    text.push_str(scene.start)?;
    text.push_str(r#""phases":["#)?;
    for (place, lane) in scene.phases.iter().enumerate() {
        text.push_str(if place == 0 { "[" } else { ",[" })?;
        push_lane(&mut text, *lane)?;
        text.push_str("]")?;
    }
    text.push_str("]}")?;
    Ok(text)
}

/// Puts a lane behind the text of a scenario.
fn push_lane(text: &mut String, lane: Lane<'_>) -> Result<(), Fail> {
    match lane {
        Lane::Calls(calls) => push_calls(text, calls),
        Lane::Remote(operations) => push_items(text, "remote", operations),
        Lane::Clock(seconds) => push_items(text, "clock", seconds),
    }
}

/// Puts a lane of items that stand as in a scenario behind its text.
fn push_items(text: &mut String, kind: &str, items: &str) -> Result<(), Fail> {
    for part in [r#"{""#, kind, r#"":["#, items, "]}"] {
        text.push_str(part)?;
    }
    Ok(())
}

/// Puts a lane of calls behind the text of a scenario.
fn push_calls(text: &mut String, calls: &[(&str, &str)]) -> Result<(), Fail> {
    text.push_str(r#"{"calls":["#)?;
    for (place, (frame, _reply)) in calls.iter().enumerate() {
        text.push_str(if place == 0 {
            r#"{"frame":""#
        } else {
            r#",{"frame":""#
        })?;
        text.push_str(frame)?;
        text.push_str(r#""}"#)?;
    }
    text.push_str("]}")?;
    Ok(())
}

/// The text of a history.
fn history_of(alloc: Global, scene: Scene<'_>) -> Result<String, Fail> {
    let mut text = String::new(alloc);
    let mut lane = 0_u64;
    for work in scene.phases {
        lane = lane.saturating_add(1);
        if let Lane::Calls(calls) = *work {
            push_replies(alloc, &mut text, lane, calls)?;
        }
    }
    text.push_str(scene.told)?;
    Ok(text)
}

/// Puts the replies to a lane of calls behind the text of a history.
fn push_replies(
    alloc: Global,
    text: &mut String,
    lane: u64,
    calls: &[(&str, &str)],
) -> Result<(), Fail> {
    let mut index = 0_u64;
    for (_frame, reply) in calls {
        index = index.saturating_add(1);
        let line = format!(in alloc; "reply {lane}.{index} {reply}\n")?;
        text.push_str(line.as_str())?;
    }
    Ok(())
}

/// Plays a scenario with `gcsmount play`, and compares its history.
pub(crate) fn plays<T: Threads + Wait + Sync + Abort>(
    rt: &T,
    alloc: Global,
    scene: Scene<'_>,
) -> Result<(), Fail> {
    let scenario = scenario_of(alloc, scene)?;
    let history = history_of(alloc, scene)?;
    let word = Text::of(alloc, "play")?;
    prints(
        rt,
        alloc,
        &[word],
        scenario.as_str(),
        SOUND,
        (0, history.as_str(), ""),
    )
}

// ---- flushes
/// CREATE of `f` in node 1, unique 2.
const CREATE: &str =
    "3a000000230000000200000000000000010000000000000000000000000000000000000000000000\
000000000000000000000000000000006600";

/// Its reply: node 2, an empty file of mode 0100644 and time 0, and handle 1.
const CREATED: &str =
    "a0000000000000000200000000000000020000000000000000000000000000000000000000000000\
00000000000000000000000000000000020000000000000000000000000000000000000000000000\
000000000000000000000000000000000000000000000000000000000000000000000000a4810000\
01000000000000000000000000000000001000000000000001000000000000000000000000000000";

/// WRITE of `ab` at 0 through handle 1 of node 2, unique 3.
const WRITE_AB: &str =
    "52000000100000000300000000000000020000000000000000000000000000000000000000000000\
01000000000000000000000000000000020000000000000000000000000000000000000000000000\
6162";

/// Its reply: two bytes.
const WROTE_AB: &str = "180000000000000003000000000000000200000000000000";

/// WRITE of `cd` at 2 through handle 1 of node 2, unique 4.
const WRITE_CD: &str =
    "52000000100000000400000000000000020000000000000000000000000000000000000000000000\
01000000000000000200000000000000020000000000000000000000000000000000000000000000\
6364";

/// Its reply: two bytes.
const WROTE_CD: &str = "180000000000000004000000000000000200000000000000";

/// FLUSH of handle 1 of node 2, unique 5.
const FLUSH: &str =
    "40000000190000000500000000000000020000000000000000000000000000000000000000000000\
010000000000000000000000000000000000000000000000";

/// FLUSH of handle 1 of node 2, unique 6.
const FLUSH_AGAIN: &str =
    "40000000190000000600000000000000020000000000000000000000000000000000000000000000\
010000000000000000000000000000000000000000000000";

/// One flush makes one generation; the second finds nothing to do.
const FLUSHED_ONCE: Scene<'static> = Scene {
    start: "",
    phases: &[Lane::Calls(&[
        (INIT, INIT_DONE),
        (CREATE, CREATED),
        (WRITE_AB, WROTE_AB),
        (WRITE_CD, WROTE_CD),
        (FLUSH, "10000000000000000500000000000000"),
        (FLUSH_AGAIN, "10000000000000000600000000000000"),
    ])],
    told: "object 66 2 1 0 4 61626364 676373667573655f6d74696d65=313937302d30312d30315430303a30303a30302e3030303030303030305a
log 1 1 done insert 66 0 0 - -
log 2 1 done insert 66 1 0 676373667573655f6d74696d65=313937302d30312d30315430303a30303a30302e3030303030303030305a 61626364
take 1.1 0
done 1.1 0 ok
take 1.2 0
done 1.2 1 ok
take 1.3 1
done 1.3 1 ok
take 1.4 1
done 1.4 1 ok
take 1.5 1
done 1.5 2 ok
take 1.6 2
done 1.6 2 ok
end
",
};

/// The insert of the flush is made, and its answer lost: the object is newer than the file, so the second is ESTALE.
const ANSWER_LOST: Scene<'static> = Scene {
    start: r#""faults":[{"moment":2,"mode":"lost"}],"#,
    phases: &[Lane::Calls(&[
        (INIT, INIT_DONE),
        (CREATE, CREATED),
        (WRITE_AB, WROTE_AB),
        (WRITE_CD, WROTE_CD),
        (FLUSH, "10000000fbffffff0500000000000000"),
        (FLUSH_AGAIN, "100000008cffffff0600000000000000"),
    ])],
    told: "object 66 2 1 0 4 61626364 676373667573655f6d74696d65=313937302d30312d30315430303a30303a30302e3030303030303030305a
log 1 1 done insert 66 0 0 - -
log 2 1 lost insert 66 1 0 676373667573655f6d74696d65=313937302d30312d30315430303a30303a30302e3030303030303030305a 61626364
log 3 1 done insert 66 1 0 676373667573655f6d74696d65=313937302d30312d30315430303a30303a30302e3030303030303030305a 61626364
take 1.1 0
done 1.1 0 ok
take 1.2 0
done 1.2 1 ok
take 1.3 1
done 1.3 1 ok
take 1.4 1
done 1.4 1 ok
take 1.5 1
done 1.5 2 ok
take 1.6 2
done 1.6 3 ok
end
",
};

/// The insert of the flush fails, and the second one flushes.
const INSERT_FAILED: Scene<'static> = Scene {
    start: r#""faults":[{"moment":2,"mode":"failed"}],"#,
    phases: &[Lane::Calls(&[
        (INIT, INIT_DONE),
        (CREATE, CREATED),
        (WRITE_AB, WROTE_AB),
        (WRITE_CD, WROTE_CD),
        (FLUSH, "10000000fbffffff0500000000000000"),
        (FLUSH_AGAIN, "10000000000000000600000000000000"),
    ])],
    told: "object 66 2 1 0 4 61626364 676373667573655f6d74696d65=313937302d30312d30315430303a30303a30302e3030303030303030305a
log 1 1 done insert 66 0 0 - -
log 2 1 failed insert 66 1 0 676373667573655f6d74696d65=313937302d30312d30315430303a30303a30302e3030303030303030305a 61626364
log 3 1 done insert 66 1 0 676373667573655f6d74696d65=313937302d30312d30315430303a30303a30302e3030303030303030305a 61626364
take 1.1 0
done 1.1 0 ok
take 1.2 0
done 1.2 1 ok
take 1.3 1
done 1.3 1 ok
take 1.4 1
done 1.4 1 ok
take 1.5 1
done 1.5 2 ok
take 1.6 2
done 1.6 3 ok
end
",
};

#[test]
fn a_flush_is_played_whole_lost_and_failed(rt: HostRuntime) -> Result<(), Fail> {
    for scene in [FLUSHED_ONCE, ANSWER_LOST, INSERT_FAILED] {
        plays(&rt, rt.alloc(), scene)?;
    }
    Ok(())
}

// ---- a writer beside the mount
/// An object `f` that holds `hello`.
pub(crate) const HELLO: &str = r#""objects":[{"name":"f","hex":"68656c6c6f"}],"#;

/// It is replaced by one that holds `world`.
pub(crate) const REPLACE: Lane<'static> = Lane::Remote(
    r#"{"act":"write","name":"f","hex":"776f726c64"}"#,
);

/// It is deleted, and an equal one is written.
const WRITE_ANEW: Lane<'static> = Lane::Remote(
    r#"{"act":"delete","name":"f"},{"act":"write","name":"f","hex":"68656c6c6f"}"#,
);

/// LOOKUP of `f` in node 1, unique 2.
pub(crate) const LOOKUP: &str =
    "2a000000010000000200000000000000010000000000000000000000000000000000000000000000\
6600";

/// Its reply: node 2, a file of five bytes and time 0.
pub(crate) const NODE_2: &str =
    "90000000000000000200000000000000020000000000000000000000000000000000000000000000\
00000000000000000000000000000000020000000000000005000000000000000100000000000000\
000000000000000000000000000000000000000000000000000000000000000000000000a4810000\
010000000000000000000000000000000010000000000000";

/// Its reply where that is node 3.
pub(crate) const NODE_3: &str =
    "90000000000000000200000000000000030000000000000000000000000000000000000000000000\
00000000000000000000000000000000030000000000000005000000000000000100000000000000\
000000000000000000000000000000000000000000000000000000000000000000000000a4810000\
010000000000000000000000000000000010000000000000";

/// OPEN of node 2, unique 3.
pub(crate) const OPEN: &str =
    "300000000e0000000300000000000000020000000000000000000000000000000000000000000000\
0000000000000000";

/// OPEN of node 2, unique 1.
const OPEN_FIRST: &str =
    "300000000e0000000100000000000000020000000000000000000000000000000000000000000000\
0000000000000000";

/// OPEN of node 3, unique 3.
const OPEN_3: &str =
    "300000000e0000000300000000000000030000000000000000000000000000000000000000000000\
0000000000000000";

/// The reply to the two of unique 3: handle 1.
pub(crate) const OPENED: &str = "2000000000000000030000000000000001000000000000000000000000000000";

/// WRITE of `HELLO` at 0 through handle 1 of node 2, unique 4.
const WRITE: &str =
    "55000000100000000400000000000000020000000000000000000000000000000000000000000000\
01000000000000000000000000000000050000000000000000000000000000000000000000000000\
48454c4c4f";

/// Its reply: five bytes.
const WROTE: &str = "180000000000000004000000000000000500000000000000";

/// FLUSH of handle 1 of node 2, unique 1.
const FLUSH_FIRST: &str =
    "40000000190000000100000000000000020000000000000000000000000000000000000000000000\
010000000000000000000000000000000000000000000000";

/// READ of five bytes at 0 through handle 1 of node 2, unique 2.
const READ: &str =
    "500000000f0000000200000000000000020000000000000000000000000000000000000000000000\
01000000000000000000000000000000050000000000000000000000000000000000000000000000";

/// READ of five bytes at 0 through handle 1 of node 3, unique 4.
const READ_3: &str =
    "500000000f0000000400000000000000030000000000000000000000000000000000000000000000\
01000000000000000000000000000000050000000000000000000000000000000000000000000000";

/// The reply to what has unique 1 and comes too late: ESTALE.
const STALE: &str = "100000008cffffff0100000000000000";

/// The file is looked up, opened and written whole.
const WRITTEN: Lane<'static> = Lane::Calls(&[
    (INIT, INIT_DONE),
    (LOOKUP, NODE_2),
    (OPEN, OPENED),
    (WRITE, WROTE),
]);

/// Its flush is ESTALE, and what was written is still read.
const TOO_LATE: Lane<'static> = Lane::Calls(&[
    (FLUSH_FIRST, STALE),
    (READ, "1500000000000000020000000000000048454c4c4f"),
]);

/// The object is replaced between a write and its flush.
const REPLACED: Scene<'static> = Scene {
    start: HELLO,
    phases: &[WRITTEN, REPLACE, TOO_LATE],
    told: "object 66 2 1 0 5 776f726c64 -
log 1 1 done stat 662f
log 2 1 done stat 66
log 3 2 done insert 66 * 0 - 776f726c64
log 4 3 done insert 66 1 0 676373667573655f6d74696d65=313937302d30312d30315430303a30303a30302e3030303030303030305a 48454c4c4f
take 1.1 0
done 1.1 0 ok
take 1.2 0
done 1.2 2 ok o1k o2k
take 1.3 2
done 1.3 2 ok r2
take 1.4 2
done 1.4 2 ok
take 3.1 3
done 3.1 4 ok
take 3.2 4
done 3.2 4 ok
end
",
};

/// It is deleted and written anew with the same bytes.
const WRITTEN_ANEW: Scene<'static> = Scene {
    start: HELLO,
    phases: &[WRITTEN, WRITE_ANEW, TOO_LATE],
    told: "object 66 2 1 0 5 68656c6c6f -
log 1 1 done stat 662f
log 2 1 done stat 66
log 3 2 done delete 66 *
log 4 2 done insert 66 * 0 - 68656c6c6f
log 5 3 done insert 66 1 0 676373667573655f6d74696d65=313937302d30312d30315430303a30303a30302e3030303030303030305a 48454c4c4f
take 1.1 0
done 1.1 0 ok
take 1.2 0
done 1.2 2 ok o1k o2k
take 1.3 2
done 1.3 2 ok r2
take 1.4 2
done 1.4 2 ok
take 3.1 4
done 3.1 5 ok
take 3.2 5
done 3.2 5 ok
end
",
};

/// It is replaced between a look-up and an open, where no record serves: the open is ESTALE, and the next look-up shows
/// another node.
const FOUND_AND_REPLACED: Scene<'static> = Scene {
    start: r#""config":{"stat_lifetime":0,"type_lifetime":0},"objects":[{"name":"f","hex":"68656c6c6f"}],"#,
    phases: &[
        Lane::Calls(&[(INIT, INIT_DONE), (LOOKUP, NODE_2)]),
        REPLACE,
        Lane::Calls(&[
            (OPEN_FIRST, STALE),
            (LOOKUP, NODE_3),
            (OPEN_3, OPENED),
            (READ_3, "15000000000000000400000000000000776f726c64"),
        ]),
    ],
    told: "object 66 2 1 0 5 776f726c64 -
log 1 1 done stat 662f
log 2 1 done stat 66
log 3 2 done insert 66 * 0 - 776f726c64
log 4 3 done stat 66
log 5 3 done stat 662f
log 6 3 done stat 66
log 7 3 done stat 66
log 8 3 done read 66 2 0 5
take 1.1 0
done 1.1 0 ok
take 1.2 0
done 1.2 2 ok o1k o2k
take 3.1 3
done 3.1 4 ok o4k
take 3.2 4
done 3.2 6 ok o5k o6k
take 3.3 6
done 3.3 7 ok o7k
take 3.4 7
done 3.4 8 ok
end
",
};

#[test]
fn what_is_written_beside_the_mount_is_never_replaced(rt: HostRuntime) -> Result<(), Fail> {
    for scene in [REPLACED, WRITTEN_ANEW, FOUND_AND_REPLACED] {
        plays(&rt, rt.alloc(), scene)?;
    }
    Ok(())
}

// ---- names and times
/// RENAME of `a` in node 1 to `b` in node 1, unique 2.
const RENAME: &str =
    "340000000c0000000200000000000000010000000000000000000000000000000000000000000000\
010000000000000061006200";

/// SETATTR of node 2, unique 3: its mtime is second 5 and nanosecond 7.
const SETATTR: &str =
    "80000000040000000300000000000000020000000000000000000000000000000000000000000000\
20000000000000000000000000000000000000000000000000000000000000000000000000000000\
05000000000000000000000000000000000000000700000000000000000000000000000000000000\
0000000000000000";

/// Its reply: node 2, a file of five bytes with that time.
const TIMED: &str =
    "78000000000000000300000000000000000000000000000000000000000000000200000000000000\
05000000000000000100000000000000050000000000000005000000000000000500000000000000\
070000000700000007000000a4810000010000000000000000000000000000000010000000000000";

/// An object is copied over another one, and deleted.
const RENAMED: Scene<'static> = Scene {
    start: r#""objects":[{"name":"a"},{"name":"b"}],"#,
    phases: &[Lane::Calls(&[
        (INIT, INIT_DONE),
        (RENAME, "10000000000000000200000000000000"),
    ])],
    told: "object 62 3 1 0 0 - -
log 1 1 done stat 612f
log 2 1 done stat 61
log 3 1 done copy 61 1 62 0
log 4 1 done delete 61 1
take 1.1 0
done 1.1 0 ok
take 1.2 0
done 1.2 4 ok o1k o2k
end
",
};

/// A time is set by a pair of the object, whose generation stays.
const TOUCHED: Scene<'static> = Scene {
    start: HELLO,
    phases: &[Lane::Calls(&[(INIT, INIT_DONE), (LOOKUP, NODE_2), (SETATTR, TIMED)])],
    told: "object 66 1 2 0 5 68656c6c6f 676373667573655f6d74696d65=313937302d30312d30315430303a30303a30352e3030303030303030375a
log 1 1 done stat 662f
log 2 1 done stat 66
log 3 1 done update 66 1 * 0 676373667573655f6d74696d65=313937302d30312d30315430303a30303a30352e3030303030303030375a
take 1.1 0
done 1.1 0 ok
take 1.2 0
done 1.2 2 ok o1k o2k
take 1.3 2
done 1.3 3 ok
end
",
};

#[test]
fn a_rename_and_a_time_are_played(rt: HostRuntime) -> Result<(), Fail> {
    for scene in [RENAMED, TOUCHED] {
        plays(&rt, rt.alloc(), scene)?;
    }
    Ok(())
}
