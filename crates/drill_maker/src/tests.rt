//! Drills by outside values: the format's numbers, and frames laid out after fuse.h.
use crate::{make, summary};
use bucket_api::{Event, Mode, Op};
use bucket_plain::Plain;
use history_text::Played;
use io_ports::{Bytes, NoMemory, Row, Text};
use mount_model::CallId;
use scenario::{Fix, LaneWork, Phase, Scenario, ScenarioFault, ScriptedCall};
use std::alloc::Global;
use std::test::Fail;

/// A call that is expected at an index of a lane: how its frame begins, how many equal bytes come behind, and, as place,
/// lane, index and whether it is a handle, its fixups.
struct Expected {
    lane: usize,
    index: usize,
    front: &'static [u8],
    fill: u8,
    count: usize,
    fixes: &'static [(u64, u64, u64, bool)],
}

/// Calls of the drill of seed 0. The first frame is that of a kernel's INIT.
static EXPECTED: [Expected; 11] = [
    Expected {
        lane: 1,
        index: 1,
        front: b"8\0\0\0\x1a\0\0\0\x01\0\0\0\0\0\0\0\0\0\0\0\0\0\0\0\0\0\0\0\0\0\0\0\0\0\0\0\0\0\0\0\x07\0\0\0\x1f\0\0\0\0\0\x02\0\xff\xff\xff\xff",
        fill: 0,
        count: 0,
        fixes: &[],
    },
    Expected {
        lane: 2,
        index: 1,
        front: b"3\0\0\0\x09\0\0\0\x01\0\0\0\0\0\0\0\x01\0\0\0\0\0\0\0\0\0\0\0\0\0\0\0\0\0\0\0\0\0\0\0\0\0\0\0\0\0\0\0d1\0",
        fill: 0,
        count: 0,
        fixes: &[],
    },
    Expected {
        lane: 2,
        index: 2,
        front: b";\0\0\0#\0\0\0\x02\0\0\0\0\0\0\0\0\0\0\0\0\0\0\0\0\0\0\0\0\0\0\0\0\0\0\0\0\0\0\0\0\0\0\0\0\0\0\0\0\0\0\0\0\0\0\0f1\0",
        fill: 0,
        count: 0,
        fixes: &[(16, 2, 1, false)],
    },
    Expected {
        lane: 2,
        index: 3,
        front: b"%\x14\0\0\x10\0\0\0\x03\0\0\0\0\0\0\0\0\0\0\0\0\0\0\0\0\0\0\0\0\0\0\0\0\0\0\0\0\0\0\0\0\0\0\0\0\0\0\0\0\0\0\0\0\0\0\0\xd5\x13\0\0\0\0\0\0\0\0\0\0\0\0\0\0\0\0\0\0\0\0\0\0",
        fill: 2,
        count: 5_077,
        fixes: &[(16, 2, 2, false), (40, 2, 2, true)],
    },
    Expected {
        lane: 2,
        index: 4,
        front: b"@\0\0\0\x19\0\0\0\x04\0\0\0\0\0\0\0\0\0\0\0\0\0\0\0\0\0\0\0\0\0\0\0\0\0\0\0\0\0\0\0\0\0\0\0\0\0\0\0\0\0\0\0\0\0\0\0\0\0\0\0\0\0\0\0",
        fill: 0,
        count: 0,
        fixes: &[(16, 2, 2, false), (40, 2, 2, true)],
    },
    Expected {
        lane: 2,
        index: 5,
        front: b"@\0\0\0\x12\0\0\0\x05\0\0\0\0\0\0\0\0\0\0\0\0\0\0\0\0\0\0\0\0\0\0\0\0\0\0\0\0\0\0\0\0\0\0\0\0\0\0\0\0\0\0\0\0\0\0\0\0\0\0\0\0\0\0\0",
        fill: 0,
        count: 0,
        fixes: &[(16, 2, 2, false), (40, 2, 2, true)],
    },
    Expected {
        lane: 2,
        index: 66,
        front: b"+\0\0\0\x0a\0\0\0B\0\0\0\0\0\0\0\0\0\0\0\0\0\0\0\0\0\0\0\0\0\0\0\0\0\0\0\0\0\0\0f4\0",
        fill: 0,
        count: 0,
        fixes: &[(16, 2, 1, false)],
    },
    Expected {
        lane: 9,
        index: 1,
        front: b"3\0\0\0\x09\0\0\0\x01\0\0\0\0\0\0\0\x01\0\0\0\0\0\0\0\0\0\0\0\0\0\0\0\0\0\0\0\0\0\0\0\0\0\0\0\0\0\0\0d8\0",
        fill: 0,
        count: 0,
        fixes: &[],
    },
    Expected {
        lane: 9,
        index: 62,
        front: b"<\0\0\0#\0\0\0>\0\0\0\0\0\0\0\0\0\0\0\0\0\0\0\0\0\0\0\0\0\0\0\0\0\0\0\0\0\0\0\0\0\0\0\0\0\0\0\0\0\0\0\0\0\0\0f16\0",
        fill: 0,
        count: 0,
        fixes: &[(16, 9, 1, false)],
    },
    Expected {
        lane: 9,
        index: 63,
        front: b"\x09\x1f\x01\0\x10\0\0\0?\0\0\0\0\0\0\0\0\0\0\0\0\0\0\0\0\0\0\0\0\0\0\0\0\0\0\0\0\0\0\0\0\0\0\0\0\0\0\0\0\0\0\0\0\0\0\0\xb9\x1e\x01\0\0\0\0\0\0\0\0\0\0\0\0\0\0\0\0\0\0\0\0\0",
        fill: 24,
        count: 73_401,
        fixes: &[(16, 9, 62, false), (40, 9, 62, true)],
    },
    Expected {
        lane: 9,
        index: 69,
        front: b",\0\0\0\x0a\0\0\0E\0\0\0\0\0\0\0\0\0\0\0\0\0\0\0\0\0\0\0\0\0\0\0\0\0\0\0\0\0\0\0f16\0",
        fill: 0,
        count: 0,
        fixes: &[(16, 9, 1, false)],
    },
];

/// The calls of a lane.
fn calls_of(lane: Option<&LaneWork>) -> &[ScriptedCall] {
    match lane {
        Some(LaneWork::Calls(calls)) => calls.as_slice(),
        _ => &[],
    }
}

/// The calls of the lane of this number, where the first phase has one lane.
fn lane_at(phases: &[Phase], number: usize) -> &[ScriptedCall] {
    match phases {
        [first, _] if number == 1 => calls_of(first.lanes.as_slice().first()),
        [_, second] if number > 1 => calls_of(second.lanes.as_slice().get(number - 2)),
        _ => &[],
    }
}

/// Whether the fixups are these.
fn are_fixes(fixes: &[Fix], expected: &[(u64, u64, u64, bool)]) -> bool {
    for (fix, (at, lane, index, handle)) in fixes.iter().zip(expected) {
        let call = CallId {
            lane: *lane,
            index: *index,
        };
        let meant = Fix {
            at: *at,
            call,
            handle: *handle,
        };
        if *fix != meant {
            return false;
        }
    }
    fixes.len() == expected.len()
}

/// Whether the bytes are the front, and then so many of one byte.
fn is_filled(frame: &[u8], front: &[u8], fill: u8, count: usize) -> bool {
    match frame.strip_prefix(front) {
        Some(rest) => rest.len() == count && rest.iter().all(|byte| *byte == fill),
        None => false,
    }
}

/// Whether the drill has this call.
fn has_call(scenario: &Scenario, expected: &Expected) -> bool {
    let lane = lane_at(scenario.phases.as_slice(), expected.lane);
    match lane.get(expected.index.saturating_sub(1)) {
        Some(call) => {
            is_filled(
                call.frame.as_slice(),
                expected.front,
                expected.fill,
                expected.count,
            ) && are_fixes(call.fixes.as_slice(), expected.fixes)
        }
        None => false,
    }
}

#[test]
fn calls_have_the_kernel_s_frames(rt: HostRuntime) -> Result<(), Fail> {
    let scenario = make(rt.alloc(), 0)?;
    for expected in &EXPECTED {
        assert!(rt;
            has_call(&scenario, expected),
            "{}.{}",
            expected.lane,
            expected.index
        );
    }
    Ok(())
}

/// How many calls of a lane have this opcode.
fn count_in(calls: &[ScriptedCall], opcode: u8) -> usize {
    calls
        .iter()
        .filter(|call| call.frame.as_slice().get(4) == Some(&opcode))
        .count()
}

/// How many calls of the drill have this opcode.
fn count_of(scenario: &Scenario, opcode: u8) -> usize {
    let mut count = 0usize;
    for number in 1..=10 {
        count = count.saturating_add(count_in(lane_at(scenario.phases.as_slice(), number), opcode));
    }
    count
}

/// The bytes that a lane's WRITEs bring, but for every fourth, whose file is taken away.
fn kept_in(calls: &[ScriptedCall]) -> usize {
    let mut files = 0usize;
    let mut bytes = 0usize;
    for call in calls {
        let frame = call.frame.as_slice();
        if frame.get(4) == Some(&16) {
            files = files.saturating_add(1);
            if files % 4 != 0 {
                bytes = bytes.saturating_add(frame.len().saturating_sub(80));
            }
        }
    }
    bytes
}

/// The bytes of all files that stay.
fn kept_of(scenario: &Scenario) -> usize {
    let mut bytes = 0usize;
    for number in 1..=10 {
        bytes = bytes.saturating_add(kept_in(lane_at(scenario.phases.as_slice(), number)));
    }
    bytes
}

/// How many calls of each opcode there are: INIT, MKDIR, CREATE, WRITE, FLUSH, RELEASE and UNLINK. They are 553.
const OPCODES: [(u8, usize); 7] = [
    (26, 1),
    (9, 8),
    (35, 128),
    (16, 128),
    (25, 128),
    (18, 128),
    (10, 32),
];

/// Seeds, and how many bytes the files have that stay beside the remote writer's 40.
const KEPT: [(u64, usize); 4] = [
    (0, 3_570_192),
    (5, 3_585_072),
    (1_000, 3_570_192),
    (u64::MAX, 5_400_432),
];

#[test]
fn calls_and_bytes_are_as_many_as_the_format_tells(rt: HostRuntime) -> Result<(), Fail> {
    for (seed, kept) in &KEPT {
        let scenario = make(rt.alloc(), *seed)?;
        assert_eq!(rt; kept_of(&scenario), *kept, "seed {seed}");
        for (opcode, count) in &OPCODES {
            assert_eq!(rt; count_of(&scenario, *opcode), *count, "opcode {opcode}");
        }
    }
    Ok(())
}

/// Whether the operation writes ten zero bytes under this name, whatever stands there.
fn is_write(op: &Op, name_is: &str) -> bool {
    match op {
        Op::Insert {
            name,
            content,
            pairs,
            only,
            stamp,
        } => {
            name.as_str() == name_is
                && content.as_slice() == [0; 10].as_slice()
                && pairs.as_slice().is_empty()
                && (*only, *stamp) == (None, 0)
        }
        _ => false,
    }
}

/// Whether the lane is the remote writer's.
fn is_remote(lane: Option<&LaneWork>) -> bool {
    match lane {
        Some(LaneWork::Remote(operations)) => match operations.as_slice() {
            [a, b, c, d] => {
                is_write(a, "r/1") && is_write(b, "r/2") && is_write(c, "r/3") && is_write(d, "r/4")
            }
            _ => false,
        },
        _ => false,
    }
}

/// Whether the second phase has nine lanes, of which the last is the remote writer's.
fn ends_with_remote(phases: &[Phase]) -> bool {
    match phases {
        [_, second] => { second.lanes.len() == 9 && is_remote(second.lanes.as_slice().get(8)) }
        _ => false,
    }
}

#[test]
fn a_remote_writer_stands_beside_the_directories(rt: HostRuntime) -> Result<(), Fail> {
    let scenario = make(rt.alloc(), 7)?;
    assert!(rt; ends_with_remote(scenario.phases.as_slice()));
    Ok(())
}

/// Replies: Empty, ENOENT, none, EIO with a number, and Written.
const REPLIES: [&[u8]; 5] = [
    b"\x10\0\0\0\0\0\0\0\x01\0\0\0\0\0\0\0",
    b"\x10\0\0\0\xfe\xff\xff\xff\x02\0\0\0\0\0\0\0",
    b"",
    b"\x10\0\0\0\xfb\xff\xff\xff\x04\0\0\0\0\0\0\0",
    b"\x18\0\0\0\0\0\0\0\x05\0\0\0\0\0\0\0\x02\0\0\0\0\0\0\0",
];

/// A bucket of two objects, with the generations 1 and 2, of five bytes together.
const BUCKET: &str =
    r#"{"objects":[{"name":"b","hex":"616263"},{"name":"a","hex":"0000"}],"phases":[]}"#;

/// Appends an item, with room that is asked for now.
fn add<T: Drop>(row: &mut Row<T>, item: T) -> Result<(), NoMemory> {
    row.reserve(1)?;
    row.push(item);
    Ok(())
}

/// The rows of the replies and of their calls.
fn answered(alloc: Global, played: &mut Played) -> Result<(), NoMemory> {
    for (place, reply) in REPLIES.iter().enumerate() {
        add(&mut played.replies, Bytes::of(alloc, reply)?)?;
        let call = CallId {
            lane: 1,
            index: place as u64 + 1,
        };
        add(&mut played.calls, call)?;
    }
    Ok(())
}

/// A log of three looks at an object.
fn logged(alloc: Global, played: &mut Played) -> Result<(), NoMemory> {
    for lane in 1..=3 {
        let name = Text::of(alloc, "a")?;
        let event = Event {
            lane,
            op: Op::Stat { name },
            mode: Mode::Done,
        };
        add(&mut played.log, event)?;
    }
    Ok(())
}

/// The bucket that the text tells; an empty one where it is refused.
fn bucket(alloc: Global) -> Result<Plain, NoMemory> {
    match Scenario::read(alloc, BUCKET.as_bytes()) {
        Ok(scenario) => Ok(scenario.start),
        Err(ScenarioFault::NoMemory) => Err(NoMemory),
        Err(_) => Ok(Plain::new(alloc)),
    }
}

/// What was played: five calls, two objects and three events.
fn small_history(alloc: Global) -> Result<Played, NoMemory> {
    let bucket = bucket(alloc)?;
    let mut played = Played {
        replies: Row::new(alloc),
        calls: Row::new(alloc),
        bucket,
        log: Row::new(alloc),
        journal: Row::new(alloc),
    };
    answered(alloc, &mut played)?;
    logged(alloc, &mut played)?;
    Ok(played)
}

#[test]
fn a_small_history_is_told(rt: HostRuntime) -> Result<(), Fail> {
    let played = small_history(rt.alloc())?;
    let line = summary(rt.alloc(), u64::MAX, &played)?;
    let expected =
        "drill 18446744073709551615 calls 5 refused 2 objects 2 bytes 5 generations 2 log 3\n";
    assert_eq!(rt; line.as_str(), expected);
    Ok(())
}
