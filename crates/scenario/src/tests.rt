//! Scenarios and faulty texts by outside values.
use crate::{Fix, LaneWork, Phase, Scenario, ScenarioFault, ScriptedCall};
use bucket_api::{Mode, Object, Op, Pair, Scripted};
use bucket_plain::Plain;
use mount_model::CallId;
use std::alloc::{AllocError, Global};
use std::test::Fail;

/// What is told of each text, before a bar and the text: that it is read, or the number and the place of its first fault.
/// Repetitions are cut short (`written_out`). A frame of 40 bytes is its length, `28`, and 39 zero bytes.
const TOLD: &str = r##"1 /|
1 /|{"phases":[]
1 /|{"phases":[1e400]}
1 /|{"phases":["\ud800"]}
1 /|{"phases":~127~[~~127~]~}
4 /phases/0/0|{"phases":~126~[~~126~]~}
2 /|{}
4 /|[]
4 /|null
3 /|{"lanes":[]}
read|{"phases":[]}
read|{"phases":[[{"calls":[]}],[{"clock":[]},{"remote":[]}]]}
read|{"phases":7,"phases":[]}
4 /phases|{"phases":{}}
4 /config|{"config":[],"objects":{},"phases":{}}
3 /config|{"config":{"stat":1,"start":-1},"phases":[]}
4 /config/implicit_dirs|{"config":{"implicit_dirs":0},"phases":[]}
4 /config/start|{"config":{"start":-1},"phases":[]}
4 /config/start|{"config":{"start":1.0},"phases":[]}
4 /config/start|{"config":{"start":1e2},"phases":[]}
4 /config/start|{"config":{"start":-0},"phases":[]}
4 /config/start|{"config":{"start":18446744073709551616},"phases":[]}
5 /config/start|{"config":{"start":18446744073709551615},"phases":[]}
5 /config/record_capacity|{"config":{"list_page":0,"record_capacity":0},"phases":[]}
read|{"config":{"stat_lifetime":0,"type_lifetime":0,"record_capacity":1,"staging_blocks":1,"cache_blocks":0,"list_page":1,"start":0},"phases":[]}
read|{"config":{"stat_lifetime":1000000000000,"type_lifetime":1000000000000,"record_capacity":65536},"phases":[]}
read|{"config":{"staging_blocks":1024,"cache_blocks":1024,"list_page":1000,"start":100000000000},"phases":[]}
5 /config/stat_lifetime|{"config":{"stat_lifetime":1000000000001},"phases":[]}
5 /config/type_lifetime|{"config":{"type_lifetime":1000000000001},"phases":[]}
5 /config/record_capacity|{"config":{"record_capacity":65537},"phases":[]}
5 /config/staging_blocks|{"config":{"staging_blocks":1025,"cache_blocks":1025},"phases":[]}
5 /config/staging_blocks|{"config":{"staging_blocks":0},"phases":[]}
5 /config/cache_blocks|{"config":{"cache_blocks":1025,"list_page":1001},"phases":[]}
5 /config/list_page|{"config":{"list_page":1001,"start":100000000001},"phases":[]}
5 /config/start|{"config":{"start":100000000001},"phases":[]}
2 /objects/0|{"objects":[{"hex":"0"}],"phases":[]}
7 /objects/0/name|{"objects":[{"name":".."}],"phases":[]}
7 /objects/0/name|{"objects":[{"name":""}],"phases":[]}
7 /objects/0/name|{"objects":[{"name":"a\n"}],"phases":[]}
7 /objects/0/name|{"objects":[{"name":"~1025~a~"}],"phases":[]}
read|{"objects":[{"name":"~1024~a~"},{"name":"..."}],"phases":[]}
6 /objects/1/hex|{"objects":[{"name":"e","hex":"aF"},{"name":"f","hex":"616"}],"phases":[]}
6 /objects/0/hex|{"objects":[{"name":"f","hex":"6g"}],"phases":[]}
4 /objects/0/meta|{"objects":[{"name":"f","meta":[]}],"phases":[]}
5 /objects/0/meta/|{"objects":[{"name":"f","meta":{"a":"","":"v"}}],"phases":[]}
read|{"objects":[{"name":"f","meta":{~63~"#":"",~"~4095~k~":"~4095~v~"}}],"phases":[]}
5 /objects/0/meta|{"objects":[{"name":"f","meta":{~64~"#":"",~"":""}}],"phases":[]}
5 /objects/0/meta/~4096~k~|{"objects":[{"name":"f","meta":{"~4096~k~":0}}],"phases":[]}
5 /objects/0/meta/k|{"objects":[{"name":"f","meta":{"k":"~4096~v~"}}],"phases":[]}
4 /objects/0/meta/a/b|{"objects":[{"name":"f","meta":{"a/b":1,"b":2}}],"phases":[]}
5 /objects/0/updated|{"objects":[{"name":"f","updated":250000000000}],"phases":[]}
read|{"objects":[{"name":"f","updated":249999999999}],"phases":[]}
8 /objects/1|{"objects":[{"name":"f"},{"name":"f","hex":"00"}],"phases":[]}
6 /objects/1/hex|{"objects":[{"name":"f"},{"name":"f","hex":"0"}],"phases":[]}
5 /faults/0/moment|{"faults":[{"moment":0,"mode":"lost"}],"phases":[]}
5 /faults/0/moment|{"faults":[{"moment":1000000001,"mode":"lost"}],"phases":[]}
2 /faults/0|{"faults":[{"moment":0}],"phases":[]}
10 /faults/1/moment|{"faults":[{"moment":2,"mode":"lost"},{"moment":2,"mode":"done"}],"phases":[]}
4 /faults/0/mode|{"faults":[{"moment":2,"mode":"done"}],"phases":[]}
4 /phases/0|{"phases":[{}]}
11 /phases/1|{"phases":[[{"clock":[]}],[]]}
read|{"phases":[[~63~{"clock":[]},~{"clock":[]}]]}
11 /phases/0|{"phases":[[~64~{"clock":[]},~null]]}
2 /phases/0/0|{"phases":[[{}]]}
3 /phases/0/0|{"phases":[[{"calls":[],"clock":[]}]]}
3 /phases/0/0|{"phases":[[{"call":[]}]]}
4 /phases/0/1/calls|{"phases":[[{"calls":[]},{"calls":{}}]]}
5 /phases/0/0/clock/1|{"phases":[[{"clock":[1000000,1000001]}]]}
2 /phases/0/0/remote/0|{"phases":[[{"remote":[{"hex":"00"}]}]]}
4 /phases/0/0/remote/0/act|{"phases":[[{"remote":[{"act":"read","name":"","hex":"00"}]}]]}
3 /phases/0/0/remote/0|{"phases":[[{"remote":[{"act":"update","name":"f","hex":"00"}]}]]}
3 /phases/0/0/remote/0|{"phases":[[{"remote":[{"act":"delete","name":"f","stamp":0}]}]]}
5 /phases/0/0/remote/0/only|{"phases":[[{"remote":[{"act":"delete","name":"f","only":1000000001}]}]]}
5 /phases/0/0/remote/0/stamp|{"phases":[[{"remote":[{"act":"update","name":"f","only":1000000000,"stamp":250000000000}]}]]}
14 /phases/0/0/calls/0/frame|{"phases":[[{"calls":[{"frame":"00"}]}]]}
14 /phases/0/0/calls/1/frame|{"phases":[[{"calls":[{"frame":"28~39~00~"},{"frame":"28~40~00~"}]}]]}
read|{"phases":[[{"calls":[{"frame":"00100200~135164~00~"}]}]]}
14 /phases/0/0/calls/0/frame|{"phases":[[{"calls":[{"frame":"01100200~135165~00~"}]}]]}
14 /phases/0/0/calls/0/frame|{"phases":[[{"calls":[{"frame":"27~38~00~"}]}]]}
4 /phases/0/0/calls/0/fix|{"phases":[[{"calls":[{"frame":"28~39~00~","fix":0}]}]]}
5 /phases/0/0/calls/0/fix/0/at|{"phases":[[{"calls":[{"frame":"28~39~00~","fix":[{"at":3,"lane":0,"call":0,"take":"fh"}]}]}]]}
5 /phases/0/0/calls/0/fix/0/at|{"phases":[[{"calls":[{"frame":"28~39~00~","fix":[{"at":135161,"lane":0,"call":0,"take":"fh"}]}]}]]}
5 /phases/0/0/calls/0/fix/0/lane|{"phases":[[{"calls":[{"frame":"28~39~00~","fix":[{"at":4,"lane":4294967296,"call":0,"take":"fh"}]}]}]]}
5 /phases/0/0/calls/0/fix/0/call|{"phases":[[{"calls":[{"frame":"28~39~00~","fix":[{"at":4,"lane":1,"call":65537,"take":"fh"}]}]}]]}
13 /phases/0/0/calls/0/fix/0|{"phases":[[{"calls":[{"frame":"28~39~00~","fix":[{"at":16,"lane":1,"call":1,"take":"fh"}]}]}]]}
read|{"phases":[[{"calls":[{"frame":"28~39~00~"},{"frame":"28~39~00~","fix":[{"at":32,"lane":1,"call":1,"take":"fh"}]}]}]]}
13 /phases/0/0/calls/1/fix/0|{"phases":[[{"calls":[{"frame":"28~39~00~"},{"frame":"28~39~00~","fix":[{"at":33,"lane":1,"call":1,"take":"fh"}]}]}]]}
13 /phases/0/1/calls/0/fix/0|{"phases":[[{"calls":[{"frame":"28~39~00~"}]},{"calls":[{"frame":"28~39~00~","fix":[{"at":32,"lane":1,"call":1,"take":"fh"}]}]}]]}
read|{"phases":[[{"calls":[{"frame":"28~39~00~"}]}],[{"calls":[{"frame":"28~39~00~","fix":[{"at":32,"lane":1,"call":1,"take":"fh"}]}]}]]}
read|{"phases":[[{"calls":[{"frame":"28~39~00~"},{"frame":"00100200~135164~00~","fix":[{"at":135160,"lane":1,"call":1,"take":"fh"}]}]}]]}
13 /phases/1/0/calls/0/fix/0|{"phases":[[{"calls":[{"frame":"28~39~00~"}]}],[{"calls":[{"frame":"28~39~00~","fix":[{"at":32,"lane":1,"call":2,"take":"fh"}]}]}]]}
13 /phases/0/0/calls/0/fix/0|{"phases":[[{"calls":[{"frame":"28~39~00~","fix":[{"at":16,"lane":4294967295,"call":1,"take":"fh"}]}]}]]}
4 /phases/0/0/calls/0/fix/0/take|{"phases":[[{"calls":[{"frame":"28~39~00~","fix":[{"at":16,"lane":1,"call":1,"take":"size"}]}]}]]}"##;

/// The same of long texts: as many items, and as long a content, as there may be, and one more.
const AT_THE_LIMITS: &str = r#"read|{"phases":[[{"clock":[1]}],[{"clock":[~65534~1,~1]}]]}
12 /phases/1/0/clock/65535|{"phases":[[{"clock":[1]}],[{"clock":[~65535~1,~1]}]]}
12 /phases/0/1/clock/65535|{"phases":[[{"clock":[1]},{"clock":[~65535~1,~null]}]]}
read|{"objects":[{"name":"f","hex":"~16777216~00~"}],"phases":[]}
9 /objects/0/hex|{"objects":[{"name":"f","hex":"~16777217~00~"}],"phases":[]}"#;

/// The text with its repetitions written out: `~3~ab~` stands for `ababab`, and a `#` in it for the number of the copy,
/// from 0.
fn written_out(alloc: Global, text: &str) -> Result<String, AllocError> {
    let mut whole = String::new(alloc);
    let mut copies = 0;
    for (place, piece) in text.split('~').enumerate() {
        match place % 3 {
            0 => whole.push_str(piece)?,
            1 => copies = piece.parse::<u64>().unwrap_or(0),
            _ => push_copies(alloc, &mut whole, piece, copies)?,
        }
    }
    Ok(whole)
}

/// Adds so many copies of a part.
fn push_copies(
    alloc: Global,
    text: &mut String,
    part: &str,
    copies: u64,
) -> Result<(), AllocError> {
    for number in 0..copies {
        push_copy(alloc, text, part, number)?;
    }
    Ok(())
}

/// Adds a copy of a part, with its number where the part has a `#`.
fn push_copy(alloc: Global, text: &mut String, part: &str, number: u64) -> Result<(), AllocError> {
    match part.split_once('#') {
        Some((before, behind)) => {
            text.push_str(format!(in alloc; "{before}{number}{behind}")?.as_str())
        }
        None => text.push_str(part),
    }
}

/// Whether reading the text of a line tells what stands before it. Want of memory is an error of its own, so that it is
/// told from a wrong fault.
fn tells(alloc: Global, line: &str) -> Result<bool, AllocError> {
    let line = written_out(alloc, line)?;
    let (expected, text) = line.as_str().split_once('|').unwrap_or(("", ""));
    told_as(alloc, expected, text.as_bytes())
}

/// Whether reading the bytes tells what is expected.
fn told_as(alloc: Global, expected: &str, bytes: &[u8]) -> Result<bool, AllocError> {
    match Scenario::read(alloc, bytes) {
        Ok(_) => Ok(expected == "read"),
        Err(ScenarioFault::NoMemory) => Err(AllocError),
        Err(ScenarioFault::Bad { number, place }) => Ok(is_fault(expected, number, place.as_str())),
    }
}

/// Whether the fault is the expected one.
fn is_fault(expected: &str, number: u64, place: &str) -> bool {
    match expected.split_once(' ') {
        Some((told, at)) => told.parse::<u64>().ok() == Some(number) && at == place,
        None => false,
    }
}

#[test]
fn tells_the_first_fault_and_its_place(rt: HostRuntime) -> Result<(), Fail> {
    for line in TOLD.lines() {
        assert!(rt; tells(rt.alloc(), line)?, "{line}");
    }
    Ok(())
}

#[test]
fn counts_items_and_bytes(rt: HostRuntime) -> Result<(), Fail> {
    for line in AT_THE_LIMITS.lines() {
        assert!(rt; tells(rt.alloc(), line)?, "{line}");
    }
    Ok(())
}

#[test]
fn refuses_bytes_that_are_no_text(rt: HostRuntime) -> Result<(), Fail> {
    let marked = b"\xef\xbb\xbf{\"phases\":[]}";
    assert!(rt; told_as(rt.alloc(), "1 /", marked)?);
    let broken = b"{\"phases\":[],\"\xff\":0}";
    assert!(rt; told_as(rt.alloc(), "1 /", broken)?);
    Ok(())
}

/// A scenario with each kind of part.
const WHOLE: &str = r#"{
 "phases": [
  [{"calls": [{"frame": "28~39~00~"}, {"frame": "28~39~00~", "fix": [{"at": 16, "lane": 1, "call": 1, "take": "node"}]}]},
   {"remote": [{"act": "write", "name": "b", "hex": "6869", "meta": {"k": "v"}, "only": 0, "stamp": 5},
               {"act": "update", "name": "b", "meta": {"z": "", "a": "x"}, "stamp": 6},
               {"act": "delete", "name": "b", "only": 7}]}],
  [{"clock": [1, 1000000]}]
 ],
 "faults": [{"moment": 2, "mode": "failed"}, {"moment": 9, "mode": "lost"}],
 "objects": [{"name": "b", "hex": "4142", "meta": {"y": "2", "x": "1"}, "updated": 3}, {"name": "a"}],
 "config": {"start": 8, "implicit_dirs": true}
}"#;

/// The scenario that is read from a text whose repetitions are cut short.
fn read(alloc: Global, text: &str) -> Result<Option<Scenario>, AllocError> {
    let text = written_out(alloc, text)?;
    Ok(Scenario::read(alloc, text.as_bytes()).ok())
}

/// Whether the pairs are these, in this order.
fn are_pairs(pairs: &[Pair], wanted: &[(&str, &str)]) -> bool {
    for (pair, (key, value)) in pairs.iter().zip(wanted) {
        if pair.key.as_str() != *key || pair.value.as_str() != *value {
            return false;
        }
    }
    pairs.len() == wanted.len()
}

/// The generation, metageneration, size and second of an object.
fn numbers_of(object: &Object) -> (u64, u64, u64, u64) {
    let meta = &object.meta;
    (
        meta.generation,
        meta.metageneration,
        meta.size,
        meta.updated,
    )
}

/// Whether the object at the start has these parts.
fn starts_with(
    object: Option<&Object>,
    name: &str,
    numbers: (u64, u64, u64, u64),
    content: &[u8],
    pairs: &[(&str, &str)],
) -> bool {
    match object {
        Some(object) => {
            object.meta.name.as_str() == name
                && numbers_of(object) == numbers
                && object.content.as_slice() == content
                && are_pairs(object.meta.pairs.as_slice(), pairs)
        }
        None => false,
    }
}

/// Whether the faults that are to come are those of the whole scenario.
fn are_faults(script: &[Scripted]) -> bool {
    match script {
        [first, second] => {
            (first.moment, second.moment) == (2, 9)
                && first.mode == Mode::Failed
                && second.mode == Mode::Lost
        }
        _ => false,
    }
}

/// Whether the call has this length and this fixup.
fn is_call(call: &ScriptedCall, size: usize, fix: Option<&Fix>) -> bool {
    call.frame.as_slice().len() == size && call.fixes.as_slice().first() == fix
}

/// Whether the calls are those of the whole scenario: the second one takes the first one's node.
fn are_calls(calls: &[ScriptedCall]) -> bool {
    let call = CallId { lane: 1, index: 1 };
    let fix = Fix {
        at: 16,
        call,
        handle: false,
    };
    match calls {
        [first, second] => is_call(first, 40, None) && is_call(second, 40, Some(&fix)),
        _ => false,
    }
}

/// Whether the operation is the write of the whole scenario.
fn is_write(op: &Op) -> bool {
    match op {
        Op::Insert {
            name,
            content,
            pairs,
            only,
            stamp,
        } => {
            name.as_str() == "b"
                && content.as_slice() == b"hi".as_slice()
                && are_pairs(pairs.as_slice(), &[("k", "v")])
                && (*only, *stamp) == (Some(0), 5)
        }
        _ => false,
    }
}

/// Whether the operation is its update.
fn is_update(op: &Op) -> bool {
    match op {
        Op::Update {
            name,
            pairs,
            only,
            only_meta,
            stamp,
        } => {
            name.as_str() == "b"
                && are_pairs(pairs.as_slice(), &[("a", "x"), ("z", "")])
                && (*only, *only_meta, *stamp) == (None, None, 6)
        }
        _ => false,
    }
}

/// Whether the operation is its deletion.
fn is_delete(op: &Op) -> bool {
    match op {
        Op::Delete { name, only } => name.as_str() == "b" && *only == Some(7),
        _ => false,
    }
}

/// Whether the operations are those of the whole scenario.
fn are_operations(operations: &[Op]) -> bool {
    match operations {
        [write, update, delete] => is_write(write) && is_update(update) && is_delete(delete),
        _ => false,
    }
}

/// Whether the lanes are those of its first phase.
fn are_first_lanes(lanes: &[LaneWork]) -> bool {
    match lanes {
        [LaneWork::Calls(calls), LaneWork::Remote(operations)] => {
            are_calls(calls.as_slice()) && are_operations(operations.as_slice())
        }
        _ => false,
    }
}

/// Whether the lanes are those of its second phase.
fn are_second_lanes(lanes: &[LaneWork]) -> bool {
    match lanes {
        [LaneWork::Clock(steps)] => steps.as_slice() == [1, 1_000_000].as_slice(),
        _ => false,
    }
}

/// Whether the phases are those of the whole scenario.
fn are_phases(phases: &[Phase]) -> bool {
    match phases {
        [first, second] => {
            are_first_lanes(first.lanes.as_slice()) && are_second_lanes(second.lanes.as_slice())
        }
        _ => false,
    }
}

/// Whether the bucket at the start is the whole scenario's: names in order, generations as the objects came.
fn is_start(start: &Plain) -> bool {
    let mut objects = start.objects().values();
    starts_with(objects.next(), "a", (2, 1, 0, 0), b"", &[])
        && starts_with(
            objects.next(),
            "b",
            (1, 1, 2, 3),
            b"AB",
            &[("x", "1"), ("y", "2")],
        )
        && objects.next().is_none()
}

#[test]
fn reads_each_part(rt: HostRuntime) -> Result<(), Fail> {
    let scenario = read(rt.alloc(), WHOLE)?.ok_or("refused")?;
    let config = scenario.config;
    assert_eq!(rt;
        (config.start, config.list_page, config.implicit_dirs),
        (8, 1000, true)
    );
    assert!(rt; is_start(&scenario.start));
    assert!(rt; are_faults(scenario.script.as_slice()));
    assert!(rt; are_phases(scenario.phases.as_slice()));
    Ok(())
}

/// The frames of INIT 7.31, CREATE of `f`, WRITE of `ab` at 0 and of `cd` at 2, and FLUSH twice, from fuse.h's layouts.
const FRAMES: &str =
    "380000001a0000000100000000000000000000000000000000000000000000000000000000000000070000001f00000000000200ffffffff
3a000000230000000200000000000000010000000000000000000000000000000000000000000000000000000000000000000000000000006600
52000000100000000300000000000000020000000000000000000000000000000000000000000000010000000000000000000000000000000200000000000000000000000000000000000000000000006162
52000000100000000400000000000000020000000000000000000000000000000000000000000000010000000000000002000000000000000200000000000000000000000000000000000000000000006364
40000000190000000500000000000000020000000000000000000000000000000000000000000000010000000000000000000000000000000000000000000000
40000000190000000600000000000000020000000000000000000000000000000000000000000000010000000000000000000000000000000000000000000000";

/// A scenario of one lane that makes these calls.
fn lane_of_frames(alloc: Global) -> Result<String, AllocError> {
    let mut text = String::from_str(alloc, "{\"phases\":[[{\"calls\":[")?;
    for (place, frame) in FRAMES.lines().enumerate() {
        if place > 0 {
            text.push(',')?;
        }
        text.push_str("{\"frame\":\"")?;
        text.push_str(frame)?;
        text.push_str("\"}")?;
    }
    text.push_str("]}]]}")?;
    Ok(text)
}

/// Whether the calls have these frames, and no fixups.
fn are_frames(alloc: Global, calls: &[ScriptedCall]) -> Result<bool, AllocError> {
    for (call, frame) in calls.iter().zip(FRAMES.lines()) {
        if !call.fixes.as_slice().is_empty() || !is_hex(alloc, call.frame.as_slice(), frame)? {
            return Ok(false);
        }
    }
    Ok(calls.len() == 6)
}

/// Whether the text has the digits of the bytes.
fn is_hex(alloc: Global, bytes: &[u8], text: &str) -> Result<bool, AllocError> {
    let digits = hex::encode(alloc, bytes)?;
    Ok(digits.as_str() == text)
}

/// The calls of a scenario with one phase of one lane.
fn only_calls(phases: &[Phase]) -> Option<&[ScriptedCall]> {
    match phases {
        [only] => match only.lanes.as_slice() {
            [LaneWork::Calls(calls)] => Some(calls.as_slice()),
            _ => None,
        },
        _ => None,
    }
}

#[test]
fn reads_the_frames_of_a_written_file(rt: HostRuntime) -> Result<(), Fail> {
    let text = lane_of_frames(rt.alloc())?;
    let scenario = read(rt.alloc(), text.as_str())?.ok_or("refused")?;
    let calls = only_calls(scenario.phases.as_slice()).ok_or("other lanes")?;
    assert!(rt; are_frames(rt.alloc(), calls)?);
    Ok(())
}
