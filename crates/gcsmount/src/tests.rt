//! The program, run as a whole: its words, streams that fail or come in pieces, what it puts out and what it tells.
mod directories;
mod ends;
mod examples;
mod files;
mod kept;
mod plays;
mod streams;

use crate::tool::run_tool;
use io_ports::{MemSink, MemSource, Text};
use mount_model::IdleGate;
use std::alloc::Global;
use std::cell::Cell;
use std::process::Abort;
use std::sync::Wait;
use std::test::Fail;
use std::thread::Threads;
use streams::{Counting, Endless, Recording};

/// A kernel's INIT, unique 1: 7.31, 131,072 bytes of read-ahead, every flag offered.
const INIT: &str =
    "380000001a0000000100000000000000000000000000000000000000000000000000000000000000\
070000001f00000000000200ffffffff";

/// The first 55 of these 56 bytes.
const CUT_INIT: &str =
    "380000001a0000000100000000000000000000000000000000000000000000000000000000000000\
070000001f00000000000200ffffff";

/// Its reply: 7.31, the read-ahead as offered, three flags granted, 12 and 9 requests in the background, writes
/// of at most 131,072 bytes, times by the nanosecond.
const INIT_DONE: &str =
    "50000000000000000100000000000000070000001f00000000000200210004000c00090000000200\
01000000000000000000000000000000000000000000000000000000000000000000000000000000";

/// INIT 8.0, unique 1.
const INIT_8: &str =
    "380000001a0000000100000000000000000000000000000000000000000000000000000000000000\
080000000000000000000200ffffffff";

/// The reply to a newer major: 7.31 and zeros.
const OFFERS_7: &str =
    "50000000000000000100000000000000070000001f00000000000000000000000000000000000000\
00000000000000000000000000000000000000000000000000000000000000000000000000000000";

/// INIT 7.30.
const INIT_7_30: &str =
    "380000001a0000000100000000000000000000000000000000000000000000000000000000000000\
070000001e00000000000200ffffffff";

/// INIT 7.38.
const INIT_7_38: &str =
    "380000001a0000000100000000000000000000000000000000000000000000000000000000000000\
070000002600000000000200ffffffff";

/// INIT with a body of 15 bytes, unique 7.
const SHORT_INIT: &str =
    "370000001a0000000700000000000000000000000000000000000000000000000000000000000000\
070000001f00000000000200ffffff";

/// STATFS, unique 2.
const STATFS: &str =
    "28000000110000000200000000000000000000000000000000000000000000000000000000000000";

/// The reply to it: 2 ^ 30 blocks and files, all free, of 65,536 bytes, and names of 255 bytes.
const NUMBERS: &str =
    "60000000000000000200000000000000000000400000000000000040000000000000004000000000\
0000004000000000000000400000000000000100ff00000000000100000000000000000000000000\
00000000000000000000000000000000";

/// FORGET of node 2, unique 3.
const FORGET: &str =
    "30000000020000000300000000000000020000000000000000000000000000000000000000000000\
0100000000000000";

/// LINK of node 2 to the name `g` in node 1, unique 4: hard links are not served.
const LINK: &str =
    "320000000d0000000400000000000000010000000000000000000000000000000000000000000000\
02000000000000006700";

/// DESTROY with a body of one byte, unique 5.
const LONG_DESTROY: &str =
    "29000000260000000500000000000000000000000000000000000000000000000000000000000000\
00";

/// DESTROY, unique 6.
const DESTROY: &str =
    "28000000260000000600000000000000000000000000000000000000000000000000000000000000";

/// How a run's source gives its bytes, and which calls of its streams fail.
#[derive(Clone, Copy)]
struct Ports {
    piece: usize,
    source: u64,
    sink: u64,
    notes: u64,
    room: u64,
}

/// Streams that don't fail: no call has the number 0.
const SOUND: Ports = Ports {
    piece: 65_536,
    source: 0,
    sink: 0,
    notes: 0,
    room: 65_536,
};

/// Runs the program, and compares its status, what it puts out, as hex, and what it tells.
fn runs<T: Threads + Wait + Sync + Abort>(
    rt: &T,
    alloc: Global,
    words: &[Text],
    input: &str,
    ports: Ports,
    wanted: (u8, &str, &str),
) -> Result<(), Fail> {
    let input = hex::decode(alloc, input)?;
    let mut source = MemSource::new(alloc, input.as_slice(), &[ports.source], ports.piece.max(1))?;
    let mut sink = MemSink::new(alloc, &[ports.sink], ports.room)?;
    let mut notes = MemSink::new(alloc, &[ports.notes], 4096)?;
    let status = run_tool(
        rt,
        alloc,
        words,
        &mut source,
        &mut sink,
        &mut notes,
        &IdleGate,
    );
    let put = hex::encode(alloc, sink.bytes())?;
    let (wanted_status, wanted_put, wanted_told) = wanted;
    assert_eq!(rt; status, wanted_status);
    assert_eq!(rt; put.as_str(), wanted_put);
    assert_eq!(rt; notes.bytes(), wanted_told.as_bytes());
    Ok(())
}

/// Runs `gcsmount serve` as `runs` does.
fn serves<T: Threads + Wait + Sync + Abort>(
    rt: &T,
    alloc: Global,
    input: &str,
    ports: Ports,
    wanted: (u8, &str, &str),
) -> Result<(), Fail> {
    let word = Text::of(alloc, "serve")?;
    runs(rt, alloc, &[word], input, ports, wanted)
}

/// Texts one behind the other.
fn joined(alloc: Global, parts: &[&str]) -> Result<String, Fail> {
    let mut all = String::new(alloc);
    for part in parts {
        all.push_str(part)?;
    }
    Ok(all)
}

#[test]
fn a_kernel_s_init_is_answered_in_pieces_of_any_size(rt: HostRuntime) -> Result<(), Fail> {
    for piece in [1, 10, 65_536] {
        serves(
            &rt,
            rt.alloc(),
            INIT,
            Ports { piece, ..SOUND },
            (0, INIT_DONE, ""),
        )?;
    }
    Ok(())
}

#[test]
fn nothing_is_answered_to_nothing(rt: HostRuntime) -> Result<(), Fail> {
    serves(&rt, rt.alloc(), "", SOUND, (0, "", ""))
}

#[test]
fn words_of_no_form_read_nothing(rt: HostRuntime) -> Result<(), Fail> {
    let alloc = rt.alloc();
    let usage = "usage: gcsmount serve / play [--workers N] / drill S [--workers N]\n";
    let unread = Ports { source: 1, ..SOUND };
    runs(&rt, alloc, &[], INIT, unread, (2, "", usage))?;
    let words = [Text::of(alloc, "serve")?, Text::of(alloc, "x")?];
    runs(&rt, alloc, &words, INIT, unread, (2, "", usage))?;
    runs(
        &rt,
        alloc,
        &words,
        INIT,
        Ports { notes: 1, ..unread },
        (4, "", ""),
    )?;
    let words = [Text::of(alloc, "--help")?];
    runs(&rt, alloc, &words, INIT, unread, (2, "", usage))
}

#[test]
fn a_version_is_agreed_on(rt: HostRuntime) -> Result<(), Fail> {
    let alloc = rt.alloc();
    let input = joined(alloc, &[INIT_8, STATFS])?;
    let wanted = joined(alloc, &[OFFERS_7, "10000000b9ffffff0200000000000000"])?;
    serves(&rt, alloc, input.as_str(), SOUND, (0, wanted.as_str(), ""))?;
    serves(
        &rt,
        alloc,
        INIT_7_30,
        SOUND,
        (0, "10000000b9ffffff0100000000000000", ""),
    )?;
    serves(&rt, alloc, INIT_7_38, SOUND, (0, INIT_DONE, ""))
}

#[test]
fn requests_are_answered_silent_or_refused(rt: HostRuntime) -> Result<(), Fail> {
    let alloc = rt.alloc();
    let input = joined(
        alloc,
        &[
            INIT,
            STATFS,
            FORGET,
            LINK,
            LONG_DESTROY,
            DESTROY,
            SHORT_INIT,
            INIT,
        ],
    )?;
    let refused = "10000000daffffff040000000000000010000000eaffffff0500000000000000";
    let done = "10000000000000000600000000000000";
    let short = "10000000eaffffff0700000000000000";
    let wanted = joined(
        alloc,
        &[INIT_DONE, NUMBERS, refused, done, short, INIT_DONE],
    )?;
    serves(&rt, alloc, input.as_str(), SOUND, (0, wanted.as_str(), ""))
}

#[test]
fn input_that_is_no_frame_is_refused_at_its_place(rt: HostRuntime) -> Result<(), Fail> {
    let alloc = rt.alloc();
    let below = "27000000000000000000000000000000000000000000000000000000000000000000000000000000";
    let over = joined(alloc, &[INIT, "01100200"])?;
    let cut = joined(alloc, &[INIT, "380000001a000000"])?;
    for piece in [1, 7, 65_536] {
        let ports = Ports { piece, ..SOUND };
        serves(&rt, alloc, below, ports, (1, "", "refused 15 at 0\n"))?;
        serves(
            &rt,
            alloc,
            over.as_str(),
            ports,
            (1, INIT_DONE, "refused 16 at 56\n"),
        )?;
        serves(
            &rt,
            alloc,
            cut.as_str(),
            ports,
            (1, INIT_DONE, "refused 17 at 56\n"),
        )?;
        serves(&rt, alloc, CUT_INIT, ports, (1, "", "refused 17 at 0\n"))?;
    }
    serves(&rt, alloc, below, Ports { notes: 1, ..SOUND }, (4, "", ""))
}

#[test]
fn streams_that_fail_have_their_status(rt: HostRuntime) -> Result<(), Fail> {
    let alloc = rt.alloc();
    let input = joined(alloc, &[INIT, INIT])?;
    let twice = input.as_str();
    let pieces = Ports { piece: 10, ..SOUND };
    serves(
        &rt,
        alloc,
        twice,
        Ports {
            source: 1,
            ..pieces
        },
        (3, "", ""),
    )?;
    serves(
        &rt,
        alloc,
        twice,
        Ports {
            source: 7,
            ..pieces
        },
        (3, INIT_DONE, ""),
    )?;
    serves(&rt, alloc, twice, Ports { sink: 1, ..SOUND }, (4, "", ""))?;
    serves(
        &rt,
        alloc,
        twice,
        Ports { sink: 2, ..SOUND },
        (4, INIT_DONE, ""),
    )?;
    serves(
        &rt,
        alloc,
        twice,
        Ports { room: 80, ..SOUND },
        (4, INIT_DONE, ""),
    )?;
    serves(
        &rt,
        alloc,
        twice,
        Ports { room: 3, ..SOUND },
        (4, "500000", ""),
    )
}

#[test]
fn each_frame_is_answered_before_more_is_taken(rt: HostRuntime) -> Result<(), Fail> {
    let alloc = rt.alloc();
    let input = joined(alloc, &[INIT, INIT])?;
    let twice = hex::decode(alloc, input.as_str())?;
    let put = Cell::new(0);
    let mut source = Recording::new(alloc, twice.as_slice(), 40, &put);
    let mut sink = Counting { put: &put };
    let mut notes = MemSink::new(alloc, &[], 0)?;
    let word = Text::of(alloc, "serve")?;
    let status = run_tool(
        &rt,
        alloc,
        &[word],
        &mut source,
        &mut sink,
        &mut notes,
        &IdleGate,
    );
    assert_eq!(rt; status, 0);
    // How much each take asked, and how much had been put by then: takes of 40, 40 and 32 bytes, and the end.
    let takes = [(65_536, 0), (65_536, 0), (65_536, 80), (65_536, 160)];
    assert_eq!(rt; source.takes(), takes.as_slice());
    Ok(())
}

#[test]
fn more_input_than_the_longest_is_refused(rt: HostRuntime) -> Result<(), Fail> {
    let alloc = rt.alloc();
    let init = hex::decode(alloc, INIT)?;
    let put = Cell::new(0);
    let mut source = Endless::new(alloc, init.as_slice())?;
    let mut sink = Counting { put: &put };
    let mut notes = MemSink::new(alloc, &[], 0)?;
    let word = Text::of(alloc, "serve")?;
    let status = run_tool(
        &rt,
        alloc,
        &[word],
        &mut source,
        &mut sink,
        &mut notes,
        &IdleGate,
    );
    assert_eq!(rt; status, 6);
    assert_eq!(rt; source.taken(), 67_108_865);
    // One INIT of 56 bytes, and then frames of 135,168 bytes, of which 496 are whole within 67,108,864.
    assert_eq!(rt; put.get(), 80 + 496 * 16);
    Ok(())
}
