//! What `gcsmount play` and `gcsmount drill` answer: their status, what they put out and what they tell.
use super::streams::{Counting, Endless};
use super::{Ports, SOUND};
use crate::tool::run_tool;
use io_ports::{MemSink, MemSource, Text};
use mount_model::IdleGate;
use std::alloc::Global;
use std::cell::Cell;
use std::process::Abort;
use std::sync::Wait;
use std::test::Fail;
use std::thread::Threads;

/// Runs the program on a text, and compares its status, what it puts out and what it tells.
pub(crate) fn prints<T: Threads + Wait + Sync + Abort>(
    rt: &T,
    alloc: Global,
    words: &[Text],
    input: &str,
    ports: Ports,
    wanted: (u8, &str, &str),
) -> Result<(), Fail> {
    let piece = ports.piece.max(1);
    let mut source = MemSource::new(alloc, input.as_bytes(), &[ports.source], piece)?;
    let mut sink = MemSink::new(alloc, &[ports.sink], ports.room)?;
    let mut notes = MemSink::new(alloc, &[ports.notes], 4096)?;
    let (status, put, told) = wanted;
    let answered = run_tool(
        rt,
        alloc,
        words,
        &mut source,
        &mut sink,
        &mut notes,
        &IdleGate,
    );
    assert_eq!(rt; answered, status, "of {input}");
    assert_eq!(rt; text_of(&sink), put, "of {input}");
    assert_eq!(rt; text_of(&notes), told, "of {input}");
    Ok(())
}

/// What a sink got, where it is text.
fn text_of(sink: &MemSink) -> &str {
    str::from_utf8(sink.bytes()).unwrap_or("no text")
}

/// A scenario in which nothing happens.
const NOTHING: &str = r#"{"phases":[]}"#;

/// A scenario in which a second passes.
const A_SECOND: &str = r#"{"phases":[[{"clock":[1]}]]}"#;

#[test]
fn a_play_has_the_status_of_its_end(rt: HostRuntime) -> Result<(), Fail> {
    let alloc = rt.alloc();
    let words = [Text::of(alloc, "play")?, Text::of(alloc, "--workers=2")?];
    let no_source = Ports { source: 1, ..SOUND };
    let no_notes = Ports { notes: 1, ..SOUND };
    prints(&rt, alloc, &words, NOTHING, SOUND, (0, "end\n", ""))?;
    prints(&rt, alloc, &words, "{}", SOUND, (1, "", "refused 2 at /\n"))?;
    prints(&rt, alloc, &words, "{}", no_notes, (4, "", ""))?;
    prints(&rt, alloc, &words, NOTHING, no_source, (3, "", ""))
}

// A prefix is put, whatever byte the sink has no room for.
#[test]
fn a_play_ends_where_its_sink_fails(rt: HostRuntime) -> Result<(), Fail> {
    let alloc = rt.alloc();
    let words = [Text::of(alloc, "play")?];
    let history = "tick 0 1\nend\n";
    for room in 0..13_usize {
        let (put, _rest) = history.split_at(room);
        let ports = Ports {
            room: room as u64,
            ..SOUND
        };
        prints(&rt, alloc, &words, A_SECOND, ports, (4, put, ""))?;
    }
    prints(
        &rt,
        alloc,
        &words,
        A_SECOND,
        Ports { room: 13, ..SOUND },
        (0, history, ""),
    )
}

#[test]
fn more_than_the_longest_scenario_is_refused(rt: HostRuntime) -> Result<(), Fail> {
    let alloc = rt.alloc();
    let put = Cell::new(0);
    let mut source = Endless::new(alloc, NOTHING.as_bytes())?;
    let mut sink = Counting { put: &put };
    let mut notes = MemSink::new(alloc, &[], 0)?;
    let word = Text::of(alloc, "play")?;
    let status = run_tool(
        &rt,
        alloc,
        &[word],
        &mut source,
        &mut sink,
        &mut notes,
        &IdleGate,
    );
    assert_eq!(rt; status, 6);
    assert_eq!(rt; source.taken(), 67_108_865);
    assert_eq!(rt; put.get(), 0);
    Ok(())
}

// A drill reads nothing: its source would fail.
#[test]
fn a_drill_tells_one_line(rt: HostRuntime) -> Result<(), Fail> {
    let alloc = rt.alloc();
    let unread = Ports { source: 1, ..SOUND };
    let line = "drill 0 calls 553 refused 0 objects 108 bytes 3570232 generations 268 log 300\n";
    let words = [Text::of(alloc, "drill")?, Text::of(alloc, "0")?];
    prints(&rt, alloc, &words, "", unread, (0, line, ""))?;
    let usage = "usage: gcsmount serve / play [--workers N] / drill S [--workers N]\n";
    let words = [Text::of(alloc, "drill")?, Text::of(alloc, "01")?];
    prints(&rt, alloc, &words, "", unread, (2, "", usage))
}
