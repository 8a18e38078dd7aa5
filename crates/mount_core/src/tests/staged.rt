//! Staged content on a mount: writes, lengths, times and flushes. What is expected comes from outside: errno numbers of
//! Linux, what POSIX says of `pwrite` and `ftruncate`, and what gcsfuse keeps of a file's time.
use crate::Serial;
use crate::tests::ask::Ask::{
    Create, Flush, Forget, Fsync, Getattr, Init, Lookup, Open, Read, Release, Resize, Touch, Write,
};
use crate::tests::beside::Act::{Holds, Play, Remove, Replace};
use crate::tests::beside::{Act, acts};
use crate::tests::holding;
use crate::tests::steps::Step;
use crate::tests::told::Told::{
    Agreed, Attr, Content, Done, Errno, File, Made, Opened, Shown, Silence, Wrote,
};
use io_ports::NoMemory;
use mount_model::Config;
use std::process::Abort;
use std::test::Fail;

/// Does these on a new mount, over a bucket that holds these objects, with so many blocks for staged contents.
pub(crate) fn acts_over<R: Abort + AllocGlobal>(
    rt: &R,
    names: &[&str],
    staging_blocks: u64,
    all: &[Act<'_>],
) -> Result<(), NoMemory> {
    assert!(rt; staging_blocks >= 1);
    assert!(rt; staging_blocks <= 1024);
    let config = Config {
        staging_blocks,
        ..Config::new()
    };
    let mut mount = Serial::new(rt.alloc(), &config, holding(rt, names)?)?;
    acts(rt, &mut mount, all)
}

/// A file that is open.
const OPENED: &[Step<'static>] = &[
    (Init, Agreed),
    (Lookup(1, "f"), File(2)),
    (Open(2), Opened(1)),
];

/// The whole content is written, so nothing of the source is read; the flush finds that it is gone.
const WHOLE: &[Step<'static>] = &[
    (Write(2, 1, 0, "HELLO"), Wrote(5)),
    (Flush(2, 1), Errno(116)),
    (Read(2, 1, 0, 5), Content("HELLO")),
    (Fsync(2, 1), Errno(116)),
];

/// The rest of the block is the source's, which is gone.
const PART: &[Step<'static>] = &[(Write(2, 1, 0, "H"), Errno(116))];

/// Another writer replaced the object.
const NEWER: &[Act<'static>] = &[
    Play(OPENED),
    Replace("world"),
    Play(WHOLE),
    Holds(2, "world"),
];

/// Another writer deleted the object, and made an equal one.
const EQUAL: &[Act<'static>] = &[
    Play(OPENED),
    Remove,
    Replace("hello"),
    Play(WHOLE),
    Holds(2, "hello"),
];

#[test]
fn a_flush_never_replaces_what_is_newer(rt: HostRuntime) -> Result<(), Fail> {
    acts_over(&rt, &["f"], 1, NEWER)?;
    acts_over(&rt, &["f"], 1, EQUAL)?;
    acts_over(
        &rt,
        &["f"],
        1,
        &[Play(OPENED), Replace("world"), Play(PART)],
    )?;
    Ok(())
}

/// Two writes and two flushes make one generation; a write past the end fills the gap with zeros.
const FLUSHED: &[Step<'static>] = &[
    (Init, Agreed),
    (Create(1, "f"), Made(2, 1)),
    (Write(2, 1, 0, "ab"), Wrote(2)),
    (Write(2, 1, 2, "cd"), Wrote(2)),
    (Getattr(2), Shown(2, 4, 0, 0)),
    (Flush(2, 1), Done),
    (Flush(2, 1), Done),
    (Fsync(2, 1), Done),
];

/// Behind the end stand zeros, up to what is written.
const PAST: &[Step<'static>] = &[
    (Write(2, 1, 6, "g"), Wrote(1)),
    (Read(2, 1, 0, 9), Content("abcd\0\0g")),
    (Fsync(2, 1), Done),
    (Read(2, 1, 3, 9), Content("d\0\0g")),
    (Release(2, 1), Done),
    (Forget(2, 1), Silence),
    (Getattr(2), Errno(116)),
];

#[test]
fn staged_content_is_flushed_once(rt: HostRuntime) -> Result<(), Fail> {
    let all = [
        Play(FLUSHED),
        Holds(2, "abcd"),
        Play(PAST),
        Holds(3, "abcd\0\0g"),
    ];
    acts_over(&rt, &[], 1, &all)?;
    Ok(())
}

/// Lengths around a block's end: bytes cut off come back as zeros.
const LENGTHS: &[Step<'static>] = &[
    (Write(2, 1, 65_534, "abc"), Wrote(3)),
    (Resize(2, 65_536), Shown(2, 65_536, 0, 0)),
    (Resize(2, 65_538), Shown(2, 65_538, 0, 0)),
    (Read(2, 1, 65_533, 9), Content("\0ab\0\0")),
    (Resize(2, 3), Shown(2, 3, 0, 0)),
    (Resize(2, 70_000), Shown(2, 70_000, 0, 0)),
    (Read(2, 1, 0, 9), Content("hel\0\0\0\0\0\0")),
    (Read(2, 1, 65_530, 12), Content("\0\0\0\0\0\0\0\0\0\0\0\0")),
    (Write(2, 1, 16_777_215, "z"), Wrote(1)),
    (Write(2, 1, 16_777_215, "zz"), Errno(27)),
    (Resize(2, 16_777_217), Errno(27)),
    (Read(2, 1, 16_777_214, 9), Content("\0z")),
    (Read(2, 1, 0, 1_048_577), Errno(22)),
];

#[test]
fn bytes_cut_off_come_back_as_zeros(rt: HostRuntime) -> Result<(), Fail> {
    acts_over(&rt, &["f"], 4, &[Play(OPENED), Play(LENGTHS)])?;
    Ok(())
}

/// There is one block: a second one is refused, until the first is flushed.
const ONE_BLOCK: &[Step<'static>] = &[
    (Init, Agreed),
    (Create(1, "f"), Made(2, 1)),
    (Write(2, 1, 0, "0123456789"), Wrote(10)),
    (Write(2, 1, 65_536, "x"), Errno(28)),
    (Getattr(2), Attr(2, 10, 1)),
    (Flush(2, 1), Done),
    (Write(2, 1, 65_536, "x"), Wrote(1)),
    (Getattr(2), Attr(2, 65_537, 1)),
    (Create(1, "g"), Made(3, 2)),
    (Write(3, 2, 0, "y"), Errno(28)),
    (Resize(2, 65_536), Attr(2, 65_536, 1)),
    (Write(3, 2, 0, "y"), Wrote(1)),
];

#[test]
fn a_block_is_free_once_it_is_flushed_or_cut_off(rt: HostRuntime) -> Result<(), Fail> {
    acts_over(&rt, &[], 1, &[Play(ONE_BLOCK)])?;
    Ok(())
}

/// A time is set on the object, and on staged content; one that no file can have is refused.
const TIMES: &[Step<'static>] = &[
    (Touch(2, 5, 7), Shown(2, 5, 5, 7)),
    (Touch(2, 5, 1_000_000_000), Errno(22)),
    (Touch(2, 250_000_000_000, 0), Errno(22)),
    (Getattr(2), Shown(2, 5, 5, 7)),
    (Write(2, 1, 0, "HELLO"), Wrote(5)),
    (Getattr(2), Shown(2, 5, 0, 0)),
    (Touch(2, 6, 8), Shown(2, 5, 6, 8)),
    (Flush(2, 1), Done),
    (Getattr(2), Shown(2, 5, 6, 8)),
];

/// The generation is live no more: its time is set no more.
const TOO_LATE: &[Step<'static>] = &[(Touch(2, 9, 9), Errno(116))];

#[test]
fn a_time_is_set_on_the_generation_that_is_shown(rt: HostRuntime) -> Result<(), Fail> {
    let all = [Play(OPENED), Play(TIMES), Replace("world"), Play(TOO_LATE)];
    acts_over(&rt, &["f"], 1, &all)?;
    Ok(())
}
