//! Names, directories and handles on a mount over a bucket that holds objects. What is expected comes from outside: errno
//! numbers of Linux, modes of `stat`, types and lengths of directory entries of fuse.h and dirent.h, and what gcsfuse shows
//! of such objects.
mod ask;
mod beside;
mod faults;
mod journal;
mod lone;
mod naming;
mod staged;
mod steps;
mod told;

ghost use Rattle.std.specs.Prelude.{◌<◌, ◌+◌, ◌-◌, ◌^◌, IfOk, OnOk};
ghost use Rattle.bucket_api.specs.BucketState.{IsWithin};
ghost use Rattle.bucket_api.specs.Metadata.{KeysRise};

use crate::Serial;
use ask::Ask::{
    BatchForget, Create, Destroy, Forget, Fsyncdir, Getattr, Init, Lookup, Open, Opendir, Read,
    Readdir, Release, Releasedir, Statfs,
};
use beside::Act::{Play, Replace};
use bucket_api::{Op, Pair, allowed};
use bucket_plain::Plain;
use io_ports::{Bytes, NoMemory, Row, Text};
use mount_model::Config;
use staged::acts_over;
use std::alloc::Global;
use std::process::Abort;
use std::test::Fail;
use steps::{Step, plays};
use told::Told::{
    Agreed, Attr, Content, Directory, Done, Entries, Errno, File, Made, Opened, Silence, Sizes,
};

/// Puts an object of five bytes, stamped with the second 7.
fn put<R: Abort + AllocGlobal>(
    rt: &R,
    bucket: &mut Plain,
    made: u64,
    name: &str,
) -> Result<(), NoMemory>
    requires within { IsWithin made bucket.old }
    requires few { made < 2 ^ 62 }
    ensures { OnOk result (IsWithin (made + 1) bucket.new) }
{
    assert!(rt; allowed(name));
    bucket.last();
    let op = Op::Insert {
        name: Text::of(rt.alloc(), name)?,
        content: Bytes::of(rt.alloc(), b"hello")?,
        pairs: no_pairs(rt.alloc()),
        only: None,
        stamp: 7,
    };
    bucket.apply(rt.alloc(), &op)?;
    Ok(())
}

/// No pairs: their keys rise.
pub(crate) fn no_pairs(alloc: Global) -> Row<Pair>
    ensures { KeysRise result.items }
{
    Row::new(alloc)
}

/// A bucket that holds these objects.
pub(crate) fn holding<R: Abort + AllocGlobal>(rt: &R, names: &[&str]) -> Result<Plain, NoMemory>
    ensures { IfOk result (λ bucket. IsWithin (2 ^ 62 - 1) bucket) }
{
    assert!(rt; names.len() < 1000);
    let mut bucket = Plain::new(rt.alloc());
    let mut made = 0;
    for name in names {
        put(rt, &mut bucket, made, name)?;
        made += 1;
    }
    Ok(bucket)
}

/// Plays steps on a new mount, over a bucket that holds these objects and is listed by one key a page.
pub(crate) fn plays_over<R: Abort + AllocGlobal>(
    rt: &R,
    implicit_dirs: bool,
    names: &[&str],
    steps: &[Step<'_>],
) -> Result<(), NoMemory> {
    let config = Config {
        implicit_dirs,
        list_page: 1,
        ..Config::new()
    };
    let mut mount = Serial::new(rt.alloc(), &config, holding(rt, names)?)?;
    plays(rt, &mut mount, steps)
}

/// A directory comes before the file that it hides, which the suffix tells.
const HIDDEN: &[Step<'static>] = &[
    (Lookup(1, "foo"), Errno(71)),
    (Init, Agreed),
    (Lookup(1, "foo"), Directory(2)),
    (Lookup(1, "foo\n"), File(3)),
    (Lookup(1, "foo"), Directory(2)),
];

/// The suffix means nothing where no directory hides the file, and a name has to be one.
const ALONE: &[Step<'static>] = &[
    (Init, Agreed),
    (Lookup(1, "foo\n"), Errno(2)),
    (Lookup(1, "foo"), File(2)),
    (Lookup(1, "."), Errno(22)),
    (Lookup(1, ""), Errno(22)),
];

#[test]
fn a_directory_comes_before_the_file_that_it_hides(rt: HostRuntime) -> Result<(), Fail> {
    plays_over(&rt, false, &["foo", "foo/"], HIDDEN)?;
    plays_over(&rt, false, &["foo"], ALONE)?;
    Ok(())
}

/// A name that begins others is nothing by itself.
const EXPLICIT: &[Step<'static>] = &[(Init, Agreed), (Lookup(1, "a"), Errno(2))];

/// It is a directory where directories are implicit.
const IMPLICIT: &[Step<'static>] = &[
    (Init, Agreed),
    (Lookup(1, "a"), Directory(2)),
    (Lookup(2, "b"), File(3)),
];

#[test]
fn a_prefix_is_a_directory_where_directories_are_implicit(rt: HostRuntime) -> Result<(), Fail> {
    plays_over(&rt, false, &["a/b"], EXPLICIT)?;
    plays_over(&rt, true, &["a/b"], IMPLICIT)?;
    Ok(())
}

/// Three entries of 32 bytes each, listed by three pages.
const POSITIONS: &[Step<'static>] = &[
    (Init, Agreed),
    (Opendir(1), Opened(1)),
    (
        Readdir(1, 1, 0, 4096),
        Entries(&[(1, 4, "foo"), (2, 8, "foo\n"), (3, 8, "foo-x")]),
    ),
    (
        Readdir(1, 1, 0, 96),
        Entries(&[(1, 4, "foo"), (2, 8, "foo\n"), (3, 8, "foo-x")]),
    ),
    (
        Readdir(1, 1, 0, 95),
        Entries(&[(1, 4, "foo"), (2, 8, "foo\n")]),
    ),
    (Readdir(1, 1, 0, 63), Entries(&[(1, 4, "foo")])),
    (Readdir(1, 1, 0, 31), Entries(&[])),
    (Readdir(1, 1, 1, 32), Entries(&[(2, 8, "foo\n")])),
    (Readdir(1, 1, 2, 4096), Entries(&[(3, 8, "foo-x")])),
    (Readdir(1, 1, 3, 4096), Entries(&[])),
    (Readdir(1, 1, u64::MAX, 1_048_576), Entries(&[])),
    (Readdir(1, 1, 0, 1_048_577), Errno(22)),
];

#[test]
fn entries_are_read_from_each_position(rt: HostRuntime) -> Result<(), Fail> {
    plays_over(&rt, false, &["foo", "foo-x", "foo/"], POSITIONS)?;
    Ok(())
}

/// Three directories down, and what may be named there.
const DEEP: &[Step<'static>] = &[
    (Init, Agreed),
    (Statfs, Sizes),
    (Lookup(1, "a"), Directory(2)),
    (Lookup(2, "b"), Directory(3)),
    (Lookup(3, "c"), Directory(4)),
    (Lookup(4, "f"), File(5)),
    (Create(4, "g"), Made(6, 1)),
    (Create(4, "f"), Errno(17)),
    (Lookup(5, "x"), Errno(20)),
    (Lookup(7, "x"), Errno(116)),
    (Lookup(4, ".."), Errno(22)),
    (Opendir(4), Opened(2)),
    (Readdir(4, 2, 0, 4096), Entries(&[(1, 8, "f"), (2, 8, "g")])),
    (Destroy, Done),
];

#[test]
fn directories_stand_in_directories(rt: HostRuntime) -> Result<(), Fail> {
    let names = ["a/", "a/b/", "a/b/c/", "a/b/c/f"];
    plays_over(&rt, false, &names, DEEP)?;
    Ok(())
}

/// A handle of a file, one of another directory, and one whose directory was dropped.
const HANDLES: &[Step<'static>] = &[
    (Init, Agreed),
    (Lookup(1, "a"), Directory(2)),
    (Create(1, "g"), Made(3, 1)),
    (Opendir(2), Opened(2)),
    (Readdir(3, 1, 0, 4096), Errno(9)),
    (Readdir(1, 2, 0, 4096), Errno(9)),
    (Forget(2, 1), Silence),
    (Lookup(2, "f"), Errno(116)),
    (Opendir(2), Errno(116)),
    (Readdir(2, 2, 0, 4096), Entries(&[(1, 8, "f")])),
    (Fsyncdir(2, 2), Done),
    (Releasedir(2, 2), Done),
    (Releasedir(2, 2), Errno(9)),
    (Fsyncdir(2, 2), Errno(9)),
    (Lookup(1, "a"), Directory(4)),
];

#[test]
fn a_handle_serves_its_own_directory_while_it_is_open(rt: HostRuntime) -> Result<(), Fail> {
    plays_over(&rt, false, &["a/", "a/f"], HANDLES)?;
    Ok(())
}

/// Reading by handles: inside, at and past the end, of no bytes and of too many; many on one node, and released ones.
const READS: &[Step<'static>] = &[
    (Init, Agreed),
    (Lookup(1, "f"), File(2)),
    (Open(2), Opened(1)),
    (Read(2, 1, 1, 2), Content("el")),
    (Read(2, 1, 0, 1_048_576), Content("hello")),
    (Read(2, 1, 0, 0), Content("")),
    (Read(2, 1, 5, 2), Content("")),
    (Read(2, 1, u64::MAX, 2), Content("")),
    (Read(2, 1, 0, 1_048_577), Errno(22)),
    (Read(2, 2, 0, 1), Errno(9)),
    (Open(2), Opened(2)),
    (Read(2, 2, 4, 9), Content("o")),
    (Open(2), Opened(3)),
    (Open(2), Opened(4)),
    (Release(2, 3), Done),
    (Read(2, 3, 0, 1), Errno(9)),
    (Read(2, 4, 0, 1), Content("h")),
    (Open(2), Opened(5)),
    (Release(2, 5), Done),
    (Release(2, 4), Done),
    (Release(2, 1), Done),
    (Read(2, 1, 0, 1), Errno(9)),
    (Release(2, 1), Errno(9)),
    (Forget(2, 1), Silence),
    (Open(2), Errno(116)),
    (Getattr(2), Errno(116)),
    (Read(2, 2, 0, 5), Content("hello")),
    (Release(2, 2), Done),
    (Read(2, 2, 0, 5), Errno(9)),
    (Lookup(1, "f"), File(3)),
];

#[test]
fn a_file_is_read_by_its_handles(rt: HostRuntime) -> Result<(), Fail> {
    plays_over(&rt, false, &["f"], READS)?;
    Ok(())
}

/// A file that is open and was read.
const BEFORE: &[Step<'static>] = &[
    (Init, Agreed),
    (Lookup(1, "f"), File(2)),
    (Open(2), Opened(1)),
    (Read(2, 1, 0, 5), Content("hello")),
    (Getattr(2), Attr(2, 5, 1)),
];

/// Its object was replaced: the old handle reads nothing, and never the new bytes, which a new node has.
const AFTER: &[Step<'static>] = &[
    (Read(2, 1, 0, 5), Errno(116)),
    (Read(2, 1, 5, 5), Content("")),
    (Getattr(2), Attr(2, 5, 0)),
    (Open(2), Errno(116)),
    (Lookup(1, "f"), File(3)),
    (Open(3), Opened(2)),
    (Read(3, 2, 0, 5), Content("world")),
    (Read(2, 1, 0, 5), Errno(116)),
    (Release(2, 1), Done),
];

#[test]
fn a_replaced_file_is_stale_through_its_old_handle(rt: HostRuntime) -> Result<(), Fail> {
    let all = [Play(BEFORE), Replace("world"), Play(AFTER)];
    acts_over(&rt, &["f"], 1, &all)?;
    Ok(())
}

/// Look-ups are counted, and given back one by one and in pairs; the root is never dropped.
const COUNTS: &[Step<'static>] = &[
    (Init, Agreed),
    (Lookup(1, "f"), File(2)),
    (Lookup(1, "f"), File(2)),
    (Lookup(1, "f"), File(2)),
    (Forget(2, 2), Silence),
    (Getattr(2), Attr(2, 5, 1)),
    (Forget(2, 1), Silence),
    (Getattr(2), Errno(116)),
    (Lookup(1, "f"), File(3)),
    (Forget(3, u64::MAX), Silence),
    (Getattr(3), Errno(116)),
    (Lookup(1, "f"), File(4)),
    (Lookup(1, "g"), File(5)),
    (Lookup(1, "g"), File(5)),
    (BatchForget(&[(5, 1), (4, 1), (5, 1), (9, 7)]), Silence),
    (Getattr(4), Errno(116)),
    (Getattr(5), Errno(116)),
    (Forget(1, 9), Silence),
    (Getattr(1), Attr(1, 0, 1)),
    (Open(1), Errno(21)),
];

#[test]
fn a_node_is_live_while_its_look_ups_are_held(rt: HostRuntime) -> Result<(), Fail> {
    plays_over(&rt, false, &["f", "g"], COUNTS)?;
    Ok(())
}
