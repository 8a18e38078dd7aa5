//! Making, removing and renaming on a mount. What is expected comes from outside: errno numbers of Linux, modes of `stat`,
//! what POSIX says of `unlink`, `rmdir` and `rename`, and what gcsfuse makes of them on objects.
use crate::tests::ask::Ask::{
    Create, Flush, Getattr, Init, Lookup, Mkdir, Mknod, Open, Other, Read, Readlink, Rename,
    Rename2, Rmdir, Symlink, Unlink, Write,
};
use crate::tests::beside::Act::{Lacks, Play, Replace, Stands};
use crate::tests::plays_over;
use crate::tests::staged::acts_over;
use crate::tests::steps::Step;
use crate::tests::told::Told::{
    Agreed, Attr, Content, Directory, Done, Errno, File, Fresh, Link, Made, Opened, Shown, Target,
    Wrote,
};
use std::test::Fail;

/// A directory goes when nothing lies in it; a link tells where it leads; a FIFO and a hard link are none.
const MAKING: &[Step<'static>] = &[
    (Init, Agreed),
    (Mkdir(1, "d"), Directory(2)),
    (Mkdir(1, "d"), Errno(17)),
    (Create(2, "f"), Made(3, 1)),
    (Rmdir(1, "d"), Errno(39)),
    (Unlink(2, "f"), Done),
    (Rmdir(1, "d"), Done),
    (Rmdir(1, "d"), Errno(2)),
    (Lookup(1, "d"), Errno(2)),
    (Symlink(1, "l", "t/u"), Link(4, 3)),
    (Symlink(1, "l", "v"), Errno(17)),
    (Readlink(4), Target("t/u")),
    (Readlink(1), Errno(22)),
    (Getattr(4), Shown(4, 3, 0, 0)),
    (Lookup(1, "l"), Link(4, 3)),
    (Mknod(1, 0o100644, "m"), Fresh(5, 0)),
    (Mknod(1, 0o100644, "m"), Errno(17)),
    (Mknod(1, 0o010644, "p"), Errno(38)),
    (Other(13), Errno(38)),
];

/// Directories by their placeholders, by what lies in them, and by both; and names that begin as theirs.
const REMOVING: &[Step<'static>] = &[
    (Init, Agreed),
    (Unlink(1, "d"), Errno(2)),
    (Rmdir(1, "d"), Done),
    (Rmdir(1, "d-x"), Errno(2)),
    (Rmdir(1, "e"), Errno(39)),
    (Rmdir(1, "g"), Errno(39)),
    (Unlink(1, "d-x"), Done),
    (Unlink(1, "d-x"), Errno(2)),
];

#[test]
fn a_directory_is_removed_where_nothing_lies_in_it(rt: HostRuntime) -> Result<(), Fail> {
    let names = ["d/", "d-x", "e/f", "g/", "g/h"];
    plays_over(&rt, false, &[], MAKING)?;
    plays_over(&rt, false, &names, REMOVING)?;
    plays_over(&rt, true, &names, REMOVING)?;
    Ok(())
}

/// To its own name, from none, with a flag, of a directory, and out of and into none; then into a directory and back.
const MOVING: &[Step<'static>] = &[
    (Init, Agreed),
    (Rename(1, "a", 1, "a"), Done),
    (Rename(1, "x", 1, "y"), Errno(2)),
    (Rename(1, "a\n", 1, "y"), Errno(2)),
    (Rename2(1, 1, "a", 1, "y"), Errno(22)),
    (Mkdir(1, "d"), Directory(2)),
    (Rename(1, "d", 1, "e"), Errno(38)),
    (Lookup(1, "b"), File(3)),
    (Rename(3, "x", 1, "y"), Errno(20)),
    (Rename(1, "a", 9, "y"), Errno(116)),
    (Rename(1, "a", 2, "b"), Done),
    (Lookup(1, "a"), Errno(2)),
    (Lookup(2, "b"), Fresh(4, 5)),
    (Rename2(0, 2, "b", 1, "b"), Done),
    (Lookup(1, "b"), Fresh(5, 5)),
];

/// A file that is written isn't renamed; one that lies under the new name is replaced, written or not.
const REPLACING: &[Step<'static>] = &[
    (Init, Agreed),
    (Lookup(1, "a"), File(2)),
    (Open(2), Opened(1)),
    (Lookup(1, "f"), File(3)),
    (Open(3), Opened(2)),
    (Write(3, 2, 0, "WORLD"), Wrote(5)),
    (Rename(1, "f", 1, "a"), Errno(16)),
    (Rename(1, "f", 1, "f"), Done),
    (Flush(3, 2), Done),
    (Write(2, 1, 0, "HELLO"), Wrote(5)),
    (Rename(1, "f", 1, "a"), Done),
    (Flush(2, 1), Errno(116)),
    (Read(2, 1, 0, 5), Content("HELLO")),
    (Getattr(3), Attr(3, 5, 0)),
    (Read(3, 2, 0, 5), Errno(116)),
    (Lookup(1, "f"), Errno(2)),
    (Lookup(1, "a"), Fresh(4, 5)),
    (Open(4), Opened(3)),
    (Read(4, 3, 0, 5), Content("WORLD")),
];

#[test]
fn a_renamed_object_stands_under_its_new_name(rt: HostRuntime) -> Result<(), Fail> {
    let moved = [
        Play(MOVING),
        Stands("b", "hello"),
        Lacks("a"),
        Lacks("d/b"),
        Stands("d/", ""),
    ];
    acts_over(&rt, &["a", "b"], 1, &moved)?;
    let replaced = [
        Replace("world"),
        Play(REPLACING),
        Stands("a", "WORLD"),
        Lacks("f"),
    ];
    acts_over(&rt, &["a", "f"], 2, &replaced)?;
    Ok(())
}

/// A file that is unlinked is written and read through its handle, and never flushed.
const UNLINKED: &[Step<'static>] = &[
    (Init, Agreed),
    (Mknod(1, 0o100644, "f"), Fresh(2, 0)),
    (Open(2), Opened(1)),
    (Unlink(1, "f"), Done),
    (Getattr(2), Attr(2, 0, 0)),
    (Open(2), Errno(116)),
    (Write(2, 1, 0, "ab"), Wrote(2)),
    (Flush(2, 1), Errno(116)),
    (Read(2, 1, 0, 2), Content("ab")),
    (Create(1, "g"), Made(3, 2)),
    (Write(3, 2, 0, "cd"), Wrote(2)),
    (Unlink(1, "g"), Done),
    (Getattr(3), Shown(3, 2, 0, 0)),
    (Flush(3, 2), Errno(116)),
    (Read(3, 2, 0, 2), Content("cd")),
    (Create(1, "g"), Made(4, 3)),
    (Flush(3, 2), Errno(116)),
];

#[test]
fn an_unlinked_file_is_never_flushed(rt: HostRuntime) -> Result<(), Fail> {
    acts_over(&rt, &[], 2, &[Play(UNLINKED), Lacks("f"), Stands("g", "")])?;
    Ok(())
}
