//! Names that are removed and moved, which then have no current node. Errno numbers are Linux's: ENOENT 2, EBUSY 16,
//! ENOTEMPTY 39, ESTALE 116.
ghost use Rattle.mount_rules.specs.Files.{FilesAreShort};

use crate::tests::{
    Outcome, Setting, agree, create, failed, file, look_up, new_mount, object, perform, set,
};
use crate::{Mount, Told};
use bucket_api::{Answer, Meta, Page};
use fuse_requests::Request;
use io_ports::{Bytes, NoMemory, Row, Text};
use std::alloc::Global;
use std::process::Abort;
use std::test::Fail;

/// A request that was done is answered no error.
fn done() -> Outcome {
    failed(0)
}

/// That operations were answered so, in order.
fn answered(alloc: Global, answers: Vec<Answer>) -> Result<Told, NoMemory> {
    let mut seen = Told::new(alloc);
    for answer in answers {
        seen.reserve()?;
        seen.push(1, answer);
    }
    Ok(seen)
}

/// UNLINK of `foo` in the root, whose delete was answered so.
fn unlink(mount: &mut Mount, alloc: Global, answer: Answer) -> Result<Outcome, NoMemory>
    requires short { FilesAreShort mount.old.mount }
    ensures short { FilesAreShort mount.new.mount }
{
    let seen = answered(alloc, vec![in alloc; answer]?)?;
    let name = Bytes::of(alloc, b"foo")?;
    let request = Request::Unlink { node: 1, name };
    perform(mount, alloc, &request, seen)
}

/// That no directory was found, generation 1 was shown and copied, and its delete was answered so.
fn moved(alloc: Global, deleted: Answer) -> Result<Told, NoMemory> {
    let shown = object(alloc, 1, Row::new(alloc))?;
    let copied = object(alloc, 2, Row::new(alloc))?;
    answered(
        alloc,
        vec![in alloc; Answer::NotFound, shown, copied, deleted]?,
    )
}

/// RENAME in the root, whose delete was answered so.
fn rename(
    mount: &mut Mount,
    alloc: Global,
    names: (&[u8], &[u8]),
    deleted: Answer,
) -> Result<Outcome, NoMemory>
    requires short { FilesAreShort mount.old.mount }
    ensures short { FilesAreShort mount.new.mount }
{
    let seen = moved(alloc, deleted)?;
    let name = Bytes::of(alloc, names.0)?;
    let newname = Bytes::of(alloc, names.1)?;
    let request = Request::Rename {
        node: 1,
        newdir: 1,
        name,
        newname,
    };
    perform(mount, alloc, &request, seen)
}

/// An object of this name, which has no bytes.
fn empty_object(alloc: Global, name: &str) -> Result<Meta, NoMemory> {
    Ok(Meta {
        name: Text::of(alloc, name)?,
        generation: 1,
        metageneration: 1,
        size: 0,
        updated: 7,
        pairs: Row::new(alloc),
    })
}

/// A page of these objects.
fn page(alloc: Global, items: Row<Meta>) -> Answer {
    Answer::Page(Page {
        items,
        prefixes: Row::new(alloc),
        next: None,
    })
}

/// RMDIR of `foo` in the root, where objects of these names were listed, and a delete was done.
fn remove_directory(
    mount: &mut Mount,
    alloc: Global,
    names: &[&str],
    deletes: bool,
) -> Result<Outcome, NoMemory>
    requires short { FilesAreShort mount.old.mount }
    ensures short { FilesAreShort mount.new.mount }
{
    let mut items = Vec::new(alloc);
    for name in names {
        let item = empty_object(alloc, name)?;
        items.push(item)?;
    }
    let mut answers = vec![in alloc; page(alloc, Row::from_vec(items))]?;
    if deletes {
        answers.push(Answer::Done)?;
    }
    let seen = answered(alloc, answers)?;
    let name = Bytes::of(alloc, b"foo")?;
    let request = Request::Rmdir { node: 1, name };
    perform(mount, alloc, &request, seen)
}

/// Of 3 bytes, by FATTR_SIZE.
const SHORTER: Setting = (
    8,
    3,
    (0, 0),
    Outcome {
        node: 2,
        size: 3,
        mode: 0o100644,
        time: (40, 0),
    },
);

fn written_file_goes<R: Abort + AllocGlobal>(mount: &mut Mount, rt: &R) -> Result<(), NoMemory>
    requires { FilesAreShort mount.old.mount }
{
    agree(mount, rt.alloc())?;
    assert_eq!(rt; create(mount, rt.alloc())?, file(2));
    set(mount, rt.alloc(), &SHORTER)?;
    assert_eq!(rt;
        rename(mount, rt.alloc(), (b"foo", b"bar"), Answer::Done)?,
        failed(16)
    );
    assert_eq!(rt;
        rename(mount, rt.alloc(), (b"foo", b"foo"), Answer::Done)?,
        done()
    );
    assert_eq!(rt; mount.nodes().current("foo"), Some(2));
    assert_eq!(rt; unlink(mount, rt.alloc(), Answer::NotFound)?, failed(2));
    assert_eq!(rt; unlink(mount, rt.alloc(), Answer::Done)?, done());
    assert_eq!(rt; mount.nodes().current("foo"), None);
    assert_eq!(rt; mount.nodes().get(2).map(|inode| inode.lookups), Some(1));
    assert_eq!(rt; mount.staging().len(2), Some(3));
    assert_eq!(rt;
        rename(mount, rt.alloc(), (b"foo", b"bar"), Answer::NotFound)?,
        failed(116)
    );
    Ok(())
}

#[test]
fn a_written_file_stays_open_without_its_name(rt: HostRuntime) -> Result<(), Fail> {
    let mut mount = new_mount(rt.alloc())?;
    written_file_goes(&mut mount, &rt)?;
    Ok(())
}

fn open_file_is_replaced<R: Abort + AllocGlobal>(mount: &mut Mount, rt: &R) -> Result<(), NoMemory>
    requires { FilesAreShort mount.old.mount }
{
    agree(mount, rt.alloc())?;
    assert_eq!(rt; create(mount, rt.alloc())?, file(2));
    set(mount, rt.alloc(), &SHORTER)?;
    assert_eq!(rt;
        rename(mount, rt.alloc(), (b"bar", b"foo"), Answer::Done)?,
        done()
    );
    assert_eq!(rt; mount.nodes().current("foo"), None);
    assert_eq!(rt; mount.staging().len(2), Some(3));
    assert_eq!(rt; look_up(mount, rt.alloc(), 2, 4)?, file(3));
    Ok(())
}

#[test]
fn a_file_is_moved_onto_an_open_one(rt: HostRuntime) -> Result<(), Fail> {
    let mut mount = new_mount(rt.alloc())?;
    open_file_is_replaced(&mut mount, &rt)?;
    Ok(())
}

fn directories_go<R: Abort + AllocGlobal>(mount: &mut Mount, rt: &R) -> Result<(), NoMemory>
    requires { FilesAreShort mount.old.mount }
{
    agree(mount, rt.alloc())?;
    assert_eq!(rt;
        remove_directory(mount, rt.alloc(), &["foo/", "foo/a"], false)?,
        failed(39)
    );
    assert_eq!(rt;
        remove_directory(mount, rt.alloc(), &["foo/a"], false)?,
        failed(39)
    );
    assert_eq!(rt;
        remove_directory(mount, rt.alloc(), &["foo/"], true)?,
        done()
    );
    assert_eq!(rt; remove_directory(mount, rt.alloc(), &[], false)?, failed(2));
    Ok(())
}

#[test]
fn a_directory_is_removed_where_it_is_empty(rt: HostRuntime) -> Result<(), Fail> {
    let mut mount = new_mount(rt.alloc())?;
    directories_go(&mut mount, &rt)?;
    Ok(())
}
