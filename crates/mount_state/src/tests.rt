//! Requests that are performed on a mount. What is expected comes from outside: errno numbers of Linux, modes of `stat`,
//! bits of `struct fuse_setattr_in`, and lengths and types of directory entries as fuse.h and dirent.h have them.
ghost use Rattle.std.specs.Prelude.{◌≡◌, [], None, IfOk, codes};
ghost use Rattle.fuse_requests.specs.Grammar.{without_spare};
ghost use Rattle.mount_model.specs.declared.config.Config.{Config};
ghost use Rattle.mount_rules.specs.Dispatch.{mount_after, wants};
ghost use Rattle.mount_rules.specs.Files.{FilesAreShort};
ghost use Rattle.mount_rules.specs.Making as making;
ghost use Rattle.mount_rules.specs.Mount.{IsMount, MountModel};
ghost use Rattle.mount_rules.specs.Plans.{answers_of};
ghost use Rattle.mount_rules.specs.Requests.Lookup as lookup;
ghost use Rattle.mount_rules.specs.Rules.{AtTake};
ghost use Rattle.mount_state.specs.Spares.{Fills};

use crate::attributes::time_of_object;
use crate::entries::entries_from;
use crate::{Base, Mount, Told};
use bucket_api::{Answer, Meta, Pair};
use fuse_replies::{AttrOut, Reply};
use fuse_requests::Request;
use io_ports::{Bytes, NoMemory, Row, Text};
use mount_model::Config;
use object_names::{DirItem, NodeKind};
use std::alloc::Global;
use std::process::Abort;
use std::test::Fail;

/// The second of each request.
const NOW: u64 = 40;

/// What a reply shows of a node: its number, size, mode and time. Where the request failed, the errno in place of the mode.
#[derive(Clone, Copy, Debug, PartialEq, Eq)]
pub(crate) struct Outcome {
    pub(crate) node: u64,
    pub(crate) size: u64,
    pub(crate) mode: u32,
    pub(crate) time: (u64, u32),
}

/// A regular file of 5 bytes, which was changed at second 7.
pub(crate) fn file(node: u64) -> Outcome {
    changed(node, 5, (7, 0))
}

/// A regular file of this size and time.
fn changed(node: u64, size: u64, time: (u64, u32)) -> Outcome {
    Outcome {
        node,
        size,
        mode: 0o100644,
        time,
    }
}

fn told(reply: &Reply) -> Outcome {
    match reply {
        Reply::Entry(entry) | Reply::Created { entry, .. } => shows(&entry.attr),
        Reply::Attr(attr) => shows(attr),
        Reply::Error(errno) => failed(*errno),
        _ => failed(0),
    }
}

fn shows(attr: &AttrOut) -> Outcome {
    Outcome {
        node: attr.ino,
        size: attr.size,
        mode: attr.mode,
        time: (attr.mtime, attr.nanos),
    }
}

pub(crate) fn failed(errno: u32) -> Outcome {
    Outcome {
        node: 0,
        size: 0,
        mode: errno,
        time: (0, 0),
    }
}

/// Performs a request that observed this, where nothing refuses it.
fn answer(
    mount: &mut Mount,
    alloc: Global,
    request: &Request,
    seen: Told,
) -> Result<Reply, NoMemory>
    requires short { FilesAreShort mount.old.mount }
    requires items { (config : Config) (held : MountModel) → Fills config held (without_spare request.now) seen.items [] }
    requires quiet { (config : Config) (held : MountModel) → wants config held (without_spare request.now) ≡ None }
    requires stays { (at : AtTake) (held : MountModel) → IsMount held → FilesAreShort held → FilesAreShort (mount_after at held (without_spare request.now) seen.items) }
    ensures short { FilesAreShort mount.new.mount }
{
    if let Some(errno) = mount.early(request) {
        return Ok(Reply::Error(errno));
    }
    let spare = mount.prepare(alloc, request)?;
    Ok(mount.finish(NOW, request, spare, seen, Base::empty(alloc)))
}

/// What is shown by the reply to a request that observed this.
pub(crate) fn perform(
    mount: &mut Mount,
    alloc: Global,
    request: &Request,
    seen: Told,
) -> Result<Outcome, NoMemory>
    requires short { FilesAreShort mount.old.mount }
    requires items { (config : Config) (held : MountModel) → Fills config held (without_spare request.now) seen.items [] }
    requires quiet { (config : Config) (held : MountModel) → wants config held (without_spare request.now) ≡ None }
    requires stays { (at : AtTake) (held : MountModel) → IsMount held → FilesAreShort held → FilesAreShort (mount_after at held (without_spare request.now) seen.items) }
    ensures short { FilesAreShort mount.new.mount }
{
    let reply = answer(mount, alloc, request, seen)?;
    Ok(told(&reply))
}

/// A mount before its first request, which has no file.
pub(crate) fn new_mount(alloc: Global) -> Result<Mount, NoMemory>
    ensures { IfOk result (λ mount. FilesAreShort mount.mount) }
{
    let mount = Mount::new(alloc, &Config::new())?;
    Ok(mount)
}

/// Agrees on 7.31.
pub(crate) fn agree(mount: &mut Mount, alloc: Global) -> Result<Outcome, NoMemory>
    requires short { FilesAreShort mount.old.mount }
    ensures short { FilesAreShort mount.new.mount }
{
    let request = Request::Init {
        major: 7,
        minor: 31,
        readahead: 131_072,
        flags: u32::MAX,
    };
    perform(mount, alloc, &request, Told::new(alloc))
}

/// That the bucket told of an object `foo` of 5 bytes, with these pairs.
pub(crate) fn object(alloc: Global, generation: u64, pairs: Row<Pair>) -> Result<Answer, NoMemory>
    ensures { IfOk result (λ answer. answer ≡ Answer.Meta (record { name = codes "foo"; generation = generation; metageneration = 1; size = 5; updated = 7; pairs = pairs.items })) }
{
    let name = Text::of(alloc, "foo")?;
    Ok(Answer::Meta(Meta {
        name,
        generation,
        metageneration: 1,
        size: 5,
        updated: 7,
        pairs,
    }))
}

/// That no directory was found, and then this generation of `foo` was shown.
fn found(alloc: Global, generation: u64, moment: u64) -> Result<Told, NoMemory>
    ensures { IfOk result (λ seen. lookup.found (answers_of seen.items) ≡ lookup.object (record { name = codes "foo"; generation = generation; metageneration = 1; size = 5; updated = 7; pairs = [] })) }
{
    let stat = object(alloc, generation, Row::new(alloc))?;
    let mut seen = Told::new(alloc);
    seen.reserve()?;
    seen.push(moment, Answer::NotFound);
    seen.reserve()?;
    seen.push(moment, stat);
    Ok(seen)
}

/// What LOOKUP of `foo` in the root is answered where this generation was shown.
pub(crate) fn look_up(
    mount: &mut Mount,
    alloc: Global,
    generation: u64,
    moment: u64,
) -> Result<Outcome, NoMemory>
    requires short { FilesAreShort mount.old.mount }
    ensures short { FilesAreShort mount.new.mount }
{
    let seen = found(alloc, generation, moment)?;
    let name = Bytes::of(alloc, b"foo")?;
    let request = Request::Lookup { node: 1, name };
    perform(mount, alloc, &request, seen)
}

/// A LOOKUP is prepared, and its spare given back.
fn prepare_in_vain(mount: &mut Mount, alloc: Global) -> Result<(), NoMemory>
    requires short { FilesAreShort mount.old.mount }
    ensures short { FilesAreShort mount.new.mount }
{
    let name = Bytes::of(alloc, b"foo")?;
    let request = Request::Lookup { node: 1, name };
    if mount.early(&request).is_some() {
        return Ok(());
    }
    match mount.prepare(alloc, &request) {
        Ok(spare) => {
            mount.forgo(spare);
            Ok(())
        }
        Err(refused) => Err(refused),
    }
}

fn node_stays<R: Abort + AllocGlobal>(mount: &mut Mount, rt: &R) -> Result<(), NoMemory>
    requires { FilesAreShort mount.old.mount }
{
    agree(mount, rt.alloc())?;
    prepare_in_vain(mount, rt.alloc())?;
    assert_eq!(rt; look_up(mount, rt.alloc(), 1, 2)?, file(2));
    assert_eq!(rt; look_up(mount, rt.alloc(), 1, 4)?, file(2));
    assert_eq!(rt; look_up(mount, rt.alloc(), 2, 6)?, file(3));
    assert_eq!(rt; look_up(mount, rt.alloc(), 1, 5)?, file(3));
    Ok(())
}

#[test]
fn a_node_stays_while_its_generation_is_shown(rt: HostRuntime) -> Result<(), Fail> {
    let mut mount = new_mount(rt.alloc())?;
    node_stays(&mut mount, &rt)?;
    Ok(())
}

/// That `foo` was made, with these pairs.
fn made(alloc: Global, pairs: Row<Pair>) -> Result<Told, NoMemory>
    ensures { IfOk result (λ seen. making.made (answers_of seen.items) ≡ making.new (record { name = codes "foo"; generation = 1; metageneration = 1; size = 5; updated = 7; pairs = pairs.items })) }
{
    let answer = object(alloc, 1, pairs)?;
    let mut seen = Told::new(alloc);
    seen.reserve()?;
    seen.push(1, answer);
    Ok(seen)
}

/// CREATE of `foo` in the root.
pub(crate) fn create(mount: &mut Mount, alloc: Global) -> Result<Outcome, NoMemory>
    requires short { FilesAreShort mount.old.mount }
    ensures short { FilesAreShort mount.new.mount }
{
    let seen = made(alloc, Row::new(alloc))?;
    let name = Bytes::of(alloc, b"foo")?;
    let request = Request::Create { node: 1, name };
    perform(mount, alloc, &request, seen)
}

/// FORGET of a node.
fn forget(mount: &mut Mount, alloc: Global, node: u64) -> Result<Outcome, NoMemory>
    requires short { FilesAreShort mount.old.mount }
    ensures short { FilesAreShort mount.new.mount }
{
    let request = Request::Forget { node, count: 1 };
    perform(mount, alloc, &request, Told::new(alloc))
}

fn file_stays<R: Abort + AllocGlobal>(mount: &mut Mount, rt: &R) -> Result<(), NoMemory>
    requires { FilesAreShort mount.old.mount }
{
    agree(mount, rt.alloc())?;
    assert_eq!(rt; create(mount, rt.alloc())?, file(2));
    forget(mount, rt.alloc(), 2)?;
    assert_eq!(rt; mount.nodes().get(2).map(|inode| inode.lookups), Some(0));
    assert_eq!(rt; mount.handles().get(1).map(|handle| handle.node), Some(2));
    Ok(())
}

#[test]
fn a_new_file_stays_while_it_is_open(rt: HostRuntime) -> Result<(), Fail> {
    let mut mount = new_mount(rt.alloc())?;
    file_stays(&mut mount, &rt)?;
    Ok(())
}

/// A symlink to `t/u`, the target's three bytes long, whose object of 5 bytes was changed at second 7.
fn link(node: u64) -> Outcome {
    Outcome {
        node,
        size: 3,
        mode: 0o120777,
        time: (7, 0),
    }
}

/// A directory, which shows when the mount started.
fn directory(node: u64) -> Outcome {
    Outcome {
        node,
        size: 0,
        mode: 0o40755,
        time: (0, 0),
    }
}

/// MKNOD of `foo` in the root, with this mode.
fn make_node(mount: &mut Mount, alloc: Global, mode: u32) -> Result<Outcome, NoMemory>
    requires short { FilesAreShort mount.old.mount }
    ensures short { FilesAreShort mount.new.mount }
{
    let seen = made(alloc, Row::new(alloc))?;
    let name = Bytes::of(alloc, b"foo")?;
    let request = Request::Mknod {
        node: 1,
        mode,
        name,
    };
    perform(mount, alloc, &request, seen)
}

/// SYMLINK of `foo` in the root, to `t/u`.
fn make_link(mount: &mut Mount, alloc: Global) -> Result<Outcome, NoMemory>
    requires short { FilesAreShort mount.old.mount }
    ensures short { FilesAreShort mount.new.mount }
{
    let mut pairs = Row::new(alloc);
    pairs.reserve(1)?;
    pairs.push(pair(alloc, "gcsfuse_symlink_target", "t/u")?);
    let seen = made(alloc, pairs)?;
    let name = Bytes::of(alloc, b"foo")?;
    let target = Bytes::of(alloc, b"t/u")?;
    let request = Request::Symlink {
        node: 1,
        name,
        target,
    };
    perform(mount, alloc, &request, seen)
}

/// MKDIR of a name in a directory.
fn make_directory(
    mount: &mut Mount,
    alloc: Global,
    node: u64,
    name: &[u8],
) -> Result<Outcome, NoMemory>
    requires short { FilesAreShort mount.old.mount }
    ensures short { FilesAreShort mount.new.mount }
{
    let seen = made(alloc, Row::new(alloc))?;
    let name = Bytes::of(alloc, name)?;
    let request = Request::Mkdir { node, name };
    perform(mount, alloc, &request, seen)
}

/// Whether READLINK of a node is answered this target.
fn leads_to(mount: &mut Mount, alloc: Global, node: u64, target: &[u8]) -> Result<bool, NoMemory>
    requires short { FilesAreShort mount.old.mount }
    ensures short { FilesAreShort mount.new.mount }
{
    let request = Request::Readlink { node };
    let reply = answer(mount, alloc, &request, Told::new(alloc))?;
    Ok(matches!(&reply, Reply::Target(bytes) if bytes.as_slice() == target))
}

/// The modes have the types of a regular file, of none, of a FIFO and of a directory: the last two have no object (ENOSYS).
fn names_are_made<R: Abort + AllocGlobal>(mount: &mut Mount, rt: &R) -> Result<(), NoMemory>
    requires { FilesAreShort mount.old.mount }
{
    agree(mount, rt.alloc())?;
    assert_eq!(rt; make_node(mount, rt.alloc(), 0o100644)?, file(2));
    assert_eq!(rt; make_node(mount, rt.alloc(), 0o7777)?, file(3));
    assert_eq!(rt; make_node(mount, rt.alloc(), 0o10644)?, failed(38));
    assert_eq!(rt; make_node(mount, rt.alloc(), 0o40755)?, failed(38));
    Ok(())
}

#[test]
fn an_object_is_made_of_a_regular_file_alone(rt: HostRuntime) -> Result<(), Fail> {
    let mut mount = new_mount(rt.alloc())?;
    names_are_made(&mut mount, &rt)?;
    Ok(())
}

fn links_are_read<R: Abort + AllocGlobal>(mount: &mut Mount, rt: &R) -> Result<(), NoMemory>
    requires { FilesAreShort mount.old.mount }
{
    agree(mount, rt.alloc())?;
    assert_eq!(rt; make_link(mount, rt.alloc())?, link(2));
    assert!(rt; leads_to(mount, rt.alloc(), 2, b"t/u")?);
    Ok(())
}

#[test]
fn a_link_is_as_long_as_its_target(rt: HostRuntime) -> Result<(), Fail> {
    let mut mount = new_mount(rt.alloc())?;
    links_are_read(&mut mount, &rt)?;
    Ok(())
}

/// Names of 255 bytes, one in the other: the third has a path of 767 bytes, and the fourth the longest path, of 1,023. A
/// directory that is made once more is shown by the node that it has.
fn paths_grow<R: Abort + AllocGlobal>(mount: &mut Mount, rt: &R) -> Result<(), NoMemory>
    requires { FilesAreShort mount.old.mount }
{
    agree(mount, rt.alloc())?;
    let name = [b'a'; 255];
    for node in 1..5 {
        assert_eq!(rt;
            make_directory(mount, rt.alloc(), node, &name)?,
            directory(node + 1)
        );
    }
    assert_eq!(rt; make_directory(mount, rt.alloc(), 5, b"a")?, failed(36));
    assert_eq!(rt; make_directory(mount, rt.alloc(), 4, &name)?, directory(5));
    Ok(())
}

#[test]
fn directories_are_made_up_to_the_longest_path(rt: HostRuntime) -> Result<(), Fail> {
    let mut mount = new_mount(rt.alloc())?;
    paths_grow(&mut mount, &rt)?;
    Ok(())
}

/// A SETATTR: which of its fields are valid, a length, and a time in seconds and nanoseconds; and what it is answered.
pub(crate) type Setting = (u32, u64, (u64, u32), Outcome);

/// One after the other, of a file of five bytes that was changed at second 7. FATTR_SIZE is 8, FATTR_MTIME 32 and
/// FATTR_MTIME_NOW 256. 16,777,217 bytes are too many (EFBIG), and so are a thousand million nanoseconds (EINVAL).
fn settings() -> [Setting; 9] {
    [
        (8, 3, (0, 0), changed(2, 3, (NOW, 0))),
        (32, 0, (5, 7), changed(2, 3, (5, 7))),
        (32 | 256, 0, (5, 7), changed(2, 3, (NOW, 0))),
        (8 | 32, 65_537, (6, 8), changed(2, 65_537, (6, 8))),
        (0, 1, (1, 1), changed(2, 65_537, (6, 8))),
        (8, 16_777_217, (0, 0), failed(27)),
        (32, 0, (5, 1_000_000_000), failed(22)),
        (8, 0, (0, 0), changed(2, 0, (NOW, 0))),
        (8, 16_777_216, (0, 0), changed(2, 16_777_216, (NOW, 0))),
    ]
}

/// What is answered to a SETATTR of node 2 which asks nothing.
pub(crate) fn set(mount: &mut Mount, alloc: Global, setting: &Setting) -> Result<Outcome, NoMemory>
    requires short { FilesAreShort mount.old.mount }
    ensures short { FilesAreShort mount.new.mount }
{
    let request = Request::Setattr {
        node: 2,
        valid: setting.0,
        size: setting.1,
        mtime: setting.2.0,
        nanos: setting.2.1,
    };
    perform(mount, alloc, &request, Told::new(alloc))
}

fn sizes_and_times_are_set<R: Abort + AllocGlobal>(
    mount: &mut Mount,
    rt: &R,
) -> Result<(), NoMemory>
    requires { FilesAreShort mount.old.mount }
{
    agree(mount, rt.alloc())?;
    assert_eq!(rt; create(mount, rt.alloc())?, file(2));
    for setting in &settings() {
        assert_eq!(rt; set(mount, rt.alloc(), setting)?, setting.3);
    }
    assert_eq!(rt; mount.staging().len(2), Some(16_777_216));
    Ok(())
}

#[test]
fn a_length_and_a_time_are_staged(rt: HostRuntime) -> Result<(), Fail> {
    let mut mount = new_mount(rt.alloc())?;
    sizes_and_times_are_set(&mut mount, &rt)?;
    Ok(())
}

fn pair(alloc: Global, key: &str, value: &str) -> Result<Pair, NoMemory> {
    let key = Text::of(alloc, key)?;
    let value = Text::of(alloc, value)?;
    Ok(Pair { key, value })
}

/// An object that was changed at second 7, with this time set.
fn timed(alloc: Global, time: &str) -> Result<Meta, NoMemory> {
    let mut pairs = Row::new(alloc);
    pairs.reserve(1)?;
    pairs.push(pair(alloc, "gcsfuse_mtime", time)?);
    Ok(Meta {
        name: Text::of(alloc, "foo")?,
        generation: 1,
        metageneration: 1,
        size: 5,
        updated: 7,
        pairs,
    })
}

#[test]
fn a_time_that_was_set_is_shown_where_it_can_be_read(rt: HostRuntime) -> Result<(), Fail> {
    let set = timed(rt.alloc(), "1970-01-01T00:00:05.000000007Z")?;
    assert_eq!(rt; time_of_object(&set), (5, 7));
    let ahead = timed(rt.alloc(), "1970-01-01T01:00:01+01:00")?;
    assert_eq!(rt; time_of_object(&ahead), (1, 0));
    let unreadable = timed(rt.alloc(), "yesterday")?;
    assert_eq!(rt; time_of_object(&unreadable), (7, 0));
    Ok(())
}

/// Why LOOKUP of a name in a node is refused.
fn refused(mount: &Mount, alloc: Global, node: u64, name: &[u8]) -> Result<Option<u32>, NoMemory>
    requires { FilesAreShort mount.now.mount }
{
    let name = Bytes::of(alloc, name)?;
    Ok(mount.early(&Request::Lookup { node, name }))
}

/// Why LOOKUP of a name of 256 bytes is refused.
fn refused_long(mount: &Mount, alloc: Global) -> Result<Option<u32>, NoMemory>
    requires { FilesAreShort mount.now.mount }
{
    let mut name = Vec::new(alloc);
    for _ in 0..256 {
        name.push(b'a')?;
    }
    refused(mount, alloc, 1, name.as_slice())
}

fn requests_are_judged<R: Abort + AllocGlobal>(mount: &mut Mount, rt: &R) -> Result<(), NoMemory>
    requires { FilesAreShort mount.old.mount }
{
    assert_eq!(rt; refused(mount, rt.alloc(), 1, b"foo")?, Some(71));
    agree(mount, rt.alloc())?;
    assert_eq!(rt; refused(mount, rt.alloc(), 1, b"foo\n")?, None);
    assert_eq!(rt; refused(mount, rt.alloc(), 1, b".")?, Some(22));
    assert_eq!(rt; refused(mount, rt.alloc(), 2, b"foo")?, Some(116));
    assert_eq!(rt; refused_long(mount, rt.alloc())?, Some(36));
    assert_eq!(rt; mount.early(&Request::Readlink { node: 1 }), Some(22));
    assert_eq!(rt; mount.early(&Request::Unknown { opcode: 13 }), Some(38));
    assert_eq!(rt; mount.early(&Request::Fsyncdir { node: 1, fh: 1 }), Some(9));
    assert_eq!(rt; mount.early(&Request::Unknown { opcode: 1 }), Some(22));
    Ok(())
}

#[test]
fn requests_are_refused(rt: HostRuntime) -> Result<(), Fail> {
    let mut mount = new_mount(rt.alloc())?;
    requests_are_judged(&mut mount, &rt)?;
    Ok(())
}

/// The bytes of a symlink's target, all alike, how many there are, and why a link to it is refused.
type Target = (u8, usize, Option<u32>);

/// An empty target is refused (EINVAL), and so is one of more than 4,095 bytes (ENAMETOOLONG); not being UTF-8 comes first.
fn targets() -> [Target; 4] {
    [
        (b'a', 0, Some(22)),
        (b'a', 4095, None),
        (b'a', 4096, Some(36)),
        (0xff, 4096, Some(22)),
    ]
}

/// Why SYMLINK of `foo` to a target is refused.
fn link_refused(mount: &Mount, alloc: Global, target: &Target) -> Result<Option<u32>, NoMemory>
    requires { FilesAreShort mount.now.mount }
{
    let name = Bytes::of(alloc, b"foo")?;
    let target = Bytes::from_vec(vec![in alloc; target.0; target.1]?);
    let request = Request::Symlink {
        node: 1,
        name,
        target,
    };
    Ok(mount.early(&request))
}

fn links_are_judged<R: Abort + AllocGlobal>(mount: &mut Mount, rt: &R) -> Result<(), NoMemory>
    requires { FilesAreShort mount.old.mount }
{
    agree(mount, rt.alloc())?;
    for target in &targets() {
        assert_eq!(rt; link_refused(mount, rt.alloc(), target)?, target.2);
    }
    Ok(())
}

#[test]
fn a_link_has_a_target_of_so_many_bytes(rt: HostRuntime) -> Result<(), Fail> {
    let mut mount = new_mount(rt.alloc())?;
    links_are_judged(&mut mount, &rt)?;
    Ok(())
}

fn item(alloc: Global, shown: &str, kind: NodeKind) -> Result<DirItem, NoMemory> {
    let shown = Text::of(alloc, shown)?;
    Ok(DirItem { shown, kind })
}

/// A directory `foo`, the file that it hides, and a link.
fn items(alloc: Global) -> Result<Row<DirItem>, NoMemory> {
    let mut items = Row::new(alloc);
    items.reserve(3)?;
    items.push(item(alloc, "foo", NodeKind::Dir)?);
    items.push(item(alloc, "foo\n", NodeKind::File)?);
    items.push(item(alloc, "foo-x", NodeKind::Symlink)?);
    Ok(items)
}

/// How many entries are read, and the position behind the last one and its type.
fn read(
    alloc: Global,
    items: &[DirItem],
    first: u64,
    size: u32,
) -> Result<(u64, u64, u32), NoMemory> {
    let entries = entries_from(alloc, items, first, size)?;
    Ok(match entries.as_slice().last() {
        Some(last) => (entries.len(), last.off, last.kind),
        None => (0, 0, 0),
    })
}

fn entries_are_whole<R: Abort + AllocGlobal>(items: &[DirItem], rt: &R) -> Result<(), NoMemory> {
    assert_eq!(rt; read(rt.alloc(), items, 0, 4096)?, (3, 3, 10));
    assert_eq!(rt; read(rt.alloc(), items, 0, 95)?, (2, 2, 8));
    assert_eq!(rt; read(rt.alloc(), items, 0, 64)?, (2, 2, 8));
    assert_eq!(rt; read(rt.alloc(), items, 0, 63)?, (1, 1, 4));
    assert_eq!(rt; read(rt.alloc(), items, 0, 31)?, (0, 0, 0));
    assert_eq!(rt; read(rt.alloc(), items, 2, 32)?, (1, 3, 10));
    assert_eq!(rt; read(rt.alloc(), items, 3, 4096)?, (0, 0, 0));
    assert_eq!(rt; read(rt.alloc(), items, u64::MAX, 4096)?, (0, 0, 0));
    Ok(())
}

#[test]
fn whole_entries_are_read_from_any_position(rt: HostRuntime) -> Result<(), Fail> {
    let items = items(rt.alloc())?;
    entries_are_whole(items.as_slice(), &rt)?;
    Ok(())
}
