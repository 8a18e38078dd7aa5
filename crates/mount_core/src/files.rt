//! The errands of requests on files.
ghost use Rattle.std.specs.Prelude.{◌≡◌, ◌≤◌, ◌+◌, ℕ, List, [], None, IfOk, IsSome, length};
ghost use Rattle.std.specs.FinMap as fin;
ghost use Rattle.bucket_api.specs.Operation.{max_content};
ghost use Rattle.file_metadata.specs.FileMetadata.{last_second};
ghost use Rattle.inode_spec.specs.Inodes.{file_of};
ghost use Rattle.mount_core.specs.Errands.{keys_of, plan_of, plan_over, wanted_of, AsksAs, IsErrand};
ghost use Rattle.mount_core.specs.Metadatas.{GivesMetadata};
ghost use Rattle.mount_rules.specs.Files.{FilesAreShort};
ghost use Rattle.mount_rules.specs.Requests.Flush as flushing;
ghost use Rattle.mount_rules.specs.Requests.Read as reading;
ghost use Rattle.mount_rules.specs.Requests.Setattr as setting;
ghost use Rattle.mount_rules.specs.Requests.Write as writing;
ghost use Rattle.mount_rules.specs.Rules.{at_file, AtTake};
ghost use Rattle.mount_rules.specs.Standing as standing;
ghost use Rattle.mount_rules.specs.View.{sight_at, view_of, Sight, View};
ghost use Rattle.plan_files.specs.Settings.{asked_of};
ghost use Rattle.staged_file.specs.Sources.{range_of};

use crate::errand::Errand;
use bucket_api::Pair;
use io_ports::{NoMemory, Row};
use mount_state::{File, Mount};
use object_names::NodeKind;
use plan_files::{Asked, Change, FileErrand, with_time};
use staged_file::Wanted;
use std::alloc::Global;

/// GETATTR and OPEN: asks for the object of a file or symlink. A directory has none of its own, and a file with staged
/// content shows that.
pub(crate) fn ask(alloc: Global, mount: &Mount, node: u64) -> Result<Errand, NoMemory>
    ensures plan { IfOk result (λ errand. (content : List ℕ) (second : ℕ) → AsksAs (plan_of errand content second) (standing.plan (standing.asked_name (view_of mount.now.mount (at_file node))))) }
    ensures wanted { IfOk result (λ errand. wanted_of errand ≡ None) }
    ensures keys { IfOk result (λ errand. keys_of errand ≡ standing.keys (view_of mount.now.mount (at_file node))) }
    ensures errand { IfOk result IsErrand }
{
    if mount.staging().len(node).is_some() {
        return Ok(Errand::Nothing);
    }
    let Some(inode) = mount.nodes().get(node) else {
        return Ok(Errand::Nothing);
    };
    if let NodeKind::Dir = inode.kind {
        return Ok(Errand::Nothing);
    }
    Ok(Errand::Files(FileErrand::Attr {
        name: inode.name.copy(alloc)?,
    }))
}

/// READ: reads the bytes asked of an open file that are still its source's.
pub(crate) fn read(
    alloc: Global,
    mount: &Mount,
    node: u64,
    first: u64,
    size: u32,
) -> Result<Errand, NoMemory>
    requires short { FilesAreShort mount.now.mount }
    requires there { IsSome (file_of mount.now.mount.table node) }
    ensures plan { IfOk result (λ errand. (content : List ℕ) (second : ℕ) → (view : View) → AsksAs (plan_of errand content second) (reading.plan view)) }
    ensures keys { IfOk result (λ errand. keys_of errand ≡ []) }
    ensures wanted { IfOk result (λ errand. wanted_of errand ≡ reading.wanted first size (fin.get mount.now.mount.staged node) (sight_at mount.now.mount.table node)) }
    ensures errand { IfOk result IsErrand }
{
    let Some(inode) = mount.nodes().get(node) else {
        unreachable!();
    };
    let Some(file) = &inode.file else {
        unreachable!();
    };
    let wanted = wanted_by_read(mount, node, file.size, first, size);
    Ok(Errand::Files(FileErrand::Source {
        name: inode.name.copy(alloc)?,
        generation: file.source,
        wanted,
    }))
}

/// The bytes of its source that a READ of a file wants, whose source has so many bytes.
fn wanted_by_read(mount: &Mount, node: u64, len: u64, first: u64, size: u32) -> Wanted
    requires { len ≤ max_content }
    ensures { (file : Sight) → file.size ≡ len → range_of result ≡ reading.wanted_range (fin.get mount.now.mount.staged node) first size file }
{
    let Some(staged) = mount.staging().len(node) else {
        return Wanted {
            first,
            count: len.saturating_sub(first).min(size as u64),
        };
    };
    let count = staged.saturating_sub(first).min(size as u64);
    if count == 0 {
        return Wanted { first: 0, count: 0 };
    }
    mount.staging().wanted_by_read(node, len, first, count)
}

/// WRITE: reads what it leaves of the blocks of an open file that it touches for the first time, as far as that is still
/// the source's.
pub(crate) fn write(
    alloc: Global,
    mount: &Mount,
    node: u64,
    first: u64,
    bytes: &[u8],
) -> Result<Errand, NoMemory>
    requires short { FilesAreShort mount.now.mount }
    requires there { IsSome (file_of mount.now.mount.table node) }
    requires range { first + length bytes.now ≤ max_content }
    ensures plan { IfOk result (λ errand. (content : List ℕ) (second : ℕ) → (view : View) → AsksAs (plan_of errand content second) (writing.plan view)) }
    ensures keys { IfOk result (λ errand. keys_of errand ≡ []) }
    ensures wanted { IfOk result (λ errand. wanted_of errand ≡ writing.wanted first bytes.now (fin.get mount.now.mount.staged node) (sight_at mount.now.mount.table node)) }
    ensures errand { IfOk result IsErrand }
{
    let Some(inode) = mount.nodes().get(node) else {
        unreachable!();
    };
    let Some(file) = &inode.file else {
        unreachable!();
    };
    let count = bytes.len() as u64;
    let wanted = mount
        .staging()
        .wanted_by_write(node, file.size, first, count);
    Ok(Errand::Files(FileErrand::Source {
        name: inode.name.copy(alloc)?,
        generation: file.source,
        wanted,
    }))
}

/// FLUSH and FSYNC: what is staged of an open file becomes a new generation of its object, with the pairs that are kept of
/// it and the staged time. Nothing is asked where nothing is staged.
pub(crate) fn flush(alloc: Global, mount: &Mount, node: u64) -> Result<Errand, NoMemory>
    requires short { FilesAreShort mount.now.mount }
    requires there { IsSome (file_of mount.now.mount.table node) }
    requires metadata { GivesMetadata mount.now.mount }
    ensures plan { IfOk result (λ errand. (at : AtTake) (fh : ℕ) → AsksAs (plan_over errand at.contents at.second) (flushing.plan (record { at = at; view = view_of mount.now.mount (flushing.looks node fh) }))) }
    ensures keys { IfOk result (λ errand. keys_of errand ≡ []) }
    ensures wanted { IfOk result (λ errand. (fh : ℕ) → wanted_of errand ≡ flushing.wanted (view_of mount.now.mount (flushing.looks node fh))) }
    ensures errand { IfOk result IsErrand }
{
    let staging = mount.staging();
    let Some((seconds, nanos)) = staging.mtime(node) else {
        return Ok(Errand::Nothing);
    };
    let Some(inode) = mount.nodes().get(node) else {
        unreachable!();
    };
    let Some(file) = &inode.file else {
        unreachable!();
    };
    let (generation, size) = (file.source, file.size);
    let name = inode.name.copy(alloc)?;
    let pairs = with_time(alloc, kept_pairs(file), seconds, nanos)?;
    let frozen = staging.freeze(alloc, node, size)?;
    Ok(Errand::Flush {
        errand: FileErrand::Flush {
            name,
            generation,
            wanted: staging.wanted_by_flush(node, size),
            pairs,
        },
        frozen,
    })
}

/// The pairs that are kept of a file's object.
fn kept_pairs(file: &File) -> &Row<Pair>
    ensures { result.now.items ≡ file.now.kept.meta.pairs }
{
    &file.kept.meta.pairs
}

/// SETATTR: sets the time of a file on its object, or goes as a GETATTR. A length, and the time of staged content, are set
/// in the mount alone.
pub(crate) fn set(
    alloc: Global,
    mount: &Mount,
    second: u64,
    node: u64,
    asked: &Asked,
) -> Result<Errand, NoMemory>
    requires second { second ≤ last_second }
    requires free { setting.refusal (asked_of asked.now) (view_of mount.now.mount (at_file node)) ≡ None }
    ensures plan { IfOk result (λ errand. (content : List ℕ) → AsksAs (plan_of errand content second) (setting.plan_by (asked_of asked.now) second (view_of mount.now.mount (at_file node)) (setting.change_in (asked_of asked.now) (view_of mount.now.mount (at_file node))))) }
    ensures wanted { IfOk result (λ errand. wanted_of errand ≡ None) }
    ensures keys { IfOk result (λ errand. keys_of errand ≡ setting.keys_by (view_of mount.now.mount (at_file node)) (setting.change_in (asked_of asked.now) (view_of mount.now.mount (at_file node)))) }
    ensures errand { IfOk result IsErrand }
{
    match mount.change(node, asked) {
        Change::Look => ask(alloc, mount, node),
        Change::SetTime => touch(alloc, mount, second, node, asked),
        Change::Resize | Change::StageTime => Ok(Errand::Nothing),
    }
}

/// The time of a file is set on its object.
fn touch(
    alloc: Global,
    mount: &Mount,
    second: u64,
    node: u64,
    asked: &Asked,
) -> Result<Errand, NoMemory>
    requires second { second ≤ last_second }
    requires free { setting.refusal (asked_of asked.now) (view_of mount.now.mount (at_file node)) ≡ None }
    requires change { setting.change_in (asked_of asked.now) (view_of mount.now.mount (at_file node)) ≡ setting.set_time }
    ensures plan { IfOk result (λ errand. (content : List ℕ) → AsksAs (plan_of errand content second) (setting.plan_by (asked_of asked.now) second (view_of mount.now.mount (at_file node)) setting.set_time)) }
    ensures wanted { IfOk result (λ errand. wanted_of errand ≡ None) }
    ensures keys { IfOk result (λ errand. keys_of errand ≡ []) }
    ensures errand { IfOk result IsErrand }
{
    let Some(inode) = mount.nodes().get(node) else {
        return Ok(Errand::Nothing);
    };
    let Some(file) = &inode.file else {
        unreachable!();
    };
    let (seconds, nanos) = asked.time_set(second);
    Ok(Errand::Files(FileErrand::Touch {
        name: inode.name.copy(alloc)?,
        generation: file.source,
        seconds,
        nanos,
    }))
}
