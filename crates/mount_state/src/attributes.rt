//! The attributes that a node is shown with.
ghost use Rattle.std.specs.Prelude.{◌≡◌, [], Option, option_and_then, option_map, unwrap_or};
ghost use Rattle.std.specs.List.{find};
ghost use Rattle.std.specs.Option.{option_copied, option_map_or};
ghost use Rattle.bucket_api.specs.declared.objects.Pair.{Pair};
ghost use Rattle.mount_rules.specs.Attributes as spec;
ghost use Rattle.mount_state.specs.StagedAttrs.{attr_of};
ghost use Rattle.mtime_text.specs.Reading.{mtime_of};
ghost use Rattle.staging_spec.specs.StagedFiles.{StagedContent};

use crate::file::File;
use bucket_api::{Meta, Pair};
use dir_listing::target_pair;
use file_metadata::MTIME_KEY;
use fuse_replies::{AttrOut, EntryOut};
use inode_table::Inode;
use mount_model::Config;
use object_names::NodeKind;

/// What is shown of a file's staged content.
#[derive(Clone, Copy, Debug, PartialEq, Eq)]
pub(crate) struct StagedAttr {
    /// Its length in bytes.
    pub(crate) size: u64,
    /// The second, in Unix time, of its last change.
    pub(crate) mtime: u64,
    /// The nanoseconds behind that second.
    pub(crate) nanos: u32,
}

/// What a look-up tells of a node: its number and its attributes, with what is staged of it.
pub(crate) fn entry_of(
    config: &Config,
    number: u64,
    inode: &Inode<File>,
    staged: Option<StagedAttr>,
) -> EntryOut
    ensures { (found : Option StagedContent) → staged ≡ option_map attr_of found → result ≡ spec.entry_of config.now number inode.now found }
{
    EntryOut {
        node: number,
        attr: attributes(config, number, inode, staged),
    }
}

/// The attributes of a node, with what is staged of it, and with one name.
pub(crate) fn attributes(
    config: &Config,
    number: u64,
    inode: &Inode<File>,
    staged: Option<StagedAttr>,
) -> AttrOut
    ensures { (found : Option StagedContent) → staged ≡ option_map attr_of found → result ≡ spec.attributes config.now number inode.now found }
{
    let (mtime, nanos) = time_of(config, inode, staged);
    AttrOut {
        ino: number,
        size: size_of(inode, staged),
        mtime,
        nanos,
        mode: mode_of(inode.kind),
        nlink: 1,
    }
}

/// The kind and the permissions, as in `stat`.
fn mode_of(kind: NodeKind) -> u32
    ensures { result ≡ spec.mode_of kind }
{
    match kind {
        NodeKind::Dir => 0o40755,
        NodeKind::File => 0o100644,
        NodeKind::Symlink => 0o120777,
    }
}

/// Bytes of the content, which is the staged one where there is one; of a symlink those of its target.
#[tactic(auto, using(crate::proofs::TargetLaws::length_or_none))]
fn size_of(inode: &Inode<File>, staged: Option<StagedAttr>) -> u64
    ensures { (found : Option StagedContent) → staged ≡ option_map attr_of found → result ≡ option_map_or (spec.size_of inode.now.kind found) inode.now.file 0 }
{
    let Some(file) = &inode.file else {
        return 0;
    };
    match inode.kind {
        NodeKind::Dir => 0,
        NodeKind::File => length_of(file, staged),
        NodeKind::Symlink => target_of(&file.kept.meta).len() as u64,
    }
}

/// Bytes of the content of a file.
fn length_of(file: &File, staged: Option<StagedAttr>) -> u64
    ensures { (found : Option StagedContent) → staged ≡ option_map attr_of found → result ≡ option_map_or (λ s. s.overlay.size) found file.now.size }
{
    match staged {
        Some(attr) => attr.size,
        None => file.size,
    }
}

/// The target of a symlink; empty, where the object is none.
pub(crate) fn target_of(meta: &Meta) -> &str
    ensures { result.now ≡ unwrap_or (spec.target_of meta.now) [] }
{
    match target_pair(meta) {
        Some(pair) => pair.value.as_str(),
        None => "",
    }
}

/// The time of a node, in seconds and nanoseconds of Unix time: of a directory the second at which the mount started.
fn time_of(config: &Config, inode: &Inode<File>, staged: Option<StagedAttr>) -> (u64, u32)
    ensures { (found : Option StagedContent) → staged ≡ option_map attr_of found → result ≡ spec.time_of config.now found inode.now.file }
{
    let Some(file) = &inode.file else {
        return (config.start, 0);
    };
    match staged {
        Some(attr) => (attr.mtime, attr.nanos),
        None => time_of_object(&file.kept.meta),
    }
}

/// The time of an object: the one that was set, where it can be read, else the second of its last change.
pub(crate) fn time_of_object(meta: &Meta) -> (u64, u32)
    ensures { result ≡ spec.time_of_object meta.now }
{
    match time_set(meta) {
        Some(time) => time,
        None => (meta.updated, 0),
    }
}

/// The time that was set on an object, where it can be read.
fn time_set(meta: &Meta) -> Option<(u64, u32)>
    ensures { result ≡ option_and_then (λ (p : Pair). mtime_of p.value) (find spec.is_mtime meta.now.pairs) }
{
    let Some(pair) = mtime_pair(meta.pairs.as_slice()) else {
        return None;
    };
    mtime_text::read(pair.value.as_str())
}

/// The first of these pairs that holds a time.
fn mtime_pair(pairs: &[Pair]) -> Option<&Pair>
    ensures { option_copied result ≡ find spec.is_mtime pairs.now }
{
    pairs.iter().find(|pair| pair.key.as_str() == MTIME_KEY)
}
