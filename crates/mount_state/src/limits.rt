//! What a request asks for that no request may have.
ghost use Rattle.std.specs.Prelude.{◌≡◌, ◌&&◌, None, length, not};
ghost use Rattle.mount_rules.specs.Guards as guards;
ghost use Rattle.mount_rules.specs.Requests.Mknod as mknod;
ghost use Rattle.mount_rules.specs.Requests.Readlink as readlink;
ghost use Rattle.mount_rules.specs.Requests.Setattr as setattr;
ghost use Rattle.mount_rules.specs.Requests.Symlink as symlink;
ghost use Rattle.mount_rules.specs.Requests.Write as writing;
ghost use Rattle.plan_files.specs.Settings.{asked_of};
ghost use Rattle.std.specs.Str.{is_utf8};

use file_metadata::LAST_SECOND;
use fuse_replies::errno::{EFBIG, EINVAL, EISDIR, ENAMETOOLONG};
use object_names::NodeKind;
use plan_files::Asked;
use std::str;

/// The most bytes that a READ or READDIR may ask for.
const LONGEST_READ: u32 = 1_048_576;

/// The most bytes that a WRITE may have: `max_write` of fuse.h, as the reply to INIT sets it.
const LONGEST_WRITE: usize = 131_072;

/// The most bytes of a content.
const LONGEST_CONTENT: u64 = 16_777_216;

/// The most bytes of a symlink's target: `PATH_MAX` of limits.h, without the zero byte.
const LONGEST_TARGET: usize = 4095;

/// The bits of a mode that hold its type: `S_IFMT` of stat.h.
const S_IFMT: u32 = 0o170000;

/// The type of a regular file: `S_IFREG` of stat.h.
const S_IFREG: u32 = 0o100000;

/// The last nanosecond of a second.
const LAST_NANO: u32 = 999_999_999;

/// The error of a READ or READDIR that asks for too many bytes.
pub(crate) fn size_refusal(size: u32) -> Option<u32>
    ensures { result ≡ guards.size_refusal size }
{
    if size <= LONGEST_READ {
        return None;
    }
    Some(EINVAL)
}

/// The error of a WRITE of too many bytes, or of one that ends behind the end of the longest content.
pub(crate) fn write_refusal(first: u64, content: &[u8]) -> Option<u32>
    ensures { result ≡ writing.limits_refusal first (length content.now) }
{
    if content.len() > LONGEST_WRITE {
        return Some(EINVAL);
    }
    if first > LONGEST_CONTENT - content.len() as u64 {
        return Some(EFBIG);
    }
    None
}

/// The error of a kind of node that isn't read and written as a file.
pub(crate) fn not_a_file(kind: NodeKind) -> Option<u32>
    ensures { result ≡ guards.on_file kind None }
{
    match kind {
        NodeKind::Dir => Some(EISDIR),
        NodeKind::Symlink => Some(EINVAL),
        NodeKind::File => None,
    }
}

/// The error of a SETATTR of a node of this kind: that it has no size to set, then that the time is none that a file can
/// have, and then that the size is too large.
pub(crate) fn setattr_refusal(asked: &Asked, kind: NodeKind) -> Option<u32>
    ensures { result ≡ setattr.kind_refusal (asked_of asked.now) kind }
{
    if !asked.sets_size() {
        return set_refusal(asked, kind);
    }
    match not_a_file(kind) {
        Some(errno) => Some(errno),
        None => set_refusal(asked, kind),
    }
}

/// The error of what a SETATTR of a node of this kind sets.
fn set_refusal(asked: &Asked, kind: NodeKind) -> Option<u32>
    ensures { result ≡ setattr.limits_refusal (asked_of asked.now) kind }
{
    match time_refusal(asked, kind) {
        Some(errno) => Some(errno),
        None => length_refusal(asked),
    }
}

/// The error of a SETATTR that sets a size which is too large.
fn length_refusal(asked: &Asked) -> Option<u32>
    ensures { result ≡ setattr.size_refusal (asked_of asked.now) }
{
    if asked.sets_size() && asked.size > LONGEST_CONTENT {
        return Some(EFBIG);
    }
    None
}

/// The error of a SETATTR that sets a time that no file can have.
fn time_refusal(asked: &Asked, kind: NodeKind) -> Option<u32>
    ensures { result ≡ setattr.time_refusal (asked_of asked.now) kind }
{
    match kind {
        NodeKind::File if is_out_of_range(asked) => Some(EINVAL),
        _ => None,
    }
}

/// Whether a time is set that no file can have.
fn is_out_of_range(asked: &Asked) -> bool
    ensures { result ≡ (setattr.sets_time (asked_of asked.now) && not (setattr.sets_now (asked_of asked.now)) && setattr.is_out_of_range (asked_of asked.now)) }
{
    asked.sets_time()
        && !asked.sets_now()
        && (asked.seconds > LAST_SECOND || asked.nanos > LAST_NANO)
}

/// Whether the type in a mode is that of a regular file, or none.
#[tactic(auto, using(crate::proofs::ModeLaws::regular_type))]
pub(crate) fn is_regular(mode: u32) -> bool
    ensures { result ≡ mknod.is_regular mode }
{
    let kind = mode & S_IFMT;
    kind == 0 || kind == S_IFREG
}

/// The error of a symlink's target that is empty or not UTF-8, or is too long.
pub(crate) fn target_refusal(target: &[u8]) -> Option<u32>
    ensures { result ≡ symlink.target_refusal target.now }
{
    if target.is_empty() || !is_utf8(target) {
        return Some(EINVAL);
    }
    if target.len() > LONGEST_TARGET {
        return Some(ENAMETOOLONG);
    }
    None
}

/// Whether bytes are UTF-8.
fn is_utf8(bytes: &[u8]) -> bool
    ensures { result ≡ is_utf8 bytes.now }
{
    str::from_utf8(bytes).is_ok()
}

/// The error of a kind of node that has no target.
pub(crate) fn not_a_symlink(kind: NodeKind) -> Option<u32>
    ensures { result ≡ readlink.kind_refusal kind }
{
    match kind {
        NodeKind::Symlink => None,
        _ => Some(EINVAL),
    }
}
