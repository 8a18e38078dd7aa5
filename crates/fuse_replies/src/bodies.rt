//! Bodies of replies that have one length: written, and read where the bytes are one.
ghost use Rattle.std.specs.Prelude.{◌≡◌, ◌≤◌, ◌<◌, ◌^◌, ◌+◌, ◌++◌, ◌∷◌, ◌↔◌, [], length, take, IsTrue};
ghost use Rattle.std.specs.Int.{div_ceil};
ghost use Rattle.fuse_replies.specs.Layouts.{attr_out_text, attr_text, entry_text, open_text, statfs_text, written_text};
ghost use Rattle.fuse_replies.specs.Reading.{attr_at, created_text, node_text, IsCreated, Reads};
ghost use Rattle.fuse_replies.specs.Replies.{IsAttr, IsEntry};

use crate::fields::{are_fields, write_u32s, write_u64s};
use crate::reply::{AttrOut, EntryOut};
use fuse_head::{u32_at, u64_at};

// The fields of eight bytes of a `fuse_attr`.
fn attr_wide(attr: &AttrOut) -> [u64; 6]
    ensures { result ≡ attr.now.ino ∷ attr.now.size ∷ div_ceil attr.now.size 512 ∷ attr.now.mtime ∷ attr.now.mtime ∷ attr.now.mtime ∷ [] }
{
    let blocks = attr.size.div_ceil(512);
    [
        attr.ino, attr.size, blocks, attr.mtime, attr.mtime, attr.mtime,
    ]
}

// The fields of four bytes of a `fuse_attr`.
fn attr_narrow(attr: &AttrOut) -> [u32; 10]
    ensures { result ≡ attr.now.nanos ∷ attr.now.nanos ∷ attr.now.nanos ∷ attr.now.mode ∷ attr.now.nlink ∷ 0 ∷ 0 ∷ 0 ∷ 4096 ∷ 0 ∷ [] }
{
    let nanos = attr.nanos;
    [nanos, nanos, nanos, attr.mode, attr.nlink, 0, 0, 0, 4096, 0]
}

/// Writes a `fuse_attr` into the 88 bytes from `place` on; what stands before them stays.
#[tactic(auto, unfolding(crate::specs::Layouts::attr_text))]
fn write_attr(out: &mut [u8], place: usize, attr: &AttrOut)
    requires { place + 88 ≤ length out.old }
    ensures { take (place + 88) out.new ≡ take place out.old ++ attr_text attr.now }
{
    write_u64s(out, place, &attr_wide(attr));
    write_u32s(out, place + 48, &attr_narrow(attr));
}

// The fields of a `fuse_attr` that aren't told by others.
fn attr_fields(body: &[u8]) -> AttrOut
    requires { 88 ≤ length body.now }
    ensures fields { result ≡ attr_at body.now }
    ensures in_range { IsAttr result }
{
    AttrOut {
        ino: u64_at(body, 0),
        size: u64_at(body, 8),
        mtime: u64_at(body, 32),
        nanos: u32_at(body, 52),
        mode: u32_at(body, 60),
        nlink: u32_at(body, 64),
    }
}

// Whether the bytes are the `fuse_attr` of these attributes.
#[tactic(auto, unfolding(crate::specs::Layouts::attr_text))]
fn is_attr(body: &[u8], attr: &AttrOut) -> bool
    ensures { IsTrue result ↔ (body.now ≡ attr_text attr.now) }
{
    are_fields(body, &attr_wide(attr), &attr_narrow(attr))
}

/// The attributes whose `fuse_attr` the bytes are.
pub(crate) fn attr_of(body: &[u8]) -> Option<AttrOut>
    ensures { Reads attr_text IsAttr body.now result }
{
    if body.len() != 88 {
        return None;
    }
    let attr = attr_fields(body);
    if !is_attr(body, &attr) {
        return None;
    }
    Some(attr)
}

/// The bytes of a `fuse_entry_out`.
pub(crate) fn entry_bytes(entry: &EntryOut) -> [u8; 128]
    ensures { result ≡ entry_text entry.now }
{
    let mut bytes = [0; 128];
    write_u64s(&mut bytes, 0, &[entry.node, 0, 0, 0]);
    write_u32s(&mut bytes, 32, &[0, 0]);
    write_attr(&mut bytes, 40, &entry.attr);
    bytes
}

// The node with which a `fuse_entry_out` begins, where the bytes are its first 40.
fn node_of(front: &[u8]) -> Option<u64>
    ensures { Reads node_text (λ node. node < 2 ^ 64) front.now result }
{
    if front.len() != 40 {
        return None;
    }
    let node = u64_at(front, 0);
    if !are_fields(front, &[node, 0, 0, 0], &[0, 0]) {
        return None;
    }
    Some(node)
}

/// The entry whose `fuse_entry_out` the bytes are.
pub(crate) fn entry_of(body: &[u8]) -> Option<EntryOut>
    ensures { Reads entry_text IsEntry body.now result }
{
    if body.len() != 128 {
        return None;
    }
    let (front, back) = body.split_at(40);
    let node = node_of(front)?;
    let attr = attr_of(back)?;
    Some(EntryOut { node, attr })
}

/// The bytes of a `fuse_attr_out`.
pub(crate) fn attr_out_bytes(attr: &AttrOut) -> [u8; 104]
    ensures { result ≡ attr_out_text attr.now }
{
    let mut bytes = [0; 104];
    write_u64s(&mut bytes, 0, &[0]);
    write_u32s(&mut bytes, 8, &[0, 0]);
    write_attr(&mut bytes, 16, attr);
    bytes
}

/// The attributes whose `fuse_attr_out` the bytes are.
pub(crate) fn attr_out_of(body: &[u8]) -> Option<AttrOut>
    ensures { Reads attr_out_text IsAttr body.now result }
{
    if body.len() != 104 {
        return None;
    }
    let (front, back) = body.split_at(16);
    if !are_fields(front, &[0], &[0, 0]) {
        return None;
    }
    attr_of(back)
}

/// The bytes of a `fuse_open_out`.
pub(crate) fn open_bytes(fh: u64) -> [u8; 16]
    ensures { result ≡ open_text fh }
{
    let mut bytes = [0; 16];
    write_u64s(&mut bytes, 0, &[fh]);
    write_u32s(&mut bytes, 8, &[0, 0]);
    bytes
}

/// The handle whose `fuse_open_out` the bytes are.
pub(crate) fn open_of(body: &[u8]) -> Option<u64>
    ensures { Reads open_text (λ fh. fh < 2 ^ 64) body.now result }
{
    if body.len() != 16 {
        return None;
    }
    let fh = u64_at(body, 0);
    if !are_fields(body, &[fh], &[0, 0]) {
        return None;
    }
    Some(fh)
}

/// The entry and the handle whose `fuse_entry_out` and `fuse_open_out` the bytes are.
pub(crate) fn created_of(body: &[u8]) -> Option<(EntryOut, u64)>
    ensures { Reads created_text IsCreated body.now result }
{
    if body.len() != 144 {
        return None;
    }
    let (front, back) = body.split_at(128);
    let entry = entry_of(front)?;
    let fh = open_of(back)?;
    Some((entry, fh))
}

/// The bytes of a `fuse_write_out`.
pub(crate) fn written_bytes(size: u32) -> [u8; 8]
    ensures { result ≡ written_text size }
{
    let mut bytes = [0; 8];
    write_u32s(&mut bytes, 0, &[size, 0]);
    bytes
}

/// The size whose `fuse_write_out` the bytes are.
pub(crate) fn written_of(body: &[u8]) -> Option<u32>
    ensures { Reads written_text (λ size. size < 2 ^ 32) body.now result }
{
    if body.len() != 8 {
        return None;
    }
    let size = u32_at(body, 0);
    if !are_fields(body, &[], &[size, 0]) {
        return None;
    }
    Some(size)
}

// The fields of eight bytes of a `fuse_kstatfs`: blocks, bfree, bavail, files and ffree.
const STATFS_COUNTS: [u64; 5] = [1 << 30, 1 << 30, 1 << 30, 1 << 30, 1 << 30];

// The fields of four bytes of a `fuse_kstatfs`: bsize, namelen and frsize, and those that are 0.
const STATFS_SIZES: [u32; 10] = [65_536, 255, 65_536, 0, 0, 0, 0, 0, 0, 0];

/// The bytes of a `fuse_kstatfs`.
pub(crate) fn statfs_bytes() -> [u8; 80]
    ensures { result ≡ statfs_text }
{
    let mut bytes = [0; 80];
    write_u64s(&mut bytes, 0, &STATFS_COUNTS);
    write_u32s(&mut bytes, 40, &STATFS_SIZES);
    bytes
}

/// Whether the bytes are the `fuse_kstatfs`.
#[tactic(auto, unfolding(crate::specs::Layouts::statfs_text))]
pub(crate) fn is_statfs(body: &[u8]) -> bool
    ensures { IsTrue result ↔ (body.now ≡ statfs_text) }
{
    are_fields(body, &STATFS_COUNTS, &STATFS_SIZES)
}
