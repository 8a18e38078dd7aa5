//! Entries of a directory in a reply: their length, written and read.
ghost use Rattle.std.specs.Prelude.{◌≡◌, ◌≢◌, ◌≤◌, ◌<◌, ◌^◌, ◌+◌, ◌++◌, List, ℕ, length, replicate, All, OnOk};
ghost use Rattle.std.specs.Str.{IsUtf8};
ghost use Rattle.fuse_replies.specs.declared.reply.Dirent.{Dirent as DirentValue};
ghost use Rattle.fuse_replies.specs.Layouts as layouts;
ghost use Rattle.fuse_replies.specs.Layouts.{dirent_text, dirents_text, padding_of};
ghost use Rattle.fuse_replies.specs.Reading.{front_text, ReadsOrFaults, IsFront, Reads, SplitsName, Strips};
ghost use Rattle.fuse_replies.specs.Replies.{IsDirent};

use crate::fault::ReplyFault;
use crate::fields::{are_fields, write_u32s, write_u64s};
use crate::reply::Dirent;
use fuse_head::{u32_at, u64_at};
use io_ports::Text;
use std::alloc::{AllocError, Global};
use std::str;

/// The ino of every dirent: the kernel takes it as unknown and asks by name.
const UNKNOWN_INO: u64 = 4_294_967_295;

/// The fields of a `fuse_dirent` before its name.
#[derive(Clone, Copy)]
struct DirentFront {
    off: u64,
    namelen: u32,
    kind: u32,
}

/// The zero bytes that follow a name of this many bytes.
pub(crate) fn padding(len: u32) -> u32
    ensures { result ≡ padding_of len }
{
    (8 - len % 8) % 8
}

/// How many bytes the entry of a name takes in a reply to READDIR: 24 and those of the name, up to a multiple of 8, as
/// `FUSE_DIRENT_SIZE` of Linux `fuse.h` has it. So whoever fills a reply knows which entries still fit.
pub fn dirent_len(name: &str) -> u64
    ensures { result ≡ layouts.dirent_len name.now }
{
    24 + (name.len() as u64).div_ceil(8) * 8
}

/// How many bytes a dirent has in a frame.
#[tactic(auto, using(crate::proofs::TextLemmas::dirent_lengths))]
fn entry_len(dirent: &Dirent) -> u32
    requires { length (dirent_text dirent.now) < 2 ^ 32 }
    ensures { result ≡ length (dirent_text dirent.now) }
{
    dirent_len(dirent.name.as_str()) as u32
}

/// How many bytes the dirents have in a frame, all together.
pub(crate) fn dirents_len(dirents: &[Dirent]) -> u32
    requires { length (dirents_text dirents.now) < 2 ^ 32 }
    ensures { result ≡ length (dirents_text dirents.now) }
{
    let mut len = 0;
    for dirent in dirents {
        len += entry_len(dirent);
    }
    len
}

/// Appends up to eight zero bytes.
fn put_zeros(out: &mut Vec<u8>, count: u32) -> Result<(), AllocError>
    requires { count ≤ 8 }
    ensures ok { OnOk result (out.new.items ≡ out.old.items ++ replicate count 0) }
{
    let zeros = [0; 8];
    out.extend_from_slice(&zeros[..count as usize])
}

/// The first 24 bytes of a `fuse_dirent`.
fn front_bytes(front: &DirentFront) -> [u8; 24]
    ensures { result ≡ front_text front.now }
{
    let mut bytes = [0; 24];
    write_u64s(&mut bytes, 0, &[UNKNOWN_INO, front.off]);
    write_u32s(&mut bytes, 16, &[front.namelen, front.kind]);
    bytes
}

/// Appends one `fuse_dirent`.
#[tactic(auto, using(crate::proofs::TextLemmas::dirent_lengths), unfolding(crate::specs::Layouts::dirent_text))]
pub(crate) fn put_dirent(out: &mut Vec<u8>, dirent: &Dirent) -> Result<(), AllocError>
    requires { length (dirent_text dirent.now) < 2 ^ 32 }
    ensures ok { OnOk result (out.new.items ≡ out.old.items ++ dirent_text dirent.now) }
{
    let name = dirent.name.as_str().as_bytes();
    let len = name.len() as u32;
    let front = DirentFront {
        off: dirent.off,
        namelen: len,
        kind: dirent.kind,
    };
    out.extend_from_slice(&front_bytes(&front))?;
    out.extend_from_slice(name)?;
    put_zeros(out, padding(len))
}

/// Appends the dirents one after the other.
#[tactic(auto, unfolding(crate::specs::Layouts::dirents_text))]
pub(crate) fn put_dirents(out: &mut Vec<u8>, dirents: &[Dirent]) -> Result<(), AllocError>
    requires { length (dirents_text dirents.now) < 2 ^ 32 }
    ensures ok { OnOk result (out.new.items ≡ out.old.items ++ dirents_text dirents.now) }
{
    for dirent in dirents {
        put_dirent(out, dirent)?;
    }
    Ok(())
}

/// The fields of a `fuse_dirent` whose first 24 bytes these are.
fn front_of(bytes: &[u8]) -> Option<DirentFront>
    ensures { Reads front_text IsFront bytes.now result }
{
    if bytes.len() != 24 {
        return None;
    }
    let off = u64_at(bytes, 8);
    let namelen = u32_at(bytes, 16);
    let kind = u32_at(bytes, 20);
    if !are_fields(bytes, &[UNKNOWN_INO, off], &[namelen, kind]) {
        return None;
    }
    Some(DirentFront { off, namelen, kind })
}

/// A name of this length at the front of the bytes, and what follows its zeros.
fn split_name(bytes: &[u8], len: u32) -> Option<(&[u8], &[u8])>
    ensures { SplitsName bytes.now len result }
{
    if bytes.len() < len as usize {
        return None;
    }
    let (name, rest) = bytes.split_at(len as usize);
    let rest = strip_zeros(rest, padding(len))?;
    Some((name, rest))
}

/// What follows up to eight zero bytes, where the bytes begin with them.
fn strip_zeros(bytes: &[u8], count: u32) -> Option<&[u8]>
    requires { count ≤ 8 }
    ensures { Strips bytes.now (replicate count 0) result }
{
    let zeros = [0; 8];
    bytes.strip_prefix(&zeros[..count as usize])
}

/// The text of these bytes, where they are UTF-8.
fn text_of(alloc: Global, bytes: &[u8]) -> Result<Text, ReplyFault>
    ensures { ReadsOrFaults result (λ text. (text ≡ bytes.now) × IsUtf8 bytes.now) (¬ (IsUtf8 bytes.now)) }
{
    match str::from_utf8(bytes) {
        Ok(text) => Ok(Text::of(alloc, text)?),
        Err(_) => Err(ReplyFault::Malformed),
    }
}

/// The dirent at the front of the bytes, and what follows it.
fn next_dirent(alloc: Global, bytes: &[u8]) -> Result<(Dirent, &[u8]), ReplyFault>
    ensures { ReadsOrFaults result (λ found. (bytes.now ≡ dirent_text found.0 ++ found.1.now) × IsDirent found.0) ((dirent : DirentValue) (rest : List ℕ) → IsDirent dirent → bytes.now ≢ dirent_text dirent ++ rest) }
{
    if bytes.len() < 24 {
        return Err(ReplyFault::Malformed);
    }
    let (front, rest) = bytes.split_at(24);
    let Some(front) = front_of(front) else {
        return Err(ReplyFault::Malformed);
    };
    let Some((name, rest)) = split_name(rest, front.namelen) else {
        return Err(ReplyFault::Malformed);
    };
    let name = text_of(alloc, name)?;
    let DirentFront { off, kind, .. } = front;
    Ok((Dirent { off, kind, name }, rest))
}

/// The dirents whose text the bytes are.
pub(crate) fn dirents_of(alloc: Global, body: &[u8]) -> Result<Vec<Dirent>, ReplyFault>
    ensures { ReadsOrFaults result (λ dirents. (body.now ≡ dirents_text dirents.items) × All IsDirent dirents.items) ((dirents : List DirentValue) → All IsDirent dirents → body.now ≢ dirents_text dirents) }
{
    let mut dirents = Vec::new(alloc);
    let mut rest = body;
    while !rest.is_empty() {
        let (dirent, after) = next_dirent(alloc, rest)?;
        dirents.push(dirent)?;
        rest = after;
    }
    Ok(dirents)
}
