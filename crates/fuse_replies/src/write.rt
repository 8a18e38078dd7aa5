//! Frames of replies, written.
ghost use Rattle.std.specs.Prelude.{◌≡◌, ◌+◌, ◌++◌, length, IfOk, IsOk, OnOk};
ghost use Rattle.fuse_head.specs.Head.{out_head};
ghost use Rattle.fuse_replies.specs.Replies.{body_of, errno_of, frame_of, without_spare, IsSendable};

use crate::bodies::{attr_out_bytes, entry_bytes, open_bytes, statfs_bytes, written_bytes};
use crate::dirents::{dirents_len, put_dirents};
use crate::init::{init_bytes, waits_bytes};
use crate::reply::Reply;
use fuse_head::write_out_head;
use io_ports::{Bytes, NoMemory};
use std::alloc::{AllocError, Global};

/// The bytes of a reply's head.
const HEAD_LEN: u32 = 16;

/// The frame of a reply to the request with this unique, and no bytes for [`Reply::Silent`]. The layouts are those
/// of Linux `fuse.h`, protocol 7.31.
///
/// An errno has to be 1 to 511, an `InitDone` that waits has to have the numbers 0, and the frame of a `Content`, a
/// `Target` or `Dirents` has to be at most 4,294,967,295 bytes long. `NoMemory` where memory for the frame, which
/// is asked for at once, was refused; never for `Silent`.
#[tactic(auto, using(crate::proofs::ReplyLemmas::silent_frames))]
pub fn write_reply(alloc: Global, unique: u64, reply: &Reply) -> Result<Bytes, NoMemory>
    requires { IsSendable (without_spare reply.now) }
    ensures ok { IfOk result (λ bytes. bytes ≡ frame_of unique (without_spare reply.now)) }
    ensures silent { reply.now ≡ Reply.Silent → IsOk result }
{
    if let Reply::Silent = reply {
        return Ok(Bytes::from_vec(Vec::new(alloc)));
    }
    let len = HEAD_LEN + body_len(reply);
    let mut out = Vec::with_capacity(alloc, len as usize)?;
    put_head(&mut out, len, errno(reply), unique)?;
    put_body(&mut out, reply)?;
    Ok(Bytes::from_vec(out))
}

/// Appends the head of a frame.
fn put_head(out: &mut Vec<u8>, len: u32, errno: u32, unique: u64) -> Result<(), AllocError>
    ensures ok { OnOk result (out.new.items ≡ out.old.items ++ out_head len errno unique) }
{
    let mut head = [0; HEAD_LEN as usize];
    write_out_head(len, errno, unique, &mut head);
    out.extend_from_slice(&head)
}

/// The errno of a reply, 0 where it is no error.
fn errno(reply: &Reply) -> u32
    ensures { result ≡ errno_of (without_spare reply.now) }
{
    match reply {
        Reply::Error(errno) => *errno,
        _ => 0,
    }
}

/// How many bytes follow the head.
#[tactic(auto, using(crate::proofs::ReplyLemmas::body_lengths), unfolding(crate::specs::Replies::body_of))]
fn body_len(reply: &Reply) -> u32
    requires { IsSendable (without_spare reply.now) }
    ensures { result ≡ length (body_of (without_spare reply.now)) }
{
    match reply {
        Reply::Error(_) | Reply::Empty | Reply::Silent => 0,
        Reply::Entry(_) => 128,
        Reply::Attr(_) => 104,
        Reply::Created { .. } => 144,
        Reply::Opened(_) => 16,
        Reply::Content(bytes) | Reply::Target(bytes) => bytes.as_slice().len() as u32,
        Reply::Written(_) => 8,
        Reply::Stat => 80,
        Reply::Dirents(dirents) => dirents_len(dirents.as_slice()),
        Reply::InitDone { .. } => 64,
    }
}

/// Appends what follows the head.
#[tactic(auto, unfolding(crate::specs::Replies::body_of))]
fn put_body(out: &mut Vec<u8>, reply: &Reply) -> Result<(), AllocError>
    requires { IsSendable (without_spare reply.now) }
    ensures ok { OnOk result (out.new.items ≡ out.old.items ++ body_of (without_spare reply.now)) }
{
    match reply {
        Reply::Error(_) | Reply::Empty | Reply::Silent => Ok(()),
        Reply::Entry(entry) => out.extend_from_slice(&entry_bytes(entry)),
        Reply::Attr(attr) => out.extend_from_slice(&attr_out_bytes(attr)),
        Reply::Created { entry, fh } => {
            out.extend_from_slice(&entry_bytes(entry))?;
            out.extend_from_slice(&open_bytes(*fh))
        }
        Reply::Opened(fh) => out.extend_from_slice(&open_bytes(*fh)),
        Reply::Content(bytes) | Reply::Target(bytes) => out.extend_from_slice(bytes.as_slice()),
        Reply::Written(size) => out.extend_from_slice(&written_bytes(*size)),
        Reply::Stat => out.extend_from_slice(&statfs_bytes()),
        Reply::Dirents(dirents) => put_dirents(out, dirents.as_slice()),
        Reply::InitDone { waits: true, .. } => out.extend_from_slice(&waits_bytes()),
        Reply::InitDone {
            readahead,
            flags,
            ..
        } => out.extend_from_slice(&init_bytes(*readahead, *flags)),
    }
}
