//! Frames of replies, read.
ghost use Rattle.std.specs.Prelude.{◌≡◌, ◌≢◌, ◌<◌, ◌+◌, ◌^◌, ℕ, length, if◌then◌else◌, IfOk, Ok, Err};
ghost use Rattle.fuse_replies.specs.declared.fault.ReplyFault.TheVariants as faults;
ghost use Rattle.fuse_replies.specs.declared.reply.Reply.{Reply as ReplyValue};
ghost use Rattle.fuse_replies.specs.declared.reply.ReplyKind.TheVariants as kinds;
ghost use Rattle.fuse_replies.specs.Reading.{ReadsBody, SplitsHead};
ghost use Rattle.fuse_replies.specs.Replies.{without_spare, ReadsBack, HasPayload, IsFrame};

use crate::bodies::{attr_out_of, created_of, entry_of, is_statfs, open_of, written_of};
use crate::dirents::dirents_of;
use crate::fault::ReplyFault;
use crate::init::{init_of, is_waits};
use crate::reply::{Reply, ReplyKind};
use fuse_head::{OutHead, out_head_of, write_out_head};
use io_ports::{Bytes, Row};
use std::alloc::Global;

/// The greatest errno that a kernel takes from a reply.
const LAST_ERRNO: u32 = 511;

/// Reads the frame of a reply to a request whose replies are of this kind: its unique and the reply. A reply that
/// is an error is read for every kind. The frames of `Empty`, and of `Content`, `Target` and `Dirents` with nothing
/// in them, are the same, and the kind tells them apart.
///
/// `Malformed` comes exactly where the bytes are not what [`write_reply`](crate::write_reply) writes of a reply of
/// the kind or of an error: a length is wrong, a field that is always the same has another value, padding isn't
/// zero, an errno isn't 1 to 511, a dirent isn't whole or its name isn't UTF-8. `NoMemory` where memory for the
/// reply was refused, which comes only for a kind that has a payload: `Content`, `Target` and `Dirents`.
pub fn read_reply(alloc: Global, kind: ReplyKind, bytes: &[u8]) -> Result<(u64, Reply), ReplyFault>
    // What is read is a reply whose frame the bytes are.
    ensures ok { IfOk result (λ read. IsFrame kind read.0 (without_spare read.1) bytes.now) }

    // The frame of a reply gives the reply back.
    ensures again { (unique : ℕ) (reply : ReplyValue) → IsFrame kind unique reply bytes.now → ReadsBack unique reply result }

    // Bytes are malformed only where they are the frame of no reply.
    ensures malformed { result ≡ Err faults.Malformed → (unique : ℕ) (reply : ReplyValue) → IsFrame kind unique reply bytes.now → ⊥ }

    // Only a payload takes memory.
    ensures memory { result ≡ Err faults.NoMemory → HasPayload kind }
{
    let Some((errno, unique, body)) = split_head(bytes) else {
        return Err(ReplyFault::Malformed);
    };
    if errno > LAST_ERRNO {
        return Err(ReplyFault::Malformed);
    }
    if errno == 0 {
        let reply = read_body(alloc, kind, body)?;
        return Ok((unique, reply));
    }
    if !body.is_empty() {
        return Err(ReplyFault::Malformed);
    }
    Ok((unique, Reply::Error(errno)))
}

/// The errno, the unique and the body of a frame, where its head is one of a reply and has its length.
fn split_head(bytes: &[u8]) -> Option<(u32, u64, &[u8])>
    ensures { SplitsHead bytes.now result }
{
    let Ok(len) = u32::try_from(bytes.len()) else {
        return None;
    };
    if len < 16 {
        return None;
    }
    let OutHead { errno, unique, .. } = out_head_of(bytes);
    let mut head = [0; 16];
    write_out_head(len, errno, unique, &mut head);
    let body = bytes.strip_prefix(&head)?;
    Some((errno, unique, body))
}

/// The reply of a kind whose body the bytes are.
fn read_body(alloc: Global, kind: ReplyKind, body: &[u8]) -> Result<Reply, ReplyFault>
    requires { 16 + length body.now < 2 ^ 32 }
    ensures read { ReadsBody kind body.now result }
    ensures memory { result ≡ Err faults.NoMemory → HasPayload kind }
{
    let malformed = ReplyFault::Malformed;
    match kind {
        ReplyKind::Entry => Ok(Reply::Entry(entry_of(body).ok_or(malformed)?)),
        ReplyKind::Attr => Ok(Reply::Attr(attr_out_of(body).ok_or(malformed)?)),
        ReplyKind::Created => {
            let (entry, fh) = created_of(body).ok_or(malformed)?;
            Ok(Reply::Created { entry, fh })
        }
        ReplyKind::Opened => Ok(Reply::Opened(open_of(body).ok_or(malformed)?)),
        ReplyKind::Content => Ok(Reply::Content(Bytes::of(alloc, body)?)),
        ReplyKind::Target => Ok(Reply::Target(Bytes::of(alloc, body)?)),
        ReplyKind::Written => Ok(Reply::Written(written_of(body).ok_or(malformed)?)),
        ReplyKind::Stat => fixed(is_statfs(body), Reply::Stat),
        ReplyKind::Dirents => Ok(Reply::Dirents(Row::from_vec(dirents_of(alloc, body)?))),
        ReplyKind::InitDone => read_init(body),
        ReplyKind::Empty => fixed(body.is_empty(), Reply::Empty),
    }
}

/// A reply whose body is always the same, where the bytes are that.
fn fixed(is: bool, reply: Reply) -> Result<Reply, ReplyFault>
    ensures { result ≡ (if is then Ok reply else Err faults.Malformed) }
{
    if is {
        Ok(reply)
    } else {
        Err(ReplyFault::Malformed)
    }
}

/// The answer to INIT whose body the bytes are.
fn read_init(body: &[u8]) -> Result<Reply, ReplyFault>
    ensures read { ReadsBody kinds.InitDone body.now result }
    ensures memory { result ≢ Err faults.NoMemory }
{
    if is_waits(body) {
        return Ok(Reply::InitDone {
            readahead: 0,
            flags: 0,
            waits: true,
        });
    }
    let (readahead, flags) = init_of(body).ok_or(ReplyFault::Malformed)?;
    Ok(Reply::InitDone {
        readahead,
        flags,
        waits: false,
    })
}
