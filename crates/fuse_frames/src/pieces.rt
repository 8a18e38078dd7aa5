//! One piece more: how a frame that has begun grows, and which frames become whole.
ghost use Rattle.std.specs.Prelude.{◌≡◌, ◌≤◌, ◌+◌, ◌++◌, [], ◌∷◌, IfNone, IfOk, IfSome, OnErr, length, take};
ghost use Rattle.std.specs.VecDeque.{deque_capacity, deque_len};
ghost use Rattle.fuse_frames.specs.Cut.{HasNoBadLen, IsUnfinished, IsKeptOf};
ghost use Rattle.fuse_frames.specs.Kept.{Ends, IsPieces, Waits};

use crate::front::{bad_len, grow, told_len, whole_frames};
use fuse_head::whole_frame;
use io_ports::{Bytes, NoMemory};
use std::alloc::Global;
use std::collections::VecDeque;

/// Bytes that were cut: their whole frames, what is kept of what stands behind these, and how many bytes the frames
/// have.
#[derive(Drop)]
pub(crate) struct Pieces {
    pub(crate) frames: VecDeque<Bytes>,
    pub(crate) rest: Vec<u8>,
    pub(crate) size: usize,
}

/// Goes on with the frame that `rest` begins; where that becomes whole, what stands behind it is cut, and `held` gets
/// room for it and the frames behind it. Where memory is refused, `rest` may have grown.
pub(crate) fn advance(
    held: &mut VecDeque<Bytes>,
    rest: &mut Vec<u8>,
    bytes: &[u8],
) -> Result<Option<Pieces>, NoMemory>
    requires sound { HasNoBadLen rest.old.items }
    requires unfinished { IsUnfinished rest.old.items }
    ensures waits { IfOk result (λ o. IfNone o (Waits rest.old.items bytes.now rest.new.items)) }
    ensures ends { IfOk result (λ o. IfSome o (λ p. Ends rest.old.items bytes.now rest.new.items p.frames.items p.rest.items p.size)) }
    ensures full { IfOk result (λ o. IfSome o (λ p. deque_len held.new + (deque_len p.frames + 1) ≤ deque_capacity held.new)) }
    ensures err { OnErr result (take (length rest.old.items) rest.new.items ≡ rest.old.items) }
    ensures kept { held.new.items ≡ held.old.items }
{
    let left = grow(rest, bytes)?;
    if !whole_frame(rest.as_slice()) {
        return Ok(None);
    }
    let pieces = cut(held, left)?;
    Ok(Some(pieces))
}

/// Puts a frame and those behind it into the room that was made for them.
pub(crate) fn hold(held: &mut VecDeque<Bytes>, frame: Vec<u8>, mut frames: VecDeque<Bytes>)
    requires { deque_len held.old + (deque_len frames + 1) ≤ deque_capacity held.old }
    ensures { held.new.items ≡ held.old.items ++ frame.items ∷ [] ++ frames.items }
{
    held.push_back(Bytes::from_vec(frame)).unwrap();
    held.append(&mut frames).unwrap();
}

/// Cuts bytes at whose front a frame begins, and makes room in `held` for the frames and one more.
fn cut(held: &mut VecDeque<Bytes>, bytes: &[u8]) -> Result<Pieces, NoMemory>
    ensures ok { IfOk result (λ pieces. IsPieces bytes.now pieces.frames.items pieces.rest.items pieces.size) }
    ensures full { IfOk result (λ pieces. deque_len held.new + (deque_len pieces.frames + 1) ≤ deque_capacity held.new) }
    ensures kept { held.new.items ≡ held.old.items }
{
    let alloc = *held.allocator();
    let mut frames = VecDeque::new(alloc);
    let left = whole_frames(alloc, bytes, &mut frames)?;
    let rest = begun(alloc, known(left))?;
    held.reserve(frames.len() + 1)?;
    let size = bytes.len() - left.len();
    Ok(Pieces { frames, rest, size })
}

/// The front of a frame, with room for all of it where its len is told: it grows without being copied.
fn begun(alloc: Global, front: &[u8]) -> Result<Vec<u8>, NoMemory>
    ensures { IfOk result (λ rest. rest.items ≡ front.now) }
{
    let len = told_len(front).unwrap_or(0);
    let mut rest = Vec::with_capacity(alloc, len)?;
    rest.extend_from_slice(front)?;
    Ok(rest)
}

/// What is kept of a rest: all of it, or the four bytes of a bad len.
fn known(rest: &[u8]) -> &[u8]
    ensures { IsKeptOf rest.now result.now }
{
    match bad_len(rest, 0) {
        Some(_) => &rest[..4],
        None => rest,
    }
}
