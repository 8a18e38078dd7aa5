//! What stands at the front of bytes: a bad length, a whole frame, or less than one.
ghost use Rattle.std.specs.Prelude.{◌≡◌, ◌≤◌, ◌++◌, ◌⊎◌, [], IfOk, MatchOption, OnErr, length, take};
ghost use Rattle.fuse_head.specs.Head.{longest_frame, IsWholeFrame};
ghost use Rattle.fuse_head.specs.Little as little;
ghost use Rattle.fuse_frames.specs.Cut.{Cuts, HasNoBadLen, IsUnfinished};
ghost use Rattle.fuse_frames.specs.Front.{BeginsWithFrame, Fills, GrowsTo, SaysBadLen, SaysLen};

use crate::fault::CutFault;
use fuse_head::{LONGEST_FRAME, u32_at};
use io_ports::{Bytes, NoMemory};
use std::alloc::Global;
use std::collections::VecDeque;

/// The fewest bytes of a request frame: those of its head.
const SHORTEST_FRAME: u32 = 40;

/// The bad len at the front of `rest`, which begins at `place` of the stream, if its four bytes are there.
pub(crate) fn bad_len(rest: &[u8], place: u64) -> Option<CutFault>
    ensures { SaysBadLen rest.now place result }
{
    if rest.len() < 4 {
        return None;
    }
    let len = u32_at(rest, 0);
    if len < SHORTEST_FRAME {
        return Some(CutFault::LenBelow40(place));
    }
    if len > LONGEST_FRAME {
        return Some(CutFault::LenOver(place));
    }
    None
}

/// The len at the front of `rest`, if its four bytes are there and it is one that a frame may have.
pub(crate) fn told_len(rest: &[u8]) -> Option<usize>
    ensures { SaysLen rest.now result }
{
    if rest.len() < 4 {
        return None;
    }
    let len = u32_at(rest, 0);
    match len {
        SHORTEST_FRAME..=LONGEST_FRAME => Some(len as usize),
        _ => None,
    }
}

/// The whole frame at the front of `bytes`, and what stands behind it.
fn first_frame(bytes: &[u8]) -> Option<(&[u8], &[u8])>
    ensures { MatchOption result (IsUnfinished bytes.now) (λ cut. BeginsWithFrame bytes.now cut.0.now cut.1.now) }
{
    let Some(len) = told_len(bytes) else {
        return None;
    };
    if bytes.len() < len {
        return None;
    }
    Some(bytes.split_at(len))
}

/// Copies the whole frames at the front of `bytes` into `frames`, which is empty, and hands back what stands behind
/// them.
pub(crate) fn whole_frames<'a>(
    alloc: Global,
    bytes: &'a [u8],
    frames: &mut VecDeque<Bytes>,
) -> Result<&'a [u8], NoMemory>
    requires { frames.old.items ≡ [] }
    ensures { IfOk result (λ left. Cuts bytes.entry.now frames.new.items left.now) }
{
    let mut left = bytes;
    while let Some((frame, behind)) = first_frame(left) {
        let copy = Bytes::of(alloc, frame)?;
        frames.push_back(copy)?;
        left = behind;
    }
    Ok(left)
}

/// Moves bytes from the front of `bytes` behind `rest` until it has `size` of them or none is left, and hands back
/// those that are left. Where memory is refused, `rest` is as it was.
fn fill<'a>(rest: &mut Vec<u8>, size: usize, bytes: &'a [u8]) -> Result<&'a [u8], NoMemory>
    requires { size ≤ longest_frame }
    ensures ok { IfOk result (λ left. Fills rest.old.items size bytes.entry.now rest.new.items left.now) }
    ensures err { OnErr result (rest.new.items ≡ rest.old.items) }
{
    let wanted = size.saturating_sub(rest.len());
    rest.reserve(wanted)?;
    let (own, left) = bytes.split_at(wanted.min(bytes.len()));
    rest.extend_from_slice(own)?;
    Ok(left)
}

/// Moves bytes from the front of `bytes` behind `rest` until the frame that it begins is whole, or its len is known to
/// be bad, or none is left, and hands back those that are left. Where memory is refused, `rest` may have grown.
pub(crate) fn grow<'a>(rest: &mut Vec<u8>, bytes: &'a [u8]) -> Result<&'a [u8], NoMemory>
    requires sound { HasNoBadLen rest.old.items }
    requires unfinished { IsUnfinished rest.old.items }
    ensures ok { IfOk result (λ left. GrowsTo rest.old.items bytes.entry.now rest.new.items left.now) }
    ensures err { OnErr result (take (length rest.old.items) rest.new.items ≡ rest.old.items) }
{
    let behind = fill(rest, 4, bytes)?;
    match told_len(rest.as_slice()) {
        Some(len) => fill(rest, len, behind),
        None => Ok(behind),
    }
}
