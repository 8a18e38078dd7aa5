//! Parts of bodies, read at the front of bytes.
ghost use Rattle.std.specs.Prelude.{◌≡◌, ◌<◌, ◌≤◌, ◌*◌, ◌^◌, length, position, IfSome, IfOk, OnOk};
ghost use Rattle.fuse_head.specs.Little as little;
ghost use Rattle.fuse_requests.specs.Parts as parts;
ghost use Rattle.fuse_requests.specs.Parts.{ReadsAs, always, never};

use crate::fault::BodyFault;
use crate::request::Forgotten;
use fuse_head::u64_at;
use io_ports::{Bytes, NoMemory, Row};
use std::alloc::Global;

/// The bytes after a fixed part of `fixed` bytes.
pub(crate) fn after_fixed(body: &[u8], fixed: usize) -> Result<&[u8], BodyFault>
    ensures gives { ReadsAs (λ rest. rest.now) never result (parts.after_fixed fixed body.now) }
    ensures ok { OnOk result (fixed ≤ length body.now) }
{
    if body.len() < fixed {
        return Err(BodyFault::Short);
    }
    let (_, rest) = body.split_at(fixed);
    Ok(rest)
}

/// That nothing is left.
pub(crate) fn ended(rest: &[u8]) -> Result<(), BodyFault>
    ensures { ReadsAs (λ x. x) never result (parts.ended rest.now) }
{
    match rest {
        [] => Ok(()),
        [_, ..] => Err(BodyFault::LongTail),
    }
}

/// A name, which ends before the first zero byte, and the bytes after that one.
#[tactic(auto, unfolding(crate::specs::Parts::name_at))]
pub(crate) fn name(bytes: &[u8]) -> Result<(&[u8], &[u8]), BodyFault>
    ensures { ReadsAs (λ x. (x.0.now, x.1.now)) never result (parts.name_at bytes.now) }
{
    match zero_place(bytes) {
        None => Err(BodyFault::NoZeroByte),
        Some(place) => {
            let (name, _) = bytes.split_at(place);
            let (_, rest) = bytes.split_at(place + 1);
            Ok((name, rest))
        }
    }
}

/// The place of the first zero byte.
fn zero_place(bytes: &[u8]) -> Option<usize>
    ensures place { result ≡ position parts.is_zero bytes.now }
    ensures bound { IfSome result (λ place. place < length bytes.now) }
{
    bytes.iter().position(|byte| *byte == 0)
}

/// A name of its own, and nothing after it.
pub(crate) fn last_name(alloc: Global, bytes: &[u8]) -> Result<Bytes, BodyFault>
    ensures { ReadsAs (λ x. x) always result (parts.last_name bytes.now) }
{
    let (name, rest) = name(bytes)?;
    ended(rest)?;
    Ok(Bytes::of(alloc, name)?)
}

/// Two names of their own, and nothing after them.
pub(crate) fn last_two_names(alloc: Global, bytes: &[u8]) -> Result<(Bytes, Bytes), BodyFault>
    ensures { ReadsAs (λ x. x) always result (parts.last_two_names bytes.now) }
{
    let (first, rest) = name(bytes)?;
    let (second, rest) = name(rest)?;
    ended(rest)?;
    let first = Bytes::of(alloc, first)?;
    let second = Bytes::of(alloc, second)?;
    Ok((first, second))
}

/// Exactly `size` bytes, as a value of their own.
pub(crate) fn last_bytes(alloc: Global, bytes: &[u8], size: usize) -> Result<Bytes, BodyFault>
    ensures { ReadsAs (λ x. x) always result (parts.last_bytes size bytes.now) }
{
    if bytes.len() < size {
        return Err(BodyFault::Short);
    }
    let (content, rest) = bytes.split_at(size);
    ended(rest)?;
    Ok(Bytes::of(alloc, content)?)
}

/// Exactly `count` pairs of a node and a number, 16 bytes each.
pub(crate) fn last_pairs(
    alloc: Global,
    bytes: &[u8],
    count: usize,
) -> Result<Row<Forgotten>, BodyFault>
    requires { count < 2 ^ 32 }
    ensures { ReadsAs (λ x. x.items) always result (parts.last_pairs count bytes.now) }
{
    if bytes.len() != 16 * count {
        return Err(BodyFault::BadCount);
    }
    let pairs = pairs(alloc, bytes, count)?;
    Ok(Row::from_vec(pairs))
}

/// So many pairs, 16 bytes each.
fn pairs(alloc: Global, bytes: &[u8], count: usize) -> Result<Vec<Forgotten>, NoMemory>
    requires { length bytes.now ≡ 16 * count }
    ensures ok { IfOk result (λ pairs. pairs.items ≡ parts.pairs_of count bytes.now) }
{
    let mut pairs = Vec::with_capacity(alloc, count)?;
    let mut rest = bytes;
    for _ in 0..count {
        pairs.push(pair_at(rest))?;
        let (_, after) = rest.split_at(16);
        rest = after;
    }
    Ok(pairs)
}

/// The pair at the front of bytes.
fn pair_at(bytes: &[u8]) -> Forgotten
    requires { 16 ≤ length bytes.now }
    ensures { result ≡ record { node = little.u64_at bytes.now 0; count = little.u64_at bytes.now 8 } }
{
    Forgotten {
        node: u64_at(bytes, 0),
        count: u64_at(bytes, 8),
    }
}
