//! The bytes of the blocks.
ghost use Rattle.std.specs.Prelude.{◌≡◌, ℕ, ◌+◌, ◌-◌, ◌*◌, ◌<◌, ◌≤◌, ◌++◌, [], IfOk, length, take, drop, vec_len, vec_capacity, slice_index_or, slice_set};
ghost use Rattle.block_pool.specs.Blocks.{overwritten, readied};
ghost use Rattle.staging_spec.specs.Content.{zeros};

use io_ports::NoMemory;
use std::alloc::Global;
use std::marker::Model;

/// The bytes of a block.
pub const BLOCK: usize = 65_536;

/// The bytes of the blocks, in one allocation. A block takes part in it from its first use on; the pages behind the
/// last such block are not touched.
#[derive(Drop)]
pub struct Region {
    bytes: Vec<u8>,
    used: usize,
    limit: usize,
}

impl Model for Region {
    ghost use Rattle.std.specs.Prelude.{◌≡◌, ◌*◌, ◌≤◌, vec_len, vec_capacity};
    ghost use Rattle.block_pool.specs.Blocks.{RegionBytes, parts};

    ghost Value = { RegionBytes };

    ghost view = { λ r. record { blocks = parts 65536 r.used r.bytes.items; limit = r.limit } };

    ghost invariant = { λ r. (vec_len r.bytes ≡ r.used * 65536) × (r.limit * 65536 ≤ vec_capacity r.bytes) × (r.used ≤ r.limit) };
}

impl Region {
    /// Memory for so many blocks, none of which is used. `NoMemory` where it was refused.
    pub fn new(alloc: Global, limit: usize) -> Result<Region, NoMemory>
        ensures ok { IfOk result (λ region. region ≡ record { blocks = []; limit = limit }) }
    {
        let Some(size) = limit.checked_mul(BLOCK) else {
            return Err(NoMemory);
        };
        let bytes = Vec::with_capacity(alloc, size)?;
        Ok(Region {
            bytes,
            used: 0,
            limit,
        })
    }

    /// Makes a block all zeros: one that was used, or the one that comes next.
    pub fn ready(&mut self, block: usize)
        requires next { block ≤ length self.old.blocks }
        requires room { block < self.old.limit }
        ensures { self.new ≡ record self.old { blocks = readied 65536 self.old.blocks block } }
    {
        if block == self.used {
            grow(&mut self.bytes, BLOCK);
            self.used += 1;
            return;
        }
        clear_at(&mut self.bytes, block * BLOCK, BLOCK);
    }

    /// The bytes of a block, lent.
    pub fn block(&self, block: usize) -> &[u8]
        requires { block < length self.now.blocks }
        ensures { result.now ≡ slice_index_or self.now.blocks block [] }
    {
        part_of(&self.bytes, block * BLOCK, BLOCK)
    }

    /// Copies bytes out of a block, from a place in it on.
    pub fn read(&self, block: usize, first: usize, out: &mut [u8])
        requires block { block < length self.now.blocks }
        requires range { first + length out.old ≤ 65536 }
        ensures { out.new ≡ take (length out.old) (drop first (slice_index_or self.now.blocks block [])) }
    {
        read_at(&self.bytes, block * BLOCK + first, out);
    }

    /// Copies bytes into a block, from a place in it on.
    pub fn write(&mut self, block: usize, first: usize, from: &[u8])
        requires block { block < length self.old.blocks }
        requires range { first + length from.now ≤ 65536 }
        ensures { self.new ≡ record self.old { blocks = slice_set self.old.blocks block (overwritten (slice_index_or self.old.blocks block []) first from.now) } }
    {
        write_at(&mut self.bytes, block * BLOCK + first, from);
    }

    /// Makes the bytes of a block zeros, from a place in it on.
    pub fn clear_from(&mut self, block: usize, first: usize)
        requires block { block < length self.old.blocks }
        requires range { first ≤ 65536 }
        ensures { self.new ≡ record self.old { blocks = slice_set self.old.blocks block (overwritten (slice_index_or self.old.blocks block []) first (zeros (65536 - first))) } }
    {
        clear_at(&mut self.bytes, block * BLOCK + first, BLOCK - first);
    }
}

/// Appends zeros, into the capacity.
fn grow(bytes: &mut Vec<u8>, count: usize)
    requires { vec_len bytes.old + count ≤ vec_capacity bytes.old }
    ensures bytes { bytes.new.items ≡ bytes.old.items ++ zeros count }
    ensures len { vec_len bytes.new ≡ vec_len bytes.old + count }
    ensures room { vec_capacity bytes.old ≤ vec_capacity bytes.new }
{
    let len = bytes.len();
    bytes.resize(len + count, 0).unwrap();
}

/// Makes so many bytes zeros, from a place on.
fn clear_at(bytes: &mut Vec<u8>, start: usize, count: usize)
    requires { start + count ≤ vec_len bytes.old }
    ensures bytes { bytes.new.items ≡ overwritten bytes.old.items start (zeros count) }
    ensures len { vec_len bytes.new ≡ vec_len bytes.old }
    ensures room { vec_capacity bytes.new ≡ vec_capacity bytes.old }
{
    let (_front, rest) = bytes.as_mut_slice().split_at_mut(start);
    let (middle, _back) = rest.split_at_mut(count);
    clear(middle);
}

/// Makes all bytes zeros.
#[tactic(auto, unfolding(staging_spec::specs::Content::zeros))]
fn clear(part: &mut [u8])
    ensures { part.new ≡ zeros (length part.old) }
{
    part.fill(0);
}

/// Copies bytes in, from a place on.
fn write_at(bytes: &mut Vec<u8>, start: usize, from: &[u8])
    requires { start + length from.now ≤ vec_len bytes.old }
    ensures bytes { bytes.new.items ≡ overwritten bytes.old.items start from.now }
    ensures len { vec_len bytes.new ≡ vec_len bytes.old }
    ensures room { vec_capacity bytes.new ≡ vec_capacity bytes.old }
{
    let (_front, rest) = bytes.as_mut_slice().split_at_mut(start);
    let (middle, _back) = rest.split_at_mut(from.len());
    middle.copy_from_slice(from);
}

/// Copies bytes out, from a place on.
fn read_at(bytes: &Vec<u8>, start: usize, out: &mut [u8])
    requires { start + length out.old ≤ vec_len bytes.now }
    ensures { out.new ≡ take (length out.old) (drop start bytes.now.items) }
{
    out.copy_from_slice(part_of(bytes, start, out.len()));
}

/// So many bytes from a place on, lent.
fn part_of(bytes: &Vec<u8>, start: usize, count: usize) -> &[u8]
    requires { start + count ≤ vec_len bytes.now }
    ensures { result.now ≡ take count (drop start bytes.now.items) }
{
    let (_front, rest) = bytes.as_slice().split_at(start);
    let (middle, _back) = rest.split_at(count);
    middle
}
