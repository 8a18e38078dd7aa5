//! A copy of staged content apart from its pool, for a flush that reads the rest of the source meanwhile.
ghost use Rattle.std.specs.Prelude.{◌≡◌, ℕ, ◌+◌, ◌*◌, ◌/◌, ◌<◌, ◌≤◌, ◌++◌, List, IsTrue, IfOk, false, length, min, replicate, slice_index, slice_index_or, vec_len, vec_capacity};
ghost use Rattle.staging_spec.specs.Blocks.{is_among};
ghost use Rattle.staging_spec.specs.Wanted.{wanted_by_flush};
ghost use Rattle.staged_file.specs.Frozen.{frozen_content, frozen_wanted, Copies, Fills};
ghost use Rattle.staging_spec.specs.Slices.{Covers, Holds};
ghost use Rattle.staged_file.specs.Staged.{IsStaged, staging_of, touched_of, byte_at};
ghost use Rattle.staged_file.specs.Steps.{CanRead, Reads};

use crate::staged::{BLOCK, Staged};
use block_pool::BlockPool;
use io_ports::{Bytes, NoMemory};
use std::alloc::Global;
use std::marker::Model;

/// A copy of staged content: its bytes in touched blocks, zeros elsewhere, which blocks were touched, and the limit below
/// which all others are the source's. It lacks what is still the source's, until `finish`.
#[derive(Drop)]
pub struct Frozen {
    bytes: Vec<u8>,
    touched: Vec<bool>,
    limit: u64,
}

impl Model for Frozen {
    ghost use Rattle.std.specs.Prelude.{◌*◌, ◌≤◌, length};
    ghost use Rattle.staged_file.specs.Frozen.{FrozenFile};

    ghost Value = { FrozenFile };

    ghost view = { λ f. record { bytes = f.bytes.items; touched = f.touched.items; limit = f.limit } };

    ghost invariant = { λ f. (f.limit ≤ length f.bytes.items) × (f.limit ≤ length f.touched.items * 65536) };
}

impl Staged {
    /// A copy apart from the pool. `NoMemory` where memory for it was refused.
    pub fn freeze(&self, alloc: Global, pool: &BlockPool) -> Result<Frozen, NoMemory>
        requires { IsStaged pool.now.chains self.now }
        ensures ok { IfOk result (λ frozen. (source : List ℕ) → frozen_content frozen source ≡ (staging_of pool.now.chains self.now source).content) }
        ensures wanted { IfOk result (λ frozen. frozen_wanted frozen ≡ wanted_by_flush (touched_of pool.now.chains self.now) self.now.limit) }
    {
        let blocks = self.len().div_ceil(BLOCK);
        let mut touched = Vec::with_capacity(alloc, blocks as usize)?;
        let mut bytes = Vec::with_capacity(alloc, self.len() as usize)?;
        self.copy_blocks(pool, blocks, &mut bytes, &mut touched);
        let limit = self.limit();
        Ok(Frozen {
            bytes,
            touched,
            limit,
        })
    }

    /// Copies the blocks of the content one behind the other, into the capacity, and tells of each whether it is touched.
    fn copy_blocks(
        &self,
        pool: &BlockPool,
        blocks: u64,
        bytes: &mut Vec<u8>,
        touched: &mut Vec<bool>,
    )
        requires staged { IsStaged pool.now.chains self.now }
        requires blocks { (blocks * 65536 < self.now.size + 65536) × (self.now.size ≤ blocks * 65536) }
        requires empty { (vec_len bytes.old ≡ 0) × (length touched.old.items ≡ 0) }
        requires room { (self.now.size ≤ vec_capacity bytes.old) × (blocks ≤ vec_capacity touched.old) }
        ensures copies { Copies (touched_of pool.now.chains self.now) (byte_at pool.now.chains self.now) self.now.size bytes.new.items touched.new.items blocks }
        ensures len { vec_len bytes.new ≡ self.now.size }
    {
        for block in 0..blocks {
            let held = self.copy_block(pool, block, bytes);
            touched.push(held).unwrap();
        }
    }

    /// Copies a block behind those before it, up to the end of the content: zeros where it isn't touched. Tells whether it
    /// is.
    fn copy_block(&self, pool: &BlockPool, block: u64, bytes: &mut Vec<u8>) -> bool
        requires staged { IsStaged pool.now.chains self.now }
        requires block { block * 65536 < self.now.size }
        requires behind { vec_len bytes.old ≡ block * 65536 }
        requires room { self.now.size ≤ vec_capacity bytes.old }
        ensures held { result ≡ is_among (touched_of pool.now.chains self.now) block }
        ensures bytes { IsTrue result → (source : List ℕ) → Reads (byte_at pool.now.chains self.now source) 0 bytes.old.items bytes.new.items (block * 65536) (min self.now.size ((block + 1) * 65536)) }
        ensures zeros { result ≡ false → (i : ℕ) → slice_index bytes.new.items i ≡ slice_index bytes.old.items i }
        ensures len { vec_len bytes.new ≡ min self.now.size ((block + 1) * 65536) }
        ensures room { vec_capacity bytes.old ≤ vec_capacity bytes.new }
    {
        let count = BLOCK.min(self.len() - block * BLOCK) as usize;
        let Some(part) = self.block(pool, block) else {
            add_zeros(bytes, count);
            return false;
        };
        add_bytes(bytes, &part[..count]);
        true
    }
}

impl Frozen {
    /// The whole content. The base slice, from byte `base_first` of the source on, holds what `needs_all` told when this was
    /// frozen. It takes no memory.
    pub fn finish(self, base_first: u64, base: &[u8]) -> Bytes
        requires { Covers base_first (length base.now) (frozen_wanted self) }
        ensures ok { (source : List ℕ) → Holds source base_first base.now → result ≡ frozen_content self source }
    {
        let Frozen {
            mut bytes,
            touched,
            limit,
        } = self;
        fill_untouched(
            bytes.as_mut_slice(),
            touched.as_slice(),
            limit,
            base_first,
            base,
        );
        Bytes::from_vec(bytes)
    }
}

/// Appends zeros, into the capacity.
fn add_zeros(bytes: &mut Vec<u8>, count: usize)
    requires { vec_len bytes.old + count ≤ vec_capacity bytes.old }
    ensures bytes { bytes.new.items ≡ bytes.old.items ++ replicate count 0 }
    ensures len { vec_len bytes.new ≡ vec_len bytes.old + count }
    ensures room { vec_capacity bytes.old ≤ vec_capacity bytes.new }
{
    let len = bytes.len();
    bytes.resize(len + count, 0).unwrap();
}

/// Appends bytes, into the capacity.
fn add_bytes(bytes: &mut Vec<u8>, part: &[u8])
    requires { vec_len bytes.old + length part.now ≤ vec_capacity bytes.old }
    ensures bytes { bytes.new.items ≡ bytes.old.items ++ part.now }
    ensures len { vec_len bytes.new ≡ vec_len bytes.old + length part.now }
    ensures room { vec_capacity bytes.old ≤ vec_capacity bytes.new }
{
    bytes.extend_from_slice(part).unwrap();
}

/// Copies the source's bytes below the limit into the blocks that aren't touched.
fn fill_untouched(bytes: &mut [u8], touched: &[bool], limit: u64, base_first: u64, base: &[u8])
    requires bytes { limit ≤ length bytes.old }
    requires blocks { limit ≤ length touched.now * 65536 }
    requires wanted { (i : ℕ) → i < limit → slice_index_or touched.now (i / 65536) false ≡ false → (base_first ≤ i) × (i < base_first + length base.now) }
    ensures { (source : List ℕ) → Holds source base_first base.now → Fills touched.now limit source bytes.old bytes.new limit }
{
    for block in 0..limit.div_ceil(BLOCK) {
        fill_block(
            bytes,
            touched[block as usize],
            block,
            limit,
            base_first,
            base,
        );
    }
}

/// Copies the source's bytes below the limit into a block, where it isn't touched.
fn fill_block(bytes: &mut [u8], held: bool, block: u64, limit: u64, base_first: u64, base: &[u8])
    requires bytes { limit ≤ length bytes.old }
    requires block { block * 65536 < limit }
    requires wanted { held ≡ false → CanRead limit (block * 65536) ((block + 1) * 65536) base_first (length base.now) }
    ensures held { IsTrue held → bytes.new ≡ bytes.old }
    ensures filled { held ≡ false → (source : List ℕ) → Holds source base_first base.now → Reads (slice_index source) 0 bytes.old bytes.new (block * 65536) (min limit ((block + 1) * 65536)) }
{
    if held {
        return;
    }
    let start = block * BLOCK;
    let end = limit.min(start + BLOCK);
    let part = &mut bytes[start as usize..end as usize];
    part.copy_from_slice(&base[(start - base_first) as usize..(end - base_first) as usize]);
}
