//! Writing: bytes go into touched blocks, and a block that is touched for the first time takes the rest from the source.
ghost use Rattle.std.specs.Prelude.{◌≡◌, ℕ, ◌+◌, ◌-◌, ◌*◌, ◌/◌, ◌≤◌, ◌<◌, max, min, List, IsTrue, IfErr, OnOk, false, is_ok, length, nat_le, if◌then◌else◌};
ghost use Rattle.staging_spec.specs.Blocks.{is_among, put_number, touch, met};
ghost use Rattle.staging_spec.specs.Staging.{needed, written};
ghost use Rattle.staging_spec.specs.Wanted.{wanted_by_write};
ghost use Rattle.staging_spec.specs.Slices.{Covers, Holds};
ghost use Rattle.staged_file.specs.Staged.{IsStaged, staging_of, touched_of, byte_at};
ghost use Rattle.staged_file.specs.Steps.{Leaves, IsStep, Puts, SameBut, CanPut, CanTouch};

use crate::staged::{BLOCK, Staged};
use crate::wanted::NoBlocks;
use block_pool::BlockPool;

impl Staged {
    /// Copies the bytes of a range into their block, out of a slice whose first byte stands at `first`.
    fn put(&mut self, pool: &mut BlockPool, low: u64, high: u64, first: u64, from: &[u8])
        requires staged { IsStaged pool.old.chains self.old }
        requires some { low < high }
        requires range { CanPut (touched_of pool.old.chains self.old) self.old.size low high first (length from.now) }
        ensures step { IsStep pool.old self.old pool.new self.new }
        ensures touched { touched_of pool.new.chains self.new ≡ touched_of pool.old.chains self.old }
        ensures held { put_number (touched_of pool.old.chains self.old) (low / 65536) ≡ touched_of pool.old.chains self.old }
        ensures free { pool.new.free ≡ pool.old.free }
        ensures bytes { (source : List ℕ) → Puts (byte_at pool.old.chains self.old source) (byte_at pool.new.chains self.new source) low high first from.now }
    {
        let part = &from[(low - first) as usize..(high - first) as usize];
        self.copy_in(pool, low, part);
    }

    /// Copies a part of the source into its block, where the range isn't empty.
    fn fill(&mut self, pool: &mut BlockPool, low: u64, high: u64, base_first: u64, base: &[u8])
        requires staged { IsStaged pool.old.chains self.old }
        requires range { low < high → CanPut (touched_of pool.old.chains self.old) self.old.size low high base_first (length base.now) }
        ensures step { IsStep pool.old self.old pool.new self.new }
        ensures touched { touched_of pool.new.chains self.new ≡ touched_of pool.old.chains self.old }
        ensures free { pool.new.free ≡ pool.old.free }
        ensures bytes { (source : List ℕ) → Puts (byte_at pool.old.chains self.old source) (byte_at pool.new.chains self.new source) low high base_first base.now }
    {
        if low >= high {
            return;
        }
        self.put(pool, low, high, base_first, base);
    }

    /// Touches a block for a write of a range. What the write leaves of the block is the source's below the limit; the base
    /// slice holds what of it is wanted.
    fn touch(
        &mut self,
        pool: &mut BlockPool,
        block: u64,
        first: u64,
        end: u64,
        base_first: u64,
        base: &[u8],
    )
        requires staged { IsStaged pool.old.chains self.old }
        requires absent { is_among (touched_of pool.old.chains self.old) block ≡ false }
        requires free { 0 < pool.old.free }
        requires inside { block * 65536 < self.old.size }
        requires order { first ≤ end }
        requires wanted { CanTouch self.old.limit block first end base_first (length base.now) }
        ensures step { IsStep pool.old self.old pool.new self.new }
        ensures touched { touched_of pool.new.chains self.new ≡ put_number (touched_of pool.old.chains self.old) block }
        ensures free { pool.new.free + 1 ≡ pool.old.free }
        ensures bytes { (source : List ℕ) → Holds source base_first base.now → SameBut (byte_at pool.old.chains self.old source) (byte_at pool.new.chains self.new source) (max first (block * 65536)) (min end ((block + 1) * 65536)) }
    {
        self.add_block(pool, block);
        let start = block * BLOCK;
        let limit = self.limit().min(start + BLOCK);
        self.fill(pool, start, limit.min(first), base_first, base);
        self.fill(pool, start.max(end), limit, base_first, base);
    }

    /// Touches a block for a write of a range, where it isn't touched yet.
    fn ready(
        &mut self,
        pool: &mut BlockPool,
        block: u64,
        first: u64,
        end: u64,
        base_first: u64,
        base: &[u8],
    )
        requires staged { IsStaged pool.old.chains self.old }
        requires free { is_among (touched_of pool.old.chains self.old) block ≡ false → 0 < pool.old.free }
        requires inside { block * 65536 < self.old.size }
        requires order { first ≤ end }
        requires wanted { is_among (touched_of pool.old.chains self.old) block ≡ false → CanTouch self.old.limit block first end base_first (length base.now) }
        ensures step { IsStep pool.old self.old pool.new self.new }
        ensures there { IsTrue (is_among (touched_of pool.new.chains self.new) block) }
        ensures touched { touched_of pool.new.chains self.new ≡ (if is_among (touched_of pool.old.chains self.old) block then touched_of pool.old.chains self.old else put_number (touched_of pool.old.chains self.old) block) }
        ensures free { pool.new.free + (if is_among (touched_of pool.old.chains self.old) block then 0 else 1) ≡ pool.old.free }
        ensures bytes { (source : List ℕ) → Holds source base_first base.now → SameBut (byte_at pool.old.chains self.old source) (byte_at pool.new.chains self.new source) (max first (block * 65536)) (min end ((block + 1) * 65536)) }
    {
        if self.holds(pool, block) {
            return;
        }
        self.touch(pool, block, first, end, base_first, base);
    }

    /// Writes those bytes of a slice that lie in one block.
    fn write_block(
        &mut self,
        pool: &mut BlockPool,
        block: u64,
        first: u64,
        from: &[u8],
        base_first: u64,
        base: &[u8],
    )
        requires staged { IsStaged pool.old.chains self.old }
        requires free { is_among (touched_of pool.old.chains self.old) block ≡ false → 0 < pool.old.free }
        requires some { 0 < length from.now }
        requires meets { (block * 65536 < first + length from.now) × (first < (block + 1) * 65536) }
        requires inside { first + length from.now ≤ self.old.size }
        requires wanted { is_among (touched_of pool.old.chains self.old) block ≡ false → CanTouch self.old.limit block first (first + length from.now) base_first (length base.now) }
        ensures step { IsStep pool.old self.old pool.new self.new }
        ensures touched { touched_of pool.new.chains self.new ≡ put_number (touched_of pool.old.chains self.old) block }
        ensures free { pool.new.free + (if is_among (touched_of pool.old.chains self.old) block then 0 else 1) ≡ pool.old.free }
        ensures bytes { (source : List ℕ) → Holds source base_first base.now → Puts (byte_at pool.old.chains self.old source) (byte_at pool.new.chains self.new source) (max first (block * 65536)) (min (first + length from.now) ((block + 1) * 65536)) first from.now }
    {
        let start = block * BLOCK;
        let end = first + from.len() as u64;
        self.ready(pool, block, first, end, base_first, base);
        self.put(pool, first.max(start), end.min(start + BLOCK), first, from);
    }

    /// How many blocks a write of a range would newly touch.
    pub fn needed(&self, pool: &BlockPool, first: u64, count: u64) -> u64
        requires staged { IsStaged pool.now.chains self.now }
        requires range { first + count ≤ 16777216 }
        ensures { result ≡ needed (touched_of pool.now.chains self.now) first count }
    {
        if count == 0 {
            return 0;
        }
        let front = first / BLOCK;
        let back = (first + count - 1) / BLOCK;
        let mut needed = 0;
        for block in front..back + 1 {
            if !self.holds(pool, block) {
                needed += 1;
            }
        }
        needed
    }

    /// Writes bytes inside the content, block by block. Enough blocks must be free.
    fn write_blocks(
        &mut self,
        pool: &mut BlockPool,
        first: u64,
        from: &[u8],
        base_first: u64,
        base: &[u8],
    )
        requires staged { IsStaged pool.old.chains self.old }
        requires some { 0 < length from.now }
        requires inside { first + length from.now ≤ self.old.size }
        requires enough { needed (touched_of pool.old.chains self.old) first (length from.now) ≤ pool.old.free }
        requires wanted { Covers base_first (length base.now) (wanted_by_write (touched_of pool.old.chains self.old) self.old.limit first (length from.now)) }
        ensures step { IsStep pool.old self.old pool.new self.new }
        ensures touched { touched_of pool.new.chains self.new ≡ touch (touched_of pool.old.chains self.old) (met first (length from.now)) }
        ensures bytes { (source : List ℕ) → Holds source base_first base.now → Puts (byte_at pool.old.chains self.old source) (byte_at pool.new.chains self.new source) first (first + length from.now) first from.now }
    {
        let front = first / BLOCK;
        let back = (first + from.len() as u64 - 1) / BLOCK;
        for block in front..back + 1 {
            self.write_block(pool, block, first, from, base_first, base);
        }
    }

    /// Writes bytes at an offset. They are copied once; the rest of each block that is touched for the first time is the
    /// source's, of which the base slice, from byte `base_first` of the source on, holds what `needs_write` tells.
    ///
    /// # Errors
    ///
    /// `NoBlocks` exactly where more blocks would be newly touched than are free; nothing has then changed.
    pub fn write(
        &mut self,
        pool: &mut BlockPool,
        first: u64,
        from: &[u8],
        base_first: u64,
        base: &[u8],
    ) -> Result<(), NoBlocks>
        requires staged { IsStaged pool.old.chains self.old }
        requires range { first + length from.now ≤ 16777216 }
        requires wanted { Covers base_first (length base.now) (wanted_by_write (touched_of pool.old.chains self.old) self.old.limit first (length from.now)) }
        ensures full { is_ok result ≡ nat_le (needed (touched_of pool.old.chains self.old) first (length from.now)) pool.old.free }
        ensures ok { OnOk result ((source : List ℕ) → Holds source base_first base.now → staging_of pool.new.chains self.new source ≡ written (staging_of pool.old.chains self.old source) first from.now) }
        ensures err { IfErr result (λ e. (e ≡ record { needed = needed (touched_of pool.old.chains self.old) first (length from.now); free = pool.old.free }) × (pool.new ≡ pool.old) × (self.new ≡ self.old)) }
        ensures staged { IsStaged pool.new.chains self.new }
        ensures kept { Leaves pool.old self.old pool.new self.new }
    {
        if from.is_empty() {
            return Ok(());
        }
        let end = first + from.len() as u64;
        let needed = self.needed(pool, first, from.len() as u64);
        let free = pool.free();
        if needed > free {
            return Err(NoBlocks { needed, free });
        }
        self.reach(end);
        self.write_blocks(pool, first, from, base_first, base);
        Ok(())
    }
}
