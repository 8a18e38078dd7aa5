//! Reading: bytes of touched blocks, and of the source or zeros elsewhere.
ghost use Rattle.std.specs.Prelude.{◌≡◌, ℕ, ◌+◌, ◌-◌, ◌*◌, ◌/◌, ◌%◌, ◌<◌, ◌≤◌, max, min, List, false, length, take, drop, slice_index};
ghost use Rattle.staging_spec.specs.Blocks.{is_among};
ghost use Rattle.staging_spec.specs.Wanted.{wanted_by_read};
ghost use Rattle.staging_spec.specs.Slices.{Covers, Holds};
ghost use Rattle.staging_spec.specs.Overlays.{source_byte};
ghost use Rattle.staged_file.specs.Staged.{IsStaged, staging_of, touched_of, byte_at};
ghost use Rattle.staged_file.specs.Steps.{CanRead, Reads};

use crate::staged::{BLOCK, Staged};
use block_pool::BlockPool;

impl Staged {
    /// Copies a range of the content out. The base slice, from byte `base_first` of the source on, holds what `needs_read`
    /// tells.
    pub fn read(&self, pool: &BlockPool, first: u64, out: &mut [u8], base_first: u64, base: &[u8])
        requires staged { IsStaged pool.now.chains self.now }
        requires range { first + length out.old ≤ self.now.size }
        requires wanted { Covers base_first (length base.now) (wanted_by_read (touched_of pool.now.chains self.now) self.now.limit first (length out.old)) }
        ensures ok { (source : List ℕ) → Holds source base_first base.now → out.new ≡ take (length out.old) (drop first (staging_of pool.now.chains self.now source).content) }
    {
        if out.is_empty() {
            return;
        }
        let back = (first + out.len() as u64 - 1) / BLOCK;
        for block in first / BLOCK..back + 1 {
            self.read_block(pool, block, first, out, base_first, base);
        }
    }

    /// Copies those bytes out that lie in one block. The first byte of `out` stands at `first`.
    pub(crate) fn read_block(
        &self,
        pool: &BlockPool,
        block: u64,
        first: u64,
        out: &mut [u8],
        base_first: u64,
        base: &[u8],
    )
        requires staged { IsStaged pool.now.chains self.now }
        requires some { 0 < length out.old }
        requires meets { (block * 65536 < first + length out.old) × (first < (block + 1) * 65536) }
        requires range { first + length out.old ≤ self.now.size }
        requires wanted { is_among (touched_of pool.now.chains self.now) block ≡ false → CanRead self.now.limit (max first (block * 65536)) (min (first + length out.old) ((block + 1) * 65536)) base_first (length base.now) }
        ensures { (source : List ℕ) → Holds source base_first base.now → Reads (byte_at pool.now.chains self.now source) first out.old out.new (max first (block * 65536)) (min (first + length out.old) ((block + 1) * 65536)) }
    {
        let start = block * BLOCK;
        let low = first.max(start);
        let high = (first + out.len() as u64).min(start + BLOCK);
        let part = &mut out[(low - first) as usize..(high - first) as usize];
        self.read_part(pool, low, part, base_first, base);
    }

    /// Copies bytes out of one block, from a place of the content on.
    fn read_part(&self, pool: &BlockPool, low: u64, part: &mut [u8], base_first: u64, base: &[u8])
        requires staged { IsStaged pool.now.chains self.now }
        requires block { low % 65536 + length part.old ≤ 65536 }
        requires wanted { is_among (touched_of pool.now.chains self.now) (low / 65536) ≡ false → CanRead self.now.limit low (low + length part.old) base_first (length base.now) }
        ensures { (source : List ℕ) → Holds source base_first base.now → (k : ℕ) → k < length part.old → slice_index part.new k ≡ byte_at pool.now.chains self.now source (low + k) }
    {
        if self.holds(pool, low / BLOCK) {
            self.copy_out(pool, low, part);
            return;
        }
        copy_source(self.limit(), low, part, base_first, base);
    }
}

/// What stands in no touched block from a place on: bytes of the source below the limit, and zeros behind it.
fn copy_source(limit: u64, low: u64, part: &mut [u8], base_first: u64, base: &[u8])
    requires { CanRead limit low (low + length part.old) base_first (length base.now) }
    ensures { (source : List ℕ) → Holds source base_first base.now → (k : ℕ) → k < length part.old → slice_index part.new k ≡ source_byte limit source (low + k) }
{
    let kept = limit.saturating_sub(low).min(part.len() as u64) as usize;
    let (front, back) = part.split_at_mut(kept);
    back.fill(0);
    if front.is_empty() {
        return;
    }
    let at = (low - base_first) as usize;
    front.copy_from_slice(&base[at..at + kept]);
}
