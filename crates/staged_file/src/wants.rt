//! Which range of the source a READ, a WRITE and a flush of staged content want.
ghost use Rattle.std.specs.Prelude.{◌≡◌, ℕ, ◌+◌, ◌≤◌, Bool};
ghost use Rattle.staging_spec.specs.Blocks.{is_among};
ghost use Rattle.staging_spec.specs.Wanted.{IsWithin, wanted_by_read, wanted_by_write, wanted_by_flush};
ghost use Rattle.staged_file.specs.Sources.{range_of};
ghost use Rattle.staged_file.specs.Spans.{Spans, IsRest};
ghost use Rattle.staged_file.specs.Staged.{IsStaged, touched_of};

use crate::span::Span;
use crate::staged::{BLOCK, Staged};
use crate::wanted::Wanted;
use block_pool::BlockPool;

impl Staged {
    /// What a READ of a range wants of the source: the bytes asked that lie below the limit and in no touched block. The
    /// range goes from the first such byte to the last.
    pub fn needs_read(&self, pool: &BlockPool, first: u64, count: u64) -> Wanted
        requires staged { IsStaged pool.now.chains self.now }
        requires range { first + count ≤ self.now.size }
        ensures ok { range_of result ≡ wanted_by_read (touched_of pool.now.chains self.now) self.now.limit first count }
        ensures within { IsWithin (range_of result) self.now.limit }
    {
        let mut span = Span::none();
        let end = self.limit().min(first + count);
        for block in first / BLOCK..end.div_ceil(BLOCK) {
            let low = first.max(block * BLOCK);
            let high = end.min((block + 1) * BLOCK);
            self.want(pool, &mut span, block, low, high);
        }
        span.wanted()
    }

    /// What a WRITE of a range wants of the source: what it leaves of the blocks that it touches for the first time, below
    /// the limit. Only the first and the last of its blocks have such a rest.
    pub fn needs_write(&self, pool: &BlockPool, first: u64, count: u64) -> Wanted
        requires staged { IsStaged pool.now.chains self.now }
        requires range { first + count ≤ 16777216 }
        ensures ok { range_of result ≡ wanted_by_write (touched_of pool.now.chains self.now) self.now.limit first count }
        ensures within { IsWithin (range_of result) self.now.limit }
    {
        let mut span = Span::none();
        if count == 0 {
            return span.wanted();
        }
        let end = first + count;
        let front = first / BLOCK;
        let back = (end - 1) / BLOCK;
        let limit = self.limit();
        self.want(pool, &mut span, front, front * BLOCK, limit.min(first));
        self.want(pool, &mut span, back, end, limit.min((back + 1) * BLOCK));
        span.wanted()
    }

    /// What a FLUSH or an FSYNC wants of the source: all bytes that are still the source's.
    pub fn needs_all(&self, pool: &BlockPool) -> Wanted
        requires { IsStaged pool.now.chains self.now }
        ensures ok { range_of result ≡ wanted_by_flush (touched_of pool.now.chains self.now) self.now.limit }
        ensures within { IsWithin (range_of result) self.now.limit }
    {
        self.needs_read(pool, 0, self.limit())
    }

    /// Takes a range of the bytes of a block, where the block isn't touched. It lies behind all before it.
    fn want(&self, pool: &BlockPool, span: &mut Span, block: u64, from: u64, upto: u64)
        requires { IsStaged pool.now.chains self.now }
        ensures { (test : ℕ → Bool) (low mid high : ℕ) → Spans test low mid span.old.first span.old.end → IsRest (is_among (touched_of pool.now.chains self.now) block) test low mid high from upto → Spans test low high span.new.first span.new.end }
    {
        if self.holds(pool, block) {
            return;
        }
        span.add(from, upto);
    }
}
