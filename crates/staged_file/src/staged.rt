//! Staged content as a chain in a pool, and the small changes of it that the calls are made of.
ghost use Rattle.std.specs.Prelude.{◌≡◌, ℕ, ◌+◌, ◌-◌, ◌*◌, ◌/◌, ◌%◌, ◌≤◌, ◌<◌, max, min, List, None, IfSome, IsTrue, false, length, slice_index};
ghost use Rattle.std.specs.Option.{option_copied};
ghost use Rattle.block_pool.specs.Chains.{ChainMap, at, entries_of};
ghost use Rattle.block_pool.specs.Pool.{give_chain, Keeps};
ghost use Rattle.staging_spec.specs.Blocks.{is_among, put_number, untouch};
ghost use Rattle.staging_spec.specs.Staging.{staged};
ghost use Rattle.staged_file.specs.Staged.{IsStaged, staging_of, touched_of, byte_at};
ghost use Rattle.staged_file.specs.Steps.{IsStep, Puts, Zeroes, Clears};

use block_pool::{BlockPool, Chain};
use std::marker::Model;

/// The bytes of a block.
pub(crate) const BLOCK: u64 = 65_536;

/// The staged content of a file. Its touched blocks stand in a chain of a pool that each call is lent; the rest is the
/// source's, or zeros.
#[derive(Debug, Drop)]
pub struct Staged {
    chain: Chain,
    base: u64,
    len: u64,
    limit: u64,
    touched: u64,
}

impl Model for Staged {
    ghost use Rattle.staged_file.specs.Staged.{StagedFile, staged_code};

    ghost Value = { StagedFile };

    ghost coded = { staged_code };

    ghost view = { λ s. record { chain = s.chain; base = s.base; size = s.len; limit = s.limit; touched = s.touched } };
}

impl Staged {
    /// A source of so many bytes is staged, at most 16,777,216. It takes no block and no memory.
    pub fn start(pool: &mut BlockPool, base: u64) -> Staged
        requires { base ≤ 16777216 }
        ensures ok { (source : List ℕ) → length source ≡ base → staging_of pool.new.chains result source ≡ staged source }
        ensures staged { IsStaged pool.new.chains result }
        ensures value { result ≡ record { chain = None; base = base; size = base; limit = base; touched = 0 } }
        ensures pool { pool.new ≡ pool.old }
    {
        let chain = pool.take(0).unwrap();
        Staged {
            chain,
            base,
            len: base,
            limit: base,
            touched: 0,
        }
    }

    /// What `start` makes, over any pool: a source of so many bytes, at most 16,777,216, of which no block is touched.
    pub fn bare(base: u64) -> Staged
        requires { base ≤ 16777216 }
        ensures value { result ≡ record { chain = None; base = base; size = base; limit = base; touched = 0 } }
        ensures staged { (chains : ChainMap (List ℕ)) → IsStaged chains result }
    {
        Staged {
            chain: Chain::empty(),
            base,
            len: base,
            limit: base,
            touched: 0,
        }
    }

    /// The length of the content.
    pub fn len(&self) -> u64
        ensures { result ≡ self.now.size }
    {
        self.len
    }

    /// How many blocks are touched.
    pub fn touched(&self) -> u64
        ensures { result ≡ self.now.touched }
    {
        self.touched
    }

    /// Its blocks are free again.
    pub fn spend(self, pool: &mut BlockPool)
        requires { IsStaged pool.old.chains self }
        ensures ok { pool.new ≡ give_chain pool.old self.chain }
        ensures kept { Keeps pool.old.chains pool.new.chains self.chain None }
    {
        let Staged {
            chain,
            base: _,
            len: _,
            limit: _,
            touched: _,
        } = self;
        pool.give(chain);
    }

    /// The least length that the content has had: below it a byte of a block that isn't touched is the source's.
    pub(crate) fn limit(&self) -> u64
        ensures { result ≡ self.now.limit }
    {
        self.limit
    }

    /// The content is at least this long from now on.
    pub(crate) fn reach(&mut self, end: u64)
        ensures { self.new ≡ record self.old { size = max self.old.size end } }
    {
        self.len = self.len.max(end);
    }

    /// Whether a block is touched.
    pub(crate) fn holds(&self, pool: &BlockPool, block: u64) -> bool
        requires { IsStaged pool.now.chains self.now }
        ensures { result ≡ is_among (touched_of pool.now.chains self.now) block }
    {
        pool.holds(&self.chain, block)
    }

    /// The bytes of a block, lent, where it is touched.
    pub(crate) fn block<'a>(&self, pool: &'a BlockPool, block: u64) -> Option<&'a [u8]>
        requires { IsStaged pool.now.chains self.now }
        ensures ok { option_copied result ≡ at (entries_of pool.now.chains self.now.chain) block }
        ensures len { IfSome result (λ bytes. length bytes.now ≡ 65536) }
    {
        pool.block(&self.chain, block)
    }

    /// Touches a block, which is all zeros then. A block must be free.
    pub(crate) fn add_block(&mut self, pool: &mut BlockPool, block: u64)
        requires staged { IsStaged pool.old.chains self.old }
        requires absent { is_among (touched_of pool.old.chains self.old) block ≡ false }
        requires free { 0 < pool.old.free }
        requires inside { block * 65536 < self.old.size }
        ensures step { IsStep pool.old self.old pool.new self.new }
        ensures touched { touched_of pool.new.chains self.new ≡ put_number (touched_of pool.old.chains self.old) block }
        ensures free { pool.new.free + 1 ≡ pool.old.free }
        ensures bytes { (source : List ℕ) → Zeroes (byte_at pool.old.chains self.old source) (byte_at pool.new.chains self.new source) block }
    {
        pool.insert_sorted(&mut self.chain, block);
        self.touched += 1;
    }

    /// Copies bytes into a touched block, from a place of the content on.
    pub(crate) fn copy_in(&mut self, pool: &mut BlockPool, low: u64, part: &[u8])
        requires staged { IsStaged pool.old.chains self.old }
        requires there { IsTrue (is_among (touched_of pool.old.chains self.old) (low / 65536)) }
        requires block { low % 65536 + length part.now ≤ 65536 }
        requires inside { low + length part.now ≤ self.old.size }
        ensures step { IsStep pool.old self.old pool.new self.new }
        ensures touched { touched_of pool.new.chains self.new ≡ touched_of pool.old.chains self.old }
        ensures held { put_number (touched_of pool.old.chains self.old) (low / 65536) ≡ touched_of pool.old.chains self.old }
        ensures free { pool.new.free ≡ pool.old.free }
        ensures bytes { (source : List ℕ) → Puts (byte_at pool.old.chains self.old source) (byte_at pool.new.chains self.new source) low (low + length part.now) low part.now }
    {
        pool.write(&mut self.chain, low / BLOCK, low % BLOCK, part);
    }

    /// Cuts off the touched blocks that begin at or behind a length.
    pub(crate) fn cut(&mut self, pool: &mut BlockPool, len: u64)
        requires staged { IsStaged pool.old.chains self.old }
        ensures step { IsStep pool.old self.old pool.new self.new }
        ensures touched { touched_of pool.new.chains self.new ≡ untouch (touched_of pool.old.chains self.old) len }
        ensures bytes { (source : List ℕ) (i : ℕ) → i < len → byte_at pool.new.chains self.new source i ≡ byte_at pool.old.chains self.old source i }
    {
        let before = pool.free();
        pool.cut_from(&mut self.chain, len.div_ceil(BLOCK));
        self.touched -= pool.free() - before;
    }

    /// Makes the bytes of a touched block zeros, from a place of the content on.
    pub(crate) fn clear_from(&mut self, pool: &mut BlockPool, low: u64)
        requires staged { IsStaged pool.old.chains self.old }
        requires there { IsTrue (is_among (touched_of pool.old.chains self.old) (low / 65536)) }
        ensures step { IsStep pool.old self.old pool.new self.new }
        ensures touched { touched_of pool.new.chains self.new ≡ touched_of pool.old.chains self.old }
        ensures bytes { (source : List ℕ) → Clears (byte_at pool.old.chains self.old source) (byte_at pool.new.chains self.new source) low ((low / 65536 + 1) * 65536) }
    {
        pool.clear_from(&mut self.chain, low / BLOCK, low % BLOCK);
    }

    /// The content is shorter from now on.
    pub(crate) fn shorten(&mut self, len: u64)
        ensures { self.new ≡ record self.old { size = len; limit = min self.old.limit len } }
    {
        self.len = len;
        self.limit = self.limit.min(len);
    }

    /// Copies bytes out of a touched block, from a place of the content on.
    pub(crate) fn copy_out(&self, pool: &BlockPool, low: u64, part: &mut [u8])
        requires staged { IsStaged pool.now.chains self.now }
        requires there { IsTrue (is_among (touched_of pool.now.chains self.now) (low / 65536)) }
        requires block { low % 65536 + length part.old ≤ 65536 }
        ensures { (source : List ℕ) (k : ℕ) → k < length part.old → slice_index part.new k ≡ byte_at pool.now.chains self.now source (low + k) }
    {
        pool.read(&self.chain, low / BLOCK, low % BLOCK, part);
    }
}
