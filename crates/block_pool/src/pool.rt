//! The pool of blocks, and its calls.
ghost use Rattle.std.specs.Prelude.{◌≡◌, ℕ, ◌+◌, ◌-◌, ◌≤◌, ◌<◌, Bool, None, Some, IsSome, is_some, IfOk, IfSome, length, take, drop, nat_lt, nat_le, if◌then◌else◌};
ghost use Rattle.std.specs.Bool.{OnTrue, OnFalse};
ghost use Rattle.std.specs.FinMap as fin;
ghost use Rattle.std.specs.Option.{IfNone, option_copied};
ghost use Rattle.block_pool.specs.Chains.{at, entries_of, IsChain};
ghost use Rattle.block_pool.specs.Pool as spec;
ghost use Rattle.block_pool.specs.Pool.{IsPool, Keeps};
ghost use Rattle.staging_spec.specs.Content.{zeros};

use crate::chain::Chain;
use crate::links::Links;
use crate::region::Region;
use io_ports::NoMemory;
use std::alloc::Global;
use std::marker::Model;

/// A region of blocks of 65,536 bytes, and the chains that have them. Contracts see the chains that are not empty by
/// their heads, each as a list of its blocks at rising positions; how many blocks are free; and how many there are.
///
/// The last block of a chain is found, and one behind it is added, in a fixed number of steps; any other block of it in as
/// many steps as there are blocks before it. No call but `new` takes memory, and a block that was never used touches no
/// page.
#[derive(Drop)]
pub struct BlockPool {
    links: Links,
    region: Region,
}

impl Model for BlockPool {
    ghost use Rattle.block_pool.specs.Pool.{Pool, pool_code, pool_of, IsFilled};

    ghost Value = { Pool };

    ghost coded = { pool_code };

    ghost view = { λ p. pool_of p.links p.region };

    ghost invariant = { λ p. IsFilled p.links p.region };
}

impl BlockPool {
    /// A pool of so many blocks, all of them free. It takes all of its memory at once. `NoMemory` where that was refused.
    pub fn new(alloc: Global, blocks: u64) -> Result<BlockPool, NoMemory>
        ensures ok { IfOk result (λ pool. pool ≡ record { chains = fin.empty; free = blocks; blocks = blocks }) }
    {
        let links = Links::new(alloc, blocks as usize)?;
        let region = Region::new(alloc, blocks as usize)?;
        Ok(BlockPool { links, region })
    }

    /// How many blocks are free.
    pub fn free(&self) -> u64
        ensures count { result ≡ self.now.free }
        ensures valid { IsPool self.now }
    {
        self.links.free() as u64
    }

    /// Whether a chain has a block at a position.
    pub fn holds(&self, chain: &Chain, position: u64) -> bool
        requires { IsChain self.now.chains chain.now }
        ensures { result ≡ is_some (at (entries_of self.now.chains chain.now) position) }
    {
        let Some(head) = chain.head() else {
            return false;
        };
        self.links.find(head, position).is_some()
    }

    /// Gives a chain a block of zeros at a position where it has none. False exactly where no block is free; then
    /// nothing changes.
    pub fn insert_sorted(&mut self, chain: &mut Chain, position: u64) -> bool
        requires chain { IsChain self.old.chains chain.old }
        requires absent { at (entries_of self.old.chains chain.old) position ≡ None }
        ensures full { result ≡ nat_lt 0 self.old.free }
        ensures ok { OnTrue result ((self.new ≡ spec.put_block self.old chain.old chain.new position) × IsSome chain.new) }
        ensures err { OnFalse result ((self.new ≡ self.old) × (chain.new ≡ chain.old)) }
        ensures kept { Keeps self.old.chains self.new.chains chain.old chain.new }
        ensures valid { IsPool self.old }
    {
        if self.links.free() == 0 {
            return false;
        }
        let block = self.links.claim();
        self.region.ready(block);
        let head = self.links.link(chain.head(), block, position);
        chain.set_head(Some(head));
        true
    }

    /// Takes the blocks from a position on away from a chain; they are free again.
    pub fn cut_from(&mut self, chain: &mut Chain, position: u64)
        requires { IsChain self.old.chains chain.old }
        ensures ok { self.new ≡ spec.cut_chain self.old chain.old chain.new position }
        ensures head { chain.new ≡ spec.cut_head self.old.chains chain.old position }
        ensures kept { Keeps self.old.chains self.new.chains chain.old chain.new }
    {
        let Some(head) = chain.head() else {
            return;
        };
        let left = self.links.cut(head, position);
        chain.set_head(left);
    }

    /// Gives all blocks of a chain back.
    pub fn give(&mut self, chain: Chain)
        requires { IsChain self.old.chains chain }
        ensures ok { self.new ≡ spec.give_chain self.old chain }
        ensures kept { Keeps self.old.chains self.new.chains chain None }
    {
        let mut chain = chain;
        self.cut_from(&mut chain, 0);
    }

    /// A chain of so many blocks of zeros, at the positions from 0 on. None exactly where fewer are free; then nothing
    /// changes.
    pub fn take(&mut self, count: u64) -> Option<Chain>
        ensures full { is_some result ≡ nat_le count self.old.free }
        ensures ok { IfSome result (λ chain. (self.new ≡ spec.take_chain self.old chain count) × Keeps self.old.chains self.new.chains None chain) }
        ensures head { IfSome result (λ chain. is_some chain ≡ nat_lt 0 count) }
        ensures err { IfNone result (self.new ≡ self.old) }
    {
        if self.free() < count {
            return None;
        }
        let mut chain = Chain::empty();
        for position in 0..count {
            self.insert_sorted(&mut chain, position);
        }
        Some(chain)
    }

    /// The bytes of the block at a position of a chain, lent, where it has one.
    pub fn block(&self, chain: &Chain, position: u64) -> Option<&[u8]>
        requires { IsChain self.now.chains chain.now }
        ensures ok { option_copied result ≡ at (entries_of self.now.chains chain.now) position }
        ensures len { IfSome result (λ bytes. length bytes.now ≡ 65536) }
    {
        let Some(head) = chain.head() else {
            return None;
        };
        let Some(block) = self.links.find(head, position) else {
            return None;
        };
        Some(self.region.block(block))
    }

    /// Copies bytes out of the block at a position, from a place in it on.
    pub fn read(&self, chain: &Chain, position: u64, first: u64, out: &mut [u8])
        requires chain { IsChain self.now.chains chain.now }
        requires there { IsSome (at (entries_of self.now.chains chain.now) position) }
        requires range { first + length out.old ≤ 65536 }
        ensures ok { out.new ≡ take (length out.old) (drop first (spec.block_at self.now.chains chain.now position)) }
    {
        let head = chain.head().unwrap();
        let block = self.links.find(head, position).unwrap();
        self.region.read(block, first as usize, out);
    }

    /// Copies bytes into the block at a position, from a place in it on.
    pub fn write(&mut self, chain: &mut Chain, position: u64, first: u64, from: &[u8])
        requires chain { IsChain self.old.chains chain.old }
        requires there { IsSome (at (entries_of self.old.chains chain.old) position) }
        requires range { first + length from.now ≤ 65536 }
        ensures ok { self.new ≡ spec.write_block self.old chain.old position first from.now }
        ensures head { chain.new ≡ chain.old }
        ensures kept { Keeps self.old.chains self.new.chains chain.old chain.new }
        ensures valid { IsPool self.old }
    {
        let head = chain.head().unwrap();
        let block = self.links.find(head, position).unwrap();
        self.region.write(block, first as usize, from);
    }

    /// Makes the bytes of the block at a position zeros, from a place in it on.
    pub fn clear_from(&mut self, chain: &mut Chain, position: u64, first: u64)
        requires chain { IsChain self.old.chains chain.old }
        requires there { IsSome (at (entries_of self.old.chains chain.old) position) }
        requires range { first ≤ 65536 }
        ensures ok { self.new ≡ spec.write_block self.old chain.old position first (zeros (65536 - first)) }
        ensures head { chain.new ≡ chain.old }
        ensures kept { Keeps self.old.chains self.new.chains chain.old chain.new }
        ensures valid { IsPool self.old }
    {
        let head = chain.head().unwrap();
        let block = self.links.find(head, position).unwrap();
        self.region.clear_from(block, first as usize);
    }
}
