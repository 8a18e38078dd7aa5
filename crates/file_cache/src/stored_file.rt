//! A content that stands in a chain of blocks.
ghost use Rattle.std.specs.Prelude.{◌≡◌, ◌+◌, ◌≤◌, ◌<◌, None, length, take, drop};
ghost use Rattle.block_pool.specs.Chains.{IsChain};
ghost use Rattle.block_pool.specs.Pool.{Keeps, give_chain};
ghost use Rattle.cache_spec.specs.KeptFiles.{blocks_of};

use crate::blocks::{append, blocks_for, part_at};
use block_pool::{BLOCK, BlockPool, Chain};

/// A content that stands in a chain of blocks, its first bytes in the block at 0.
#[derive(Debug, Drop)]
pub struct StoredFile {
    chain: Chain,
    len: usize,
}

impl StoredFile {
    ghost use Rattle.file_cache.specs.Stored.{content_in, IsStored, IsStoredAs, IsPart};

    /// Puts bytes into free blocks of a region. Each block is found and written in a fixed number of steps.
    pub fn store(region: &mut BlockPool, bytes: &[u8]) -> StoredFile
        requires some { 1 ≤ length bytes.now }
        requires free { blocks_of bytes.now ≤ region.old.free }
        ensures { IsStoredAs region.old region.new result bytes.now }
    {
        let mut chain = region.take(0).unwrap();
        for position in 0..blocks_for(bytes) {
            append(region, &mut chain, position, part_at(bytes, position));
        }
        StoredFile {
            chain,
            len: bytes.len(),
        }
    }

    /// Copies bytes of the content out, from a place on.
    pub fn read(&self, region: &BlockPool, first: usize, out: &mut [u8])
        requires stored { IsStored region.now.chains self.now }
        requires range { first + length out.old ≤ self.now.len }
        ensures { out.new ≡ take (length out.old) (drop first (content_in region.now.chains self.now)) }
    {
        let mut done = 0;
        while done < out.len() {
            done += self.read_part(region, first, out, done);
        }
    }

    /// Copies those bytes out that stand in one block, where so many are done. How many these are.
    fn read_part(&self, region: &BlockPool, first: usize, out: &mut [u8], done: usize) -> usize
        requires stored { IsStored region.now.chains self.now }
        requires range { first + length out.old ≤ self.now.len }
        requires more { done < length out.old }
        ensures { IsPart (drop first (content_in region.now.chains self.now)) out.old out.new done result }
    {
        let place = first + done;
        let (_done, rest) = out.split_at_mut(done);
        let count = rest.len().min(BLOCK - place % BLOCK);
        let (part, _later) = rest.split_at_mut(count);
        let position = (place / BLOCK) as u64;
        region.read(&self.chain, position, (place % BLOCK) as u64, part);
        count
    }

    /// Gives the blocks back, in a fixed number of steps.
    pub fn give(self, region: &mut BlockPool)
        requires { IsChain region.old.chains self.chain }
        ensures ok { region.new ≡ give_chain region.old self.chain }
        ensures kept { Keeps region.old.chains region.new.chains self.chain None }
    {
        region.give(self.chain);
    }
}
