//! Bytes as the blocks of a chain.
ghost use Rattle.std.specs.Prelude.{◌≡◌, ◌+◌, ◌*◌, ◌≤◌, length, take, drop};
ghost use Rattle.block_pool.specs.Chains.{entries_of, IsChain};
ghost use Rattle.cache_spec.specs.KeptFiles.{blocks_of};
ghost use Rattle.file_cache.specs.Stored.{IsNumbered, IsAppended};

use block_pool::{BLOCK, BlockPool, Chain};

/// Puts a block more behind the last one of a chain, with these bytes at its begin.
pub fn append(region: &mut BlockPool, chain: &mut Chain, position: u64, bytes: &[u8])
    requires chain { IsChain region.old.chains chain.old }
    requires numbered { IsNumbered 0 (entries_of region.old.chains chain.old) }
    requires position { length (entries_of region.old.chains chain.old) ≡ position }
    requires free { 1 ≤ region.old.free }
    requires fits { length bytes.now ≤ 65536 }
    ensures { IsAppended region.old region.new chain.old chain.new position bytes.now }
{
    region.insert_sorted(chain, position);
    region.write(chain, position, 0, bytes);
}

/// The bytes that stand in the block at a position: 65,536 of them, or fewer in the last one.
pub fn part_at(bytes: &[u8], position: u64) -> &[u8]
    requires { position * 65536 ≤ length bytes.now }
    ensures { result.now ≡ take 65536 (drop (position * 65536) bytes.now) }
{
    let (_front, rest) = bytes.split_at(position as usize * BLOCK);
    let (part, _back) = rest.split_at(rest.len().min(BLOCK));
    part
}

/// How many blocks bytes take.
pub fn blocks_for(bytes: &[u8]) -> u64
    ensures { result ≡ blocks_of bytes.now }
{
    bytes.len().div_ceil(BLOCK) as u64
}
