//! Tests of the pool: blocks that are taken, cut and given back, row by row.
ghost use Rattle.block_pool.specs.Chains.{IsChain};

use crate::{BlockPool, Chain};
use std::test::Fail;

/// Gives a chain a block, where it has none at the position.
fn insert(pool: &mut BlockPool, chain: &mut Chain, position: u64) -> Option<bool>
    requires { IsChain pool.old.chains chain.old }
    ensures { IsChain pool.new.chains chain.new }
{
    if pool.holds(chain, position) {
        return None;
    }
    Some(pool.insert_sorted(chain, position))
}

/// The byte at a place of a block, where the chain has it.
fn byte_at(pool: &BlockPool, chain: &Chain, position: u64, first: u64) -> Option<u8>
    requires { IsChain pool.now.chains chain.now }
{
    if first >= 65_536 || !pool.holds(chain, position) {
        return None;
    }
    let mut out = [7u8];
    pool.read(chain, position, first, &mut out);
    Some(out[0])
}

/// Writes a byte into a block, where the chain has it.
fn put_byte(pool: &mut BlockPool, chain: &mut Chain, position: u64, first: u64) -> bool
    requires { IsChain pool.old.chains chain.old }
    ensures { IsChain pool.new.chains chain.new }
{
    if first >= 65_536 || !pool.holds(chain, position) {
        return false;
    }
    pool.write(chain, position, first, &[9]);
    true
}

#[test]
fn three_blocks_are_taken_and_cut(rt: HostRuntime) -> Result<(), Fail> {
    let mut pool = BlockPool::new(rt.alloc(), 3)?;
    let mut chain = pool.take(2).ok_or("two blocks")?;
    assert_eq!(rt; pool.free(), 1);
    assert_eq!(rt; insert(&mut pool, &mut chain, 5), Some(true));
    assert_eq!(rt; pool.free(), 0);
    assert!(rt; pool.take(1).is_none());
    pool.cut_from(&mut chain, 1);
    assert_eq!(rt; pool.free(), 2);
    assert_eq!(rt; byte_at(&pool, &chain, 0, 65_535), Some(0));
    assert_eq!(rt; byte_at(&pool, &chain, 1, 0), None);
    pool.give(chain);
    assert_eq!(rt; pool.free(), 3);
    Ok(())
}

#[test]
fn a_block_given_back_is_zeros_again(rt: HostRuntime) -> Result<(), Fail> {
    let mut pool = BlockPool::new(rt.alloc(), 1)?;
    let mut chain = pool.take(1).ok_or("one block")?;
    assert!(rt; put_byte(&mut pool, &mut chain, 0, 100));
    assert_eq!(rt; byte_at(&pool, &chain, 0, 100), Some(9));
    pool.give(chain);
    let mut next = pool.take(0).ok_or("no block")?;
    assert_eq!(rt; byte_at(&pool, &next, 0, 100), None);
    assert_eq!(rt; insert(&mut pool, &mut next, 7), Some(true));
    assert_eq!(rt; byte_at(&pool, &next, 7, 100), Some(0));
    let mut other = pool.take(0).ok_or("no block")?;
    assert_eq!(rt; insert(&mut pool, &mut other, 7), Some(false));
    Ok(())
}
