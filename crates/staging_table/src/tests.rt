//! What no clause says: contents of two files in one block, times, and zeros past an end, worked by hand.
ghost use Rattle.std.specs.Prelude.{◌≡◌, ◌+◌, ◌≤◌, length};

use crate::StagingTable;
use io_ports::NoMemory;
use staged_file::Wanted;
use std::alloc::Global;
use std::test::Fail;

/// The most bytes of a source, and the last place of a write, that the tests use.
const MOST: usize = 1_000;

/// The bytes of a source that are wanted, where it has them; else none.
fn wanted_of(source: &[u8], wanted: Wanted) -> &[u8] {
    let first = wanted.first as usize;
    source
        .get(first..first.saturating_add(wanted.count as usize))
        .unwrap_or(&[])
}

/// Writes bytes into a file over its source, at second 7. Whether they fit; false too where the test is out of its ranges.
fn write(
    table: &mut StagingTable,
    node: u64,
    source: &[u8],
    first: usize,
    from: &[u8],
) -> Result<bool, NoMemory> {
    if from.is_empty() || from.len().max(source.len()).max(first) > MOST {
        return Ok(false);
    }
    table.reserve(1)?;
    let size = source.len() as u64;
    let wanted = table.wanted_by_write(node, size, first as u64, from.len() as u64);
    let base = wanted_of(source, wanted);
    if (base.len() as u64) < wanted.count {
        return Ok(false);
    }
    let written = table.write(node, size, first as u64, from, wanted.first, base, 7);
    Ok(written.is_ok())
}

/// Whether a READ of all that is staged of a file, over its source, gives these bytes.
fn reads(table: &StagingTable, node: u64, source: &[u8], bytes: &[u8]) -> bool {
    let mut out = [1u8; 8];
    let Some(len) = table.len(node) else {
        return false;
    };
    if len > 8 || source.len() > MOST {
        return false;
    }
    let size = source.len() as u64;
    let wanted = table.wanted_by_read(node, size, 0, len);
    let base = wanted_of(source, wanted);
    if (base.len() as u64) < wanted.count {
        return false;
    }
    let part = &mut out[..len as usize];
    table.read(node, size, 0, part, wanted.first, base);
    &*part == bytes
}

/// Whether a finished copy of a file, over its source, is these bytes.
fn freezes(
    alloc: Global,
    table: &StagingTable,
    node: u64,
    source: &[u8],
    bytes: &[u8],
) -> Result<bool, NoMemory> {
    if source.len() > MOST {
        return Ok(false);
    }
    let size = source.len() as u64;
    let wanted = table.wanted_by_flush(node, size);
    let base = wanted_of(source, wanted);
    if (base.len() as u64) < wanted.count {
        return Ok(false);
    }
    let frozen = table.freeze(alloc, node, size)?;
    Ok(frozen.finish(wanted.first, base).as_slice() == bytes)
}

#[test]
fn two_files_share_one_block(rt: HostRuntime) -> Result<(), Fail> {
    let mut table = StagingTable::new(rt.alloc(), 1)?;
    assert!(rt; table.fits(3, 3, 1, 3));
    assert!(rt; write(&mut table, 2, b"", 0, b"one")?);
    assert!(rt; !table.fits(3, 3, 1, 3));
    assert!(rt; !write(&mut table, 3, b"abc", 1, b"two")?);
    assert!(rt; reads(&table, 2, b"", b"one"));
    table.end(2);
    assert_eq!(rt; table.len(2), None);
    assert!(rt; write(&mut table, 3, b"abc", 1, b"two")?);
    assert!(rt; reads(&table, 3, b"abc", b"atwo"));
    Ok(())
}

#[test]
fn a_change_sets_the_time(rt: HostRuntime) -> Result<(), Fail> {
    let mut table = StagingTable::new(rt.alloc(), 1)?;
    table.set_mtime(2, 5, 9);
    assert_eq!(rt; table.mtime(2), None);
    assert!(rt; write(&mut table, 2, b"", 0, b"one")?);
    assert_eq!(rt; table.mtime(2), Some((7, 0)));
    table.set_mtime(2, 5, 9);
    assert_eq!(rt; table.mtime(2), Some((5, 9)));
    table.reserve(1)?;
    table.resize(2, 0, 2, 8);
    assert_eq!(rt; table.mtime(2), Some((8, 0)));
    Ok(())
}

#[test]
fn zeros_stand_past_an_end(rt: HostRuntime) -> Result<(), Fail> {
    let mut table = StagingTable::new(rt.alloc(), 1)?;
    assert!(rt; write(&mut table, 2, b"abc", 5, b"x")?);
    assert!(rt; reads(&table, 2, b"abc", b"abc\0\0x"));
    table.reserve(2)?;
    table.resize(2, 3, 2, 8);
    table.resize(2, 3, 4, 8);
    assert!(rt; reads(&table, 2, b"abc", b"ab\0\0"));
    assert!(rt; freezes(rt.alloc(), &table, 2, b"abc", b"ab\0\0")?);
    Ok(())
}
