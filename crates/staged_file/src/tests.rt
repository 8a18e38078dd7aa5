//! What no clause says: worked contents at the edges of blocks, by hand.
ghost use Rattle.std.specs.Prelude.{◌≡◌, ◌≤◌, IfOk, length};
ghost use Rattle.staged_file.specs.Staged.{IsStaged};

use crate::{NoBlocks, Staged};
use block_pool::BlockPool;
use io_ports::NoMemory;
use std::alloc::Global;
use std::test::Fail;

/// A value, and how many bytes of a content have it, one behind the other.
type Run = (u8, usize);

/// The value of each byte of a source.
const SOURCE: u8 = b'a';

/// The value of each byte that is written.
const INK: u8 = b'b';

/// The most bytes of a content.
const MOST: usize = 16_777_216;

/// So many bytes of one value.
fn bytes_of(alloc: Global, count: usize, value: u8) -> Result<Vec<u8>, NoMemory>
    ensures { IfOk result (λ bytes. length bytes.items ≡ count) }
{
    let mut bytes = Vec::new(alloc);
    bytes.resize(count, value)?;
    Ok(bytes)
}

/// Whether bytes are these runs.
fn is_made_of(bytes: &[u8], runs: &[Run]) -> bool {
    let mut rest = bytes;
    for &(value, count) in runs {
        if count > rest.len() {
            return false;
        }
        let (run, more) = rest.split_at(count);
        if run.iter().any(|&byte| byte != value) {
            return false;
        }
        rest = more;
    }
    rest.is_empty()
}

/// Writes bytes, with what is wanted of the source, as near to the place as there is room; the answer where it is refused.
fn put(
    pool: &mut BlockPool,
    file: &mut Staged,
    source: &[u8],
    first: usize,
    from: &[u8],
) -> Option<NoBlocks>
    requires staged { IsStaged pool.old.chains file.old }
    requires source { length source.now ≡ file.old.base }
    requires most { length from.now ≤ 16777216 }
    ensures staged { IsStaged pool.new.chains file.new }
    ensures source { length source.now ≡ file.new.base }
{
    let first = first.min(MOST - from.len()) as u64;
    let wanted = file.needs_write(pool, first, from.len() as u64);
    let base = &source[wanted.first as usize..(wanted.first + wanted.count) as usize];
    file.write(pool, first, from, wanted.first, base).err()
}

/// Whether a READ of the whole content gives these runs.
fn reads(
    alloc: Global,
    pool: &BlockPool,
    file: &Staged,
    source: &[u8],
    runs: &[Run],
) -> Result<bool, NoMemory>
    requires staged { IsStaged pool.now.chains file.now }
    requires source { length source.now ≡ file.now.base }
{
    let mut out = bytes_of(alloc, file.len() as usize, 1)?;
    let wanted = file.needs_read(pool, 0, file.len());
    let base = &source[wanted.first as usize..(wanted.first + wanted.count) as usize];
    file.read(pool, 0, out.as_mut_slice(), wanted.first, base);
    Ok(is_made_of(out.as_slice(), runs))
}

/// Whether a finished copy is these runs.
fn freezes(
    alloc: Global,
    pool: &BlockPool,
    file: &Staged,
    source: &[u8],
    runs: &[Run],
) -> Result<bool, NoMemory>
    requires staged { IsStaged pool.now.chains file.now }
    requires source { length source.now ≡ file.now.base }
{
    let wanted = file.needs_all(pool);
    let base = &source[wanted.first as usize..(wanted.first + wanted.count) as usize];
    let frozen = file.freeze(alloc, pool)?;
    let bytes = frozen.finish(wanted.first, base);
    Ok(is_made_of(bytes.as_slice(), runs))
}

/// Whether a READ and a finished copy show these runs.
fn shows(
    alloc: Global,
    pool: &BlockPool,
    file: &Staged,
    source: &[u8],
    runs: &[Run],
) -> Result<bool, NoMemory>
    requires staged { IsStaged pool.now.chains file.now }
    requires source { length source.now ≡ file.now.base }
{
    if !reads(alloc, pool, file, source, runs)? {
        return Ok(false);
    }
    freezes(alloc, pool, file, source, runs)
}

/// Stages a source of so many bytes, and writes its last byte over, or the first one of none. Whether it is shown before
/// and after.
fn last_byte(alloc: Global, pool: &mut BlockPool, source: &[u8]) -> Result<(bool, bool), NoMemory>
    requires { length source.now ≤ 16777216 }
{
    let mut file = Staged::start(pool, source.len() as u64);
    let before = shows(alloc, pool, &file, source, &[(SOURCE, source.len())])?;
    let last = source.len().saturating_sub(1);
    put(pool, &mut file, source, last, &[INK]);
    let after = shows(alloc, pool, &file, source, &[(SOURCE, last), (INK, 1)])?;
    file.spend(pool);
    Ok((before, after))
}

#[test]
fn contents_at_the_edges_of_blocks(rt: HostRuntime) -> Result<(), Fail> {
    let whole = bytes_of(rt.alloc(), MOST, SOURCE)?;
    let mut pool = BlockPool::new(rt.alloc(), 1)?;
    for size in [0, 1, 65_535, 65_536, 65_537, MOST] {
        let source = &whole.as_slice()[..size.min(MOST)];
        let seen = last_byte(rt.alloc(), &mut pool, source)?;
        assert_eq!(rt; seen, (true, true), "{size} bytes");
    }
    Ok(())
}

/// What a row does.
enum Act {
    /// Writes so many bytes at a place.
    Write(usize, usize),
    /// Gives the content another length.
    Resize(usize),
}

/// An act; the blocks that it would newly touch and those that are free, where it is refused; and the content behind it.
struct Row {
    act: Act,
    refused: Option<NoBlocks>,
    runs: &'static [Run],
}

/// What is done to a source of 65,537 bytes in a pool of three blocks.
static ROWS: [Row; 13] = [
    Row {
        act: Act::Write(65_535, 2),
        refused: None,
        runs: &[(SOURCE, 65_535), (INK, 2)],
    },
    Row {
        act: Act::Resize(65_536),
        refused: None,
        runs: &[(SOURCE, 65_535), (INK, 1)],
    },
    Row {
        act: Act::Resize(65_537),
        refused: None,
        runs: &[(SOURCE, 65_535), (INK, 1), (0, 1)],
    },
    Row {
        act: Act::Write(131_072, 1),
        refused: None,
        runs: &[(SOURCE, 65_535), (INK, 1), (0, 65_536), (INK, 1)],
    },
    Row {
        act: Act::Write(65_536, 131_073),
        refused: Some(NoBlocks { needed: 2, free: 1 }),
        runs: &[(SOURCE, 65_535), (INK, 1), (0, 65_536), (INK, 1)],
    },
    Row {
        act: Act::Write(65_535, 65_538),
        refused: None,
        runs: &[(SOURCE, 65_535), (INK, 65_538)],
    },
    Row {
        act: Act::Write(MOST - 1, 1),
        refused: Some(NoBlocks { needed: 1, free: 0 }),
        runs: &[(SOURCE, 65_535), (INK, 65_538)],
    },
    Row {
        act: Act::Resize(1),
        refused: None,
        runs: &[(SOURCE, 1)],
    },
    Row {
        act: Act::Write(MOST - 1, 1),
        refused: None,
        runs: &[(SOURCE, 1), (0, MOST - 2), (INK, 1)],
    },
    Row {
        act: Act::Resize(65_536),
        refused: None,
        runs: &[(SOURCE, 1), (0, 65_535)],
    },
    Row {
        act: Act::Resize(0),
        refused: None,
        runs: &[],
    },
    Row {
        act: Act::Write(1, 0),
        refused: None,
        runs: &[],
    },
    Row {
        act: Act::Resize(1),
        refused: None,
        runs: &[(0, 1)],
    },
];

/// Performs a row's act; whether it is refused as the row says, and whether the content behind it is shown.
fn follows(
    alloc: Global,
    pool: &mut BlockPool,
    file: &mut Staged,
    source: &[u8],
    ink: &[u8],
    row: &Row,
) -> Result<(bool, bool), NoMemory>
    requires staged { IsStaged pool.old.chains file.old }
    requires source { length source.now ≡ file.old.base }
    requires most { length ink.now ≤ 16777216 }
    ensures staged { IsStaged pool.new.chains file.new }
    ensures source { length source.now ≡ file.new.base }
{
    let refused = perform(pool, file, source, ink, &row.act);
    let shown = shows(alloc, pool, file, source, row.runs)?;
    Ok((refused == row.refused, shown))
}

/// Performs an act; the answer where it is refused.
fn perform(
    pool: &mut BlockPool,
    file: &mut Staged,
    source: &[u8],
    ink: &[u8],
    act: &Act,
) -> Option<NoBlocks>
    requires staged { IsStaged pool.old.chains file.old }
    requires source { length source.now ≡ file.old.base }
    requires most { length ink.now ≤ 16777216 }
    ensures staged { IsStaged pool.new.chains file.new }
    ensures source { length source.now ≡ file.new.base }
{
    match act {
        Act::Write(first, count) => {
            let count = (*count).min(ink.len());
            put(pool, file, source, *first, &ink[..count])
        }
        Act::Resize(len) => {
            file.set_len(pool, (*len).min(MOST) as u64);
            None
        }
    }
}

#[test]
fn a_content_row_by_row(rt: HostRuntime) -> Result<(), Fail> {
    let source = bytes_of(rt.alloc(), 65_537, SOURCE)?;
    let ink = bytes_of(rt.alloc(), 131_073, INK)?;
    let mut pool = BlockPool::new(rt.alloc(), 3)?;
    let mut file = Staged::start(&mut pool, 65_537);
    for row in &ROWS {
        let seen = follows(
            rt.alloc(),
            &mut pool,
            &mut file,
            source.as_slice(),
            ink.as_slice(),
            row,
        )?;
        assert_eq!(rt; seen, (true, true), "{:?}", row.runs);
    }
    Ok(())
}
