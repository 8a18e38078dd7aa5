//! Tests of the cache: worked steps of the order of use, exact sizes, generations, and that it may go to another thread.
ghost use Rattle.std.specs.Prelude.{◌≡◌, ◌≤◌, ◌+◌, [], None, false, length, vec_len, IfOk};
ghost use Rattle.cache_spec.specs.KeptFiles.{is_kept};

use crate::{FileCache, FileKey, Filled};
use io_ports::{NoMemory, Text};
use std::alloc::Global;
use std::marker::Send;
use std::process::Abort;
use std::test::Fail;

/// The key of a file.
fn key_of(alloc: Global, name: &str, generation: u64) -> Result<FileKey, NoMemory> {
    let name = Text::of(alloc, name)?;
    Ok(FileKey { name, generation })
}

/// So many bytes of one value.
fn bytes_of(alloc: Global, count: usize, byte: u8) -> Result<Vec<u8>, NoMemory>
    ensures { IfOk result (λ bytes. vec_len bytes ≡ count) }
{
    let mut bytes = Vec::new(alloc);
    bytes.resize(count, byte)?;
    Ok(bytes)
}

/// The first byte of a file, where it is kept; it is then the one used last.
fn first_byte(cache: &mut FileCache, key: &FileKey) -> Option<u8>
    ensures { result ≡ None → is_kept cache.new.files key.now ≡ false }
{
    if !cache.holds(key) {
        return None;
    }
    let mut out = [0u8];
    cache.get(key, 0, &mut out);
    Some(out[0])
}

/// Fills a file that isn't kept with so many bytes. What came of it.
fn fill(
    cache: &mut FileCache,
    alloc: Global,
    key: &FileKey,
    count: usize,
    byte: u8,
) -> Result<Filled, NoMemory>
    requires count { 1 ≤ count }
    requires absent { is_kept cache.old.files key.now ≡ false }
{
    let content = bytes_of(alloc, count, byte)?;
    let filled = cache.fill(key, &content);
    if filled == Filled::NoMemory {
        return Err(NoMemory);
    }
    Ok(filled)
}

/// The first byte of a file, where it is kept; else so many bytes are filled in. What came of that.
fn read(
    cache: &mut FileCache,
    alloc: Global,
    key: &FileKey,
    count: usize,
    byte: u8,
) -> Result<Result<u8, Filled>, NoMemory>
    requires { 1 ≤ count }
{
    if let Some(first) = first_byte(cache, key) {
        return Ok(Ok(first));
    }
    Ok(Err(fill(cache, alloc, key, count, byte)?))
}

/// Reads the first generation of a file of one block.
fn read_block(
    cache: &mut FileCache,
    alloc: Global,
    name: &str,
    byte: u8,
) -> Result<Result<u8, Filled>, NoMemory> {
    let key = key_of(alloc, name, 1)?;
    read(cache, alloc, &key, 65_536, byte)
}

/// Reads three files of a block each in turn, of which two have room.
fn three_in_turn(rt: &impl Abort, alloc: Global, cache: &mut FileCache) -> Result<(), NoMemory> {
    assert_eq!(rt; read_block(cache, alloc, "p", 1)?, Err(Filled::Kept));
    assert_eq!(rt; read_block(cache, alloc, "q", 2)?, Err(Filled::Kept));
    assert_eq!(rt; read_block(cache, alloc, "p", 3)?, Ok(1));
    assert_eq!(rt; read_block(cache, alloc, "r", 4)?, Err(Filled::Kept));
    assert_eq!(rt; read_block(cache, alloc, "p", 5)?, Ok(1));
    assert_eq!(rt; read_block(cache, alloc, "q", 6)?, Err(Filled::Kept));
    Ok(())
}

#[test]
fn the_file_used_longest_ago_goes_first(rt: HostRuntime) -> Result<(), Fail> {
    let mut cache = FileCache::new(rt.alloc(), 2)?;
    three_in_turn(&rt, rt.alloc(), &mut cache)?;
    Ok(())
}

/// Fills files of so many bytes, each under its own generation.
fn read_size(
    cache: &mut FileCache,
    alloc: Global,
    count: usize,
    byte: u8,
) -> Result<Result<u8, Filled>, NoMemory>
    requires { 1 ≤ count }
{
    let key = key_of(alloc, "f", count as u64)?;
    read(cache, alloc, &key, count, byte)
}

/// Reads files up to the region's size, and one past it.
fn up_to_the_region(rt: &impl Abort, alloc: Global, cache: &mut FileCache) -> Result<(), NoMemory> {
    assert_eq!(rt; read_size(cache, alloc, 1, 1)?, Err(Filled::Kept));
    assert_eq!(rt; read_size(cache, alloc, 65_536, 2)?, Err(Filled::Kept));
    assert_eq!(rt; read_size(cache, alloc, 1, 3)?, Ok(1));
    assert_eq!(rt; read_size(cache, alloc, 131_072, 4)?, Err(Filled::Kept));
    assert_eq!(rt; read_size(cache, alloc, 131_073, 5)?, Err(Filled::TooLarge));
    assert_eq!(rt; read_size(cache, alloc, 131_072, 6)?, Ok(4));
    assert_eq!(rt; read_size(cache, alloc, 1, 7)?, Err(Filled::Kept));
    Ok(())
}

#[test]
fn a_file_of_exactly_the_region_is_kept_alone(rt: HostRuntime) -> Result<(), Fail> {
    let mut cache = FileCache::new(rt.alloc(), 2)?;
    up_to_the_region(&rt, rt.alloc(), &mut cache)?;
    Ok(())
}

/// Fills an empty cache twice with one file, and copies bytes of it out.
fn fill_twice(
    cache: &mut FileCache,
    key: &FileKey,
    content: &[u8],
    first: u64,
    out: &mut [u8],
) -> Result<bool, NoMemory>
    requires empty { cache.old.files ≡ [] }
    requires some { 1 ≤ length content.now }
    requires range { first + length out.old ≤ length content.now }
{
    if cache.fill(key, content) != Filled::Kept {
        return Err(NoMemory);
    }
    if cache.fill(key, content) != Filled::Kept {
        return Ok(false);
    }
    Ok(cache.get(key, first, out))
}

/// Reads across the end of a block.
fn across_blocks(rt: &impl Abort, alloc: Global, cache: &mut FileCache) -> Result<(), NoMemory>
    requires { cache.old.files ≡ [] }
{
    let key = key_of(alloc, "f", 1)?;
    let mut content = bytes_of(alloc, 131_073, 1)?;
    content[65_535] = 2;
    content[65_536] = 3;
    let mut out = [0u8; 4];
    assert!(rt; fill_twice(cache, &key, &content, 65_534, &mut out)?);
    assert_eq!(rt; out, [1, 2, 3, 1]);
    Ok(())
}

#[test]
fn bytes_are_read_across_blocks(rt: HostRuntime) -> Result<(), Fail> {
    let mut cache = FileCache::new(rt.alloc(), 3)?;
    across_blocks(&rt, rt.alloc(), &mut cache)?;
    Ok(())
}

/// What may go to another thread comes back.
fn crossed<T: Send>(value: T) -> T {
    value
}

#[test]
fn a_cache_goes_to_another_thread(rt: HostRuntime) -> Result<(), Fail> {
    let mut cache = crossed(FileCache::new(rt.alloc(), 0)?);
    assert_eq!(rt;
        read_size(&mut cache, rt.alloc(), 1, 1)?,
        Err(Filled::TooLarge)
    );
    Ok(())
}
