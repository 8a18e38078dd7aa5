//! Whole files by name and generation, and the calls of the cache.
ghost use Rattle.std.specs.Prelude.{◌≡◌, ◌≤◌, ◌<◌, ◌+◌, ◌↔◌, false, None, Some, [], length, take, drop, IfOk};
ghost use Rattle.std.specs.Option.{ForSome, option_map_or};
ghost use Rattle.cache_spec.specs.KeptFiles.{is_kept, content_of, used, fitting, blocks_of, blocks_in, IsCache};
ghost use Rattle.lru.specs.LruCache.{lru_cache, last_entry};
ghost use Rattle.file_cache.specs.Kept.{left_by, but_last, IsPut};

use crate::blocks::blocks_for;
use crate::filled::Filled;
use crate::stored_file::StoredFile;
use block_pool::BlockPool;
use cache_spec::FileKey;
use io_ports::NoMemory;
use lru::LruCache;
use std::alloc::Global;
use std::marker::Model;

/// Whole files, by name and generation, in a region of their own. Contracts see the kept files, the one that was used
/// last first, and the number of blocks of 65,536 bytes that they may take together. A file is found in one look-up and
/// dropped in a fixed number of steps, whatever is kept.
#[derive(Drop)]
pub struct FileCache {
    files: LruCache<FileKey, StoredFile>,
    region: BlockPool,
    blocks: u64,
    alloc: Global,
}

impl Model for FileCache {
    ghost use Rattle.file_cache.specs.Kept.{Cache, cache_code, IsHeld};
    ghost use Rattle.file_cache.specs.Stored.{contents_in};

    ghost Value = { Cache };

    ghost coded = { cache_code };

    ghost view = { λ c. record { files = contents_in c.region.chains c.files.entries; blocks = c.blocks } };

    ghost invariant = { λ c. IsHeld c.files.entries c.files.cap c.region c.blocks };
}

impl FileCache {
    /// A cache without files, in a region of so many blocks, whose memory is all taken at once. `NoMemory` where that
    /// was refused.
    pub fn new(alloc: Global, blocks: u64) -> Result<FileCache, NoMemory>
        ensures ok { IfOk result (λ cache. cache ≡ record { files = []; blocks = blocks }) }
    {
        let region = BlockPool::new(alloc, blocks)?;
        let files = LruCache::unbounded(alloc)?;
        Ok(FileCache {
            files,
            region,
            blocks,
            alloc,
        })
    }

    /// Whether a file is kept. Nothing changes. What is kept never takes more blocks than there are.
    pub fn holds(&self, key: &FileKey) -> bool
        ensures ok { result ≡ is_kept self.now.files key.now }
        ensures valid { IsCache self.now.blocks self.now.files }
    {
        self.files.contains(key)
    }

    /// Copies bytes of a file out, from a place on, and makes the file the one that was used last. False exactly where
    /// the file isn't kept; then nothing changes.
    pub fn get(&mut self, key: &FileKey, first: u64, out: &mut [u8]) -> bool
        requires range { ForSome (content_of self.old.files key.now) (λ content. first + length out.old ≤ length content) }
        ensures ok { result ≡ is_kept self.old.files key.now }
        ensures bytes { out.new ≡ option_map_or (λ content. take (length out.old) (drop first content)) (content_of self.old.files key.now) out.old }
        ensures kept { self.new ≡ record self.old { files = used self.old.files key.now } }
    {
        let Some(file) = self.files.get(key) else {
            return false;
        };
        file.read(&self.region, first as usize, out);
        true
    }

    /// Keeps a file, which becomes the one that was used last. Where it isn't kept yet, the files used longest ago are
    /// dropped until its blocks are free.
    pub fn fill(&mut self, key: &FileKey, bytes: &[u8]) -> Filled
        requires some { 1 ≤ length bytes.now }
        requires same { ForSome (content_of self.old.files key.now) (λ content. content ≡ bytes.now) }
        ensures large { (result ≡ Filled.TooLarge) ↔ (self.old.blocks < blocks_of bytes.now) }
        ensures failed { result ≡ Filled.NoMemory → is_kept self.old.files key.now ≡ false }
        ensures left { self.new ≡ record self.old { files = left_by result self.old.blocks self.old.files key.now bytes.now } }
    {
        if self.use_again(key) {
            return Filled::Kept;
        }
        let needed = blocks_for(bytes);
        if needed > self.blocks {
            return Filled::TooLarge;
        }
        self.make_room(self.blocks - needed);
        self.put(key, bytes)
    }

    /// Makes a file the one that was used last. Whether it is kept.
    fn use_again(&mut self, key: &FileKey) -> bool
        ensures ok { result ≡ is_kept self.old.files key.now }
        ensures cache { IsCache self.old.blocks self.old.files }
        ensures kept { self.new ≡ record self.old { files = used self.old.files key.now } }
    {
        self.files.promote(key)
    }

    /// How many blocks the kept files take.
    fn taken(&self) -> u64
        ensures ok { result ≡ blocks_in self.now.files }
        ensures cache { IsCache self.now.blocks self.now.files }
    {
        self.blocks - self.region.free()
    }

    /// Drops the files used longest ago until the others take at most so many blocks.
    fn make_room(&mut self, room: u64)
        ensures { self.new ≡ record self.old { files = fitting room self.old.files } }
    {
        while self.taken() > room {
            self.drop_last();
        }
    }

    /// Drops the file that was used longest ago.
    fn drop_last(&mut self)
        requires { 1 ≤ length self.old.files }
        ensures { self.new ≡ record self.old { files = but_last self.old.files } }
    {
        let (_, file) = take_last(&mut self.files);
        file.give(&mut self.region);
    }

    /// Puts a file that isn't kept to the front, where there is room for it.
    fn put(&mut self, key: &FileKey, bytes: &[u8]) -> Filled
        requires some { 1 ≤ length bytes.now }
        requires absent { content_of self.old.files key.now ≡ None }
        requires room { blocks_in self.old.files + blocks_of bytes.now ≤ self.old.blocks }
        ensures { IsPut self.old self.new key.now bytes.now result }
    {
        let Ok(name) = key.name.copy(self.alloc) else {
            return Filled::NoMemory;
        };
        let generation = key.generation;
        let file = StoredFile::store(&mut self.region, bytes);
        let Err(refused) = self.files.put(FileKey { name, generation }, file) else {
            return Filled::Kept;
        };
        let (_key, file) = refused.value;
        file.give(&mut self.region);
        Filled::NoMemory
    }
}

/// Takes the file out that was used longest ago.
fn take_last(files: &mut LruCache<FileKey, StoredFile>) -> (FileKey, StoredFile)
    requires { 1 ≤ length files.old.entries }
    ensures last { last_entry files.old.entries ≡ Some result }
    ensures others { files.new ≡ lru_cache (but_last files.old.entries) files.old.cap }
{
    files.pop_lru().unwrap()
}
