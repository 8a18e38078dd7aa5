//! The table of staged contents.
ghost use Rattle.std.specs.Prelude.{◌≡◌, ℕ, ◌+◌, ◌-◌, ◌<◌, ◌≤◌, List, IfOk, IfErr, OnOk, OnErr, is_ok, length, take, drop};
ghost use Rattle.std.specs.FinMap as fin;
ghost use Rattle.std.specs.Option.{option_map, option_map_or};
ghost use Rattle.staging_spec.specs.Overlays.{staging_over};
ghost use Rattle.staging_spec.specs.Slices.{Covers, Holds};
ghost use Rattle.staging_spec.specs.StagedFiles.{overlay_at, touched_by, blocks_in};
ghost use Rattle.staging_spec.specs.StagedFiles as files;
ghost use Rattle.staging_spec.specs.Staging.{written, resized, needed};
ghost use Rattle.staging_spec.specs.Wanted.{IsWithin};
ghost use Rattle.staging_spec.specs.Wanted as spec;
ghost use Rattle.staged_file.specs.Frozen.{frozen_content, frozen_wanted};
ghost use Rattle.staged_file.specs.Sources.{range_of};
ghost use Rattle.staging_table.specs.Stagings.{IsStagings, no_stagings, with_staging, with_mtime};

use crate::held::Held;
use block_pool::BlockPool;
use io_ports::NoMemory;
use spare_maps::NumberMap;
use staged_file::{Frozen, NoBlocks, Staged, Wanted};
use std::alloc::Global;
use std::marker::Model;

/// The staged contents of a mount's files, by the numbers of their nodes, in one region of blocks of 65,536 bytes.
/// Contracts see what is held of each: the bytes of its touched blocks, its length, the limit below which all else is
/// still its source's, and the time of its last change; how many blocks the region has; and the spare, for how many more
/// files there is room.
///
/// A file of which nothing is staged is served by the same calls: they are told the length of its source, `size`, at most
/// 16,777,216 bytes, which is not looked at where something is staged. No call but `new`, `reserve` and `freeze` takes
/// memory.
#[derive(Drop)]
pub struct StagingTable {
    pool: BlockPool,
    held: NumberMap<Held>,
    room: u64,
}

impl Model for StagingTable {
    ghost use Rattle.staging_table.specs.Stagings.{Stagings, stagings_code};

    ghost Value = { Stagings };

    ghost coded = { stagings_code };

    ghost use Rattle.staging_table.specs.Tables.{stagings_of, HoldsStagings};

    ghost view = { λ t. stagings_of t.pool t.held.map t.room };

    ghost invariant = { λ t. HoldsStagings t.pool t.held t.room };
}

impl StagingTable {
    /// A table in which nothing is staged, with a region of so many blocks and no spare. It takes the region's memory at
    /// once. `NoMemory` where that was refused.
    pub fn new(alloc: Global, blocks: u64) -> Result<StagingTable, NoMemory>
        ensures ok { IfOk result (λ table. table ≡ no_stagings blocks) }
    {
        let pool = BlockPool::new(alloc, blocks)?;
        Ok(StagingTable {
            pool,
            held: NumberMap::new(alloc),
            room: 0,
        })
    }

    /// Makes room: afterwards the table takes at least `more` further files, and never fewer than before. `NoMemory` where
    /// memory for more than the spare was refused; then nothing has changed.
    pub fn reserve(&mut self, more: u64) -> Result<(), NoMemory>
        ensures ok { OnOk result (more ≤ self.new.spare) }
        ensures err { OnErr result (self.new ≡ self.old) }
        ensures full { OnErr result (self.old.spare < more) }
        ensures kept { self.new ≡ record self.old { spare = self.new.spare } }
        ensures spare { self.old.spare ≤ self.new.spare }
    {
        if more > self.room {
            self.held.reserve(more)?;
            self.room = more;
        }
        Ok(())
    }

    /// The length of a file's staged content, at most 16,777,216; none where nothing is staged.
    pub fn len(&self, node: u64) -> Option<u64>
        ensures ok { result ≡ option_map (λ staged. staged.overlay.size) (fin.get self.now.files node) }
        ensures valid { IsStagings self.now }
    {
        let Some(held) = self.held.get(node) else {
            return None;
        };
        Some(held.staged.len())
    }

    /// When a file's staged content was last changed: seconds of Unix time, and nanoseconds behind that second; none where
    /// nothing is staged.
    pub fn mtime(&self, node: u64) -> Option<(u64, u32)>
        ensures ok { result ≡ option_map (λ staged. (staged.seconds, staged.nanos)) (fin.get self.now.files node) }
        ensures valid { IsStagings self.now }
    {
        let Some(held) = self.held.get(node) else {
            return None;
        };
        Some((held.seconds, held.nanos))
    }

    /// Whether a WRITE of so many bytes at an offset of a file touches no more blocks than are free.
    pub fn fits(&self, node: u64, size: u64, first: u64, count: u64) -> bool
        requires size { size ≤ 16777216 }
        requires range { first + count ≤ 16777216 }
        ensures ok { result ≡ files.fits self.now.blocks self.now.files (overlay_at self.now.files node size) first count }
    {
        let bare = Staged::bare(size);
        let staged = staged_at(&self.held, node, &bare);
        staged.needed(&self.pool, first, count) <= self.pool.free()
    }

    /// What a READ of a range inside a file's content wants of its source: the bytes asked that are still the source's. The
    /// range goes from the first such byte to the last.
    pub fn wanted_by_read(&self, node: u64, size: u64, first: u64, count: u64) -> Wanted
        requires size { size ≤ 16777216 }
        requires range { first + count ≤ (overlay_at self.now.files node size).size }
        ensures ok { let overlay = overlay_at self.now.files node size in range_of result ≡ spec.wanted_by_read (touched_by overlay) overlay.limit first count }
        ensures within { IsWithin (range_of result) (overlay_at self.now.files node size).limit }
    {
        let bare = Staged::bare(size);
        let staged = staged_at(&self.held, node, &bare);
        staged.needs_read(&self.pool, first, count)
    }

    /// What a WRITE of so many bytes at an offset of a file wants of its source: what it leaves of the blocks that it
    /// touches for the first time, below the limit.
    pub fn wanted_by_write(&self, node: u64, size: u64, first: u64, count: u64) -> Wanted
        requires size { size ≤ 16777216 }
        requires range { first + count ≤ 16777216 }
        ensures ok { let overlay = overlay_at self.now.files node size in range_of result ≡ spec.wanted_by_write (touched_by overlay) overlay.limit first count }
        ensures within { IsWithin (range_of result) (overlay_at self.now.files node size).limit }
    {
        let bare = Staged::bare(size);
        let staged = staged_at(&self.held, node, &bare);
        staged.needs_write(&self.pool, first, count)
    }

    /// What a FLUSH or an FSYNC of a file wants of its source: all bytes that are still the source's.
    pub fn wanted_by_flush(&self, node: u64, size: u64) -> Wanted
        requires size { size ≤ 16777216 }
        ensures ok { let overlay = overlay_at self.now.files node size in range_of result ≡ spec.wanted_by_flush (touched_by overlay) overlay.limit }
        ensures within { IsWithin (range_of result) (overlay_at self.now.files node size).limit }
    {
        let bare = Staged::bare(size);
        let staged = staged_at(&self.held, node, &bare);
        staged.needs_all(&self.pool)
    }

    /// Writes bytes into a file at an offset, at this second of Unix time. A file of which nothing was staged is from then
    /// on; it takes one of the spare. The base slice, from byte `base_first` of the file's source on, holds what
    /// `wanted_by_write` tells.
    ///
    /// # Errors
    ///
    /// `NoBlocks` exactly where the write does not fit (`fits`), with how many blocks it needs and how many are free; nothing
    /// has then changed.
    pub fn write(
        &mut self,
        node: u64,
        size: u64,
        first: u64,
        from: &[u8],
        base_first: u64,
        base: &[u8],
        second: u64,
    ) -> Result<(), NoBlocks>
        requires spare { 1 ≤ self.old.spare }
        requires size { size ≤ 16777216 }
        requires some { 1 ≤ length from.now }
        requires range { first + length from.now ≤ 16777216 }
        requires wanted { let overlay = overlay_at self.old.files node size in Covers base_first (length base.now) (spec.wanted_by_write (touched_by overlay) overlay.limit first (length from.now)) }
        ensures full { is_ok result ≡ files.fits self.old.blocks self.old.files (overlay_at self.old.files node size) first (length from.now) }
        ensures ok { OnOk result ((source : List ℕ) → Holds source base_first base.now → self.new.files ≡ with_staging self.old.files node (written (staging_over (overlay_at self.old.files node size) source) first from.now) second) }
        ensures err { OnErr result (self.new ≡ self.old) }
        ensures lacks { IfErr result (λ e. e ≡ record { needed = needed (touched_by (overlay_at self.old.files node size)) first (length from.now); free = self.old.blocks - blocks_in self.old.files }) }
        ensures spare { self.old.spare ≤ self.new.spare + 1 }
        ensures blocks { self.new.blocks ≡ self.old.blocks }
    {
        if self.held.get(node).is_some() {
            let held = self.held.value_mut(node);
            held.staged
                .write(&mut self.pool, first, from, base_first, base)?;
            held.seconds = second;
            held.nanos = 0;
            // The pool says what holds of every pool.
            let _ = self.pool.free();
            return Ok(());
        }
        let mut staged = Staged::bare(size);
        staged.write(&mut self.pool, first, from, base_first, base)?;
        self.held.put(node, Held::since(staged, second));
        self.room -= 1;
        // The pool says what holds of every pool.
        let _ = self.pool.free();
        Ok(())
    }

    /// Gives a file's content another length, at most 16,777,216 bytes, at this second of Unix time. A file of which nothing
    /// was staged is from then on; it takes one of the spare. Bytes cut off never come back: where it grows it shows zeros.
    pub fn resize(&mut self, node: u64, size: u64, len: u64, second: u64)
        requires spare { 1 ≤ self.old.spare }
        requires size { size ≤ 16777216 }
        requires range { len ≤ 16777216 }
        ensures ok { (source : List ℕ) → self.new.files ≡ with_staging self.old.files node (resized (staging_over (overlay_at self.old.files node size) source) len) second }
        ensures spare { self.old.spare ≤ self.new.spare + 1 }
        ensures blocks { self.new.blocks ≡ self.old.blocks }
    {
        if self.held.get(node).is_some() {
            let held = self.held.value_mut(node);
            held.staged.set_len(&mut self.pool, len);
            held.seconds = second;
            held.nanos = 0;
            // The pool says what holds of every pool.
            let _ = self.pool.free();
            return;
        }
        let mut bare = Staged::bare(size);
        bare.set_len(&mut self.pool, len);
        self.held.put(node, Held::since(bare, second));
        self.room -= 1;
        // The pool says what holds of every pool.
        let _ = self.pool.free();
    }

    /// Another time of a file's staged content: seconds of Unix time, and nanoseconds behind that second. Where nothing is
    /// staged nothing changes.
    pub fn set_mtime(&mut self, node: u64, seconds: u64, nanos: u32)
        ensures ok { self.new ≡ record self.old { files = with_mtime self.old.files node seconds nanos } }
    {
        if self.held.get(node).is_none() {
            return;
        }
        let held = self.held.value_mut(node);
        held.seconds = seconds;
        held.nanos = nanos;
    }

    /// Copies a range of a file's content out. The base slice, from byte `base_first` of the file's source on, holds what
    /// `wanted_by_read` tells.
    pub fn read(
        &self,
        node: u64,
        size: u64,
        first: u64,
        out: &mut [u8],
        base_first: u64,
        base: &[u8],
    )
        requires size { size ≤ 16777216 }
        requires range { first + length out.old ≤ (overlay_at self.now.files node size).size }
        requires wanted { let overlay = overlay_at self.now.files node size in Covers base_first (length base.now) (spec.wanted_by_read (touched_by overlay) overlay.limit first (length out.old)) }
        ensures ok { (source : List ℕ) → Holds source base_first base.now → out.new ≡ take (length out.old) (drop first (staging_over (overlay_at self.now.files node size) source).content) }
    {
        let bare = Staged::bare(size);
        let staged = staged_at(&self.held, node, &bare);
        staged.read(&self.pool, first, out, base_first, base);
    }

    /// A copy of a file's content apart from the region, for a flush that reads the rest of the source meanwhile. `NoMemory`
    /// where memory for it was refused.
    pub fn freeze(&self, alloc: Global, node: u64, size: u64) -> Result<Frozen, NoMemory>
        requires size { size ≤ 16777216 }
        ensures ok { IfOk result (λ frozen. (source : List ℕ) → frozen_content frozen source ≡ (staging_over (overlay_at self.now.files node size) source).content) }
        ensures wanted { let overlay = overlay_at self.now.files node size in IfOk result (λ frozen. frozen_wanted frozen ≡ spec.wanted_by_flush (touched_by overlay) overlay.limit) }
    {
        let bare = Staged::bare(size);
        let staged = staged_at(&self.held, node, &bare);
        staged.freeze(alloc, &self.pool)
    }

    /// A file's staged content is let go, and its blocks are free. Where nothing is staged nothing changes.
    pub fn end(&mut self, node: u64)
        ensures ok { self.new ≡ record self.old { files = fin.remove self.old.files node } }
    {
        let Some(held) = self.held.remove(node) else {
            return;
        };
        held.staged.spend(&mut self.pool);
        // The pool says what holds of every pool.
        let _ = self.pool.free();
    }
}

/// What is staged of a file, and what is bare where nothing is.
fn staged_at<'a>(held: &'a NumberMap<Held>, node: u64, bare: &'a Staged) -> &'a Staged
    ensures { result.now ≡ option_map_or (λ file. file.staged) (fin.get held.now.map node) bare.now }
{
    let Some(found) = held.get(node) else {
        return bare;
    };
    &found.staged
}
