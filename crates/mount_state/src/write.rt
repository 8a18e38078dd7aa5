//! The end of a WRITE.
ghost use Rattle.std.specs.Prelude.{◌≡◌, ◌+◌, ◌≤◌, ℕ, true, false, IsSome, length};
ghost use Rattle.bucket_api.specs.Operation.{max_content};
ghost use Rattle.fuse_replies.specs.Replies.{IsSendable, without_spare};
ghost use Rattle.mount_model.specs.declared.config.Config.{Config};
ghost use Rattle.mount_rules.specs.Files.{FilesAreShort};
ghost use Rattle.mount_rules.specs.Plans.{answers_of, CoversWanted, HoldsWanted};
ghost use Rattle.mount_rules.specs.Reading.{given, reads};
ghost use Rattle.mount_rules.specs.Requests.Write as spec;
ghost use Rattle.mount_rules.specs.Rules.{AtTake};
ghost use Rattle.mount_rules.specs.View.{sight_at};
ghost use Rattle.mount_state.specs.Files.{came_at, file_taken, is_full_at, write_wanted, CoversUnlessFull, HasBlocks, HoldsUnlessFull};
ghost use Rattle.mount_state.specs.Spares.{need, write_wants};
ghost use Rattle.mount_state.specs.Tables.{mount_of, HasRoom, Uses};

use crate::base::Base;
use crate::tables::Tables;
use crate::told::Told;
use fuse_replies::Reply;
use fuse_replies::errno::{EIO, ENOSPC, ESTALE};
use plan_files::{Reads, outcome_of_reads};

impl Tables {
    /// What a WRITE that observed this is answered: ESTALE where the source is live no more, then ENOSPC where it touches more
    /// blocks than are free.
    pub(crate) fn write(
        &mut self,
        second: u64,
        node: u64,
        first: u64,
        content: &[u8],
        seen: &Told,
        base: &Base,
    ) -> Reply
        requires short { FilesAreShort (mount_of self.old) }
        requires there { IsSome (sight_at self.old.nodes.table node) }
        requires few { length content.now ≤ spec.longest_write }
        requires range { first + length content.now ≤ max_content }
        requires room { HasRoom (need (write_wants content.now)) self.old }
        requires covers { reads (answers_of seen.now.items) ≡ given → (config : Config) → HasBlocks self.old config → CoversUnlessFull config (mount_of self.old) node first content.now base.now }
        ensures reply { (config : Config) → HasBlocks self.old config → result ≡ spec.reply_to (length content.now) (came_at config (mount_of self.old) node first content.now (reads (answers_of seen.now.items))) }
        ensures mount { (at : AtTake) → HasBlocks self.old at.config → at.second ≡ second → HoldsUnlessFull at (mount_of self.old) node first content.now base.now → mount_of self.new ≡ spec.mount_after (file_taken at (mount_of self.old) node) (mount_of self.old) node first content.now (came_at at.config (mount_of self.old) node first content.now (reads (answers_of seen.now.items))) }
        ensures uses { Uses (need (write_wants content.now)) self.old self.new }
        ensures no_spare { without_spare result ≡ result }
        ensures sendable { IsSendable result }
    {
        match outcome_of_reads(seen.answers()) {
            Reads::Given => self.write_given(second, node, first, content, base),
            Reads::Gone => Reply::Error(ESTALE),
            Reads::Failed => Reply::Error(EIO),
        }
    }

    /// What a WRITE is answered whose reads were given bytes: ENOSPC where it touches more blocks than are free.
    fn write_given(
        &mut self,
        second: u64,
        node: u64,
        first: u64,
        content: &[u8],
        base: &Base,
    ) -> Reply
        requires short { FilesAreShort (mount_of self.old) }
        requires there { IsSome (sight_at self.old.nodes.table node) }
        requires few { length content.now ≤ spec.longest_write }
        requires range { first + length content.now ≤ max_content }
        requires room { HasRoom (need (write_wants content.now)) self.old }
        requires covers { (config : Config) → HasBlocks self.old config → CoversUnlessFull config (mount_of self.old) node first content.now base.now }
        ensures reply { (config : Config) → HasBlocks self.old config → result ≡ spec.reply_to (length content.now) (came_at config (mount_of self.old) node first content.now given) }
        ensures mount { (at : AtTake) → HasBlocks self.old at.config → at.second ≡ second → HoldsUnlessFull at (mount_of self.old) node first content.now base.now → mount_of self.new ≡ spec.mount_after (file_taken at (mount_of self.old) node) (mount_of self.old) node first content.now (came_at at.config (mount_of self.old) node first content.now given) }
        ensures uses { Uses (need (write_wants content.now)) self.old self.new }
        ensures no_spare { without_spare result ≡ result }
        ensures sendable { IsSendable result }
    {
        if self.is_full(node, first, content) {
            return Reply::Error(ENOSPC);
        }
        self.stage(second, node, first, content, base);
        Reply::Written(content.len() as u32)
    }

    /// Whether a WRITE that nothing else refuses touches more blocks than are free. One of no byte touches none.
    pub(crate) fn is_full(&self, node: u64, first: u64, content: &[u8]) -> bool
        requires short { FilesAreShort (mount_of self.now) }
        requires there { IsSome (sight_at self.now.nodes.table node) }
        requires range { first + length content.now ≤ max_content }
        ensures { (config : Config) → HasBlocks self.now config → result ≡ is_full_at config (mount_of self.now) node first content.now }
    {
        if content.is_empty() {
            return false;
        }
        let size = self.source_len(node);
        !self.staging.fits(node, size, first, content.len() as u64)
    }

    /// Writes bytes into the staged content of a file. It stages the file, where nothing of it was staged.
    fn stage(&mut self, second: u64, node: u64, first: u64, content: &[u8], base: &Base)
        requires short { FilesAreShort (mount_of self.old) }
        requires there { IsSome (sight_at self.old.nodes.table node) }
        requires range { first + length content.now ≤ max_content }
        requires room { HasRoom (need (write_wants content.now)) self.old }
        requires fits { (config : Config) → HasBlocks self.old config → is_full_at config (mount_of self.old) node first content.now ≡ false }
        requires covers { CoversWanted (write_wanted (mount_of self.old) node first content.now) base.now.first (length base.now.bytes) }
        ensures mount { (at : AtTake) → at.second ≡ second → HoldsWanted at.contents (write_wanted (mount_of self.old) node first content.now) base.now.first base.now.bytes → mount_of self.new ≡ spec.written_in (file_taken at (mount_of self.old) node) (mount_of self.old) node first content.now }
        ensures uses { Uses (need (write_wants content.now)) self.old self.new }
    {
        if content.is_empty() {
            return;
        }
        let size = self.source_len(node);
        let count = content.len() as u64;
        let wanted = self.staging.wanted_by_write(node, size, first, count);
        let bytes = base.bytes_for(wanted);
        self.staging
            .write(node, size, first, content, base.first, bytes, second)
            .unwrap();
    }
}
