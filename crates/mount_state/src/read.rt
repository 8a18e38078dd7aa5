//! The end of a READ.
ghost use Rattle.std.specs.Prelude.{◌≡◌, ◌≤◌, ◌+◌, IsSome, length};
ghost use Rattle.std.specs.FinMap as fin;
ghost use Rattle.std.specs.Option.{option_map_or};
ghost use Rattle.fuse_replies.specs.Replies.{IsSendable, without_spare};
ghost use Rattle.mount_rules.specs.Files.{FilesAreShort};
ghost use Rattle.mount_rules.specs.Guards.{longest_read};
ghost use Rattle.mount_rules.specs.Plans.{answers_of, Contents, CoversWanted, HoldsWanted};
ghost use Rattle.mount_rules.specs.Reading.{given, reads};
ghost use Rattle.mount_rules.specs.Requests.Read as spec;
ghost use Rattle.mount_rules.specs.View.{Sight, sight_at};
ghost use Rattle.mount_state.specs.Files.{read_bytes, read_wanted};
ghost use Rattle.mount_state.specs.Spares.{buffer, provided_by, read_wants};
ghost use Rattle.mount_state.specs.Tables.{mount_of};

use crate::base::Base;
use crate::prepared::Prepared;
use crate::tables::Tables;
use crate::told::Told;
use fuse_replies::Reply;
use fuse_replies::errno::{EIO, ESTALE};
use io_ports::Bytes;
use plan_files::{Reads, outcome_of_reads};

impl Tables {
    /// The bytes that a READ asks for: those of staged content are put into the buffer, and others are the base's, of which
    /// none is copied. ESTALE where the source is live no more.
    pub(crate) fn read(
        &self,
        node: u64,
        first: u64,
        size: u32,
        prepared: Prepared,
        seen: &Told,
        base: Base,
    ) -> Reply
        requires files { FilesAreShort (mount_of self.now) }
        requires there { IsSome (sight_at self.now.nodes.table node) }
        requires short { size ≤ longest_read }
        requires prepared { provided_by prepared ≡ read_wants first size (fin.get self.now.staging.files node) }
        requires covers { reads (answers_of seen.now.items) ≡ given → CoversWanted (read_wanted (mount_of self.now) node first size) base.first (length base.bytes) }
        ensures reply { (contents : Contents) → HoldsWanted contents (read_wanted (mount_of self.now) node first size) base.first base.bytes → result ≡ spec.reply_to (read_bytes contents (mount_of self.now) node first size) (reads (answers_of seen.now.items)) }
        ensures no_spare { without_spare result ≡ result }
        ensures sendable { IsSendable result }
    {
        match outcome_of_reads(seen.answers()) {
            Reads::Given => Reply::Content(self.bytes(node, first, size, prepared, base)),
            Reads::Gone => Reply::Error(ESTALE),
            Reads::Failed => Reply::Error(EIO),
        }
    }

    /// The bytes of the file, as many as are asked and there.
    fn bytes(&self, node: u64, first: u64, size: u32, prepared: Prepared, base: Base) -> Bytes
        requires files { FilesAreShort (mount_of self.now) }
        requires there { IsSome (sight_at self.now.nodes.table node) }
        requires prepared { provided_by prepared ≡ read_wants first size (fin.get self.now.staging.files node) }
        requires covers { CoversWanted (read_wanted (mount_of self.now) node first size) base.first (length base.bytes) }
        ensures bytes { (contents : Contents) → HoldsWanted contents (read_wanted (mount_of self.now) node first size) base.first base.bytes → result ≡ read_bytes contents (mount_of self.now) node first size }
        ensures few { length result ≤ size }
    {
        match prepared {
            Prepared::Buffer(out) => self.staged_bytes(node, first, size, out, &base),
            _ => base.into_range(first, self.asked(node, first, size)),
        }
    }

    /// The bytes of the staged content of a file, from a place on, as many as the buffer takes, in which they stand then.
    fn staged_bytes(&self, node: u64, first: u64, size: u32, out: Vec<u8>, base: &Base) -> Bytes
        requires files { FilesAreShort (mount_of self.now) }
        requires there { IsSome (sight_at self.now.nodes.table node) }
        requires buffer { read_wants first size (fin.get self.now.staging.files node) ≡ buffer (length out.items) }
        requires covers { CoversWanted (read_wanted (mount_of self.now) node first size) base.now.first (length base.now.bytes) }
        ensures bytes { (contents : Contents) → HoldsWanted contents (read_wanted (mount_of self.now) node first size) base.now.first base.now.bytes → result ≡ read_bytes contents (mount_of self.now) node first size }
        ensures few { length result ≤ size }
    {
        let mut out = out;
        if out.is_empty() {
            return Bytes::from_vec(out);
        }
        let len = self.source_len(node);
        let count = out.len() as u64;
        let wanted = self.staging.wanted_by_read(node, len, first, count);
        let bytes = base.bytes_for(wanted);
        self.staging
            .read(node, len, first, out.as_mut_slice(), base.first, bytes);
        Bytes::from_vec(out)
    }

    /// How many of the bytes asked lie in the source of the node.
    fn asked(&self, node: u64, first: u64, size: u32) -> u64
        ensures asked { result ≡ option_map_or (λ (file : Sight). (spec.asked first size file.size).count) (sight_at self.now.nodes.table node) 0 }
        ensures bounded { result ≤ size }
    {
        let Some(inode) = self.nodes.get(node) else {
            return 0;
        };
        let Some(file) = &inode.file else {
            return 0;
        };
        file.size.saturating_sub(first).min(size as u64)
    }
}
