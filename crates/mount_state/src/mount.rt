//! The mount, and the room that it keeps for requests under way.
ghost use Rattle.std.specs.Prelude.{◌≡◌, ◌≢◌, ℕ, ◌+◌, ◌-◌, ◌≤◌, [], None, IfOk, OnOk, OnErr};
ghost use Rattle.fuse_replies.specs.Replies.{IsSendable, without_spare as reply_without_spare};
ghost use Rattle.fuse_requests.specs.Grammar.{without_spare};
ghost use Rattle.mount_rules.specs.Dispatch.{early, mount_after, refused_at_take, reply_to, view_in};
ghost use Rattle.mount_rules.specs.Files.{FilesAreShort};
ghost use Rattle.mount_rules.specs.Mount.{IsMount, first_mount};
ghost use Rattle.mount_rules.specs.Plans.{answers_of};
ghost use Rattle.mount_rules.specs.Requests.Setattr as setattr;
ghost use Rattle.mount_rules.specs.Rules.{at_file, AtTake};
ghost use Rattle.mount_rules.specs.View.{view_of};
ghost use Rattle.mount_state.specs.Serving.{IsServedAt, Serves};
ghost use Rattle.mount_state.specs.Spares.{Fills, IsFor, need, nothing, provided_for};
ghost use Rattle.plan_files.specs.Settings.{as_change, asked_of};

use crate::base::Base;
use crate::file::File;
use crate::spare::Spare;
use crate::tables::Tables;
use crate::told::Told;
use fuse_replies::Reply;
use fuse_requests::Request;
use handle_table::HandleTable;
use inode_table::InodeTable;
use io_ports::{NoMemory, Row};
use mount_model::Config;
use plan_files::{Asked, Change};
use staging_table::StagingTable;
use std::alloc::Global;
use std::marker::Model;

/// The most room that a mount ever promises, so that no number comes to its end.
const MOST_PROMISED: u64 = 1 << 48;

/// A mount in tables. Contracts see what it holds, its settings, and how much room is promised to the spares that are
/// out: for so many nodes, handles and staged contents each. The clock is kept beside it.
#[derive(Drop)]
pub struct Mount {
    config: Config,
    tables: Tables,
    /// The room that is promised to the spares that are out.
    promised: u64,
    /// How much was ever promised.
    given: u64,
}

impl Model for Mount {
    ghost use Rattle.mount_state.specs.Mounts.{MountState, state_code};
    ghost use Rattle.mount_state.specs.Tables.{mount_of, IsKept};

    ghost Value = { MountState };

    ghost coded = { state_code };

    ghost view = { λ m. record { mount = mount_of m.tables; config = m.config; promised = m.promised } };

    ghost invariant = { λ m. IsKept m.config m.tables m.promised m.given };
}

impl Mount {
    /// A mount before its first request. It takes the memory of all blocks for staged contents at once. `NoMemory` where
    /// memory for these or for the root was refused.
    pub fn new(alloc: Global, config: &Config) -> Result<Mount, NoMemory>
        ensures ok { IfOk result (λ made. made ≡ record { mount = first_mount; config = config.now; promised = 0 }) }
    {
        let nodes = InodeTable::new(alloc)?;
        let staging = StagingTable::new(alloc, config.staging_blocks)?;
        Ok(Mount {
            config: *config,
            tables: Tables {
                nodes,
                handles: HandleTable::new(alloc),
                staging,
                negotiated: false,
            },
            promised: 0,
            given: 0,
        })
    }

    /// The nodes.
    pub fn nodes(&self) -> &InodeTable<File>
        ensures table { result.now.table ≡ self.now.mount.table }
        ensures valid { IsMount self.now.mount }
    {
        &self.tables.nodes
    }

    /// The open handles.
    pub fn handles(&self) -> &HandleTable
        ensures handles { result.now.handles ≡ self.now.mount.handles }
        ensures next { result.now.next ≡ self.now.mount.next_handle }
    {
        &self.tables.handles
    }

    /// What is staged of files.
    pub fn staging(&self) -> &StagingTable
        ensures files { result.now.files ≡ self.now.mount.staged }
        ensures blocks { result.now.blocks ≡ self.now.config.staging_blocks }
    {
        &self.tables.staging
    }

    /// What a SETATTR changes of a node.
    pub fn change(&self, node: u64, asked: &Asked) -> Change
        ensures { as_change result ≡ setattr.change_in (asked_of asked.now) (view_of self.now.mount (at_file node)) }
    {
        self.tables.change(node, asked)
    }

    /// The error with which a request that gets a reply is refused before it asks anything of the bucket: first that no
    /// version is agreed on (EPROTO), then that it isn't served (ENOSYS) or could not be read (EINVAL), then what its own
    /// rules refuse, and of a WRITE at last that it touches more blocks than are free (ENOSPC). None where nothing does, and
    /// for requests that never get a reply.
    pub fn early(&self, request: &Request) -> Option<u32>
        requires short { FilesAreShort self.now.mount }
        ensures errno { result ≡ refused_at_take self.now.config self.now.mount (without_spare request.now) }
        ensures valid { IsMount self.now.mount }
    {
        self.tables.refused_at_take(request)
    }

    /// Makes all memory that a request will want at its end, beside what is promised to requests under way. `NoMemory`
    /// where memory was refused, where room for 2^48 was promised before, or where a READLINK's target is longer than one
    /// reply holds, which is 4,294,967,279 bytes; it leaves the mount as it was, and never comes to a request that wants
    /// nothing.
    pub fn prepare(&mut self, alloc: Global, request: &Request) -> Result<Spare, NoMemory>
        requires free { early self.old.mount (without_spare request.now) ≡ None }
        ensures ok { IfOk result (λ spare. IsFor self.old.mount (without_spare request.now) spare) }
        ensures empty { IfOk result (λ spare. spare.items ≡ []) }
        ensures room { IfOk result (λ spare. self.new ≡ record self.old { promised = self.old.promised + need spare.provided }) }
        ensures err { OnErr result (self.new ≡ self.old) }
        ensures valid { IsMount self.old.mount }
        ensures full { OnErr result (provided_for (without_spare request.now) (view_in self.old.mount (without_spare request.now)) ≢ nothing) }
    {
        let prepared = self.tables.prepared(alloc, request)?;
        self.promise(prepared.need())?;
        Ok(Spare {
            items: Row::new(alloc),
            prepared,
        })
    }

    /// Makes room beside what is promised. `NoMemory` where memory for it was refused, or where more than 2^48 would be
    /// promised with it; it leaves the mount as it was, and never comes to a promise of nothing.
    fn promise(&mut self, more: u64) -> Result<(), NoMemory>
        ensures ok { OnOk result (self.new ≡ record self.old { promised = self.old.promised + more }) }
        ensures err { OnErr result (self.new ≡ self.old) }
        ensures full { OnErr result (1 ≤ more) }
    {
        if more > MOST_PROMISED - self.given {
            return Err(NoMemory);
        }
        let promised = self.promised + more;
        self.tables.nodes.reserve(promised)?;
        self.tables.handles.reserve(promised)?;
        self.tables.staging.reserve(promised)?;
        self.promised = promised;
        self.given += more;
        Ok(())
    }

    /// Gives back a spare that was not used.
    pub fn forgo(&mut self, spare: Spare)
        requires room { need spare.provided ≤ self.old.promised }
        ensures { self.new ≡ record self.old { promised = self.old.promised - need spare.provided } }
    {
        self.promised -= spare.prepared.need();
    }

    /// What a request that observed this is answered, and the mount then: both as the rules of the requests say. It takes
    /// no memory: what it wants is in the spare, which was prepared for this request, at a mount at which the request saw
    /// what it sees now; and the bytes of its source that it wants are in `base`. `second` is that of its take.
    pub fn finish(
        &mut self,
        second: u64,
        request: &Request,
        spare: Spare,
        seen: Told,
        base: Base,
    ) -> Reply
        requires free { early self.old.mount (without_spare request.now) ≡ None }
        requires spare { IsFor self.old.mount (without_spare request.now) spare }
        requires items { Fills self.old.config self.old.mount (without_spare request.now) seen.items spare.items }
        requires room { need spare.provided ≤ self.old.promised }
        requires short { FilesAreShort self.old.mount }
        requires base { Serves self.old.config self.old.mount (without_spare request.now) (answers_of seen.items) base }
        ensures reply { (at : AtTake) → IsServedAt self.old.config second self.old.mount (without_spare request.now) base at → reply_without_spare result ≡ reply_to at self.old.mount (without_spare request.now) seen.items }
        ensures mount { (at : AtTake) → IsServedAt self.old.config second self.old.mount (without_spare request.now) base at → self.new ≡ record self.old { mount = mount_after at self.old.mount (without_spare request.now) seen.items; promised = self.old.promised - need spare.provided } }
        ensures sendable { IsSendable (reply_without_spare result) }
    {
        let room = spare.prepared.need();
        let reply = self
            .tables
            .finish(&self.config, second, request, spare, seen, base);
        self.promised -= room;
        reply
    }
}
