//! The end of each request on a node: it shows a node, opens it, or reads or writes its content.
ghost use Rattle.std.specs.Prelude.{◌≡◌, ◌<◌, ◌^◌, None};
ghost use Rattle.fuse_replies.specs.Replies.{IsSendable, without_spare as reply_without_spare};
ghost use Rattle.fuse_requests.specs.Grammar.{without_spare};
ghost use Rattle.mount_rules.specs.Dispatch.{early, mount_after, reply_to};
ghost use Rattle.mount_rules.specs.Files.{FilesAreShort};
ghost use Rattle.mount_rules.specs.Mount.{IsMount};
ghost use Rattle.mount_rules.specs.Plans.{answers_of};
ghost use Rattle.mount_rules.specs.Rules.{AtTake};
ghost use Rattle.mount_state.specs.Files.{HasBlocks};
ghost use Rattle.mount_state.specs.Groups.{IsOnNode};
ghost use Rattle.mount_state.specs.Serving.{IsServedAt, Serves};
ghost use Rattle.mount_state.specs.Spares.{Fills, IsFor, need};
ghost use Rattle.mount_state.specs.Tables.{mount_of, HasRoom, Uses};

use crate::base::Base;
use crate::spare::Spare;
use crate::tables::Tables;
use crate::told::Told;
use fuse_replies::Reply;
use fuse_requests::Request;
use mount_model::Config;
use plan_files::Asked;

impl Tables {
    /// What a request on a node is answered that observed this, and the tables then.
    pub(crate) fn finish_on_node(
        &mut self,
        config: &Config,
        second: u64,
        request: &Request,
        spare: Spare,
        seen: Told,
        base: Base,
    ) -> Reply
        requires group { IsOnNode (without_spare request.now) }
        requires mount { IsMount (mount_of self.old) }
        requires short { FilesAreShort (mount_of self.old) }
        requires blocks { HasBlocks self.old config.now }
        requires free { early (mount_of self.old) (without_spare request.now) ≡ None }
        requires spare { IsFor (mount_of self.old) (without_spare request.now) spare }
        requires items { Fills config.now (mount_of self.old) (without_spare request.now) seen.items spare.items }
        requires room { HasRoom (need spare.provided) self.old }
        requires number { self.old.handles.next < 2 ^ 62 }
        requires base { Serves config.now (mount_of self.old) (without_spare request.now) (answers_of seen.items) base }
        ensures reply { (at : AtTake) → IsServedAt config.now second (mount_of self.old) (without_spare request.now) base at → reply_without_spare result ≡ reply_to at (mount_of self.old) (without_spare request.now) seen.items }
        ensures mount { (at : AtTake) → IsServedAt config.now second (mount_of self.old) (without_spare request.now) base at → mount_of self.new ≡ mount_after at (mount_of self.old) (without_spare request.now) seen.items }
        ensures uses { Uses (need spare.provided) self.old self.new }
        ensures sendable { IsSendable (reply_without_spare result) }
    {
        match request {
            Request::Readlink { .. } => Reply::Target(
                spare.into_prepared().into_target().into_bytes(),
            ),
            Request::Readdir { .. } => Reply::Dirents(spare.into_prepared().into_entries()),
            Request::Getattr { node } => self.tell_attributes(config, *node, seen),
            Request::Opening { node, .. } => self.open_file(*node, seen),
            Request::Read {
                node,
                first,
                size,
                ..
            } => self.read(*node, *first, *size, spare.into_prepared(), &seen, base),
            Request::Write {
                node,
                first,
                content,
                ..
            } => self.write(second, *node, *first, content.as_slice(), &seen, &base),
            Request::Setattr {
                node,
                valid,
                size,
                mtime,
                nanos,
            } => {
                let asked = Asked {
                    valid: *valid,
                    size: *size,
                    seconds: *mtime,
                    nanos: *nanos,
                };
                self.set_attributes(config, second, *node, &asked, seen)
            }
            Request::Flush { node, .. } | Request::Fsync { node, .. } => {
                self.flush(*node, spare.into_prepared(), seen)
            }
            Request::Release { node, fh } => self.release_file(*node, *fh),
            Request::Opendir { node } => self.open_directory(*node, spare.into_items(), seen),
            _ => unreachable!(),
        }
    }
}
