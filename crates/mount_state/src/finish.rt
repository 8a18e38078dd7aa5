//! The end of each request: what it is answered, and what it leaves.
ghost use Rattle.std.specs.Prelude.{◌≡◌, ◌<◌, ◌^◌, None};
ghost use Rattle.fuse_replies.specs.Replies.{IsSendable, without_spare as reply_without_spare};
ghost use Rattle.fuse_requests.specs.Grammar.{without_spare};
ghost use Rattle.mount_rules.specs.Dispatch.{early, mount_after, reply_to};
ghost use Rattle.mount_rules.specs.Files.{FilesAreShort};
ghost use Rattle.mount_rules.specs.Mount.{IsMount};
ghost use Rattle.mount_rules.specs.Plans.{answers_of};
ghost use Rattle.mount_rules.specs.Rules.{AtTake};
ghost use Rattle.mount_state.specs.Files.{HasBlocks};
ghost use Rattle.mount_state.specs.Serving.{IsServedAt, Serves};
ghost use Rattle.mount_state.specs.Spares.{Fills, IsFor, need};
ghost use Rattle.mount_state.specs.Tables.{mount_of, HasRoom, Uses};

use crate::base::Base;
use crate::groups::{Group, group_of};
use crate::spare::Spare;
use crate::tables::Tables;
use crate::told::Told;
use fuse_replies::Reply;
use fuse_requests::Request;
use mount_model::Config;

impl Tables {
    /// What a request that observed this is answered, and the tables then.
    pub(crate) fn finish(
        &mut self,
        config: &Config,
        second: u64,
        request: &Request,
        spare: Spare,
        seen: Told,
        base: Base,
    ) -> Reply
        requires mount { IsMount (mount_of self.old) }
        requires short { FilesAreShort (mount_of self.old) }
        requires blocks { HasBlocks self.old config.now }
        requires free { early (mount_of self.old) (without_spare request.now) ≡ None }
        requires spare { IsFor (mount_of self.old) (without_spare request.now) spare }
        requires items { Fills config.now (mount_of self.old) (without_spare request.now) seen.items spare.items }
        requires room { HasRoom (need spare.provided) self.old }
        requires number { self.old.handles.next < 2 ^ 62 }
        requires base { Serves config.now (mount_of self.old) (without_spare request.now) (answers_of seen.items) base }
        ensures reply { (at : AtTake) → IsServedAt config.now second (mount_of self.old) (without_spare request.now) base at → reply_without_spare result ≡ reply_to at (mount_of self.old) (without_spare request.now) seen.items }
        ensures mount { (at : AtTake) → IsServedAt config.now second (mount_of self.old) (without_spare request.now) base at → mount_of self.new ≡ mount_after at (mount_of self.old) (without_spare request.now) seen.items }
        ensures uses { Uses (need spare.provided) self.old self.new }
        ensures sendable { IsSendable (reply_without_spare result) }
    {
        match group_of(request) {
            Group::Entry => self.finish_naming(config, request, spare.into_prepared(), seen),
            Group::Node => self.finish_on_node(config, second, request, spare, seen, base),
            Group::Mount => self.finish_on_mount(request),
        }
    }
}
