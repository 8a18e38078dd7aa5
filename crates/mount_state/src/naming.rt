//! The end of each request that names an entry of a directory.
ghost use Rattle.std.specs.Prelude.{◌≡◌, ◌<◌, ◌^◌, None};
ghost use Rattle.fuse_replies.specs.Replies.{IsSendable, without_spare as reply_without_spare};
ghost use Rattle.fuse_requests.specs.Grammar.{without_spare};
ghost use Rattle.mount_rules.specs.Dispatch.{early, mount_after, reply_to, view_in};
ghost use Rattle.mount_rules.specs.Mount.{IsMount};
ghost use Rattle.mount_rules.specs.Rules.{AtTake};
ghost use Rattle.mount_state.specs.Groups.{IsNaming};
ghost use Rattle.mount_state.specs.Spares.{need, provided_by, provided_for};
ghost use Rattle.mount_state.specs.Tables.{mount_of, HasRoom, Uses};

use crate::prepared::Prepared;
use crate::tables::Tables;
use crate::told::Told;
use fuse_replies::Reply;
use fuse_requests::Request;
use mount_model::Config;

impl Tables {
    /// What a request that names an entry is answered that observed this, and the tables then.
    pub(crate) fn finish_naming(
        &mut self,
        config: &Config,
        request: &Request,
        prepared: Prepared,
        seen: Told,
    ) -> Reply
        requires naming { IsNaming (without_spare request.now) }
        requires mount { IsMount (mount_of self.old) }
        requires free { early (mount_of self.old) (without_spare request.now) ≡ None }
        requires prepared { provided_by prepared ≡ provided_for (without_spare request.now) (view_in (mount_of self.old) (without_spare request.now)) }
        requires room { HasRoom (need (provided_by prepared)) self.old }
        requires number { self.old.handles.next < 2 ^ 62 }
        ensures reply { (at : AtTake) → at.config ≡ config.now → reply_without_spare result ≡ reply_to at (mount_of self.old) (without_spare request.now) seen.items }
        ensures mount { (at : AtTake) → at.config ≡ config.now → mount_of self.new ≡ mount_after at (mount_of self.old) (without_spare request.now) seen.items }
        ensures uses { Uses (need (provided_by prepared)) self.old self.new }
        ensures sendable { IsSendable (reply_without_spare result) }
    {
        match request {
            Request::Lookup { .. } => self.look_up(config, prepared.into_path(), seen),
            Request::Create { .. } => self.create(config, prepared.into_path(), seen),
            Request::Mknod { .. } | Request::Symlink { .. } => {
                self.make_node(config, prepared.into_path(), seen)
            }
            Request::Mkdir { .. } => self.make_directory(config, prepared.into_path(), seen),
            Request::Unlink { .. } => self.unlink(&prepared.into_removal(), &seen),
            Request::Rmdir { .. } => self.remove_directory(prepared.into_removal(), &seen),
            Request::Rename { .. } | Request::Rename2 { .. } => self.rename(prepared, &seen),
            _ => unreachable!(),
        }
    }
}
