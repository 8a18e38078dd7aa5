//! The ends of an UNLINK and an RMDIR.
ghost use Rattle.std.specs.Prelude.{◌≡◌};
ghost use Rattle.fuse_replies.specs.Replies.{IsSendable, without_spare};
ghost use Rattle.mount_rules.specs.Plans.{answers_of};
ghost use Rattle.mount_rules.specs.Removing as spec;
ghost use Rattle.mount_rules.specs.Requests.Rmdir as rmdir;
ghost use Rattle.mount_rules.specs.Requests.Unlink as unlink;
ghost use Rattle.mount_state.specs.Tables.{mount_of, Uses};
ghost use Rattle.object_names.specs.Paths.{IsPath, dir_prefix_of};
ghost use Rattle.plan_names.specs.Outcomes.{as_removed};

use crate::path::RoomyPath;
use crate::tables::Tables;
use crate::told::Told;
use fuse_replies::Reply;
use fuse_replies::errno::{EIO, ENOENT, ENOTEMPTY};
use plan_names::{Emptied, Removed, outcome_of_rmdir, outcome_of_unlink};

impl Tables {
    /// What an UNLINK of the object of a path is answered that observed this.
    pub(crate) fn unlink(&mut self, path: &RoomyPath, seen: &Told) -> Reply
        ensures reply { result ≡ spec.reply_to (unlink.removed (answers_of seen.now.items)) }
        ensures mount { mount_of self.new ≡ spec.mount_after (mount_of self.old) path.now (unlink.removed (answers_of seen.now.items)) }
        ensures uses { Uses 0 self.old self.new }
        ensures no_spare { without_spare result ≡ result }
        ensures sendable { IsSendable result }
    {
        self.remove(path.as_str(), outcome_of_unlink(seen.answers()))
    }

    /// What an RMDIR of the directory of a path is answered that observed this.
    pub(crate) fn remove_directory(&mut self, path: RoomyPath, seen: &Told) -> Reply
        requires { IsPath path }
        ensures reply { result ≡ rmdir.reply_to (rmdir.came_of (dir_prefix_of path) (answers_of seen.now.items)) }
        ensures mount { mount_of self.new ≡ rmdir.mount_after (mount_of self.old) (dir_prefix_of path) (rmdir.came_of (dir_prefix_of path) (answers_of seen.now.items)) }
        ensures uses { Uses 0 self.old self.new }
        ensures no_spare { without_spare result ≡ result }
        ensures sendable { IsSendable result }
    {
        match outcome_of_rmdir(path.as_str(), seen.answers()) {
            Emptied::Removed(removed) => {
                let prefix = path.into_prefix();
                self.remove(prefix.as_str(), removed)
            },
            Emptied::NotEmpty => Reply::Error(ENOTEMPTY),
        }
    }

    /// What a request is answered that was to remove the object of a name. Where it is gone the name has no current node;
    /// the node itself stays, while it has look-ups or a handle holds it.
    fn remove(&mut self, name: &str, removed: Removed) -> Reply
        ensures reply { result ≡ spec.reply_to (as_removed removed) }
        ensures mount { mount_of self.new ≡ spec.mount_after (mount_of self.old) name.now (as_removed removed) }
        ensures uses { Uses 0 self.old self.new }
        ensures no_spare { without_spare result ≡ result }
        ensures sendable { IsSendable result }
    {
        match removed {
            Removed::Gone => {
                self.nodes.detach(name);
                Reply::Empty
            },
            Removed::Nothing => Reply::Error(ENOENT),
            Removed::Fault => Reply::Error(EIO),
        }
    }
}
