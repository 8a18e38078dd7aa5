//! The end of a RENAME, or of a RENAME2, which has no flags.
ghost use Rattle.std.specs.Prelude.{◌≡◌};
ghost use Rattle.fuse_replies.specs.Replies.{IsSendable, without_spare};
ghost use Rattle.mount_rules.specs.Plans.{answers_of};
ghost use Rattle.mount_rules.specs.Requests.Rename as spec;
ghost use Rattle.mount_rules.specs.Requests.Rename.{Names};
ghost use Rattle.mount_rules.specs.View.{View};
ghost use Rattle.mount_state.specs.Spares.{provided_by, rename_wants};
ghost use Rattle.mount_state.specs.Tables.{mount_of, Uses};

use crate::prepared::Prepared;
use crate::tables::Tables;
use crate::told::Told;
use fuse_replies::Reply;
use fuse_replies::errno::{EIO, ENOENT, ENOSYS, ESTALE};
use plan_names::{Moved, outcome_of_rename};

impl Tables {
    /// What a RENAME that observed this is answered. Once the object has its new name, neither name has a current node:
    /// the nodes themselves stay, while they have look-ups or handles hold them. Nothing changes where both are one.
    pub(crate) fn rename(&mut self, prepared: Prepared, seen: &Told) -> Reply
        ensures reply { (names : Names) (view : View) → provided_by prepared ≡ rename_wants names view → result ≡ spec.reply_to (spec.came names view (answers_of seen.now.items)) }
        ensures mount { (names : Names) (view : View) → provided_by prepared ≡ rename_wants names view → mount_of self.new ≡ spec.mount_after names view (mount_of self.old) (spec.came names view (answers_of seen.now.items)) }
        ensures uses { Uses 0 self.old self.new }
        ensures no_spare { without_spare result ≡ result }
        ensures sendable { IsSendable result }
    {
        let Prepared::Moving { from, to } = prepared else {
            return Reply::Empty;
        };
        match outcome_of_rename(seen.answers()) {
            Moved::Moved => {
                self.nodes.detach(from.as_str());
                self.nodes.detach(to.as_str());
                Reply::Empty
            },
            Moved::Directory => Reply::Error(ENOSYS),
            Moved::Nothing => Reply::Error(ENOENT),
            Moved::Stale => Reply::Error(ESTALE),
            Moved::Fault => Reply::Error(EIO),
        }
    }
}
