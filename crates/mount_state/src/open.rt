//! The end of an OPEN.
ghost use Rattle.std.specs.Prelude.{◌≡◌, ◌≤◌, ◌<◌, ◌^◌};
ghost use Rattle.fuse_replies.specs.Replies.{IsSendable, without_spare};
ghost use Rattle.mount_rules.specs.Plans.{answers_of, last_moment};
ghost use Rattle.mount_rules.specs.Requests.Open as spec;
ghost use Rattle.mount_rules.specs.Standing.{generation_seen, standing};
ghost use Rattle.mount_rules.specs.View.{sight_at};
ghost use Rattle.mount_state.specs.Tables.{mount_of, Uses};

use crate::showing::refresh;
use crate::tables::Tables;
use crate::told::Told;
use fuse_replies::Reply;
use fuse_replies::errno::{EIO, ESTALE};
use plan_files::Standing;

impl Tables {
    /// A handle of a file, of which this was observed; ESTALE where its generation is live no more.
    pub(crate) fn open_file(&mut self, node: u64, seen: Told) -> Reply
        requires handle { 1 ≤ self.old.handles.spare }
        requires number { self.old.handles.next < 2 ^ 62 }
        ensures reply { result ≡ spec.reply_to (mount_of self.old) (standing (generation_seen (sight_at self.old.nodes.table node)) (answers_of seen.items)) }
        ensures mount { mount_of self.new ≡ spec.mount_after node (mount_of self.old) (last_moment seen.items) (standing (generation_seen (sight_at self.old.nodes.table node)) (answers_of seen.items)) }
        ensures uses { Uses 1 self.old self.new }
        ensures no_spare { without_spare result ≡ result }
        ensures sendable { IsSendable result }
    {
        let moment = seen.moment();
        match self.standing(node, seen) {
            Standing::Unasked => {},
            Standing::Live(meta) => refresh(&mut self.nodes, node, meta, moment),
            Standing::Gone => return Reply::Error(ESTALE),
            Standing::Fault => return Reply::Error(EIO),
        }
        Reply::Opened(self.handles.open_file(node))
    }
}
