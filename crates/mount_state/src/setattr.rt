//! The end of a SETATTR.
ghost use Rattle.std.specs.Prelude.{◌≡◌, ◌≤◌, [], None, IsSome};
ghost use Rattle.fuse_replies.specs.Replies.{IsSendable, without_spare};
ghost use Rattle.bucket_api.specs.Operation.{max_content};
ghost use Rattle.mount_rules.specs.Files.{FilesAreShort};
ghost use Rattle.mount_rules.specs.Plans.{answers_of, last_moment};
ghost use Rattle.mount_rules.specs.Requests.Setattr as spec;
ghost use Rattle.mount_rules.specs.Rules.{AtTake};
ghost use Rattle.mount_rules.specs.Standing.{table_after};
ghost use Rattle.mount_rules.specs.View.{sight_at};
ghost use Rattle.mount_state.specs.Files.{change_at, file_taken};
ghost use Rattle.mount_state.specs.Spares.{need, setattr_wants};
ghost use Rattle.mount_state.specs.Tables.{mount_of, HasRoom, Uses};
ghost use Rattle.plan_files.specs.Settings.{as_change, asked_of};

use crate::showing::refresh;
use crate::tables::Tables;
use crate::told::Told;
use fuse_replies::Reply;
use fuse_replies::errno::{EIO, ESTALE};
use mount_model::Config;
use plan_files::{Asked, Change, Standing, outcome_of_update};

impl Tables {
    /// What a SETATTR that observed this is answered: the attributes as the node then has them; ESTALE where the generation
    /// whose time is set is live no more.
    pub(crate) fn set_attributes(
        &mut self,
        config: &Config,
        second: u64,
        node: u64,
        asked: &Asked,
        seen: Told,
    ) -> Reply
        requires short { FilesAreShort (mount_of self.old) }
        requires there { IsSome (sight_at self.old.nodes.table node) }
        requires size { spec.size_refusal (asked_of asked.now) ≡ None }
        requires room { HasRoom (need (setattr_wants (change_at (mount_of self.old) node (asked_of asked.now)))) self.old }
        ensures reply { (at : AtTake) → at.config ≡ config.now → at.second ≡ second → result ≡ spec.reply_to (file_taken at (mount_of self.old) node) (asked_of asked.now) node (mount_of self.old) (last_moment seen.items) (answers_of seen.items) (change_at (mount_of self.old) node (asked_of asked.now)) }
        ensures mount { (at : AtTake) → at.second ≡ second → mount_of self.new ≡ spec.mount_after (file_taken at (mount_of self.old) node) (asked_of asked.now) node (mount_of self.old) (last_moment seen.items) (answers_of seen.items) (change_at (mount_of self.old) node (asked_of asked.now)) }
        ensures uses { Uses (need (setattr_wants (change_at (mount_of self.old) node (asked_of asked.now)))) self.old self.new }
        ensures no_spare { without_spare result ≡ result }
        ensures sendable { IsSendable result }
    {
        match self.change(node, asked) {
            Change::Resize => {
                self.resize(second, node, asked);
                self.attributes_with(config, node, 1)
            },
            Change::StageTime => {
                self.set_staged_time(second, node, asked);
                self.attributes_with(config, node, 1)
            },
            Change::SetTime => self.set_time(config, node, seen),
            Change::Look => self.tell_attributes(config, node, seen),
        }
    }

    /// What a SETATTR changes of a node.
    pub(crate) fn change(&self, node: u64, asked: &Asked) -> Change
        ensures { as_change result ≡ change_at (mount_of self.now) node (asked_of asked.now) }
    {
        let Some(inode) = self.nodes.get(node) else {
            return Change::Look;
        };
        let len = self.content_len(node, inode);
        let staged = self.staging.len(node).is_some();
        asked.change_of(inode.kind, len, staged)
    }

    /// The content of a file gets another length, and the time that is set, or else the second of the call.
    fn resize(&mut self, second: u64, node: u64, asked: &Asked)
        requires short { FilesAreShort (mount_of self.old) }
        requires there { IsSome (sight_at self.old.nodes.table node) }
        requires size { asked.now.size ≤ max_content }
        requires room { HasRoom 1 self.old }
        ensures mount { (at : AtTake) → at.second ≡ second → mount_of self.new ≡ spec.mount_after (file_taken at (mount_of self.old) node) (asked_of asked.now) node (mount_of self.old) 0 [] spec.resize }
        ensures uses { Uses 1 self.old self.new }
    {
        let len = self.source_len(node);
        self.staging.resize(node, len, asked.size, second);
        let (seconds, nanos) = asked.time_then(second);
        self.staging.set_mtime(node, seconds, nanos);
    }

    /// The time of the staged content of a file is set.
    fn set_staged_time(&mut self, second: u64, node: u64, asked: &Asked)
        ensures mount { (at : AtTake) → at.second ≡ second → mount_of self.new ≡ spec.mount_after (file_taken at (mount_of self.old) node) (asked_of asked.now) node (mount_of self.old) 0 [] spec.stage_time }
        ensures uses { Uses 0 self.old self.new }
    {
        let (seconds, nanos) = asked.time_set(second);
        self.staging.set_mtime(node, seconds, nanos);
    }

    /// The time of the object was set, where the update was answered so: the file keeps what the bucket told of it.
    fn set_time(&mut self, config: &Config, node: u64, seen: Told) -> Reply
        ensures reply { result ≡ spec.set_reply config.now (record (mount_of self.old) { table = table_after self.old.nodes.table node (last_moment seen.items) (spec.standing_of (answers_of seen.items)) }) node (spec.standing_of (answers_of seen.items)) }
        ensures table { self.new.nodes.table ≡ table_after self.old.nodes.table node (last_moment seen.items) (spec.standing_of (answers_of seen.items)) }
        ensures kept { self.new ≡ record self.old { nodes = self.new.nodes } }
        ensures uses { Uses 0 self.old self.new }
        ensures no_spare { without_spare result ≡ result }
        ensures sendable { IsSendable result }
    {
        let moment = seen.moment();
        match outcome_of_update(seen.into_answers()) {
            Standing::Unasked => {},
            Standing::Live(meta) => refresh(&mut self.nodes, node, meta, moment),
            Standing::Gone => return Reply::Error(ESTALE),
            Standing::Fault => return Reply::Error(EIO),
        }
        self.attributes_with(config, node, 1)
    }
}
