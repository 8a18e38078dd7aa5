//! The ends of the requests that make an object of a name: CREATE, MKNOD and SYMLINK, and MKDIR, which makes a directory's.
ghost use Rattle.std.specs.Prelude.{◌≡◌, ◌≤◌, ◌<◌, ◌^◌};
ghost use Rattle.fuse_replies.specs.Replies.{IsSendable, without_spare};
ghost use Rattle.mount_rules.specs.Making as making;
ghost use Rattle.mount_rules.specs.Plans.{answers_of, last_moment};
ghost use Rattle.mount_rules.specs.Requests.Create as create;
ghost use Rattle.mount_rules.specs.Requests.Mkdir as mkdir;
ghost use Rattle.mount_rules.specs.Requests.Mknod as mknod;
ghost use Rattle.mount_state.specs.Made.{entry_or_errno};
ghost use Rattle.mount_state.specs.Tables.{mount_of, Uses};
ghost use Rattle.object_names.specs.Paths.{dir_prefix_of};

use crate::path::PathTwice;
use crate::showing::{make, show_directory};
use crate::tables::Tables;
use crate::told::Told;
use fuse_replies::errno::{EEXIST, EIO};
use fuse_replies::{EntryOut, Reply};
use mount_model::Config;
use plan_names::{Made, outcome_of_insert};

impl Tables {
    /// What a CREATE that observed this is answered: a new node, open, or an error.
    pub(crate) fn create(&mut self, config: &Config, path: PathTwice, seen: Told) -> Reply
        requires spare { 1 ≤ self.old.nodes.spare }
        requires handle { 1 ≤ self.old.handles.spare }
        requires number { self.old.handles.next < 2 ^ 62 }
        ensures reply { without_spare result ≡ create.reply_to config.now (mount_of self.old) path (last_moment seen.items) (making.made (answers_of seen.items)) }
        ensures mount { mount_of self.new ≡ create.mount_after (mount_of self.old) path (last_moment seen.items) (making.made (answers_of seen.items)) }
        ensures uses { Uses 1 self.old self.new }
        ensures sendable { IsSendable (without_spare result) }
    {
        match self.new_node(config, path, seen) {
            Ok(entry) => {
                let fh = self.handles.open_file(entry.node);
                Reply::Created { entry, fh }
            },
            Err(errno) => Reply::Error(errno),
        }
    }

    /// What a MKNOD or a SYMLINK that observed this is answered: a new node, or an error.
    pub(crate) fn make_node(&mut self, config: &Config, path: PathTwice, seen: Told) -> Reply
        requires spare { 1 ≤ self.old.nodes.spare }
        ensures reply { without_spare result ≡ mknod.reply_to config.now (mount_of self.old) path (last_moment seen.items) (making.made (answers_of seen.items)) }
        ensures mount { mount_of self.new ≡ mknod.mount_after (mount_of self.old) path (last_moment seen.items) (making.made (answers_of seen.items)) }
        ensures uses { Uses 1 self.old self.new }
        ensures sendable { IsSendable (without_spare result) }
    {
        match self.new_node(config, path, seen) {
            Ok(entry) => Reply::Entry(entry),
            Err(errno) => Reply::Error(errno),
        }
    }

    /// A new node of the object that was made, or the error of the request that was to make it.
    fn new_node(&mut self, config: &Config, path: PathTwice, seen: Told) -> Result<EntryOut, u32>
        requires spare { 1 ≤ self.old.nodes.spare }
        ensures entry { result ≡ entry_or_errno config.now self.old.nodes.table path (last_moment seen.items) (making.made (answers_of seen.items)) }
        ensures mount { mount_of self.new ≡ mknod.mount_after (mount_of self.old) path (last_moment seen.items) (making.made (answers_of seen.items)) }
        ensures kept { self.new ≡ record self.old { nodes = self.new.nodes } }
        ensures uses { Uses 1 self.old self.new }
    {
        let moment = seen.moment();
        match outcome_of_insert(seen.into_answers()) {
            Made::New(meta) => {
                let (name, again) = path.into_paths();
                Ok(make(&mut self.nodes, config, name, again, meta, moment))
            },
            Made::Exists => Err(EEXIST),
            Made::Fault => Err(EIO),
        }
    }

    /// What a MKDIR that observed this is answered: the node of the directory at the path, or an error.
    pub(crate) fn make_directory(&mut self, config: &Config, path: PathTwice, seen: Told) -> Reply
        requires spare { 1 ≤ self.old.nodes.spare }
        ensures reply { without_spare result ≡ mkdir.reply_to config.now (mount_of self.old) (dir_prefix_of path) (making.made (answers_of seen.items)) }
        ensures mount { mount_of self.new ≡ mkdir.mount_after (mount_of self.old) (dir_prefix_of path) (making.made (answers_of seen.items)) }
        ensures uses { Uses 1 self.old self.new }
        ensures sendable { IsSendable (without_spare result) }
    {
        match outcome_of_insert(seen.into_answers()) {
            Made::New(_) => {
                let (name, again) = path.into_prefixes();
                Reply::Entry(show_directory(&mut self.nodes, config, name, again))
            },
            Made::Exists => Reply::Error(EEXIST),
            Made::Fault => Reply::Error(EIO),
        }
    }
}
