//! The end of a GETATTR.
ghost use Rattle.std.specs.Prelude.{◌≡◌};
ghost use Rattle.fuse_replies.specs.Replies.{IsSendable, without_spare};
ghost use Rattle.mount_rules.specs.Plans.{answers_of, last_moment};
ghost use Rattle.mount_rules.specs.Requests.Getattr as spec;
ghost use Rattle.mount_rules.specs.Standing.{gone, generation_seen, standing, table_after};
ghost use Rattle.mount_rules.specs.View.{sight_at};
ghost use Rattle.mount_state.specs.Tables.{mount_of, Uses};

use crate::attributes::attributes;
use crate::showing::refresh;
use crate::staged::staged_attr;
use crate::tables::Tables;
use crate::told::Told;
use fuse_replies::errno::{EIO, ESTALE};
use fuse_replies::{AttrOut, Reply};
use mount_model::Config;
use plan_files::Standing;

impl Tables {
    /// The attributes of a node, of which this was observed: it has no name where its generation is live no more, seen
    /// later than it was last known to be live.
    pub(crate) fn tell_attributes(&mut self, config: &Config, node: u64, seen: Told) -> Reply
        ensures reply { result ≡ spec.reply_to config.now (mount_of self.old) node (last_moment seen.items) (standing (generation_seen (sight_at self.old.nodes.table node)) (answers_of seen.items)) }
        ensures table { self.new.nodes.table ≡ table_after self.old.nodes.table node (last_moment seen.items) (standing (generation_seen (sight_at self.old.nodes.table node)) (answers_of seen.items)) }
        ensures kept { self.new ≡ record self.old { nodes = self.new.nodes } }
        ensures uses { Uses 0 self.old self.new }
        ensures no_spare { without_spare result ≡ result }
        ensures sendable { IsSendable result }
    {
        let moment = seen.moment();
        match self.standing(node, seen) {
            Standing::Unasked => self.attributes_with(config, node, 1),
            Standing::Live(meta) => {
                refresh(&mut self.nodes, node, meta, moment);
                self.attributes_with(config, node, 1)
            },
            Standing::Gone => self.attributes_with(config, node, self.links(node, moment)),
            Standing::Fault => Reply::Error(EIO),
        }
    }

    /// The attributes of a node with so many names; ESTALE where it isn't there.
    pub(crate) fn attributes_with(&self, config: &Config, node: u64, nlink: u32) -> Reply
        ensures reply { result ≡ spec.reply_with config.now self.now.nodes.table self.now.staging.files node nlink }
        ensures no_spare { without_spare result ≡ result }
        ensures sendable { IsSendable result }
    {
        match self.nodes.get(node) {
            Some(inode) => Reply::Attr(AttrOut {
                nlink,
                ..attributes(config, node, inode, staged_attr(&self.staging, node))
            }),
            None => Reply::Error(ESTALE),
        }
    }

    /// How many names a node has whose generation was not live at this moment: one, where it was known to be live later.
    fn links(&self, node: u64, moment: u64) -> u32
        ensures { result ≡ spec.links self.now.nodes.table node moment gone }
    {
        if self.known(node) < moment {
            return 0;
        }
        1
    }

    /// The moment at which the generation of a node was last known to be live; 0 of a directory.
    fn known(&self, node: u64) -> u64
        ensures { result ≡ spec.known_at self.now.nodes.table node }
    {
        let Some(inode) = self.nodes.get(node) else {
            return 0;
        };
        let Some(file) = &inode.file else {
            return 0;
        };
        file.kept.known
    }
}
