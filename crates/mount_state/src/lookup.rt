//! The end of a LOOKUP.
ghost use Rattle.std.specs.Prelude.{◌≡◌, ◌≤◌};
ghost use Rattle.fuse_replies.specs.Replies.{IsSendable, without_spare};
ghost use Rattle.mount_rules.specs.Plans.{answers_of, last_moment};
ghost use Rattle.mount_rules.specs.Requests.Lookup as spec;
ghost use Rattle.mount_state.specs.Tables.{mount_of, Uses};

use crate::path::PathTwice;
use crate::showing::show_directory;
use crate::tables::Tables;
use crate::told::Told;
use fuse_replies::Reply;
use fuse_replies::errno::{EIO, ENOENT};
use mount_model::Config;
use plan_names::{Found, outcome_of_lookup};

impl Tables {
    /// What a look-up that observed this is answered: the node of the path, or an error.
    pub(crate) fn look_up(&mut self, config: &Config, path: PathTwice, seen: Told) -> Reply
        requires spare { 1 ≤ self.old.nodes.spare }
        ensures reply { without_spare result ≡ spec.reply_to config.now (mount_of self.old) path (last_moment seen.items) (spec.found (answers_of seen.items)) }
        ensures table { self.new.nodes.table ≡ spec.table_after self.old.nodes.table path (last_moment seen.items) (spec.found (answers_of seen.items)) }
        ensures kept { self.new ≡ record self.old { nodes = self.new.nodes } }
        ensures uses { Uses 1 self.old self.new }
        ensures sendable { IsSendable (without_spare result) }
    {
        let moment = seen.moment();
        match outcome_of_lookup(seen.into_answers()) {
            Found::Directory => {
                let (name, again) = path.into_prefixes();
                Reply::Entry(show_directory(&mut self.nodes, config, name, again))
            },
            Found::Object(meta) => {
                let (name, again) = path.into_paths();
                Reply::Entry(self.show(config, name, again, meta, moment))
            },
            Found::Nothing => Reply::Error(ENOENT),
            Found::Fault => Reply::Error(EIO),
        }
    }
}
