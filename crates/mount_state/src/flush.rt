//! The end of a FLUSH or an FSYNC.
ghost use Rattle.std.specs.Prelude.{◌≡◌, ◌≤◌, ◌+◌, IsSome, IfSome};
ghost use Rattle.std.specs.FinMap as fin;
ghost use Rattle.std.specs.Option.{option_map_or};
ghost use Rattle.fuse_replies.specs.Replies.{IsSendable, without_spare};
ghost use Rattle.inode_spec.specs.Inodes.{file_of, with_file};
ghost use Rattle.mount_rules.specs.Mount as rules;
ghost use Rattle.mount_rules.specs.Mount.{IsMount};
ghost use Rattle.mount_rules.specs.Plans.{answers_of, last_moment};
ghost use Rattle.mount_rules.specs.Requests.Flush as spec;
ghost use Rattle.mount_rules.specs.Showing.{file_shown};
ghost use Rattle.mount_rules.specs.View.{sight_at};
ghost use Rattle.mount_state.specs.Spares.{flush_wants, need, provided_by};
ghost use Rattle.mount_state.specs.Tables.{mount_of, HasRoom, Uses};

use crate::file::File;
use crate::prepared::Prepared;
use crate::refusals::is_live;
use crate::tables::Tables;
use crate::told::Told;
use bucket_api::Meta;
use fuse_replies::Reply;
use fuse_replies::errno::{EIO, ESTALE};
use inode_table::InodeTable;
use io_ports::Text;
use plan_files::{Came, outcome_of_flush};

impl Tables {
    /// What a flush that observed this is answered. Where it made a generation the file shows that, under its name, and
    /// nothing of it is staged any more; ESTALE where the source is live no more, and what is staged stays.
    pub(crate) fn flush(&mut self, node: u64, prepared: Prepared, seen: Told) -> Reply
        requires mount { IsMount (mount_of self.old) }
        requires prepared { provided_by prepared ≡ flush_wants (fin.get self.old.staging.files node) (sight_at self.old.nodes.table node) }
        requires room { HasRoom (need (provided_by prepared)) self.old }
        ensures reply { result ≡ spec.reply_by (fin.get self.old.staging.files node) (spec.came_of (answers_of seen.items)) }
        ensures mount { mount_of self.new ≡ spec.mount_by (fin.get self.old.staging.files node) (mount_of self.old) node (last_moment seen.items) (spec.came_of (answers_of seen.items)) }
        ensures uses { Uses (need (provided_by prepared)) self.old self.new }
        ensures no_spare { without_spare result ≡ result }
        ensures sendable { IsSendable result }
    {
        let Prepared::Name(name) = prepared else {
            return Reply::Empty;
        };
        let moment = seen.moment();
        match outcome_of_flush(seen.into_answers()) {
            Came::Made(meta) => {
                show_generation(&mut self.nodes, node, name, meta, moment);
                self.staging.end(node);
                Reply::Empty
            },
            Came::Stale => Reply::Error(ESTALE),
            Came::Fault => Reply::Error(EIO),
        }
    }
}

/// A file shows a new generation, which the bucket told of at this moment, and is current under its name where it is live.
fn show_generation(nodes: &mut InodeTable<File>, number: u64, name: Text, meta: Meta, moment: u64)
    requires spare { 1 ≤ nodes.old.spare }
    requires file { IsSome (file_of nodes.old.table number) }
    requires name { IfSome (fin.get nodes.old.table.nodes number) (λ inode. name ≡ inode.name) }
    ensures table { nodes.new.table ≡ spec.table_with nodes.old.table number meta moment }
    ensures spare { nodes.old.spare ≤ nodes.new.spare + 1 }
{
    show_file(nodes, number, meta, moment);
    make_current_if_live(nodes, number, name);
}

/// A file shows a new generation, which the bucket told of at this moment.
fn show_file(nodes: &mut InodeTable<File>, number: u64, meta: Meta, moment: u64)
    ensures table { nodes.new.table ≡ option_map_or (λ (file : rules.File). with_file nodes.old.table number (file_shown meta moment)) (file_of nodes.old.table number) nodes.old.table }
    ensures spare { nodes.new.spare ≡ nodes.old.spare }
{
    if let Some(file) = nodes.file_mut(number) {
        *file = File::shown(meta, moment);
    }
}

/// Makes a node that is live the current one of its name.
fn make_current_if_live(nodes: &mut InodeTable<File>, number: u64, name: Text)
    requires spare { 1 ≤ nodes.old.spare }
    requires name { IfSome (fin.get nodes.old.table.nodes number) (λ inode. name ≡ inode.name) }
    ensures table { nodes.new.table ≡ option_map_or (λ inode. spec.made_current_if_live nodes.old.table number inode) (fin.get nodes.old.table.nodes number) nodes.old.table }
    ensures spare { nodes.old.spare ≤ nodes.new.spare + 1 }
{
    let Some(inode) = nodes.get(number) else {
        return;
    };
    if is_live(number, inode) {
        nodes.make_current(number, name);
    }
}
