//! Which node a name is shown by.
ghost use Rattle.std.specs.Prelude.{◌≡◌, ◌≤◌, ◌-◌, Option, None, IsSome, IfSome, option_map};
ghost use Rattle.std.specs.FinMap as fin;
ghost use Rattle.mount_rules.specs.Attributes as attributes;
ghost use Rattle.mount_rules.specs.Requests.Lookup as lookup;
ghost use Rattle.mount_rules.specs.Showing as spec;
ghost use Rattle.mount_rules.specs.Standing.{refreshed_at};
ghost use Rattle.inode_spec.specs.Inodes.{granted};
ghost use Rattle.mount_state.specs.StagedAttrs.{attr_of};
ghost use Rattle.mount_state.specs.Tables.{mount_of};
ghost use Rattle.staging_spec.specs.StagedFiles.{StagedContent};

use crate::attributes::{StagedAttr, entry_of};
use crate::file::File;
use crate::staged::staged_attr;
use crate::tables::Tables;
use bucket_api::Meta;
use dir_listing::node_kind;
use fuse_replies::EntryOut;
use inode_table::InodeTable;
use io_ports::Text;
use mount_model::Config;
use object_names::NodeKind;

impl Tables {
    /// Gives a look-up of the node by which a name is shown, after the bucket told of this object at this moment: the
    /// current one where it stands for the object, or was known later, with what is staged of it, and else a new one, which
    /// becomes current under `again`, the same name.
    pub(crate) fn show(
        &mut self,
        config: &Config,
        name: Text,
        again: Text,
        meta: Meta,
        moment: u64,
    ) -> EntryOut
        requires spare { 1 ≤ self.old.nodes.spare }
        requires again { again ≡ name }
        ensures entry { result ≡ lookup.object_entry config.now (mount_of self.old) name meta moment }
        ensures table { self.new.nodes.table ≡ spec.after_showing self.old.nodes.table name meta moment }
        ensures spare { self.new.nodes.spare ≡ self.old.nodes.spare - 1 }
        ensures kept { self.new ≡ record self.old { nodes = self.new.nodes } }
    {
        let Some(number) = shown_again(&self.nodes, &name, &meta, moment) else {
            return make(&mut self.nodes, config, name, again, meta, moment);
        };
        refresh(&mut self.nodes, number, meta, moment);
        self.nodes.look(number);
        let staged = staged_attr(&self.staging, number);
        entry_at(&self.nodes, config, number, staged)
    }
}

/// The current node of a name, where it is shown again by this object at this moment.
fn shown_again(nodes: &InodeTable<File>, name: &Text, meta: &Meta, moment: u64) -> Option<u64>
    ensures { result ≡ spec.number_shown (spec.object_again meta.now moment) nodes.now.table name.now }
{
    let Some(number) = nodes.current(name.as_str()) else {
        return None;
    };
    let Some(inode) = nodes.get(number) else {
        return None;
    };
    let Some(file) = &inode.file else {
        return None;
    };
    if file.stands_for(meta, moment) {
        return Some(number);
    }
    None
}

/// Lets the file of a node know that its own generation was shown at this moment, if it was.
pub(crate) fn refresh(nodes: &mut InodeTable<File>, number: u64, meta: Meta, moment: u64)
    ensures table { nodes.new.table ≡ refreshed_at nodes.old.table number meta moment }
    ensures spare { nodes.new.spare ≡ nodes.old.spare }
{
    if let Some(file) = nodes.file_mut(number) {
        file.refresh(meta, moment);
    }
}

/// Gives a look-up of the node of a directory, by the name of its placeholder: the current one, or a new one, which
/// becomes current under `again`, the same name.
pub(crate) fn show_directory(
    nodes: &mut InodeTable<File>,
    config: &Config,
    name: Text,
    again: Text,
) -> EntryOut
    requires spare { 1 ≤ nodes.old.spare }
    requires again { again ≡ name }
    ensures entry { result ≡ lookup.directory_entry config.now nodes.old.table name }
    ensures table { nodes.new.table ≡ spec.after_directory nodes.old.table name }
    ensures spare { nodes.new.spare ≡ nodes.old.spare - 1 }
{
    let Some(number) = current_there(nodes, &name) else {
        let number = nodes.grant(NodeKind::Dir, name, again, None);
        return entry_at(nodes, config, number, None);
    };
    nodes.look(number);
    entry_at(nodes, config, number, None)
}

/// The current node of a name, where it is there.
fn current_there(nodes: &InodeTable<File>, name: &Text) -> Option<u64>
    ensures { result ≡ spec.number_shown spec.directory_again nodes.now.table name.now }
{
    let Some(number) = nodes.current(name.as_str()) else {
        return None;
    };
    let Some(_) = nodes.get(number) else {
        return None;
    };
    Some(number)
}

/// Gives a look-up of a new node of the object of a name, which becomes current under `again`, the same name.
pub(crate) fn make(
    nodes: &mut InodeTable<File>,
    config: &Config,
    name: Text,
    again: Text,
    meta: Meta,
    moment: u64,
) -> EntryOut
    requires spare { 1 ≤ nodes.old.spare }
    requires again { again ≡ name }
    ensures entry { result ≡ attributes.entry_of config.now nodes.old.table.next (spec.new_node name meta moment) None }
    ensures table { nodes.new.table ≡ granted nodes.old.table (spec.new_node name meta moment) }
    ensures spare { nodes.new.spare ≡ nodes.old.spare - 1 }
{
    let kind = node_kind(&meta);
    let file = File::shown(meta, moment);
    let number = nodes.grant(kind, name, again, Some(file));
    entry_at(nodes, config, number, None)
}

/// What a look-up tells of a node that is there, with what is staged of it.
fn entry_at(
    nodes: &InodeTable<File>,
    config: &Config,
    number: u64,
    staged: Option<StagedAttr>,
) -> EntryOut
    requires { IsSome (fin.get nodes.now.table.nodes number) }
    ensures { (found : Option StagedContent) → staged ≡ option_map attr_of found → IfSome (fin.get nodes.now.table.nodes number) (λ inode. result ≡ attributes.entry_of config.now number inode found) }
{
    match nodes.get(number) {
        Some(inode) => entry_of(config, number, inode, staged),
        None => unreachable!(),
    }
}
