//! The tables of a mount.
use crate::file::File;
use handle_table::HandleTable;
use inode_table::InodeTable;
use staging_table::StagingTable;

/// What a mount holds: its nodes, its open handles, what is staged of files, and whether a version of the protocol is
/// agreed on.
#[derive(Drop)]
pub(crate) struct Tables {
    pub(crate) nodes: InodeTable<File>,
    pub(crate) handles: HandleTable,
    pub(crate) staging: StagingTable,
    pub(crate) negotiated: bool,
}
