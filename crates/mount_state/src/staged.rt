//! What is staged of a file, as the ends of its requests look at it.
ghost use Rattle.std.specs.Prelude.{◌≡◌, ◌≤◌, ℕ, option_map};
ghost use Rattle.std.specs.FinMap as fin;
ghost use Rattle.std.specs.Option.{option_map_or};
ghost use Rattle.bucket_api.specs.Operation.{max_content};
ghost use Rattle.mount_rules.specs.Files.{FilesAreShort, length_of};
ghost use Rattle.mount_rules.specs.View.{Sight, sight_at, sight_of};
ghost use Rattle.mount_state.specs.StagedAttrs.{attr_of};
ghost use Rattle.mount_state.specs.Tables.{mount_of};

use crate::attributes::StagedAttr;
use crate::file::File;
use crate::tables::Tables;
use inode_table::Inode;
use staging_table::StagingTable;

impl Tables {
    /// The bytes of the generation that a node shows; 0 of a directory.
    pub(crate) fn source_len(&self, node: u64) -> u64
        requires { FilesAreShort (mount_of self.now) }
        ensures size { result ≡ option_map_or (λ (file : Sight). file.size) (sight_at self.now.nodes.table node) 0 }
        ensures short { result ≤ max_content }
    {
        let Some(inode) = self.nodes.get(node) else {
            return 0;
        };
        let Some(file) = &inode.file else {
            return 0;
        };
        file.size
    }

    /// The bytes of the content of a node that is there.
    pub(crate) fn content_len(&self, node: u64, inode: &Inode<File>) -> u64
        ensures { result ≡ length_of (fin.get self.now.staging.files node) (sight_of node inode.now) }
    {
        match self.staging.len(node) {
            Some(len) => len,
            None => shown_len(inode),
        }
    }
}

/// The bytes of the generation that a node shows which is there; 0 of a directory.
fn shown_len(inode: &Inode<File>) -> u64
    ensures { (number : ℕ) → result ≡ (sight_of number inode.now).size }
{
    let Some(file) = &inode.file else {
        return 0;
    };
    file.size
}

/// What is shown of the staged content of a file, where any is.
pub(crate) fn staged_attr(staging: &StagingTable, node: u64) -> Option<StagedAttr>
    ensures { result ≡ option_map attr_of (fin.get staging.now.files node) }
{
    let Some(size) = staging.len(node) else {
        return None;
    };
    let Some((mtime, nanos)) = staging.mtime(node) else {
        return None;
    };
    Some(StagedAttr { size, mtime, nanos })
}
