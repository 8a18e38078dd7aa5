//! The two paths of a RENAME, and why it is refused at its take.
ghost use Rattle.std.specs.Prelude.{◌≡◌, ◌&&◌, not, true, Some, None, IfOk, IfErr, MatchResult, Option, ℕ, if◌then◌else◌};
ghost use Rattle.std.specs.FinMap as fin;
ghost use Rattle.std.specs.Str.{bytes_eq};
ghost use Rattle.fuse_replies.specs.Errno.{ebusy};
ghost use Rattle.inode_spec.specs.Inodes as inodes;
ghost use Rattle.mount_rules.specs.Guards as guards;
ghost use Rattle.mount_rules.specs.Requests.Rename as spec;
ghost use Rattle.mount_rules.specs.Requests.Rename2 as rename2;
ghost use Rattle.mount_rules.specs.View.{Sight, child_of, current_at, sight_at};
ghost use Rattle.mount_state.specs.Moving.{IsMoving, has_staged, moving_view, names_of};
ghost use Rattle.mount_state.specs.Tables.{mount_of};

use crate::file::File;
use crate::refusals::{is_directory, is_live, part_text};
use crate::tables::Tables;
use arrayvec::ArrayString;
use fuse_replies::errno::{EBUSY, EINVAL, ENOTDIR, ESTALE};
use inode_table::Inode;
use object_names::{PATH_MAX, strip_suffix};

/// The old path of a RENAME, and the new one. They lie in the value itself, so that its take asks for no memory.
#[derive(Drop)]
pub(crate) struct TwoPaths {
    pub(crate) from: ArrayString<PATH_MAX>,
    pub(crate) to: ArrayString<PATH_MAX>,
}

impl TwoPaths {
    /// Whether they are one.
    pub(crate) fn are_one(&self) -> bool
        ensures { result ≡ bytes_eq self.now.from.bytes self.now.to.bytes }
    {
        self.from.as_str() == self.to.as_str()
    }
}

impl Tables {
    /// The error of a RENAME: that of a directory or of a name, or that what has staged content would be moved.
    pub(crate) fn rename_refusal(
        &self,
        node: u64,
        newdir: u64,
        name: &[u8],
        newname: &[u8],
    ) -> Option<u32>
        ensures { result ≡ spec.refusal (names_of name.now newdir newname.now) (moving_view (mount_of self.now) node (names_of name.now newdir newname.now)) }
    {
        match self.paths_of(node, newdir, name, newname) {
            Ok(paths) => self.busy_refusal(&paths),
            Err(errno) => Some(errno),
        }
    }

    /// The error of a RENAME2: that it has a flag, or that of a RENAME.
    pub(crate) fn rename2_refusal(
        &self,
        node: u64,
        newdir: u64,
        flags: u32,
        name: &[u8],
        newname: &[u8],
    ) -> Option<u32>
        ensures { result ≡ rename2.refusal flags (names_of name.now newdir newname.now) (moving_view (mount_of self.now) node (names_of name.now newdir newname.now)) }
    {
        if flags != 0 {
            return Some(EINVAL);
        }
        self.rename_refusal(node, newdir, name, newname)
    }

    /// The paths of a RENAME: that of a name, without its suffix, in a first directory, and that of a second name in a
    /// second one. Else the error of a directory or of a name.
    pub(crate) fn paths_of(
        &self,
        node: u64,
        newdir: u64,
        name: &[u8],
        newname: &[u8],
    ) -> Result<TwoPaths, u32>
        ensures err { IfErr result (λ errno. spec.refusal (names_of name.now newdir newname.now) (moving_view (mount_of self.now) node (names_of name.now newdir newname.now)) ≡ Some errno) }
        ensures ok { IfOk result (λ paths. IsMoving (mount_of self.now) node (names_of name.now newdir newname.now) paths) }
    {
        let old = self.live(node)?;
        let new = self.live(newdir)?;
        if !are_directories(old, new) {
            return Err(ENOTDIR);
        }
        let from = short_path(old.name.as_str(), strip_suffix(name).0)?;
        let to = short_path(new.name.as_str(), newname)?;
        Ok(TwoPaths { from, to })
    }

    /// A node that is live.
    fn live(&self, node: u64) -> Result<&Inode<File>, u32>
        ensures { MatchResult result (λ inode. (fin.get self.now.nodes.table.nodes node ≡ Some inode.now) × (inodes.is_live node inode.now ≡ true)) (λ errno. (next : Sight → Option ℕ) → guards.on_live (sight_at self.now.nodes.table node) next ≡ Some errno) }
    {
        match self.nodes.get(node) {
            Some(inode) if is_live(node, inode) => Ok(inode),
            _ => Err(ESTALE),
        }
    }

    /// The error of a RENAME to another path whose old one has a current node with staged content.
    fn busy_refusal(&self, paths: &TwoPaths) -> Option<u32>
        ensures { result ≡ (if has_staged (current_at (mount_of self.now) paths.now.from.bytes) && not (bytes_eq paths.now.from.bytes paths.now.to.bytes) then Some ebusy else None) }
    {
        if self.has_staged(paths.from.as_str()) && !paths.are_one() {
            return Some(EBUSY);
        }
        None
    }

    /// Whether the current node of a path has staged content.
    fn has_staged(&self, path: &str) -> bool
        ensures { result ≡ has_staged (current_at (mount_of self.now) path.now) }
    {
        let Some(number) = self.nodes.current(path) else {
            return false;
        };
        if self.nodes.get(number).is_none() {
            return false;
        }
        self.staging.len(number).is_some()
    }
}

/// Whether both nodes are directories.
fn are_directories(old: &Inode<File>, new: &Inode<File>) -> bool
    ensures { result ≡ (guards.is_directory old.now.kind && guards.is_directory new.now.kind) }
{
    is_directory(old.kind) && is_directory(new.kind)
}

/// The path of a part of the directory of a prefix; else why it is none.
fn short_path(prefix: &str, part: &[u8]) -> Result<ArrayString<PATH_MAX>, u32>
    ensures { (sight : Sight) → sight.name ≡ prefix.now → MatchResult result (λ path. (path.bytes ≡ child_of sight part.now) × (guards.part_refusal part.now sight ≡ None)) (λ errno. guards.part_refusal part.now sight ≡ Some errno) }
{
    let part = part_text(part, prefix)?;
    let mut path = ArrayString::new();
    path.push_str(prefix);
    path.push_str(part);
    Ok(path)
}
