//! Why a request is refused before it asks anything.
ghost use Rattle.std.specs.Prelude.{◌≡◌, ◌≤◌, ◌++◌, Some, None, IfOk, MatchResult, length, if◌then◌else◌};
ghost use Rattle.std.specs.FinMap as fin;
ghost use Rattle.fuse_replies.specs.Errno.{enospc, enotdir, estale};
ghost use Rattle.fuse_requests.specs.Grammar.{without_spare};
ghost use Rattle.inode_spec.specs.Inodes as inodes;
ghost use Rattle.mount_model.specs.declared.config.Config.{Config};
ghost use Rattle.mount_rules.specs.Dispatch as rules;
ghost use Rattle.mount_rules.specs.Files.{FilesAreShort};
ghost use Rattle.mount_rules.specs.Guards as guards;
ghost use Rattle.mount_rules.specs.Requests.Mknod as mknod;
ghost use Rattle.mount_rules.specs.Requests.Readlink as readlink;
ghost use Rattle.mount_rules.specs.Requests.Setattr as setattr;
ghost use Rattle.mount_rules.specs.Requests.Symlink as symlink;
ghost use Rattle.mount_rules.specs.Requests.Write as writing;
ghost use Rattle.mount_rules.specs.Rules.{at_handle, at_node};
ghost use Rattle.mount_rules.specs.View.{Sight, sight_at, view_of};
ghost use Rattle.mount_state.specs.Files.{HasBlocks};
ghost use Rattle.mount_state.specs.Tables.{mount_of};
ghost use Rattle.object_names.specs.Paths.{path_max};
ghost use Rattle.plan_files.specs.Settings.{asked_of};

use crate::file::File;
use crate::limits::{
    is_regular, not_a_file, not_a_symlink, setattr_refusal, size_refusal, target_refusal,
    write_refusal,
};
use crate::tables::Tables;
use crate::unread::{is_init, is_silent, unread};
use fuse_replies::errno::{EBADF, EINVAL, ENAMETOOLONG, ENOSPC, ENOSYS, ENOTDIR, EPROTO, ESTALE};
use fuse_requests::Request;
use inode_table::Inode;
use object_names::{NameFault, NodeKind, component_text, path_fits, strip_suffix};
use plan_files::Asked;

/// The number of the root: `FUSE_ROOT_ID` of fuse.h.
const ROOT: u64 = 1;

impl Tables {
    /// The error with which a request is refused at its take: what refuses it early, and of a WRITE at last that it touches
    /// more blocks than are free (ENOSPC).
    pub(crate) fn refused_at_take(&self, request: &Request) -> Option<u32>
        requires short { FilesAreShort (mount_of self.now) }
        ensures { (config : Config) → HasBlocks self.now config → result ≡ rules.refused_at_take config (mount_of self.now) (without_spare request.now) }
    {
        match self.early(request) {
            Some(errno) => Some(errno),
            None => self.full_refusal(request),
        }
    }

    /// The error of a WRITE that nothing else refuses, where it touches more blocks than are free.
    fn full_refusal(&self, request: &Request) -> Option<u32>
        requires short { FilesAreShort (mount_of self.now) }
        requires free { rules.early (mount_of self.now) (without_spare request.now) ≡ None }
        ensures { (config : Config) → HasBlocks self.now config → result ≡ (if rules.is_full config (mount_of self.now) (without_spare request.now) then Some enospc else None) }
    {
        match request {
            Request::Write {
                node,
                first,
                content,
                ..
            } if self.is_full(*node, *first, content.as_slice()) => Some(ENOSPC),
            _ => None,
        }
    }

    /// The error with which a request that gets a reply is refused before it asks anything of the bucket: first that no
    /// version is agreed on (EPROTO), then that it isn't served (ENOSYS) or could not be read (EINVAL), then what its own
    /// rules refuse. None where nothing does, and for requests that never get a reply.
    pub(crate) fn early(&self, request: &Request) -> Option<u32>
        ensures { result ≡ rules.early (mount_of self.now) (without_spare request.now) }
    {
        if !self.negotiated && !is_silent(request) && !is_init(request) {
            return Some(EPROTO);
        }
        self.refusal(request)
    }

    /// The error with which a request's own rules refuse it.
    fn refusal(&self, request: &Request) -> Option<u32>
        ensures { result ≡ (rules.rules_of (without_spare request.now)).refusal (rules.view_in (mount_of self.now) (without_spare request.now)) }
    {
        match request {
            Request::Lookup { node, name } | Request::Unlink { node, name } => self.child_refusal(
                *node,
                strip_suffix(name.as_slice()).0,
            ),
            Request::Create { node, name }
            | Request::Mkdir { node, name }
            | Request::Rmdir { node, name } => self.child_refusal(*node, name.as_slice()),
            Request::Mknod { node, mode, name } => self.mknod_refusal(
                *node,
                *mode,
                name.as_slice(),
            ),
            Request::Symlink { node, name, target } => {
                self.symlink_refusal(*node, name.as_slice(), target.as_slice())
            }
            Request::Readlink { node } => self.readlink_refusal(*node),
            Request::Rename {
                node,
                newdir,
                name,
                newname,
            } => self.rename_refusal(*node, *newdir, name.as_slice(), newname.as_slice()),
            Request::Rename2 {
                node,
                newdir,
                flags,
                name,
                newname,
            } => self.rename2_refusal(*node, *newdir, *flags, name.as_slice(), newname.as_slice()),
            Request::Opendir { node } => self.directory_refusal(*node),
            Request::Getattr { node } => self.live_refusal(*node),
            Request::Opening { node, .. } => self.file_refusal(*node),
            Request::Read { node, fh, size, .. } => self.read_refusal(*node, *fh, *size),
            Request::Write {
                node,
                fh,
                first,
                content,
            } => self.write_refusal(*node, *fh, *first, content.as_slice()),
            Request::Setattr {
                node,
                valid,
                size,
                mtime,
                nanos,
            } => {
                let asked = Asked {
                    valid: *valid,
                    size: *size,
                    seconds: *mtime,
                    nanos: *nanos,
                };
                self.setattr_refusal(*node, &asked)
            }
            Request::Release { node, fh }
            | Request::Flush { node, fh }
            | Request::Fsync { node, fh } => self.open_file_refusal(*node, *fh),
            Request::Readdir { node, fh, size, .. } => self.readdir_refusal(*node, *fh, *size),
            Request::Releasedir { node, fh } | Request::Fsyncdir { node, fh } => {
                self.handle_refusal(*node, *fh)
            }
            Request::Init { .. } | Request::Statfs | Request::Destroy => None,
            Request::Forget { .. } | Request::BatchForget { .. } | Request::Interrupt => None,
            Request::Unknown { opcode } => unread(*opcode),
        }
    }

    /// The error of a node that isn't live.
    fn live_refusal(&self, node: u64) -> Option<u32>
        ensures { result ≡ guards.on_live (sight_at self.now.nodes.table node) (λ sight. None) }
    {
        match self.nodes.get(node) {
            Some(inode) if is_live(node, inode) => None,
            _ => Some(ESTALE),
        }
    }

    /// The error of a node that is no live file.
    fn file_refusal(&self, node: u64) -> Option<u32>
        ensures { result ≡ guards.in_file (sight_at self.now.nodes.table node) (λ file. None) }
    {
        match self.nodes.get(node) {
            Some(inode) if is_live(node, inode) => not_a_file(inode.kind),
            _ => Some(ESTALE),
        }
    }

    /// The error of a node that is no live directory.
    fn directory_refusal(&self, node: u64) -> Option<u32>
        ensures { result ≡ guards.in_directory (sight_at self.now.nodes.table node) (λ directory. None) }
    {
        match self.nodes.get(node) {
            Some(inode) => kind_refusal(node, inode),
            None => Some(ESTALE),
        }
    }

    /// The error of a name in a directory: that of the directory, or that the name is no component or its path too long.
    fn child_refusal(&self, node: u64, part: &[u8]) -> Option<u32>
        ensures { result ≡ guards.in_directory (sight_at self.now.nodes.table node) (guards.part_refusal part.now) }
    {
        let Some(inode) = self.nodes.get(node) else {
            return Some(ESTALE);
        };
        match kind_refusal(node, inode) {
            Some(errno) => Some(errno),
            None => part_refusal(part, inode.name.as_str()),
        }
    }

    /// The error of a MKNOD: that its mode is of no regular file, or that of its name.
    fn mknod_refusal(&self, node: u64, mode: u32, part: &[u8]) -> Option<u32>
        ensures { result ≡ mknod.refusal mode part.now (view_of (mount_of self.now) (at_node node)) }
    {
        if !is_regular(mode) {
            return Some(ENOSYS);
        }
        self.child_refusal(node, part)
    }

    /// The error of a SYMLINK: that of its name, or of its target.
    fn symlink_refusal(&self, node: u64, part: &[u8], target: &[u8]) -> Option<u32>
        ensures { result ≡ guards.in_directory (sight_at self.now.nodes.table node) (symlink.texts_refusal part.now target.now) }
    {
        match self.child_refusal(node, part) {
            Some(errno) => Some(errno),
            None => target_refusal(target),
        }
    }

    /// The error of a READLINK: that the node isn't live, or is no symlink.
    fn readlink_refusal(&self, node: u64) -> Option<u32>
        ensures { result ≡ guards.on_live (sight_at self.now.nodes.table node) (λ sight. readlink.kind_refusal sight.kind) }
    {
        match self.nodes.get(node) {
            Some(inode) if is_live(node, inode) => not_a_symlink(inode.kind),
            _ => Some(ESTALE),
        }
    }

    /// The error of a handle that is no open directory on this node.
    fn handle_refusal(&self, node: u64, fh: u64) -> Option<u32>
        ensures { result ≡ guards.on_open_directory node (fin.get self.now.handles.handles fh) (λ entries. None) }
    {
        match self.handles.get(fh) {
            Some(handle) if handle.node == node && handle.items.is_some() => None,
            _ => Some(EBADF),
        }
    }

    /// The error of a handle that is no open file on this node, which is there.
    fn open_file_refusal(&self, node: u64, fh: u64) -> Option<u32>
        ensures { result ≡ guards.on_open_file node (view_of (mount_of self.now) (at_handle node fh)) (λ file. None) }
    {
        match self.handles.get(fh) {
            Some(handle) if handle.node == node && handle.items.is_none() => {},
            _ => return Some(EBADF),
        }
        match self.nodes.get(node) {
            Some(inode) if !is_directory(inode.kind) => None,
            _ => Some(EBADF),
        }
    }

    /// The error of a READ: that of its handle, or that it asks for too many bytes.
    fn read_refusal(&self, node: u64, fh: u64, size: u32) -> Option<u32>
        ensures { result ≡ guards.on_open_file node (view_of (mount_of self.now) (at_handle node fh)) (λ file. guards.size_refusal size) }
    {
        match self.open_file_refusal(node, fh) {
            Some(errno) => Some(errno),
            None => size_refusal(size),
        }
    }

    /// The error of a WRITE: that of its handle, or that it asks for too much.
    fn write_refusal(&self, node: u64, fh: u64, first: u64, content: &[u8]) -> Option<u32>
        ensures { result ≡ guards.on_open_file node (view_of (mount_of self.now) (at_handle node fh)) (λ file. writing.limits_refusal first (length content.now)) }
    {
        match self.open_file_refusal(node, fh) {
            Some(errno) => Some(errno),
            None => write_refusal(first, content),
        }
    }

    /// The error of a SETATTR: that the node isn't live, or that it asks for too much.
    fn setattr_refusal(&self, node: u64, asked: &Asked) -> Option<u32>
        ensures { result ≡ guards.on_live (sight_at self.now.nodes.table node) (λ sight. setattr.kind_refusal (asked_of asked.now) sight.kind) }
    {
        match self.nodes.get(node) {
            Some(inode) if is_live(node, inode) => setattr_refusal(asked, inode.kind),
            _ => Some(ESTALE),
        }
    }

    /// The error of a READDIR: that of its handle, or that it asks for too many bytes.
    fn readdir_refusal(&self, node: u64, fh: u64, size: u32) -> Option<u32>
        ensures { result ≡ guards.on_open_directory node (fin.get self.now.handles.handles fh) (λ entries. guards.size_refusal size) }
    {
        match self.handle_refusal(node, fh) {
            Some(errno) => Some(errno),
            None => size_refusal(size),
        }
    }
}

/// Whether a node that is there is live: the root is, and every other one that has look-ups.
pub(crate) fn is_live(node: u64, inode: &Inode<File>) -> bool
    ensures { result ≡ inodes.is_live node inode.now }
{
    node == ROOT || inode.lookups > 0
}

/// Whether a node of this kind is a directory.
pub(crate) fn is_directory(kind: NodeKind) -> bool
    ensures { result ≡ guards.is_directory kind }
{
    match kind {
        NodeKind::Dir => true,
        _ => false,
    }
}

/// The error of a node that is there and is no live directory.
fn kind_refusal(node: u64, inode: &Inode<File>) -> Option<u32>
    ensures { result ≡ (if inodes.is_live node inode.now then (if guards.is_directory inode.now.kind then None else Some enotdir) else Some estale) }
{
    if !is_live(node, inode) {
        return Some(ESTALE);
    }
    match inode.kind {
        NodeKind::Dir => None,
        _ => Some(ENOTDIR),
    }
}

/// The error of a name in the directory of a prefix: it is no component, or its path is too long.
fn part_refusal(part: &[u8], prefix: &str) -> Option<u32>
    ensures { (sight : Sight) → sight.name ≡ prefix.now → result ≡ guards.part_refusal part.now sight }
{
    match part_text(part, prefix) {
        Err(errno) => Some(errno),
        Ok(_) => None,
    }
}

/// A name in the directory of a prefix, as a text; else its error.
pub(crate) fn part_text<'a>(part: &'a [u8], prefix: &str) -> Result<&'a str, u32>
    ensures part { (sight : Sight) → sight.name ≡ prefix.now → MatchResult result (λ text. (text.now ≡ part.now) × (guards.part_refusal part.now sight ≡ None)) (λ errno. guards.part_refusal part.now sight ≡ Some errno) }
    ensures fits { IfOk result (λ text. length (prefix.now ++ text.now) ≤ path_max) }
{
    match component_text(part) {
        Err(NameFault::TooLong) => Err(ENAMETOOLONG),
        Err(_) => Err(EINVAL),
        Ok(text) if path_fits(prefix, text) => Ok(text),
        Ok(_) => Err(ENAMETOOLONG),
    }
}
