//! What a request will want at its end, made before it asks anything.
ghost use Rattle.std.specs.Prelude.{◌≡◌, ◌≢◌, ◌++◌, [], None, IfOk, IsSome, OnErr, drop, length, option_and_then};
ghost use Rattle.std.specs.FinMap as fin;
ghost use Rattle.std.specs.Option.{option_map_or};
ghost use Rattle.fuse_requests.specs.Grammar.{without_spare};
ghost use Rattle.mount_rules.specs.Dispatch.{early, view_in};
ghost use Rattle.mount_rules.specs.Guards as guards;
ghost use Rattle.mount_rules.specs.View.{sight_at};
ghost use Rattle.mount_state.specs.Files.{change_at};
ghost use Rattle.mount_rules.specs.Requests.Readdir as readdir;
ghost use Rattle.mount_rules.specs.Requests.Rename as rename;
ghost use Rattle.mount_state.specs.Moving.{moving_view, names_of};
ghost use Rattle.mount_state.specs.Spares.{entries, flush_wants, nothing, path, provided_by, provided_for, read_wants, removal, rename_wants, setattr_wants, write_wants};
ghost use Rattle.mount_state.specs.Tables.{mount_of};
ghost use Rattle.plan_files.specs.Settings.{asked_of};

use crate::entries::entries_from;
use crate::path::{PathTwice, RoomyPath};
use crate::prepared::Prepared;
use crate::tables::Tables;
use fuse_requests::Request;
use io_ports::{NoMemory, Text};
use object_names::{component_text, strip_suffix};
use plan_files::{Asked, Change};
use std::alloc::Global;

impl Tables {
    /// What is prepared for a request. `NoMemory` where memory for it was refused, and never where it wants nothing.
    pub(crate) fn prepared(&self, alloc: Global, request: &Request) -> Result<Prepared, NoMemory>
        requires { early (mount_of self.now) (without_spare request.now) ≡ None }
        ensures ok { IfOk result (λ prepared. provided_by prepared ≡ provided_for (without_spare request.now) (view_in (mount_of self.now) (without_spare request.now))) }
        ensures full { OnErr result (provided_for (without_spare request.now) (view_in (mount_of self.now) (without_spare request.now)) ≢ nothing) }
    {
        match request {
            Request::Lookup { node, name } => {
                self.path(alloc, *node, strip_suffix(name.as_slice()).0)
            }
            Request::Create { node, name }
            | Request::Mknod { node, name, .. }
            | Request::Symlink { node, name, .. }
            | Request::Mkdir { node, name } => self.path(alloc, *node, name.as_slice()),
            Request::Readlink { node } => self.target(alloc, *node),
            Request::Unlink { node, name } => {
                self.removal(alloc, *node, strip_suffix(name.as_slice()).0)
            }
            Request::Rmdir { node, name } => self.removal(alloc, *node, name.as_slice()),
            Request::Rename {
                node,
                newdir,
                name,
                newname,
            } => self.moving(alloc, *node, *newdir, name.as_slice(), newname.as_slice()),
            Request::Rename2 {
                node,
                newdir,
                name,
                newname,
                ..
            } => self.moving(alloc, *node, *newdir, name.as_slice(), newname.as_slice()),
            Request::Readdir {
                node,
                fh,
                first,
                size,
            } => self.entries(alloc, *node, *fh, *first, *size),
            Request::Opening { .. } | Request::Opendir { .. } => Ok(Prepared::Room),
            Request::Read {
                node,
                first,
                size,
                ..
            } => self.buffer(alloc, *node, *first, *size),
            Request::Write { content, .. } => Ok(room_to_write(content.as_slice())),
            Request::Setattr {
                node,
                valid,
                size,
                mtime,
                nanos,
            } => {
                let asked = Asked {
                    valid: *valid,
                    size: *size,
                    seconds: *mtime,
                    nanos: *nanos,
                };
                Ok(self.room_to_set(*node, &asked))
            }
            Request::Flush { node, .. } | Request::Fsync { node, .. } => {
                self.name_to_flush(alloc, *node)
            }
            _ => Ok(Prepared::Nothing),
        }
    }

    /// The path of a part of a live directory.
    fn path(&self, alloc: Global, node: u64, part: &[u8]) -> Result<Prepared, NoMemory>
        requires { guards.in_directory (sight_at self.now.nodes.table node) (guards.part_refusal part.now) ≡ None }
        ensures { IfOk result (λ prepared. provided_by prepared ≡ path (guards.path_in (sight_at self.now.nodes.table node) part.now)) }
    {
        let (prefix, part) = self.child(node, part);
        let path = PathTwice::of(alloc, prefix, part)?;
        Ok(Prepared::Path(path))
    }

    /// The path of what is to be removed of a live directory.
    fn removal(&self, alloc: Global, node: u64, part: &[u8]) -> Result<Prepared, NoMemory>
        requires { guards.in_directory (sight_at self.now.nodes.table node) (guards.part_refusal part.now) ≡ None }
        ensures { IfOk result (λ prepared. provided_by prepared ≡ removal (guards.path_in (sight_at self.now.nodes.table node) part.now)) }
    {
        let (prefix, part) = self.child(node, part);
        let path = RoomyPath::of(alloc, prefix, part)?;
        Ok(Prepared::Removal(path))
    }

    /// The prefix of a live directory, and a part of it as a text.
    fn child<'a>(&'a self, node: u64, part: &'a [u8]) -> (&'a str, &'a str)
        requires { guards.in_directory (sight_at self.now.nodes.table node) (guards.part_refusal part.now) ≡ None }
        ensures { result.0.now ++ result.1.now ≡ guards.path_in (sight_at self.now.nodes.table node) part.now }
    {
        let Some(inode) = self.nodes.get(node) else {
            unreachable!();
        };
        let Ok(part) = component_text(part) else {
            unreachable!();
        };
        (inode.name.as_str(), part)
    }

    /// The paths of what is to be moved; nothing where they are one.
    fn moving(
        &self,
        alloc: Global,
        node: u64,
        newdir: u64,
        name: &[u8],
        newname: &[u8],
    ) -> Result<Prepared, NoMemory>
        requires { rename.refusal (names_of name.now newdir newname.now) (moving_view (mount_of self.now) node (names_of name.now newdir newname.now)) ≡ None }
        ensures ok { IfOk result (λ prepared. provided_by prepared ≡ rename_wants (names_of name.now newdir newname.now) (moving_view (mount_of self.now) node (names_of name.now newdir newname.now))) }
        ensures full { OnErr result (rename_wants (names_of name.now newdir newname.now) (moving_view (mount_of self.now) node (names_of name.now newdir newname.now)) ≢ nothing) }
    {
        let Ok(paths) = self.paths_of(node, newdir, name, newname) else {
            unreachable!();
        };
        if paths.are_one() {
            return Ok(Prepared::Nothing);
        }
        let from = Text::of(alloc, paths.from.as_str())?;
        let to = Text::of(alloc, paths.to.as_str())?;
        Ok(Prepared::Moving { from, to })
    }

    /// The entries of an open directory from a position on, as many whole ones as fit.
    fn entries(
        &self,
        alloc: Global,
        node: u64,
        fh: u64,
        first: u64,
        size: u32,
    ) -> Result<Prepared, NoMemory>
        requires { guards.on_open_directory node (fin.get self.now.handles.handles fh) (λ entries. None) ≡ None }
        ensures { IfOk result (λ prepared. provided_by prepared ≡ entries (readdir.fitting first size (drop first (option_map_or (λ items. items) (option_and_then (guards.entries_opened node) (fin.get self.now.handles.handles fh)) [])))) }
    {
        let Some(handle) = self.handles.get(fh) else {
            unreachable!();
        };
        let Some(items) = &handle.items else {
            unreachable!();
        };
        let entries = entries_from(alloc, items.as_slice(), first, size)?;
        Ok(Prepared::Entries(entries))
    }
    /// A buffer for the bytes of staged content that a READ is answered; nothing where none is staged.
    fn buffer(&self, alloc: Global, node: u64, first: u64, size: u32) -> Result<Prepared, NoMemory>
        ensures ok { IfOk result (λ prepared. provided_by prepared ≡ read_wants first size (fin.get self.now.staging.files node)) }
        ensures full { OnErr result (read_wants first size (fin.get self.now.staging.files node) ≢ nothing) }
    {
        let Some(len) = self.staging.len(node) else {
            return Ok(Prepared::Nothing);
        };
        let count = len.saturating_sub(first).min(size as u64);
        let bytes = zeros(alloc, count as usize)?;
        Ok(Prepared::Buffer(bytes))
    }

    /// Room for staged content, where a SETATTR changes a length.
    fn room_to_set(&self, node: u64, asked: &Asked) -> Prepared
        ensures { provided_by result ≡ setattr_wants (change_at (mount_of self.now) node (asked_of asked.now)) }
    {
        match self.change(node, asked) {
            Change::Resize => Prepared::Room,
            _ => Prepared::Nothing,
        }
    }

    /// The name under which a flush of staged content makes its node current; nothing where none is staged.
    fn name_to_flush(&self, alloc: Global, node: u64) -> Result<Prepared, NoMemory>
        requires there { IsSome (sight_at self.now.nodes.table node) }
        ensures ok { IfOk result (λ prepared. provided_by prepared ≡ flush_wants (fin.get self.now.staging.files node) (sight_at self.now.nodes.table node)) }
        ensures full { OnErr result (flush_wants (fin.get self.now.staging.files node) (sight_at self.now.nodes.table node) ≢ nothing) }
    {
        let Some(_) = self.staging.len(node) else {
            return Ok(Prepared::Nothing);
        };
        let Some(inode) = self.nodes.get(node) else {
            unreachable!();
        };
        let name = inode.name.copy(alloc)?;
        Ok(Prepared::Name(name))
    }
}

/// Room for staged content, where a WRITE writes any byte.
fn room_to_write(content: &[u8]) -> Prepared
    ensures { provided_by result ≡ write_wants content.now }
{
    match content {
        [] => Prepared::Nothing,
        [_, ..] => Prepared::Room,
    }
}

/// So many zeros.
fn zeros(alloc: Global, count: usize) -> Result<Vec<u8>, NoMemory>
    ensures { IfOk result (λ bytes. length bytes.items ≡ count) }
{
    Ok(vec![in alloc; 0; count]?)
}
