//! What a mount prepares for a request.
ghost use Rattle.std.specs.Prelude.{◌≡◌};
ghost use Rattle.mount_state.specs.Spares.{HasEntries, HasPath, HasRemoval, HasTarget, entries, need, path, provided_by, removal, target};

use crate::path::{PathTwice, RoomyPath};
use crate::target::Target;
use fuse_replies::Dirent;
use io_ports::{Row, Text};

/// What is prepared for a request.
#[derive(Drop)]
pub(crate) enum Prepared {
    /// Nothing.
    Nothing,
    /// Room for a handle, or for what is staged of a file.
    Room,
    /// A path, for a node and for the map of current nodes, and room for the node and a handle.
    Path(PathTwice),
    /// The name of a node, for the map of current nodes, and room there.
    Name(Text),
    /// The path of what is to be removed.
    Removal(RoomyPath),
    /// The old path of what is to be moved, and the new one.
    Moving { from: Text, to: Text },
    /// The entries of a READDIR.
    Entries(Row<Dirent>),
    /// A buffer for what a READ is answered of staged content.
    Buffer(Vec<u8>),
    /// The target that a READLINK is answered.
    Target(Target),
}

impl Prepared {
    /// For how many nodes, handles and staged contents each there is to be room.
    pub(crate) fn need(&self) -> u64
        ensures { result ≡ need (provided_by self.now) }
    {
        match self {
            Prepared::Nothing
            | Prepared::Removal(_)
            | Prepared::Moving { .. }
            | Prepared::Entries(_)
            | Prepared::Buffer(_)
            | Prepared::Target(_) => 0,
            Prepared::Room | Prepared::Path(_) | Prepared::Name(_) => 1,
        }
    }

    /// The path that was prepared.
    pub(crate) fn into_path(self) -> PathTwice
        requires { HasPath (provided_by self) }
        ensures { provided_by self ≡ path result }
    {
        match self {
            Prepared::Path(path) => path,
            _ => unreachable!(),
        }
    }

    /// The entries that were prepared.
    pub(crate) fn into_entries(self) -> Row<Dirent>
        requires { HasEntries (provided_by self) }
        ensures { provided_by self ≡ entries result.items }
    {
        match self {
            Prepared::Entries(entries) => entries,
            _ => unreachable!(),
        }
    }

    /// The path that was prepared of what is to be removed.
    pub(crate) fn into_removal(self) -> RoomyPath
        requires { HasRemoval (provided_by self) }
        ensures { provided_by self ≡ removal result }
    {
        match self {
            Prepared::Removal(path) => path,
            _ => unreachable!(),
        }
    }

    /// The target that was prepared.
    pub(crate) fn into_target(self) -> Target
        requires { HasTarget (provided_by self) }
        ensures { provided_by self ≡ target result }
    {
        match self {
            Prepared::Target(target) => target,
            _ => unreachable!(),
        }
    }
}
