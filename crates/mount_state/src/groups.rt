//! The requests in three groups, by what their ends work on.
ghost use Rattle.fuse_requests.specs.Grammar.{without_spare};
ghost use Rattle.mount_state.specs.Groups.{IsIn};

use fuse_requests::Request;

/// What the end of a request works on.
#[derive(Clone, Copy)]
pub(crate) enum Group {
    /// An entry of a directory, by its name.
    Entry,
    /// A node: it is shown, opened, read or written.
    Node,
    /// What the mount decides alone: handles of directories, look-ups, and the mount itself.
    Mount,
}

/// The group of a request.
pub(crate) fn group_of(request: &Request) -> Group
    ensures { IsIn result (without_spare request.now) }
{
    match request {
        Request::Lookup { .. } | Request::Create { .. } | Request::Mknod { .. } => Group::Entry,
        Request::Symlink { .. } | Request::Mkdir { .. } | Request::Unlink { .. } => Group::Entry,
        Request::Rmdir { .. } | Request::Rename { .. } | Request::Rename2 { .. } => Group::Entry,
        Request::Readlink { .. } | Request::Readdir { .. } | Request::Opendir { .. } => Group::Node,
        Request::Getattr { .. } | Request::Setattr { .. } | Request::Opening { .. } => Group::Node,
        Request::Read { .. } | Request::Write { .. } | Request::Release { .. } => Group::Node,
        Request::Flush { .. } | Request::Fsync { .. } => Group::Node,
        _ => Group::Mount,
    }
}
