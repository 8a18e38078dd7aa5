//! Replies as values.
use io_ports::{Bytes, Row, Text};

/// The attributes of a node, as far as they differ from node to node. In a frame, `struct fuse_attr` of Linux
/// `fuse.h`, atime and ctime are the mtime, the blocks are `size` in units of 512 bytes, rounded up, uid, gid and
/// rdev are 0, and blksize is 4096.
#[derive(Clone, Copy, Debug, PartialEq, Eq)]
pub struct AttrOut {
    /// The number of the node.
    pub ino: u64,
    /// Bytes of the content.
    pub size: u64,
    /// Seconds since 1970 of the last change.
    pub mtime: u64,
    /// Nanoseconds of the last change.
    pub nanos: u32,
    /// The kind of the node and its permissions, as in `stat`.
    pub mode: u32,
    /// How many names it has.
    pub nlink: u32,
}

/// A node that is shown by a name, `struct fuse_entry_out`. Its generation is 0, and the kernel may keep neither
/// the name nor the attributes for any time.
#[derive(Clone, Copy, Debug, PartialEq, Eq)]
pub struct EntryOut {
    /// The node.
    pub node: u64,
    /// Its attributes.
    pub attr: AttrOut,
}

/// An entry of a directory, `struct fuse_dirent`. Its ino is told as unknown, 4294967295.
#[derive(Debug, Drop)]
pub struct Dirent {
    /// The position from which to go on after this entry.
    pub off: u64,
    /// The type of the node: 4 for a directory, 8 for a regular file, 10 for a symlink.
    pub kind: u32,
    /// The name in the directory.
    pub name: Text,
}

/// What a request is answered.
#[derive(Debug, Drop)]
pub enum Reply {
    /// The request failed with this errno, 1 to 511.
    Error(u32),
    /// A node by its name.
    Entry(EntryOut),
    /// A node's attributes.
    Attr(AttrOut),
    /// A new file, open.
    Created {
        /// The file.
        entry: EntryOut,
        /// The number of the open file.
        fh: u64,
    },
    /// The number of an open file or directory.
    Opened(u64),
    /// Bytes that were read.
    Content(Bytes),
    /// The target of a symlink.
    Target(Bytes),
    /// How many bytes were written.
    Written(u32),
    /// The size of the file system, which is always the same: 2 ^ 30 blocks of 65,536 bytes and 2 ^ 30 files, all
    /// of them free, and names of at most 255 bytes.
    Stat,
    /// Entries of a directory.
    Dirents(Row<Dirent>),
    /// The answer to INIT: protocol 7.31, at most 131,072 bytes a write.
    InitDone {
        /// Bytes that the kernel may read ahead, as it offered.
        readahead: u32,
        /// What both sides do of what the kernel offered, as `FUSE_ASYNC_READ`.
        flags: u32,
        /// The kernel's major version was above 7: it is told 7.31 and nothing else, and sends INIT again. Then
        /// both numbers are 0.
        waits: bool,
    },
    /// The request was done.
    Empty,
    /// The request gets no reply.
    Silent,
}

/// What a request is answered where it doesn't fail: the variants of [`Reply`] that have a frame of their own.
#[derive(Clone, Copy, Debug, PartialEq, Eq)]
pub enum ReplyKind {
    /// As `Reply::Entry`.
    Entry,
    /// As `Reply::Attr`.
    Attr,
    /// As `Reply::Created`.
    Created,
    /// As `Reply::Opened`.
    Opened,
    /// As `Reply::Content`.
    Content,
    /// As `Reply::Target`.
    Target,
    /// As `Reply::Written`.
    Written,
    /// As `Reply::Stat`.
    Stat,
    /// As `Reply::Dirents`.
    Dirents,
    /// As `Reply::InitDone`.
    InitDone,
    /// As `Reply::Empty`.
    Empty,
}
