//! What replies show, as plain data.
use fuse_replies::{AttrOut, Dirent, EntryOut, Reply};

/// What a reply shows.
#[derive(Clone, Copy)]
pub(crate) enum Told<'a> {
    /// A version of the protocol is agreed on.
    Agreed,
    /// The size of the file system.
    Sizes,
    /// A directory, by its node.
    Directory(u64),
    /// A file of five bytes that was last changed in the second 7, by its node.
    File(u64),
    /// A file of so many bytes that was last changed in the second 0, by its node.
    Fresh(u64, u64),
    /// A symlink to a target of so many bytes, made in the second 0, by its node.
    Link(u64, u64),
    /// What a symlink leads to.
    Target(&'a str),
    /// A new file, by its node and its handle.
    Made(u64, u64),
    /// An open file or directory, by its handle.
    Opened(u64),
    /// A file, by its node, how many bytes it has, and how many names.
    Attr(u64, u64, u32),
    /// A file with one name, by its node: how many bytes it has, and its time in seconds and nanoseconds.
    Shown(u64, u64, u64, u32),
    /// Bytes that were read.
    Content(&'a str),
    /// So many bytes were written.
    Wrote(u32),
    /// The entries of a directory: the position behind each, its type and its name.
    Entries(&'a [(u64, u32, &'a str)]),
    /// The request failed.
    Errno(u32),
    /// It is done, and there is nothing to tell.
    Done,
    /// It has no reply.
    Silence,
}

/// A reply shows what is expected.
pub(crate) fn shows(reply: &Reply, told: Told<'_>) -> bool {
    match reply {
        Reply::InitDone { .. } => matches!(told, Told::Agreed),
        Reply::Stat => matches!(told, Told::Sizes),
        Reply::Entry(entry) => shows_node(entry, told),
        Reply::Created { entry, fh } => {
            matches!(told, Told::Made(node, handle) if is_node(entry, node, 0o100644, 0, 0) && *fh == handle)
        }
        Reply::Opened(fh) => matches!(told, Told::Opened(handle) if *fh == handle),
        Reply::Dirents(entries) => {
            matches!(told, Told::Entries(expected) if are(entries.as_slice(), expected))
        }
        Reply::Attr(attr) => shows_attributes(attr, told),
        Reply::Written(count) => matches!(told, Told::Wrote(expected) if *count == expected),
        Reply::Target(bytes) => {
            matches!(told, Told::Target(expected) if bytes.as_slice() == expected.as_bytes())
        }
        Reply::Content(bytes) => {
            matches!(told, Told::Content(expected) if bytes.as_slice() == expected.as_bytes())
        }
        Reply::Error(errno) => matches!(told, Told::Errno(expected) if *errno == expected),
        Reply::Empty => matches!(told, Told::Done),
        Reply::Silent => matches!(told, Told::Silence),
    }
}

/// Attributes are as expected.
fn shows_attributes(attr: &AttrOut, told: Told<'_>) -> bool {
    match told {
        Told::Attr(node, size, nlink) => (attr.ino, attr.size, attr.nlink) == (node, size, nlink),
        Told::Shown(node, size, mtime, nanos) => {
            (attr.ino, attr.size, attr.nlink) == (node, size, 1)
                && (attr.mtime, attr.nanos) == (mtime, nanos)
        }
        _ => false,
    }
}

/// A node that was looked up or made is a directory, a file or a symlink, as expected.
fn shows_node(entry: &EntryOut, told: Told<'_>) -> bool {
    match told {
        Told::Directory(node) => is_node(entry, node, 0o040755, 0, 0),
        Told::File(node) => is_node(entry, node, 0o100644, 5, 7),
        Told::Fresh(node, size) => is_node(entry, node, 0o100644, size, 0),
        Told::Link(node, size) => is_node(entry, node, 0o120777, size, 0),
        _ => false,
    }
}

/// A node has this number, mode, size and second.
fn is_node(entry: &EntryOut, node: u64, mode: u32, size: u64, second: u64) -> bool {
    let attr = &entry.attr;
    (entry.node, attr.ino, attr.mode, attr.size, attr.mtime) == (node, node, mode, size, second)
}

/// Entries stand at these positions, and have these types and names.
fn are(entries: &[Dirent], expected: &[(u64, u32, &str)]) -> bool {
    entries.len() == expected.len()
        && entries.iter().zip(expected).all(|(entry, (off, kind, name))| {
            entry.off == *off && entry.kind == *kind && entry.name.as_str() == *name
        })
}
