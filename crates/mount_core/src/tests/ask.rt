//! Requests as plain data.
use fuse_requests::{Forgotten, Request};
use io_ports::{Bytes, NoMemory, Row};
use std::alloc::Global;

/// A request.
#[derive(Clone, Copy)]
pub(crate) enum Ask<'a> {
    Init,
    Statfs,
    /// Of a directory and a name in it.
    Lookup(u64, &'a str),
    /// In a directory, of a name.
    Create(u64, &'a str),
    /// In a directory, of a mode and a name.
    Mknod(u64, u32, &'a str),
    /// In a directory, of a name.
    Mkdir(u64, &'a str),
    /// In a directory, of a name and what it leads to.
    Symlink(u64, &'a str, &'a str),
    Readlink(u64),
    /// In a directory, of a name.
    Unlink(u64, &'a str),
    /// In a directory, of a name.
    Rmdir(u64, &'a str),
    /// Of a name in a directory, to a name in a directory.
    Rename(u64, &'a str, u64, &'a str),
    /// With flags, of a name in a directory, to a name in a directory.
    Rename2(u32, u64, &'a str, u64, &'a str),
    /// Of a node, and how many look-ups of it are given back.
    Forget(u64, u64),
    Opendir(u64),
    /// Of a directory by a handle, from a position on, and of so many bytes.
    Readdir(u64, u64, u64, u32),
    Releasedir(u64, u64),
    Fsyncdir(u64, u64),
    Getattr(u64),
    Open(u64),
    /// Of a file by a handle, from a place on, and of so many bytes.
    Read(u64, u64, u64, u32),
    /// Of a file by a handle, from a place on.
    Write(u64, u64, u64, &'a str),
    Flush(u64, u64),
    Fsync(u64, u64),
    /// The length of a node.
    Resize(u64, u64),
    /// The time of a node, in seconds and nanoseconds.
    Touch(u64, u64, u32),
    Release(u64, u64),
    /// Of nodes, and how many look-ups of each are given back.
    BatchForget(&'a [(u64, u64)]),
    Destroy,
    /// Of this opcode.
    Other(u32),
}

impl Ask<'_> {
    /// The request, with its name copied.
    pub(crate) fn request(self, alloc: Global) -> Result<Request, NoMemory> {
        Ok(match self {
            Ask::Init => Request::Init {
                major: 7,
                minor: 31,
                readahead: 0,
                flags: 0,
            },
            Ask::Statfs => Request::Statfs,
            Ask::Lookup(node, name) => Request::Lookup {
                node,
                name: Bytes::of(alloc, name.as_bytes())?,
            },
            Ask::Create(node, name) => Request::Create {
                node,
                name: Bytes::of(alloc, name.as_bytes())?,
            },
            Ask::Mknod(node, mode, name) => Request::Mknod {
                node,
                mode,
                name: Bytes::of(alloc, name.as_bytes())?,
            },
            Ask::Mkdir(node, name) => Request::Mkdir {
                node,
                name: Bytes::of(alloc, name.as_bytes())?,
            },
            Ask::Symlink(node, name, target) => Request::Symlink {
                node,
                name: Bytes::of(alloc, name.as_bytes())?,
                target: Bytes::of(alloc, target.as_bytes())?,
            },
            Ask::Readlink(node) => Request::Readlink { node },
            Ask::Unlink(node, name) => Request::Unlink {
                node,
                name: Bytes::of(alloc, name.as_bytes())?,
            },
            Ask::Rmdir(node, name) => Request::Rmdir {
                node,
                name: Bytes::of(alloc, name.as_bytes())?,
            },
            Ask::Rename(node, name, newdir, newname) => Request::Rename {
                node,
                newdir,
                name: Bytes::of(alloc, name.as_bytes())?,
                newname: Bytes::of(alloc, newname.as_bytes())?,
            },
            Ask::Rename2(flags, node, name, newdir, newname) => Request::Rename2 {
                node,
                newdir,
                flags,
                name: Bytes::of(alloc, name.as_bytes())?,
                newname: Bytes::of(alloc, newname.as_bytes())?,
            },
            Ask::Forget(node, count) => Request::Forget { node, count },
            Ask::Opendir(node) => Request::Opendir { node },
            Ask::Readdir(node, fh, first, size) => Request::Readdir {
                node,
                fh,
                first,
                size,
            },
            Ask::Releasedir(node, fh) => Request::Releasedir { node, fh },
            Ask::Fsyncdir(node, fh) => Request::Fsyncdir { node, fh },
            Ask::Getattr(node) => Request::Getattr { node },
            Ask::Open(node) => Request::Opening { node, flags: 0 },
            Ask::Read(node, fh, first, size) => Request::Read {
                node,
                fh,
                first,
                size,
            },
            Ask::Write(node, fh, first, content) => Request::Write {
                node,
                fh,
                first,
                content: Bytes::of(alloc, content.as_bytes())?,
            },
            Ask::Flush(node, fh) => Request::Flush { node, fh },
            Ask::Fsync(node, fh) => Request::Fsync { node, fh },
            Ask::Resize(node, size) => Request::Setattr {
                node,
                valid: 8,
                size,
                mtime: 0,
                nanos: 0,
            },
            Ask::Touch(node, mtime, nanos) => Request::Setattr {
                node,
                valid: 32,
                size: 0,
                mtime,
                nanos,
            },
            Ask::Release(node, fh) => Request::Release { node, fh },
            Ask::BatchForget(pairs) => Request::BatchForget {
                pairs: forgotten(alloc, pairs)?,
            },
            Ask::Destroy => Request::Destroy,
            Ask::Other(opcode) => Request::Unknown { opcode },
        })
    }

    /// The request asks the bucket, so it may be answered ENOMEM.
    pub(crate) fn asks_the_bucket(self) -> bool {
        matches!(
            self,
            Ask::Lookup(..)
                | Ask::Create(..)
                | Ask::Mknod(..)
                | Ask::Mkdir(..)
                | Ask::Symlink(..)
                | Ask::Unlink(..)
                | Ask::Rmdir(..)
                | Ask::Rename(..)
                | Ask::Rename2(..)
                | Ask::Opendir(..)
                | Ask::Getattr(..)
                | Ask::Open(..)
                | Ask::Read(..)
                | Ask::Write(..)
                | Ask::Flush(..)
                | Ask::Fsync(..)
                | Ask::Touch(..)
        )
    }

    /// The request wants memory, so it may be refused it.
    pub(crate) fn wants_memory(self) -> bool {
        self.asks_the_bucket()
            || matches!(self, Ask::Readdir(..) | Ask::Resize(..) | Ask::Readlink(..))
    }
}

/// The pairs of a BATCH_FORGET.
fn forgotten(alloc: Global, pairs: &[(u64, u64)]) -> Result<Row<Forgotten>, NoMemory> {
    let mut row = Vec::new(alloc);
    for (node, count) in pairs {
        row.push(Forgotten {
            node: *node,
            count: *count,
        })?;
    }
    Ok(Row::from_vec(row))
}
