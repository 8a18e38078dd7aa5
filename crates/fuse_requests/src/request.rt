//! Requests as values.
use io_ports::{Bytes, Row};

/// A request of the FUSE wire, by the fields of its frame that a mount looks at. Opcodes, layouts and the
/// fields that are left out are those of Linux `fuse.h`, protocol 7.31. `node` is the head's node, `fh` a
/// handle, `first` a place in a file or a directory, and `size` a number of bytes.
#[derive(Debug, Drop)]
pub enum Request {
    /// FUSE_LOOKUP, 1.
    Lookup {
        node: u64,
        name: Bytes,
    },
    /// FUSE_FORGET, 2, which has no reply: `count` look-ups of the node are taken back.
    Forget {
        node: u64,
        count: u64,
    },
    /// FUSE_GETATTR, 3.
    Getattr {
        node: u64,
    },
    /// FUSE_SETATTR, 4: `valid` has the FATTR bits of the attributes to set, `mtime` and `nanos` are the
    /// modification time in seconds and nanoseconds.
    Setattr {
        node: u64,
        valid: u32,
        size: u64,
        mtime: u64,
        nanos: u32,
    },
    /// FUSE_READLINK, 5.
    Readlink {
        node: u64,
    },
    /// FUSE_SYMLINK, 6: the link's name and what it leads to.
    Symlink {
        node: u64,
        name: Bytes,
        target: Bytes,
    },
    /// FUSE_MKNOD, 8.
    Mknod {
        node: u64,
        mode: u32,
        name: Bytes,
    },
    /// FUSE_MKDIR, 9.
    Mkdir {
        node: u64,
        name: Bytes,
    },
    /// FUSE_UNLINK, 10.
    Unlink {
        node: u64,
        name: Bytes,
    },
    /// FUSE_RMDIR, 11.
    Rmdir {
        node: u64,
        name: Bytes,
    },
    /// FUSE_RENAME, 12: `name` in the directory `node` becomes `newname` in the directory `newdir`.
    Rename {
        node: u64,
        newdir: u64,
        name: Bytes,
        newname: Bytes,
    },
    /// FUSE_OPEN, 14: `flags` are those of `open`.
    Opening {
        node: u64,
        flags: u32,
    },
    /// FUSE_READ, 15.
    Read {
        node: u64,
        fh: u64,
        first: u64,
        size: u32,
    },
    /// FUSE_WRITE, 16.
    Write {
        node: u64,
        fh: u64,
        first: u64,
        content: Bytes,
    },
    /// FUSE_STATFS, 17.
    Statfs,
    /// FUSE_RELEASE, 18.
    Release {
        node: u64,
        fh: u64,
    },
    /// FUSE_FSYNC, 20.
    Fsync {
        node: u64,
        fh: u64,
    },
    /// FUSE_FLUSH, 25.
    Flush {
        node: u64,
        fh: u64,
    },
    /// FUSE_INIT, 26: the kernel's version of the protocol, and what it offers.
    Init {
        major: u32,
        minor: u32,
        readahead: u32,
        flags: u32,
    },
    /// FUSE_OPENDIR, 27.
    Opendir {
        node: u64,
    },
    /// FUSE_READDIR, 28.
    Readdir {
        node: u64,
        fh: u64,
        first: u64,
        size: u32,
    },
    /// FUSE_RELEASEDIR, 29.
    Releasedir {
        node: u64,
        fh: u64,
    },
    /// FUSE_FSYNCDIR, 30.
    Fsyncdir {
        node: u64,
        fh: u64,
    },
    /// FUSE_CREATE, 35.
    Create {
        node: u64,
        name: Bytes,
    },
    /// FUSE_INTERRUPT, 36, which has no reply.
    Interrupt,
    /// FUSE_DESTROY, 38.
    Destroy,
    /// FUSE_BATCH_FORGET, 42, which has no reply.
    BatchForget {
        pairs: Row<Forgotten>,
    },
    /// FUSE_RENAME2, 45: as FUSE_RENAME, with the flags of `renameat2`.
    Rename2 {
        node: u64,
        newdir: u64,
        flags: u32,
        name: Bytes,
        newname: Bytes,
    },
    /// Any other opcode; its body isn't read.
    Unknown {
        opcode: u32,
    },
}

/// A node, and how many of its look-ups are taken back.
#[derive(Clone, Copy, Debug, PartialEq, Eq)]
pub struct Forgotten {
    pub node: u64,
    pub count: u64,
}
