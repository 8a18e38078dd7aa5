//! The errors that replies tell, by their numbers in Linux `errno.h`.

/// No file or directory of the name.
pub const ENOENT: u32 = 2;

/// The bucket failed.
pub const EIO: u32 = 5;

/// No open file or directory of the number.
pub const EBADF: u32 = 9;

/// No memory.
pub const ENOMEM: u32 = 12;

/// The file or directory is in use.
pub const EBUSY: u32 = 16;

/// A file or directory of the name is there.
pub const EEXIST: u32 = 17;

/// No directory.
pub const ENOTDIR: u32 = 20;

/// A directory.
pub const EISDIR: u32 = 21;

/// A body, a name or a number that is not allowed.
pub const EINVAL: u32 = 22;

/// A file would be too large.
pub const EFBIG: u32 = 27;

/// No space is left.
pub const ENOSPC: u32 = 28;

/// A name or path is too long.
pub const ENAMETOOLONG: u32 = 36;

/// A request that is not served.
pub const ENOSYS: u32 = 38;

/// A directory has entries.
pub const ENOTEMPTY: u32 = 39;

/// No version of the protocol is agreed on.
pub const EPROTO: u32 = 71;

/// A file was replaced or is gone.
pub const ESTALE: u32 = 116;
