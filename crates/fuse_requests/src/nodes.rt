//! Requests that speak of a node or a handle: their bodies read, and their fixed parts as Linux `fuse.h` 7.31
//! lays them out.
ghost use Rattle.std.specs.Prelude.{◌≡◌};
ghost use Rattle.fuse_requests.specs.Fields.{fields_of};
ghost use Rattle.fuse_requests.specs.Nodes as layouts;
ghost use Rattle.fuse_requests.specs.Layout.{read_body};
ghost use Rattle.fuse_requests.specs.Parts.{ReadsAs};
ghost use Rattle.fuse_requests.specs.Grammar.{without_spare, HasPayload};

use crate::fault::BodyFault;
use crate::fields::Field;
use crate::parts::{after_fixed, ended, last_bytes};
use crate::request::Request;
use fuse_head::{u32_at, u64_at};
use std::alloc::Global;

/// Reads the body of GETATTR: [`getattr_in`].
pub(crate) fn getattr(node: u64, body: &[u8]) -> Result<Request, BodyFault>
    ensures { ReadsAs without_spare HasPayload result (read_body (layouts.getattr node) body.now) }
{
    let rest = after_fixed(body, 16)?;
    ended(rest)?;
    Ok(Request::Getattr { node })
}

/// `struct fuse_getattr_in`: flags, padding, fh.
pub(crate) fn getattr_in() -> [Field; 3]
    ensures { fields_of result ≡ layouts.getattr_in }
{
    [Field::Word(0), Field::Word(0), Field::Long(0)]
}

/// Reads the body of SETATTR: [`setattr_in`].
pub(crate) fn setattr(node: u64, body: &[u8]) -> Result<Request, BodyFault>
    ensures { ReadsAs without_spare HasPayload result (read_body (layouts.setattr node) body.now) }
{
    let rest = after_fixed(body, 88)?;
    ended(rest)?;
    Ok(Request::Setattr {
        node,
        valid: u32_at(body, 0),
        size: u64_at(body, 16),
        mtime: u64_at(body, 40),
        nanos: u32_at(body, 60),
    })
}

/// `struct fuse_setattr_in`: valid, padding, fh, size, lock_owner, atime, mtime, ctime, atimensec, mtimensec,
/// ctimensec, mode, padding, uid, gid, padding.
pub(crate) fn setattr_in(valid: u32, size: u64, mtime: u64, nanos: u32) -> [Field; 16]
    ensures { fields_of result ≡ layouts.setattr_in valid size mtime nanos }
{
    [
        Field::Word(valid),
        Field::Word(0),
        Field::Long(0),
        Field::Long(size),
        Field::Long(0),
        Field::Long(0),
        Field::Long(mtime),
        Field::Long(0),
        Field::Word(0),
        Field::Word(nanos),
        Field::Word(0),
        Field::Word(0),
        Field::Word(0),
        Field::Word(0),
        Field::Word(0),
        Field::Word(0),
    ]
}

/// Reads the body of READLINK, which is empty.
pub(crate) fn readlink(node: u64, body: &[u8]) -> Result<Request, BodyFault>
    ensures { ReadsAs without_spare HasPayload result (read_body (layouts.readlink node) body.now) }
{
    let rest = after_fixed(body, 0)?;
    ended(rest)?;
    Ok(Request::Readlink { node })
}

/// Reads the body of OPEN: [`open_in`].
pub(crate) fn opening(node: u64, body: &[u8]) -> Result<Request, BodyFault>
    ensures { ReadsAs without_spare HasPayload result (read_body (layouts.opening node) body.now) }
{
    let rest = after_fixed(body, 8)?;
    ended(rest)?;
    Ok(Request::Opening {
        node,
        flags: u32_at(body, 0),
    })
}

/// Reads the body of OPENDIR: [`open_in`], its flags not kept.
pub(crate) fn opendir(node: u64, body: &[u8]) -> Result<Request, BodyFault>
    ensures { ReadsAs without_spare HasPayload result (read_body (layouts.opendir node) body.now) }
{
    let rest = after_fixed(body, 8)?;
    ended(rest)?;
    Ok(Request::Opendir { node })
}

/// `struct fuse_open_in`: flags, padding.
pub(crate) fn open_in(flags: u32) -> [Field; 2]
    ensures { fields_of result ≡ layouts.open_in flags }
{
    [Field::Word(flags), Field::Word(0)]
}

/// Reads the body of READ: [`read_in`].
pub(crate) fn reading(node: u64, body: &[u8]) -> Result<Request, BodyFault>
    ensures { ReadsAs without_spare HasPayload result (read_body (layouts.reading node) body.now) }
{
    let rest = after_fixed(body, 40)?;
    ended(rest)?;
    Ok(Request::Read {
        node,
        fh: u64_at(body, 0),
        first: u64_at(body, 8),
        size: u32_at(body, 16),
    })
}

/// Reads the body of READDIR: [`read_in`].
pub(crate) fn readdir(node: u64, body: &[u8]) -> Result<Request, BodyFault>
    ensures { ReadsAs without_spare HasPayload result (read_body (layouts.readdir node) body.now) }
{
    let rest = after_fixed(body, 40)?;
    ended(rest)?;
    Ok(Request::Readdir {
        node,
        fh: u64_at(body, 0),
        first: u64_at(body, 8),
        size: u32_at(body, 16),
    })
}

/// Reads the body of WRITE: [`read_in`] and as many bytes as its size tells.
pub(crate) fn writing(alloc: Global, node: u64, body: &[u8]) -> Result<Request, BodyFault>
    ensures { ReadsAs without_spare HasPayload result (read_body (layouts.writing node) body.now) }
{
    let rest = after_fixed(body, 40)?;
    let fh = u64_at(body, 0);
    let first = u64_at(body, 8);
    let content = last_bytes(alloc, rest, u32_at(body, 16) as usize)?;
    Ok(Request::Write {
        node,
        fh,
        first,
        content,
    })
}

/// `struct fuse_read_in`: fh, offset, size, read_flags, lock_owner, flags, padding. `struct fuse_write_in` has
/// write_flags in the place of read_flags.
pub(crate) fn read_in(fh: u64, first: u64, size: u32) -> [Field; 7]
    ensures { fields_of result ≡ layouts.read_in fh first size }
{
    [
        Field::Long(fh),
        Field::Long(first),
        Field::Word(size),
        Field::Word(0),
        Field::Long(0),
        Field::Word(0),
        Field::Word(0),
    ]
}

/// Reads the body of RELEASE: [`release_in`].
pub(crate) fn release(node: u64, body: &[u8]) -> Result<Request, BodyFault>
    ensures { ReadsAs without_spare HasPayload result (read_body (layouts.release node) body.now) }
{
    let rest = after_fixed(body, 24)?;
    ended(rest)?;
    Ok(Request::Release {
        node,
        fh: u64_at(body, 0),
    })
}

/// Reads the body of RELEASEDIR: [`release_in`].
pub(crate) fn releasedir(node: u64, body: &[u8]) -> Result<Request, BodyFault>
    ensures { ReadsAs without_spare HasPayload result (read_body (layouts.releasedir node) body.now) }
{
    let rest = after_fixed(body, 24)?;
    ended(rest)?;
    Ok(Request::Releasedir {
        node,
        fh: u64_at(body, 0),
    })
}

/// `struct fuse_release_in`: fh, flags, release_flags, lock_owner.
pub(crate) fn release_in(fh: u64) -> [Field; 4]
    ensures { fields_of result ≡ layouts.release_in fh }
{
    [
        Field::Long(fh),
        Field::Word(0),
        Field::Word(0),
        Field::Long(0),
    ]
}

/// Reads the body of FSYNC: [`fsync_in`].
pub(crate) fn fsync(node: u64, body: &[u8]) -> Result<Request, BodyFault>
    ensures { ReadsAs without_spare HasPayload result (read_body (layouts.fsync node) body.now) }
{
    let rest = after_fixed(body, 16)?;
    ended(rest)?;
    Ok(Request::Fsync {
        node,
        fh: u64_at(body, 0),
    })
}

/// Reads the body of FSYNCDIR: [`fsync_in`].
pub(crate) fn fsyncdir(node: u64, body: &[u8]) -> Result<Request, BodyFault>
    ensures { ReadsAs without_spare HasPayload result (read_body (layouts.fsyncdir node) body.now) }
{
    let rest = after_fixed(body, 16)?;
    ended(rest)?;
    Ok(Request::Fsyncdir {
        node,
        fh: u64_at(body, 0),
    })
}

/// `struct fuse_fsync_in`: fh, fsync_flags, padding.
pub(crate) fn fsync_in(fh: u64) -> [Field; 3]
    ensures { fields_of result ≡ layouts.fsync_in fh }
{
    [Field::Long(fh), Field::Word(0), Field::Word(0)]
}

/// Reads the body of FLUSH: [`flush_in`].
pub(crate) fn flush(node: u64, body: &[u8]) -> Result<Request, BodyFault>
    ensures { ReadsAs without_spare HasPayload result (read_body (layouts.flush node) body.now) }
{
    let rest = after_fixed(body, 24)?;
    ended(rest)?;
    Ok(Request::Flush {
        node,
        fh: u64_at(body, 0),
    })
}

/// `struct fuse_flush_in`: fh, unused, padding, lock_owner.
pub(crate) fn flush_in(fh: u64) -> [Field; 4]
    ensures { fields_of result ≡ layouts.flush_in fh }
{
    [
        Field::Long(fh),
        Field::Word(0),
        Field::Word(0),
        Field::Long(0),
    ]
}
