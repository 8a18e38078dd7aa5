//! Requests that carry names: their bodies read, and their fixed parts as Linux `fuse.h` 7.31 lays them out.
ghost use Rattle.std.specs.Prelude.{◌≡◌};
ghost use Rattle.fuse_requests.specs.Fields.{fields_of};
ghost use Rattle.fuse_requests.specs.Naming as layouts;
ghost use Rattle.fuse_requests.specs.Layout.{read_body};
ghost use Rattle.fuse_requests.specs.Parts.{ReadsAs};
ghost use Rattle.fuse_requests.specs.Grammar.{without_spare, HasPayload};

use crate::fault::BodyFault;
use crate::fields::Field;
use crate::parts::{after_fixed, last_name, last_two_names};
use crate::request::Request;
use fuse_head::{u32_at, u64_at};
use std::alloc::Global;

/// Reads the body of LOOKUP: a name.
pub(crate) fn lookup(alloc: Global, node: u64, body: &[u8]) -> Result<Request, BodyFault>
    ensures { ReadsAs without_spare HasPayload result (read_body (layouts.lookup node) body.now) }
{
    let rest = after_fixed(body, 0)?;
    let name = last_name(alloc, rest)?;
    Ok(Request::Lookup { node, name })
}

/// Reads the body of SYMLINK: the link's name, then its target as a name.
pub(crate) fn symlink(alloc: Global, node: u64, body: &[u8]) -> Result<Request, BodyFault>
    ensures { ReadsAs without_spare HasPayload result (read_body (layouts.symlink node) body.now) }
{
    let rest = after_fixed(body, 0)?;
    let (name, target) = last_two_names(alloc, rest)?;
    Ok(Request::Symlink { node, name, target })
}

/// Reads the body of MKNOD: [`mknod_in`] and a name.
pub(crate) fn mknod(alloc: Global, node: u64, body: &[u8]) -> Result<Request, BodyFault>
    ensures { ReadsAs without_spare HasPayload result (read_body (layouts.mknod node) body.now) }
{
    let rest = after_fixed(body, 16)?;
    let mode = u32_at(body, 0);
    let name = last_name(alloc, rest)?;
    Ok(Request::Mknod { node, mode, name })
}

/// `struct fuse_mknod_in`: mode, rdev, umask, padding.
pub(crate) fn mknod_in(mode: u32) -> [Field; 4]
    ensures { fields_of result ≡ layouts.mknod_in mode }
{
    [
        Field::Word(mode),
        Field::Word(0),
        Field::Word(0),
        Field::Word(0),
    ]
}

/// Reads the body of MKDIR: [`mkdir_in`] and a name.
pub(crate) fn mkdir(alloc: Global, node: u64, body: &[u8]) -> Result<Request, BodyFault>
    ensures { ReadsAs without_spare HasPayload result (read_body (layouts.mkdir node) body.now) }
{
    let rest = after_fixed(body, 8)?;
    let name = last_name(alloc, rest)?;
    Ok(Request::Mkdir { node, name })
}

/// `struct fuse_mkdir_in`: mode, umask.
pub(crate) fn mkdir_in() -> [Field; 2]
    ensures { fields_of result ≡ layouts.mkdir_in }
{
    [Field::Word(0), Field::Word(0)]
}

/// Reads the body of UNLINK: a name.
pub(crate) fn unlink(alloc: Global, node: u64, body: &[u8]) -> Result<Request, BodyFault>
    ensures { ReadsAs without_spare HasPayload result (read_body (layouts.unlink node) body.now) }
{
    let rest = after_fixed(body, 0)?;
    let name = last_name(alloc, rest)?;
    Ok(Request::Unlink { node, name })
}

/// Reads the body of RMDIR: a name.
pub(crate) fn rmdir(alloc: Global, node: u64, body: &[u8]) -> Result<Request, BodyFault>
    ensures { ReadsAs without_spare HasPayload result (read_body (layouts.rmdir node) body.now) }
{
    let rest = after_fixed(body, 0)?;
    let name = last_name(alloc, rest)?;
    Ok(Request::Rmdir { node, name })
}

/// Reads the body of RENAME: [`rename_in`], the old name and the new one.
pub(crate) fn rename(alloc: Global, node: u64, body: &[u8]) -> Result<Request, BodyFault>
    ensures { ReadsAs without_spare HasPayload result (read_body (layouts.rename node) body.now) }
{
    let rest = after_fixed(body, 8)?;
    let newdir = u64_at(body, 0);
    let (name, newname) = last_two_names(alloc, rest)?;
    Ok(Request::Rename {
        node,
        newdir,
        name,
        newname,
    })
}

/// `struct fuse_rename_in`: newdir.
pub(crate) fn rename_in(newdir: u64) -> [Field; 1]
    ensures { fields_of result ≡ layouts.rename_in newdir }
{
    [Field::Long(newdir)]
}

/// Reads the body of CREATE: [`create_in`] and a name.
pub(crate) fn create(alloc: Global, node: u64, body: &[u8]) -> Result<Request, BodyFault>
    ensures { ReadsAs without_spare HasPayload result (read_body (layouts.create node) body.now) }
{
    let rest = after_fixed(body, 16)?;
    let name = last_name(alloc, rest)?;
    Ok(Request::Create { node, name })
}

/// `struct fuse_create_in`: flags, mode, umask, padding.
pub(crate) fn create_in() -> [Field; 4]
    ensures { fields_of result ≡ layouts.create_in }
{
    [
        Field::Word(0),
        Field::Word(0),
        Field::Word(0),
        Field::Word(0),
    ]
}

/// Reads the body of RENAME2: [`rename2_in`], the old name and the new one.
pub(crate) fn rename2(alloc: Global, node: u64, body: &[u8]) -> Result<Request, BodyFault>
    ensures { ReadsAs without_spare HasPayload result (read_body (layouts.rename2 node) body.now) }
{
    let rest = after_fixed(body, 16)?;
    let newdir = u64_at(body, 0);
    let flags = u32_at(body, 8);
    let (name, newname) = last_two_names(alloc, rest)?;
    Ok(Request::Rename2 {
        node,
        newdir,
        flags,
        name,
        newname,
    })
}

/// `struct fuse_rename2_in`: newdir, flags, padding.
pub(crate) fn rename2_in(newdir: u64, flags: u32) -> [Field; 3]
    ensures { fields_of result ≡ layouts.rename2_in newdir flags }
{
    [Field::Long(newdir), Field::Word(flags), Field::Word(0)]
}
