//! Requests that speak of the whole mount, or take look-ups back: their bodies read, and their fixed parts as
//! Linux `fuse.h` 7.31 lays them out.
ghost use Rattle.std.specs.Prelude.{◌≡◌};
ghost use Rattle.fuse_requests.specs.Fields.{fields_of};
ghost use Rattle.fuse_requests.specs.Mounts as layouts;
ghost use Rattle.fuse_requests.specs.Layout.{read_body};
ghost use Rattle.fuse_requests.specs.Parts.{ReadsAs};
ghost use Rattle.fuse_requests.specs.Grammar.{without_spare, HasPayload};

use crate::fault::BodyFault;
use crate::fields::Field;
use crate::parts::{after_fixed, ended, last_pairs};
use crate::request::Request;
use fuse_head::{u32_at, u64_at};
use std::alloc::Global;

/// Reads the body of FORGET: [`forget_in`].
pub(crate) fn forget(node: u64, body: &[u8]) -> Result<Request, BodyFault>
    ensures { ReadsAs without_spare HasPayload result (read_body (layouts.forget node) body.now) }
{
    let rest = after_fixed(body, 8)?;
    ended(rest)?;
    Ok(Request::Forget {
        node,
        count: u64_at(body, 0),
    })
}

/// `struct fuse_forget_in`: nlookup.
pub(crate) fn forget_in(count: u64) -> [Field; 1]
    ensures { fields_of result ≡ layouts.forget_in count }
{
    [Field::Long(count)]
}

/// Reads the body of STATFS, which is empty.
pub(crate) fn statfs(body: &[u8]) -> Result<Request, BodyFault>
    ensures { ReadsAs without_spare HasPayload result (read_body (layouts.statfs) body.now) }
{
    let rest = after_fixed(body, 0)?;
    ended(rest)?;
    Ok(Request::Statfs)
}

/// Reads the body of INIT: [`init_in`]. What later minors have behind it is ignored.
pub(crate) fn init(body: &[u8]) -> Result<Request, BodyFault>
    ensures { ReadsAs without_spare HasPayload result (read_body (layouts.init) body.now) }
{
    let _later = after_fixed(body, 16)?;
    Ok(Request::Init {
        major: u32_at(body, 0),
        minor: u32_at(body, 4),
        readahead: u32_at(body, 8),
        flags: u32_at(body, 12),
    })
}

/// `struct fuse_init_in`: major, minor, max_readahead, flags.
pub(crate) fn init_in(major: u32, minor: u32, readahead: u32, flags: u32) -> [Field; 4]
    ensures { fields_of result ≡ layouts.init_in major minor readahead flags }
{
    [
        Field::Word(major),
        Field::Word(minor),
        Field::Word(readahead),
        Field::Word(flags),
    ]
}

/// Reads the body of INTERRUPT: [`interrupt_in`].
pub(crate) fn interrupt(body: &[u8]) -> Result<Request, BodyFault>
    ensures { ReadsAs without_spare HasPayload result (read_body (layouts.interrupt) body.now) }
{
    let rest = after_fixed(body, 8)?;
    ended(rest)?;
    Ok(Request::Interrupt)
}

/// `struct fuse_interrupt_in`: unique.
pub(crate) fn interrupt_in() -> [Field; 1]
    ensures { fields_of result ≡ layouts.interrupt_in }
{
    [Field::Long(0)]
}

/// Reads the body of DESTROY, which is empty.
pub(crate) fn destroy(body: &[u8]) -> Result<Request, BodyFault>
    ensures { ReadsAs without_spare HasPayload result (read_body (layouts.destroy) body.now) }
{
    let rest = after_fixed(body, 0)?;
    ended(rest)?;
    Ok(Request::Destroy)
}

/// Reads the body of BATCH_FORGET: [`batch_forget_in`] and as many pairs as its count tells.
pub(crate) fn batch_forget(alloc: Global, body: &[u8]) -> Result<Request, BodyFault>
    ensures { ReadsAs without_spare HasPayload result (read_body (layouts.batch_forget) body.now) }
{
    let rest = after_fixed(body, 8)?;
    let pairs = last_pairs(alloc, rest, u32_at(body, 0) as usize)?;
    Ok(Request::BatchForget { pairs })
}

/// `struct fuse_batch_forget_in`: count, padding.
pub(crate) fn batch_forget_in(count: u32) -> [Field; 2]
    ensures { fields_of result ≡ layouts.batch_forget_in count }
{
    [Field::Word(count), Field::Word(0)]
}
