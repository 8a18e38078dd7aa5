//! Requests that never get a reply, that are served, and that could not be read.
ghost use Rattle.std.specs.Prelude.{◌≡◌};
ghost use Rattle.fuse_requests.specs.Grammar.{without_spare};
ghost use Rattle.mount_rules.specs.Dispatch as rules;

use fuse_replies::errno::{EINVAL, ENOSYS};
use fuse_requests::{Request, opcode};

/// Whether the request never gets a reply: FORGET, BATCH_FORGET and INTERRUPT, also where their bodies could not be read.
pub(crate) fn is_silent(request: &Request) -> bool
    ensures { result ≡ rules.is_silent (without_spare request.now) }
{
    match request {
        Request::Forget { .. } | Request::BatchForget { .. } | Request::Interrupt => true,
        Request::Unknown { opcode } => is_silent_opcode(*opcode),
        _ => false,
    }
}

/// Whether the request is INIT, also where its body could not be read.
pub(crate) fn is_init(request: &Request) -> bool
    ensures { result ≡ rules.is_init (without_spare request.now) }
{
    match request {
        Request::Init { .. } => true,
        Request::Unknown { opcode } => *opcode == opcode::INIT,
        _ => false,
    }
}

/// Whether requests of this opcode never get a reply.
fn is_silent_opcode(opcode: u32) -> bool
    ensures { result ≡ rules.is_among rules.silent_opcodes opcode }
{
    matches!(
        opcode,
        opcode::FORGET | opcode::INTERRUPT | opcode::BATCH_FORGET
    )
}

/// Whether requests of this opcode are served, and get a reply.
fn is_served_opcode(opcode: u32) -> bool
    ensures { result ≡ rules.is_among rules.served_opcodes opcode }
{
    matches!(
        opcode,
        opcode::LOOKUP
            | opcode::GETATTR
            | opcode::SETATTR
            | opcode::READLINK
            | opcode::SYMLINK
            | opcode::MKNOD
            | opcode::MKDIR
            | opcode::UNLINK
            | opcode::RMDIR
            | opcode::RENAME
            | opcode::OPEN
            | opcode::READ
            | opcode::WRITE
            | opcode::STATFS
            | opcode::RELEASE
            | opcode::FSYNC
            | opcode::FLUSH
            | opcode::INIT
            | opcode::OPENDIR
            | opcode::READDIR
            | opcode::RELEASEDIR
            | opcode::FSYNCDIR
            | opcode::CREATE
            | opcode::DESTROY
            | opcode::RENAME2
    )
}

/// The error of a request that could not be read: a served one has a body outside the grammar, and another's is unread.
pub(crate) fn unread(opcode: u32) -> Option<u32>
    ensures { result ≡ rules.unread opcode }
{
    if is_silent_opcode(opcode) {
        return None;
    }
    if is_served_opcode(opcode) {
        return Some(EINVAL);
    }
    Some(ENOSYS)
}
