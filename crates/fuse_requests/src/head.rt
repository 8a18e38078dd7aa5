//! The head of a request's frame, appended.
ghost use Rattle.std.specs.Prelude.{◌≡◌, ◌<◌, ◌^◌, ◌++◌, OnOk};
ghost use Rattle.fuse_head.specs.Head.{in_head_text};
ghost use Rattle.fuse_requests.specs.Text.{head_of, spelling};

use crate::opcode;
use crate::request::Request;
use fuse_head::{InHead, write_in_head};
use io_ports::NoMemory;

/// Appends the head of a request's frame. Its length isn't known yet, and stands as 0.
pub(crate) fn push_head(out: &mut Vec<u8>, unique: u64, request: &Request) -> Result<(), NoMemory>
    ensures ok { OnOk result (out.new.items ≡ out.old.items ++ in_head_text (head_of 0 unique request.now)) }
    ensures opcode { (spelling request.now).opcode < 2 ^ 32 }
    ensures node { (spelling request.now).node < 2 ^ 64 }
{
    let head = InHead {
        len: 0,
        opcode: opcode(request),
        unique,
        node: node(request),
        uid: 0,
        gid: 0,
        pid: 0,
    };
    let mut text = [0; 40];
    write_in_head(&head, &mut text);
    out.extend_from_slice(&text)?;
    Ok(())
}

fn opcode(request: &Request) -> u32
    ensures { result ≡ (spelling request.now).opcode }
{
    match request {
        Request::Lookup { .. } => opcode::LOOKUP,
        Request::Forget { .. } => opcode::FORGET,
        Request::Getattr { .. } => opcode::GETATTR,
        Request::Setattr { .. } => opcode::SETATTR,
        Request::Readlink { .. } => opcode::READLINK,
        Request::Symlink { .. } => opcode::SYMLINK,
        Request::Mknod { .. } => opcode::MKNOD,
        Request::Mkdir { .. } => opcode::MKDIR,
        Request::Unlink { .. } => opcode::UNLINK,
        Request::Rmdir { .. } => opcode::RMDIR,
        Request::Rename { .. } => opcode::RENAME,
        Request::Opening { .. } => opcode::OPEN,
        Request::Read { .. } => opcode::READ,
        Request::Write { .. } => opcode::WRITE,
        Request::Statfs => opcode::STATFS,
        Request::Release { .. } => opcode::RELEASE,
        Request::Fsync { .. } => opcode::FSYNC,
        Request::Flush { .. } => opcode::FLUSH,
        Request::Init { .. } => opcode::INIT,
        Request::Opendir { .. } => opcode::OPENDIR,
        Request::Readdir { .. } => opcode::READDIR,
        Request::Releasedir { .. } => opcode::RELEASEDIR,
        Request::Fsyncdir { .. } => opcode::FSYNCDIR,
        Request::Create { .. } => opcode::CREATE,
        Request::Interrupt => opcode::INTERRUPT,
        Request::Destroy => opcode::DESTROY,
        Request::BatchForget { .. } => opcode::BATCH_FORGET,
        Request::Rename2 { .. } => opcode::RENAME2,
        Request::Unknown { opcode } => *opcode,
    }
}

fn node(request: &Request) -> u64
    ensures { result ≡ (spelling request.now).node }
{
    match request {
        Request::Statfs
        | Request::Init { .. }
        | Request::Interrupt
        | Request::Destroy
        | Request::BatchForget { .. }
        | Request::Unknown { .. } => 0,
        Request::Lookup { node, .. }
        | Request::Forget { node, .. }
        | Request::Getattr { node }
        | Request::Setattr { node, .. }
        | Request::Readlink { node }
        | Request::Symlink { node, .. }
        | Request::Mknod { node, .. }
        | Request::Mkdir { node, .. }
        | Request::Unlink { node, .. }
        | Request::Rmdir { node, .. }
        | Request::Rename { node, .. }
        | Request::Opening { node, .. }
        | Request::Read { node, .. }
        | Request::Write { node, .. }
        | Request::Release { node, .. }
        | Request::Fsync { node, .. }
        | Request::Flush { node, .. }
        | Request::Opendir { node }
        | Request::Readdir { node, .. }
        | Request::Releasedir { node, .. }
        | Request::Fsyncdir { node, .. }
        | Request::Create { node, .. }
        | Request::Rename2 { node, .. } => *node,
    }
}
