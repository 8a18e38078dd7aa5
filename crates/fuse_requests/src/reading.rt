//! Frames of requests, read.
ghost use Rattle.std.specs.Prelude.{◌≡◌, ◌≢◌, IfOk, IfErr, Ok};
ghost use Rattle.fuse_head.specs.Head.{in_head, IsWholeFrame};
ghost use Rattle.fuse_requests.specs.Parts.{ReadsAs, IsFaultOf};
ghost use Rattle.fuse_requests.specs.Grammar.{naming, of_node, of_mount, read_as, read_frame, request_of, without_spare, HasPayload};

use crate::fault::BodyFault;
use crate::request::Request;
use crate::{mounts, naming, nodes, opcode};
use fuse_head::head_of;
use std::alloc::Global;

/// Reads a whole request frame, as `fuse_head::whole_frame` tests it. Fields that Linux `fuse.h` 7.31 has as
/// padding, and those that a mount doesn't look at, are read past. An opcode that isn't served is `Unknown`,
/// and its body isn't looked at.
///
/// A fault is the first one in the order of reading: `Short` where the body has fewer bytes than its fixed
/// part or, for WRITE, than its size tells; `BadCount` where the bytes after BATCH_FORGET's fixed part aren't
/// its count times 16; `NoZeroByte` where a name doesn't end; `LongTail` where bytes stand after the last
/// part. `NoMemory` comes only where there is no fault, and the request has a name, a content or pairs.
pub fn read_request(alloc: Global, frame: &[u8]) -> Result<Request, BodyFault>
    requires { IsWholeFrame frame.now }
    ensures ok { IfOk result (λ request. read_frame frame.now ≡ Ok (without_spare request)) }
    ensures err { IfErr result (λ fault. IsFaultOf HasPayload fault (read_frame frame.now)) }
    ensures asked { IfOk result (λ request. request_of frame.now ≡ without_spare request) }
    ensures unknown { IfErr result (λ fault. fault ≢ BodyFault.NoMemory → request_of frame.now ≡ Request.Unknown (in_head frame.now).opcode) }
{
    read_whole(alloc, frame)
}

/// Reads a frame by the table of opcodes.
#[tactic(auto, unfolding(crate::specs::Grammar::read_frame))]
fn read_whole(alloc: Global, frame: &[u8]) -> Result<Request, BodyFault>
    requires { IsWholeFrame frame.now }
    ensures { ReadsAs without_spare HasPayload result (read_frame frame.now) }
{
    let head = head_of(frame);
    let (_, body) = frame.split_at(40);
    read_naming(alloc, head.opcode, head.node, body)
}

/// Reads a body of a request that carries names, or another.
fn read_naming(alloc: Global, opcode: u32, node: u64, body: &[u8]) -> Result<Request, BodyFault>
    ensures { ReadsAs without_spare HasPayload result (read_as opcode (naming opcode node (of_node opcode node (of_mount opcode node))) body.now) }
{
    match opcode {
        opcode::LOOKUP => naming::lookup(alloc, node, body),
        opcode::SYMLINK => naming::symlink(alloc, node, body),
        opcode::MKNOD => naming::mknod(alloc, node, body),
        opcode::MKDIR => naming::mkdir(alloc, node, body),
        opcode::UNLINK => naming::unlink(alloc, node, body),
        opcode::RMDIR => naming::rmdir(alloc, node, body),
        opcode::RENAME => naming::rename(alloc, node, body),
        opcode::CREATE => naming::create(alloc, node, body),
        opcode::RENAME2 => naming::rename2(alloc, node, body),
        _ => read_of_node(alloc, opcode, node, body),
    }
}

/// Reads a body of a request that speaks of a node or a handle, or another.
fn read_of_node(alloc: Global, opcode: u32, node: u64, body: &[u8]) -> Result<Request, BodyFault>
    ensures { ReadsAs without_spare HasPayload result (read_as opcode (of_node opcode node (of_mount opcode node)) body.now) }
{
    match opcode {
        opcode::GETATTR => nodes::getattr(node, body),
        opcode::SETATTR => nodes::setattr(node, body),
        opcode::READLINK => nodes::readlink(node, body),
        opcode::OPEN => nodes::opening(node, body),
        opcode::READ => nodes::reading(node, body),
        opcode::WRITE => nodes::writing(alloc, node, body),
        opcode::RELEASE => nodes::release(node, body),
        opcode::FSYNC => nodes::fsync(node, body),
        opcode::FLUSH => nodes::flush(node, body),
        opcode::OPENDIR => nodes::opendir(node, body),
        opcode::READDIR => nodes::readdir(node, body),
        opcode::RELEASEDIR => nodes::releasedir(node, body),
        opcode::FSYNCDIR => nodes::fsyncdir(node, body),
        _ => read_of_mount(alloc, opcode, node, body),
    }
}

/// Reads a body of a request that speaks of the whole mount, or none.
fn read_of_mount(alloc: Global, opcode: u32, node: u64, body: &[u8]) -> Result<Request, BodyFault>
    ensures { ReadsAs without_spare HasPayload result (read_as opcode (of_mount opcode node) body.now) }
{
    match opcode {
        opcode::FORGET => mounts::forget(node, body),
        opcode::STATFS => mounts::statfs(body),
        opcode::INIT => mounts::init(body),
        opcode::INTERRUPT => mounts::interrupt(body),
        opcode::DESTROY => mounts::destroy(body),
        opcode::BATCH_FORGET => mounts::batch_forget(alloc, body),
        _ => Ok(Request::Unknown { opcode }),
    }
}
