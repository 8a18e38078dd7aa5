//! Frames of requests, written.
ghost use Rattle.std.specs.Prelude.{◌≡◌, ◌<◌, ◌≤◌, ◌^◌, ◌++◌, drop, length, IfOk, OnOk, Ok};
ghost use Rattle.fuse_head.specs.Head.{IsWholeFrame, in_head_text, longest_frame};
ghost use Rattle.fuse_head.specs.Little as little;
ghost use Rattle.fuse_requests.specs.Text.{request_text, head_of, spelling, body_text, InRange, IsWritable};
ghost use Rattle.fuse_requests.specs.Grammar.{read_frame, without_spare};

use crate::fixed::push_fixed;
use crate::head::push_head;
use crate::request::Request;
use crate::tail::{push_tail, tail_len};
use fuse_head::put_u32;
use io_ports::{Bytes, NoMemory};
use std::alloc::Global;

// The bytes of a head and of the longest fixed part, which is SETATTR's.
const ROOM_BEFORE_TAIL: usize = 40 + 88;

/// Writes a request as a frame, with the number `unique` that its reply is to repeat. It can be written where
/// no name holds a zero byte, an `Unknown` opcode is none of those that are read as another request, and the
/// frame is at most 135,168 bytes long. Its fields stand as in Linux `fuse.h` 7.31; padding, the fields that a
/// request hasn't, and the head's user, group and process are zero, and so is the head's node where the
/// request has none.
///
/// `NoMemory` comes where memory for the frame was refused.
pub fn write_request(alloc: Global, unique: u64, request: &Request) -> Result<Bytes, NoMemory>
    requires { IsWritable request.now }
    ensures bytes { IfOk result (λ frame. frame ≡ request_text unique request.now) }
    ensures whole { IfOk result (λ frame. IsWholeFrame frame) }
    ensures unique { IfOk result (λ frame. little.u64_at frame 8 ≡ unique) }
    ensures read { IfOk result (λ frame. read_frame frame ≡ Ok (without_spare request.now)) }
{
    let frame = frame_of(alloc, unique, request)?;
    Ok(Bytes::from_vec(frame))
}

fn frame_of(alloc: Global, unique: u64, request: &Request) -> Result<Vec<u8>, NoMemory>
    requires { IsWritable request.now }
    ensures ok { IfOk result (λ frame. frame.items ≡ request_text unique request.now) }
    ensures range { OnOk result (InRange request.now) }
{
    let mut frame = Vec::with_capacity(alloc, ROOM_BEFORE_TAIL + tail_len(request))?;
    push_parts(&mut frame, unique, request)?;
    tell_len(&mut frame);
    Ok(frame)
}

// The length of the frame isn't known yet, and stands as 0.
fn push_parts(out: &mut Vec<u8>, unique: u64, request: &Request) -> Result<(), NoMemory>
    requires { length (spelling request.now).tail ≤ longest_frame }
    ensures ok { OnOk result (out.new.items ≡ out.old.items ++ (in_head_text (head_of 0 unique request.now) ++ body_text request.now)) }
    ensures range { OnOk result (InRange request.now) }
{
    push_head(out, unique, request)?;
    push_fixed(out, request)?;
    push_tail(out, request)
}

fn tell_len(frame: &mut Vec<u8>)
    requires headed { 4 ≤ length frame.old.items }
    requires fits { length frame.old.items < 2 ^ 32 }
    ensures { frame.new.items ≡ little.u32_bytes (length frame.old.items) ++ drop 4 frame.old.items }
{
    let len = frame.len() as u32;
    put_u32(frame, 0, len);
}
