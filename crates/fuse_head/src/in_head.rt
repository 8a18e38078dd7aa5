//! Heads of requests, and whole request frames.
ghost use Rattle.std.specs.Prelude.{◌≡◌, ◌≤◌, ◌<◌, ◌↔◌, length, IfOk, IsErrOf, IsTrue};
ghost use Rattle.fuse_head.specs.Head.{in_head, in_head_text, IsWholeFrame};

use crate::fields::{put_u32, put_u64, u32_at, u64_at};

/// The most bytes of a request frame: 131,072 of content and a page of 4,096 for what stands before it.
pub const LONGEST_FRAME: u32 = 135_168;

/// The head of a request, as `struct fuse_in_header` of Linux `fuse.h` 7.31 has it, without its padding.
#[derive(Clone, Copy, Debug, PartialEq, Eq)]
pub struct InHead {
    /// Bytes of the whole frame, this head among them.
    pub len: u32,
    /// Which request it is.
    pub opcode: u32,
    /// The number that the reply to this request repeats.
    pub unique: u64,
    /// The node that the request speaks of.
    pub node: u64,
    /// The user of the calling process.
    pub uid: u32,
    /// The group of the calling process.
    pub gid: u32,
    /// The calling process.
    pub pid: u32,
}

/// Why bytes have no request head.
#[derive(Clone, Copy, Debug, PartialEq, Eq)]
pub enum HeadFault {
    /// There are fewer than the 40 bytes of a head.
    Short,
    /// The head tells a frame shorter than itself.
    LenBelow40,
}

/// Reads the request head at the front of `bytes`: 40 bytes, little-endian. What stands after it, and whether
/// its `len` is the number of bytes, isn't looked at; the padding is ignored.
///
/// `Short` comes exactly below 40 bytes, `LenBelow40` exactly where there are 40 and `len` is below 40.
pub fn read_head(bytes: &[u8]) -> Result<InHead, HeadFault>
    ensures ok { IfOk result (λ head. (40 ≤ length bytes.now) × (40 ≤ head.len) × (head ≡ in_head bytes.now)) }
    ensures short { IsErrOf result HeadFault.Short ↔ (length bytes.now < 40) }
    ensures below { IsErrOf result HeadFault.LenBelow40 ↔ ((40 ≤ length bytes.now) × ((in_head bytes.now).len < 40)) }
{
    if bytes.len() < 40 {
        return Err(HeadFault::Short);
    }
    let head = head_of(bytes);
    if head.len < 40 {
        return Err(HeadFault::LenBelow40);
    }
    Ok(head)
}

/// Whether `bytes` are one whole request frame: 40 to [`LONGEST_FRAME`] bytes, as many as their head tells.
pub fn whole_frame(bytes: &[u8]) -> bool
    ensures { IsTrue result ↔ IsWholeFrame bytes.now }
{
    bytes.len() >= 40
        && bytes.len() <= LONGEST_FRAME as usize
        && u32_at(bytes, 0) as usize == bytes.len()
}

/// Writes the text of a request head, its padding as zeros.
pub fn write_in_head(head: &InHead, out: &mut [u8; 40])
    ensures { out.new ≡ in_head_text head.now }
{
    put_u32(out, 0, head.len);
    put_u32(out, 4, head.opcode);
    put_u64(out, 8, head.unique);
    put_u64(out, 16, head.node);
    put_u32(out, 24, head.uid);
    put_u32(out, 28, head.gid);
    put_u32(out, 32, head.pid);
    put_u32(out, 36, 0);
}

/// The request head at the front of `bytes`, whatever its `len` tells: for bytes that are known to have one, as a
/// whole frame does. The padding is ignored.
pub fn head_of(bytes: &[u8]) -> InHead
    requires { 40 ≤ length bytes.now }
    ensures { result ≡ in_head bytes.now }
{
    InHead {
        len: u32_at(bytes, 0),
        opcode: u32_at(bytes, 4),
        unique: u64_at(bytes, 8),
        node: u64_at(bytes, 16),
        uid: u32_at(bytes, 24),
        gid: u32_at(bytes, 28),
        pid: u32_at(bytes, 32),
    }
}
