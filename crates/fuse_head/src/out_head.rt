//! Heads of replies.
ghost use Rattle.std.specs.Prelude.{◌≡◌, ◌≤◌, length};
ghost use Rattle.fuse_head.specs.Head.{negated, out_head, out_head_at};

use crate::fields::{put_u32, put_u64, u32_at, u64_at};

/// The head of a reply, as `struct fuse_out_header` of Linux `fuse.h` 7.31 has it.
#[derive(Clone, Copy, Debug, PartialEq, Eq)]
pub struct OutHead {
    /// Bytes of the whole reply, this head among them.
    pub len: u32,
    /// 0, or the error, which stands negated in the frame.
    pub errno: u32,
    /// The number of the request that is answered.
    pub unique: u64,
}

/// The reply head at the front of `bytes`, whatever its `len` tells.
pub fn out_head_of(bytes: &[u8]) -> OutHead
    requires { 16 ≤ length bytes.now }
    ensures { result ≡ out_head_at bytes.now }
{
    OutHead {
        len: u32_at(bytes, 0),
        errno: negative(u32_at(bytes, 4)),
        unique: u64_at(bytes, 8),
    }
}

/// Writes the head of a reply, as `struct fuse_out_header` of Linux `fuse.h` 7.31 has it: `len` is the bytes of
/// the whole reply, this head among them; `errno` is 0 or the error, which stands negated in the frame; `unique`
/// is the request's.
pub fn write_out_head(len: u32, errno: u32, unique: u64, out: &mut [u8; 16])
    ensures { out.new ≡ out_head len errno unique }
{
    put_u32(out, 0, len);
    put_u32(out, 4, negative(errno));
    put_u64(out, 8, unique);
}

/// The number whose sum with this one is 0, in two's complement of four bytes.
fn negative(errno: u32) -> u32
    ensures { result ≡ negated errno }
{
    errno.wrapping_neg()
}
