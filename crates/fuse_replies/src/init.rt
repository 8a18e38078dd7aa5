//! The answer to INIT: written and read.
ghost use Rattle.std.specs.Prelude.{◌≡◌, ◌<◌, ◌≤◌, ◌^◌, ◌++◌, ◌↔◌, length, IsTrue};
ghost use Rattle.fuse_replies.specs.Layouts.{init_text, waits_text};
ghost use Rattle.fuse_replies.specs.Reading.{numbers_text, AreNumbers, Reads, Strips};

use crate::fields::{are_fields, strip_u16s, strip_u32s, write_u16s, write_u32s};
use fuse_head::u32_at;

/// The bytes of a `fuse_init_out`.
pub(crate) fn init_bytes(readahead: u32, flags: u32) -> [u8; 64]
    ensures { result ≡ init_text readahead flags }
{
    let mut bytes = [0; 64];
    write_u32s(&mut bytes, 0, &[7, 31, readahead, flags]);
    write_u16s(&mut bytes, 16, &[12, 9]);
    write_u32s(&mut bytes, 20, &[131_072, 1]);
    write_u16s(&mut bytes, 28, &[0, 0]);
    write_u32s(&mut bytes, 32, &[0; 8]);
    bytes
}

/// What follows a `fuse_init_out` with these numbers, where the bytes begin with it.
fn after_init(body: &[u8], readahead: u32, flags: u32) -> Option<&[u8]>
    ensures { Strips body.now (init_text readahead flags) result }
{
    let rest = strip_u32s(body, &[7, 31, readahead, flags])?;
    let rest = strip_u16s(rest, &[12, 9])?;
    let rest = strip_u32s(rest, &[131_072, 1])?;
    let rest = strip_u16s(rest, &[0, 0])?;
    strip_u32s(rest, &[0; 8])
}

/// The numbers whose `fuse_init_out` the bytes are: the readahead and the flags.
pub(crate) fn init_of(body: &[u8]) -> Option<(u32, u32)>
    ensures { Reads numbers_text AreNumbers body.now result }
{
    if body.len() != 64 {
        return None;
    }
    let readahead = u32_at(body, 8);
    let flags = u32_at(body, 12);
    after_init(body, readahead, flags)?;
    Some((readahead, flags))
}

/// The fields of the `fuse_init_out` of a kernel that is to send INIT again.
const WAITS: [u32; 16] = [7, 31, 0, 0, 0, 0, 0, 0, 0, 0, 0, 0, 0, 0, 0, 0];

/// The bytes of the `fuse_init_out` of a kernel that is to send INIT again.
pub(crate) fn waits_bytes() -> [u8; 64]
    ensures { result ≡ waits_text }
{
    let mut bytes = [0; 64];
    write_u32s(&mut bytes, 0, &WAITS);
    bytes
}

/// Whether the bytes are the `fuse_init_out` of a kernel that is to send INIT again.
#[tactic(auto, unfolding(crate::specs::Layouts::waits_text, crate::specs::Layouts::u64s))]
pub(crate) fn is_waits(body: &[u8]) -> bool
    ensures { IsTrue result ↔ (body.now ≡ waits_text) }
{
    are_fields(body, &[], &WAITS)
}
