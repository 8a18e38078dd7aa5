//! Runs of little-endian fields of one width: written at a place, and taken off the front of bytes.
ghost use Rattle.std.specs.Prelude.{◌≡◌, ◌≤◌, ◌+◌, ◌*◌, ◌++◌, ◌↔◌, length, take, IsTrue};
ghost use Rattle.fuse_replies.specs.Layouts.{u16s, u32s, u64s};
ghost use Rattle.fuse_replies.specs.Reading.{Strips};

use fuse_head::{put_u16, put_u32, put_u64};

/// Writes fields of two bytes into `out` from `place` on; what stands before them stays.
pub(crate) fn write_u16s(out: &mut [u8], place: usize, fields: &[u16])
    requires { place + 2 * length fields.now ≤ length out.old }
    ensures { take (place + 2 * length fields.now) out.new ≡ take place out.old ++ u16s fields.now }
{
    let mut place = place;
    for field in fields {
        put_u16(out, place, *field);
        place += 2;
    }
}

/// Writes fields of four bytes into `out` from `place` on; what stands before them stays.
pub(crate) fn write_u32s(out: &mut [u8], place: usize, fields: &[u32])
    requires { place + 4 * length fields.now ≤ length out.old }
    ensures { take (place + 4 * length fields.now) out.new ≡ take place out.old ++ u32s fields.now }
{
    let mut place = place;
    for field in fields {
        put_u32(out, place, *field);
        place += 4;
    }
}

/// Writes fields of eight bytes into `out` from `place` on; what stands before them stays.
pub(crate) fn write_u64s(out: &mut [u8], place: usize, fields: &[u64])
    requires { place + 8 * length fields.now ≤ length out.old }
    ensures { take (place + 8 * length fields.now) out.new ≡ take place out.old ++ u64s fields.now }
{
    let mut place = place;
    for field in fields {
        put_u64(out, place, *field);
        place += 8;
    }
}

/// What follows these fields of two bytes, where `bytes` begin with them.
pub(crate) fn strip_u16s<'a>(bytes: &'a [u8], fields: &[u16]) -> Option<&'a [u8]>
    ensures { Strips bytes.now (u16s fields.now) result }
{
    let mut rest = bytes;
    for field in fields {
        rest = rest.strip_prefix(&field.to_le_bytes())?;
    }
    Some(rest)
}

/// What follows these fields of four bytes, where `bytes` begin with them.
pub(crate) fn strip_u32s<'a>(bytes: &'a [u8], fields: &[u32]) -> Option<&'a [u8]>
    ensures { Strips bytes.now (u32s fields.now) result }
{
    let mut rest = bytes;
    for field in fields {
        rest = rest.strip_prefix(&field.to_le_bytes())?;
    }
    Some(rest)
}

/// What follows these fields of eight bytes, where `bytes` begin with them.
pub(crate) fn strip_u64s<'a>(bytes: &'a [u8], fields: &[u64]) -> Option<&'a [u8]>
    ensures { Strips bytes.now (u64s fields.now) result }
{
    let mut rest = bytes;
    for field in fields {
        rest = rest.strip_prefix(&field.to_le_bytes())?;
    }
    Some(rest)
}

/// Whether `bytes` are these fields of eight bytes and then these of four, and nothing else.
pub(crate) fn are_fields(bytes: &[u8], wide: &[u64], narrow: &[u32]) -> bool
    ensures { IsTrue result ↔ (bytes.now ≡ u64s wide.now ++ u32s narrow.now) }
{
    let Some(rest) = strip_u64s(bytes, wide) else {
        return false;
    };
    let Some(rest) = strip_u32s(rest, narrow) else {
        return false;
    };
    rest.is_empty()
}
