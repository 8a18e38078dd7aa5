//! Little-endian fields at a place of bytes, and at their end.
ghost use Rattle.std.specs.Prelude.{◌≡◌, ◌≤◌, ◌+◌, ◌++◌, drop, length, take, OnOk};
ghost use Rattle.fuse_head.specs.Little as little;

use byteorder::{ByteOrder, LittleEndian};
use std::alloc::AllocError;

/// The little-endian number in the two bytes from `place` on.
#[tactic(auto, unfolding(crate::specs::Little::u16_at))]
pub fn u16_at(bytes: &[u8], place: usize) -> u16
    requires { place + 2 ≤ length bytes.now }
    ensures { result ≡ little.u16_at bytes.now place }
{
    LittleEndian::read_u16(&bytes[place..place + 2])
}

/// The little-endian number in the four bytes from `place` on.
#[tactic(auto, unfolding(crate::specs::Little::u32_at))]
pub fn u32_at(bytes: &[u8], place: usize) -> u32
    requires { place + 4 ≤ length bytes.now }
    ensures { result ≡ little.u32_at bytes.now place }
{
    LittleEndian::read_u32(&bytes[place..place + 4])
}

/// The little-endian number in the eight bytes from `place` on.
#[tactic(auto, unfolding(crate::specs::Little::u64_at))]
pub fn u64_at(bytes: &[u8], place: usize) -> u64
    requires { place + 8 ≤ length bytes.now }
    ensures { result ≡ little.u64_at bytes.now place }
{
    LittleEndian::read_u64(&bytes[place..place + 8])
}

/// Writes the little-endian number into the two bytes from `place` on; what stands before and after them stays.
pub fn put_u16(out: &mut [u8], place: usize, n: u16)
    requires { place + 2 ≤ length out.old }
    ensures front { take (place + 2) out.new ≡ take place out.old ++ little.u16_bytes n }
    ensures kept { drop (place + 2) out.new ≡ drop (place + 2) out.old }
{
    LittleEndian::write_u16(&mut out[place..], n);
}

/// Writes the little-endian number into the four bytes from `place` on; what stands before and after them stays.
pub fn put_u32(out: &mut [u8], place: usize, n: u32)
    requires { place + 4 ≤ length out.old }
    ensures front { take (place + 4) out.new ≡ take place out.old ++ little.u32_bytes n }
    ensures kept { drop (place + 4) out.new ≡ drop (place + 4) out.old }
{
    LittleEndian::write_u32(&mut out[place..], n);
}

/// Writes the little-endian number into the eight bytes from `place` on; what stands before and after them stays.
pub fn put_u64(out: &mut [u8], place: usize, n: u64)
    requires { place + 8 ≤ length out.old }
    ensures front { take (place + 8) out.new ≡ take place out.old ++ little.u64_bytes n }
    ensures kept { drop (place + 8) out.new ≡ drop (place + 8) out.old }
{
    LittleEndian::write_u64(&mut out[place..], n);
}

/// Appends the little-endian number, two bytes. An error where memory for them was refused.
#[tactic(auto, unfolding(crate::specs::Little::u16_bytes))]
pub fn append_u16(out: &mut Vec<u8>, n: u16) -> Result<(), AllocError>
    ensures ok { OnOk result (out.new.items ≡ out.old.items ++ little.u16_bytes n) }
{
    out.extend_from_slice(&n.to_le_bytes())
}

/// Appends the little-endian number, four bytes. An error where memory for them was refused.
#[tactic(auto, unfolding(crate::specs::Little::u32_bytes))]
pub fn append_u32(out: &mut Vec<u8>, n: u32) -> Result<(), AllocError>
    ensures ok { OnOk result (out.new.items ≡ out.old.items ++ little.u32_bytes n) }
{
    out.extend_from_slice(&n.to_le_bytes())
}

/// Appends the little-endian number, eight bytes. An error where memory for them was refused.
#[tactic(auto, unfolding(crate::specs::Little::u64_bytes))]
pub fn append_u64(out: &mut Vec<u8>, n: u64) -> Result<(), AllocError>
    ensures ok { OnOk result (out.new.items ≡ out.old.items ++ little.u64_bytes n) }
{
    out.extend_from_slice(&n.to_le_bytes())
}
