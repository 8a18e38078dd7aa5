//! Bytes of a source.
ghost use Rattle.std.specs.Prelude.{◌≡◌, ◌-◌, [], drop, take, nat_lt, if◌then◌else◌};

use io_ports::Bytes;
use staged_file::Wanted;
use std::alloc::Global;

/// Bytes of the source of a file, from a place on: what a request wants of it, or more.
#[derive(Drop)]
pub struct Base {
    /// The place of the first byte in the source.
    pub first: u64,
    /// The bytes.
    pub bytes: Bytes,
}

impl Base {
    /// No bytes, for a request that wants none. It takes no memory.
    pub fn empty(alloc: Global) -> Base
        ensures { result ≡ record { first = 0; bytes = [] } }
    {
        Base {
            first: 0,
            bytes: Bytes::from_vec(Vec::new(alloc)),
        }
    }

    /// The bytes, for a request that wants these of the source; none where it wants none, for then they may be any.
    pub(crate) fn bytes_for(&self, wanted: Wanted) -> &[u8]
        ensures { result.now ≡ (if nat_lt 0 wanted.count then self.now.bytes else []) }
    {
        if wanted.count > 0 {
            return self.bytes.as_slice();
        }
        &[]
    }

    /// The bytes of a range of the source, as many as are there. They stay where they lie, but for those before the range,
    /// over which they are moved: no memory is asked for.
    pub(crate) fn into_range(self, first: u64, count: u64) -> Bytes
        ensures { result ≡ take count (drop (first - self.first) self.bytes) }
    {
        let mut bytes = self.bytes.into_vec();
        let skip = first.saturating_sub(self.first).min(bytes.len() as u64) as usize;
        let rest = bytes.len() - skip;
        if skip > 0 {
            bytes.copy_within(skip.., 0);
        }
        bytes.truncate(count.min(rest as u64) as usize);
        Bytes::from_vec(bytes)
    }
}
