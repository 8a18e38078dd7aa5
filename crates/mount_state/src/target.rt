//! The target of a symlink, as a READLINK is answered it.
ghost use Rattle.std.specs.Prelude.{◌≡◌, ◌+◌, ◌≤◌, IfOk, length};

use io_ports::{Bytes, NoMemory};
use std::alloc::Global;
use std::marker::Model;

/// The most bytes of a target that one frame holds, whose length has 32 bits and whose head has 16 bytes.
const LONGEST_REPLY: usize = 4_294_967_279;

/// The target of a symlink, which a reply can hold. Contracts see its bytes.
#[derive(Drop)]
pub(crate) struct Target {
    bytes: Bytes,
}

impl Model for Target {
    ghost use Rattle.std.specs.Prelude.{ℕ, List, ◌+◌, ◌≤◌, length};

    ghost Value = { List ℕ };

    ghost view = { λ t. t.bytes };

    ghost invariant = { λ t. 16 + length t.bytes ≤ 4294967295 };
}

impl Target {
    /// A copy of a target. `NoMemory` where memory for it was refused, or where no reply can hold it.
    pub(crate) fn of(alloc: Global, target: &str) -> Result<Target, NoMemory>
        ensures { IfOk result (λ copy. copy ≡ target.now) }
    {
        if target.len() > LONGEST_REPLY {
            return Err(NoMemory);
        }
        let bytes = Bytes::of(alloc, target.as_bytes())?;
        Ok(Target { bytes })
    }

    /// The target's bytes.
    pub(crate) fn into_bytes(self) -> Bytes
        ensures bytes { result ≡ self }
        ensures short { 16 + length result ≤ 4294967295 }
    {
        let Target { bytes } = self;
        bytes
    }
}
