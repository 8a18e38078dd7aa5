//! Bytes of any value, owned.
ghost use Rattle.std.specs.Prelude.{◌≡◌, IfOk};

use crate::memory::NoMemory;
use std::alloc::Global;
use std::marker::Model;

/// Bytes of any value, owned. Contracts see them as the list of the bytes.
#[derive(Debug, Drop)]
pub struct Bytes {
    items: Vec<u8>,
}

impl Model for Bytes {
    ghost use Rattle.std.specs.Prelude.{List, ℕ};

    ghost Value = { List ℕ };

    ghost view = { λ b. b.items.items };
}

impl Bytes {
    /// A copy of these bytes. `NoMemory` where memory for them was refused.
    pub fn of(alloc: Global, from: &[u8]) -> Result<Bytes, NoMemory>
        ensures ok { IfOk result (λ bytes. bytes ≡ from.now) }
    {
        let items = Vec::from_slice(alloc, from)?;
        Ok(Bytes { items })
    }

    /// The bytes of a vector, which is taken as it is: no memory is asked for.
    pub fn from_vec(items: Vec<u8>) -> Bytes
        ensures bytes { result ≡ items.items }
    {
        Bytes { items }
    }

    /// The vector of these bytes, given back as it is.
    pub fn into_vec(self) -> Vec<u8>
        ensures bytes { result.items ≡ self }
    {
        let Bytes { items } = self;
        items
    }

    /// The bytes, lent.
    pub fn as_slice(&self) -> &[u8]
        ensures bytes { result.now ≡ self.now }
    {
        self.items.as_slice()
    }

    /// An equal value of its own. `NoMemory` where memory for it was refused.
    pub fn copy(&self, alloc: Global) -> Result<Bytes, NoMemory>
        ensures ok { IfOk result (λ copy. copy ≡ self.now) }
    {
        Bytes::of(alloc, self.as_slice())
    }
}
