//! An object of a bucket, and what the bucket tells of it.
ghost use Rattle.std.specs.Prelude.{◌≡◌, IfOk};

use io_ports::{Bytes, NoMemory, Row, Text};
use std::alloc::Global;
use std::marker::Model;

/// One pair of an object's custom metadata. In a row of pairs the keys rise by their bytes, none
/// standing twice.
#[derive(Drop)]
pub struct Pair {
    /// The key.
    pub key: Text,
    /// The value, which may be empty.
    pub value: Text,
}

impl Pair {
    /// A pair that is equal to this one.
    pub fn copy(&self, alloc: Global) -> Result<Self, NoMemory>
        ensures ok { IfOk result (λ pair. pair ≡ self.now) }
    {
        Ok(Pair {
            key: self.key.copy(alloc)?,
            value: self.value.copy(alloc)?,
        })
    }
}

/// What a bucket tells of one object. Clauses see it as plain data, its row of pairs as their list.
#[derive(Drop)]
pub struct Meta {
    /// The object's name.
    pub name: Text,
    /// The number of the object's content. The bucket gives each number once.
    pub generation: u64,
    /// 1 where the content was new, and one more with each update of the pairs.
    pub metageneration: u64,
    /// The content's length in bytes.
    pub size: u64,
    /// The second of the last change, as the change gave it.
    pub updated: u64,
    /// The custom metadata.
    pub pairs: Row<Pair>,
}

impl Model for Meta {
    ghost use Rattle.bucket_api.specs.Metadata.{Metadata};

    ghost Value = { Metadata };

    ghost view = { λ m. record { name = m.name; generation = m.generation; metageneration = m.metageneration; size = m.size; updated = m.updated; pairs = m.pairs.items } };
}

impl Meta {
    /// What is equal to this.
    pub fn copy(&self, alloc: Global) -> Result<Self, NoMemory>
        ensures ok { IfOk result (λ meta. meta ≡ self.now) }
    {
        Ok(Meta {
            name: self.name.copy(alloc)?,
            generation: self.generation,
            metageneration: self.metageneration,
            size: self.size,
            updated: self.updated,
            pairs: copy_pairs(alloc, &self.pairs)?,
        })
    }
}

/// An object: what the bucket tells of it, and its whole content.
#[derive(Drop)]
pub struct Object {
    /// What the bucket tells of it.
    pub meta: Meta,
    /// The whole content.
    pub content: Bytes,
}

impl Object {
    /// An object that is equal to this one.
    pub fn copy(&self, alloc: Global) -> Result<Self, NoMemory>
        ensures ok { IfOk result (λ object. object ≡ self.now) }
    {
        Ok(Object {
            meta: self.meta.copy(alloc)?,
            content: self.content.copy(alloc)?,
        })
    }
}

/// A row of pairs that are equal to these, in the same order.
pub fn copy_pairs(alloc: Global, pairs: &Row<Pair>) -> Result<Row<Pair>, NoMemory>
    ensures ok { IfOk result (λ copies. copies.items ≡ pairs.now.items) }
{
    let mut copies = Row::new(alloc);
    copies.reserve(pairs.len())?;
    for pair in pairs.as_slice() {
        copies.push(pair.copy(alloc)?);
    }
    Ok(copies)
}
