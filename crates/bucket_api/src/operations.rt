//! The operations of a bucket.
ghost use Rattle.std.specs.Prelude.{◌≡◌, IfOk};
ghost use Rattle.bucket_api.specs.Operation.{operation, stat, read, insert, update, delete, copy, list};

use crate::objects::{Pair, copy_pairs};
use io_ports::{Bytes, NoMemory, Row, Text};
use std::alloc::Global;

/// One operation on a bucket. A precondition `only` is a generation that the live object must
/// have, where 0 asks that none is live; a stamp is the second that a change is to carry.
#[derive(Drop)]
pub enum Op {
    /// What the bucket tells of the live object.
    Stat {
        /// The object's name.
        name: Text,
    },
    /// A part of the content of a live generation.
    Read {
        /// The object's name.
        name: Text,
        /// The generation that must be live.
        generation: u64,
        /// The place of the first byte.
        first: u64,
        /// The most bytes to give.
        count: u64,
    },
    /// A new content.
    Insert {
        /// The object's name.
        name: Text,
        /// The whole content.
        content: Bytes,
        /// The custom metadata.
        pairs: Row<Pair>,
        /// The precondition on the generation.
        only: Option<u64>,
        /// The second of the change.
        stamp: u64,
    },
    /// Pairs added to the live object's, or put in their place.
    Update {
        /// The object's name.
        name: Text,
        /// The pairs to add or to put.
        pairs: Row<Pair>,
        /// The precondition on the generation.
        only: Option<u64>,
        /// The precondition on the metageneration.
        only_meta: Option<u64>,
        /// The second of the change.
        stamp: u64,
    },
    /// The live object taken away.
    Delete {
        /// The object's name.
        name: Text,
        /// The precondition on the generation.
        only: Option<u64>,
    },
    /// A live generation's content and pairs under another name.
    Copy {
        /// The name of the source.
        from: Text,
        /// The source's generation, which must be live.
        generation: u64,
        /// The new object's name.
        to: Text,
        /// The second of the change.
        stamp: u64,
    },
    /// One page of the names that begin with a prefix.
    List {
        /// What the names begin with. Empty for all names.
        prefix: Text,
        /// Whether names are shown only up to their first slash after the prefix.
        slash: bool,
        /// The most keys that the page shows, at least 1.
        max: u64,
        /// The key after which the page begins, which is not empty.
        after: Option<Text>,
    },
}

impl Op {
    /// An operation that asks the same.
    pub fn copy(&self, alloc: Global) -> Result<Self, NoMemory>
        ensures ok { IfOk result (λ op. operation op ≡ operation self.now) }
    {
        match self {
            Op::Stat { name } => copy_stat(alloc, name),
            Op::Read {
                name,
                generation,
                first,
                count,
            } => copy_read(alloc, name, *generation, *first, *count),
            Op::Insert {
                name,
                content,
                pairs,
                only,
                stamp,
            } => copy_insert(alloc, name, content, pairs, *only, *stamp),
            Op::Update {
                name,
                pairs,
                only,
                only_meta,
                stamp,
            } => copy_update(alloc, name, pairs, *only, *only_meta, *stamp),
            Op::Delete { name, only } => copy_delete(alloc, name, *only),
            Op::Copy {
                from,
                generation,
                to,
                stamp,
            } => copy_copy(alloc, from, *generation, to, *stamp),
            Op::List {
                prefix,
                slash,
                max,
                after,
            } => copy_list(alloc, prefix, *slash, *max, after),
        }
    }
}

/// A `Stat` of the same name.
fn copy_stat(alloc: Global, name: &Text) -> Result<Op, NoMemory>
    ensures ok { IfOk result (λ op. operation op ≡ stat name.now) }
{
    let name = name.copy(alloc)?;
    Ok(Op::Stat { name })
}

/// A `Read` of the same part.
fn copy_read(
    alloc: Global,
    name: &Text,
    generation: u64,
    first: u64,
    count: u64,
) -> Result<Op, NoMemory>
    ensures ok { IfOk result (λ op. operation op ≡ read name.now generation first count) }
{
    Ok(Op::Read {
        name: name.copy(alloc)?,
        generation,
        first,
        count,
    })
}

/// An `Insert` of the same content and pairs.
fn copy_insert(
    alloc: Global,
    name: &Text,
    content: &Bytes,
    pairs: &Row<Pair>,
    only: Option<u64>,
    stamp: u64,
) -> Result<Op, NoMemory>
    ensures ok { IfOk result (λ op. operation op ≡ insert name.now content.now pairs.now.items only stamp) }
{
    Ok(Op::Insert {
        name: name.copy(alloc)?,
        content: content.copy(alloc)?,
        pairs: copy_pairs(alloc, pairs)?,
        only,
        stamp,
    })
}

/// An `Update` by the same pairs.
fn copy_update(
    alloc: Global,
    name: &Text,
    pairs: &Row<Pair>,
    only: Option<u64>,
    only_meta: Option<u64>,
    stamp: u64,
) -> Result<Op, NoMemory>
    ensures ok { IfOk result (λ op. operation op ≡ update name.now pairs.now.items only only_meta stamp) }
{
    Ok(Op::Update {
        name: name.copy(alloc)?,
        pairs: copy_pairs(alloc, pairs)?,
        only,
        only_meta,
        stamp,
    })
}

/// A `Delete` of the same name.
fn copy_delete(alloc: Global, name: &Text, only: Option<u64>) -> Result<Op, NoMemory>
    ensures ok { IfOk result (λ op. operation op ≡ delete name.now only) }
{
    let name = name.copy(alloc)?;
    Ok(Op::Delete { name, only })
}

/// A `Copy` from the same source to the same name.
fn copy_copy(
    alloc: Global,
    from: &Text,
    generation: u64,
    to: &Text,
    stamp: u64,
) -> Result<Op, NoMemory>
    ensures ok { IfOk result (λ op. operation op ≡ copy from.now generation to.now stamp) }
{
    Ok(Op::Copy {
        from: from.copy(alloc)?,
        generation,
        to: to.copy(alloc)?,
        stamp,
    })
}

/// A `List` of the same page.
fn copy_list(
    alloc: Global,
    prefix: &Text,
    slash: bool,
    max: u64,
    after: &Option<Text>,
) -> Result<Op, NoMemory>
    ensures ok { IfOk result (λ op. operation op ≡ list prefix.now slash max after.now) }
{
    Ok(Op::List {
        prefix: prefix.copy(alloc)?,
        slash,
        max,
        after: copy_key(alloc, after)?,
    })
}

/// The same key, where there is one.
fn copy_key(alloc: Global, key: &Option<Text>) -> Result<Option<Text>, NoMemory>
    ensures ok { IfOk result (λ copy. copy ≡ key.now) }
{
    match key {
        Some(key) => Ok(Some(key.copy(alloc)?)),
        None => Ok(None),
    }
}
