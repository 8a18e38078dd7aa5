//! Operations that may be asked, and answers as text.
ghost use Rattle.std.specs.Prelude.{◌≤◌, IfOk};
ghost use Rattle.bucket_api.specs.Metadata.{KeysRise};
ghost use Rattle.bucket_api.specs.Names.{IsObjectName};
ghost use Rattle.bucket_api.specs.Operation.{operation, IsAllowed};

use bucket_api::{Answer, Meta, Op, Page, Pair, allowed};
use io_ports::{Bytes, NoMemory, Row, Text};
use std::alloc::Global;
use std::process::Abort;

/// A name of an object.
fn object_name<R: Abort + AllocGlobal>(rt: &R, name: &str) -> Result<Text, NoMemory>
    ensures { IfOk result IsObjectName }
{
    assert!(rt; allowed(name));
    Text::of(rt.alloc(), name)
}

/// No custom metadata.
fn no_pairs(alloc: Global) -> Row<Pair>
    ensures { KeysRise result.items }
{
    Row::new(alloc)
}

/// The pair `k` with this value.
fn one_pair(alloc: Global, value: &str) -> Result<Row<Pair>, NoMemory>
    ensures { IfOk result (λ pairs. KeysRise pairs.items) }
{
    let pair = Pair {
        key: Text::of(alloc, "k")?,
        value: Text::of(alloc, value)?,
    };
    let mut pairs = Row::new(alloc);
    pairs.reserve(1)?;
    pairs.push(pair);
    Ok(pairs)
}

/// Asks what is told of an object.
pub(super) fn stat<R: Abort + AllocGlobal>(rt: &R, name: &str) -> Result<Op, NoMemory>
    ensures { IfOk result (λ op. IsAllowed (operation op)) }
{
    let name = object_name(rt, name)?;
    Ok(Op::Stat { name })
}

/// Reads 3 bytes from the second one on of a generation.
pub(super) fn read<R: Abort + AllocGlobal>(
    rt: &R,
    name: &str,
    generation: u64,
) -> Result<Op, NoMemory>
    ensures { IfOk result (λ op. IsAllowed (operation op)) }
{
    let name = object_name(rt, name)?;
    Ok(Op::Read {
        name,
        generation,
        first: 1,
        count: 3,
    })
}

/// Inserts the content `hello` without custom metadata.
pub(super) fn insert<R: Abort + AllocGlobal>(
    rt: &R,
    name: &str,
    only: Option<u64>,
    stamp: u64,
) -> Result<Op, NoMemory>
    ensures { IfOk result (λ op. IsAllowed (operation op)) }
{
    let name = object_name(rt, name)?;
    let content = Bytes::of(rt.alloc(), b"hello")?;
    Ok(Op::Insert {
        name,
        content,
        pairs: no_pairs(rt.alloc()),
        only,
        stamp,
    })
}

/// Puts a value under the key `k`.
pub(super) fn update<R: Abort + AllocGlobal>(
    rt: &R,
    value: &str,
    only_meta: Option<u64>,
    stamp: u64,
) -> Result<Op, NoMemory>
    ensures { IfOk result (λ op. IsAllowed (operation op)) }
{
    let name = object_name(rt, "f")?;
    let pairs = one_pair(rt.alloc(), value)?;
    Ok(Op::Update {
        name,
        pairs,
        only: Some(1),
        only_meta,
        stamp,
    })
}

/// Deletes a generation.
pub(super) fn delete<R: Abort + AllocGlobal>(
    rt: &R,
    name: &str,
    generation: u64,
) -> Result<Op, NoMemory>
    ensures { IfOk result (λ op. IsAllowed (operation op)) }
{
    let name = object_name(rt, name)?;
    Ok(Op::Delete {
        name,
        only: Some(generation),
    })
}

/// Copies a generation of `f` to another name.
pub(super) fn copy<R: Abort + AllocGlobal>(
    rt: &R,
    generation: u64,
    to: &str,
    stamp: u64,
) -> Result<Op, NoMemory>
    ensures { IfOk result (λ op. IsAllowed (operation op)) }
{
    let from = object_name(rt, "f")?;
    let to = object_name(rt, to)?;
    Ok(Op::Copy {
        from,
        generation,
        to,
        stamp,
    })
}

/// Lists names up to their first slash.
pub(super) fn list<R: Abort + AllocGlobal>(rt: &R, max: u64) -> Result<Op, NoMemory>
    requires { 1 ≤ max }
    ensures { IfOk result (λ op. IsAllowed (operation op)) }
{
    let prefix = Text::of(rt.alloc(), "")?;
    Ok(Op::List {
        prefix,
        slash: true,
        max,
        after: None,
    })
}

/// An answer as text.
pub(super) fn shown(alloc: Global, answer: &Answer) -> Result<String, NoMemory> {
    match answer {
        Answer::Meta(meta) => shown_meta(alloc, meta),
        Answer::Bytes(bytes) => {
            let text = str::from_utf8(bytes.as_slice()).unwrap_or("no text");
            Ok(format!(in alloc; "bytes {text}")?)
        }
        Answer::Page(page) => shown_page(alloc, page),
        Answer::Done => Ok(String::from_str(alloc, "done")?),
        Answer::NotFound => Ok(String::from_str(alloc, "not found")?),
        Answer::Precondition {
            generation,
            metageneration,
        } => Ok(format!(in alloc; "precondition {generation} {metageneration}")?),
        Answer::Fault => Ok(String::from_str(alloc, "fault")?),
    }
}

/// The name, the generation, the metageneration, the size, the second of the last change, and each pair.
fn shown_meta(alloc: Global, meta: &Meta) -> Result<String, NoMemory> {
    let mut text = format!(in alloc;
        "{} {} {} {} at {}",
        meta.name.as_str(),
        meta.generation,
        meta.metageneration,
        meta.size,
        meta.updated
    )?;
    for pair in meta.pairs.as_slice() {
        text.push_str(" ")?;
        text.push_str(pair.key.as_str())?;
        text.push_str("=")?;
        text.push_str(pair.value.as_str())?;
    }
    Ok(text)
}

/// The names of the items, the prefixes behind a bar, and the next key behind another.
fn shown_page(alloc: Global, page: &Page) -> Result<String, NoMemory> {
    let mut text = String::from_str(alloc, "page")?;
    for meta in page.items.as_slice() {
        text.push_str(" ")?;
        text.push_str(meta.name.as_str())?;
    }
    text.push_str(" |")?;
    for prefix in page.prefixes.as_slice() {
        text.push_str(" ")?;
        text.push_str(prefix.as_str())?;
    }
    text.push_str(" | ")?;
    text.push_str(page.next.as_ref().map_or("-", Text::as_str))?;
    Ok(text)
}
