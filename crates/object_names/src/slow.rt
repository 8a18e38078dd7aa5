//! The entries of a directory as they are defined, computed without haste.
ghost use Rattle.std.specs.Prelude.{◌≡◌, ◌++◌, ◌∷◌, [], ◌&&◌, length, is_none, nat_le, IfOk, OnOk};
ghost use Rattle.std.specs.List.{list_any};
ghost use Rattle.std.specs.Str.{bytes_eq};
ghost use Rattle.object_names.specs.Components.{name_fault};
ghost use Rattle.object_names.specs.Paths.{path_max};
ghost use Rattle.object_names.specs.ShownNames as spec;
ghost use Rattle.object_names.specs.ShownNames.{Listed, Shows, shown_entries};
ghost use Rattle.object_names.specs.Slow.{listed_of, PutsShown};

use crate::component::component_text;
use crate::path::PATH_MAX;
use crate::shown::{DirItem, NodeKind, entry_row, strip_suffix};
use io_ports::{Bytes, NoMemory, Row, Text};
use std::alloc::Global;
use std::collections::BTreeMap;
use std::str;

/// What was listed of a directory.
#[derive(Drop)]
struct Source<'a> {
    prefix: &'a str,
    items: &'a [(Text, NodeKind)],
    prefixes: &'a [Text],
    implicit: bool,
}

/// The entries of a directory: the rules of what it shows as a slow program, which looks through all that was listed
/// for each name that may be shown. It is for small lists, to try the rules on.
///
/// `prefix` is the directory's, `items` are the names of the objects that were listed with what each is, in the order of
/// the pages, and `prefixes` are the listed prefixes, which make directories where these are implicit.
pub fn slow_entries(
    alloc: Global,
    prefix: &str,
    items: &[(Text, NodeKind)],
    prefixes: &[Text],
    implicit: bool,
) -> Result<Row<DirItem>, NoMemory>
    ensures ok { let listed : Listed = record { prefix = prefix.now; items = items.now; prefixes = prefixes.now; implicit = implicit } in IfOk result (λ row. row.items ≡ shown_entries listed) }
    ensures shows { let listed : Listed = record { prefix = prefix.now; items = items.now; prefixes = prefixes.now; implicit = implicit } in IfOk result (λ row. Shows listed row.items) }
{
    let source = Source {
        prefix,
        items,
        prefixes,
        implicit,
    };
    let names = names_to_show(alloc, &source)?;
    let mut entries = BTreeMap::new(alloc);
    for name in &names {
        put_shown(&mut entries, alloc, &source, name.as_slice())?;
    }
    entry_row(alloc, entries)
}

/// Puts a name with what is shown under it, if anything is.
fn put_shown(
    entries: &mut BTreeMap<String, NodeKind>,
    alloc: Global,
    source: &Source,
    shown: &[u8],
) -> Result<(), NoMemory>
    ensures ok { OnOk result (PutsShown (listed_of source.now) shown.now entries.old entries.new) }
{
    let Some(kind) = kind_shown(alloc, source, shown)? else {
        return Ok(());
    };
    let Ok(text) = str::from_utf8(shown) else {
        return Ok(());
    };
    entries.insert(String::from_str(alloc, text)?, kind)?;
    Ok(())
}

/// The names under which something may be shown.
fn names_to_show(alloc: Global, source: &Source) -> Result<Vec<Bytes>, NoMemory>
    ensures ok { IfOk result (λ names. names.items ≡ spec.names_to_show (listed_of source.now)) }
{
    let parts = listed_parts(alloc, source)?;
    let mut names = listed_parts(alloc, source)?;
    for part in &parts {
        let suffixed = key_of(alloc, b"", part.as_slice(), b"\n")?;
        names.push(Bytes::from_vec(suffixed))?;
    }
    Ok(names)
}

/// What the listed names leave after the prefix.
fn listed_parts(alloc: Global, source: &Source) -> Result<Vec<Bytes>, NoMemory>
    ensures ok { IfOk result (λ parts. parts.items ≡ spec.listed_parts (listed_of source.now)) }
{
    let mut parts = Vec::new(alloc);
    let items = source.items;
    for item in items {
        push_part(&mut parts, alloc, source.prefix, &item.0)?;
    }
    let prefixes = source.prefixes;
    for name in prefixes {
        push_part(&mut parts, alloc, source.prefix, name)?;
    }
    Ok(parts)
}

/// One more part, of a listed name.
fn push_part(
    parts: &mut Vec<Bytes>,
    alloc: Global,
    prefix: &str,
    name: &Text,
) -> Result<(), NoMemory>
    ensures ok { OnOk result (parts.new.items ≡ parts.old.items ++ spec.part_of prefix.now name.now ∷ []) }
{
    let part = part_of(prefix, name.as_str());
    parts.push(Bytes::of(alloc, part)?)?;
    Ok(())
}

/// The rest of a listed name after the prefix, without a slash at its end.
fn part_of<'a>(prefix: &str, name: &'a str) -> &'a [u8]
    ensures { result.now ≡ spec.part_of prefix.now name.now }
{
    let bytes = name.as_bytes();
    let (_, rest) = bytes.split_at(prefix.len().min(bytes.len()));
    match rest.strip_suffix(b"/".as_slice()) {
        Some(part) => part,
        None => rest,
    }
}

/// What is shown under a name.
fn kind_shown(alloc: Global, source: &Source, shown: &[u8]) -> Result<Option<NodeKind>, NoMemory>
    ensures ok { IfOk result (λ kind. kind ≡ spec.kind_shown (listed_of source.now) shown.now) }
{
    let (bare, suffixed) = strip_suffix(shown);
    let is_dir = has_dir(alloc, source, bare)?;
    if suffixed && !is_dir {
        return Ok(None);
    }
    if is_dir && !suffixed {
        return Ok(Some(NodeKind::Dir));
    }
    file_kind(alloc, source, bare)
}

/// Whether a directory of this name is there.
fn has_dir(alloc: Global, source: &Source, part: &[u8]) -> Result<bool, NoMemory>
    ensures ok { IfOk result (λ found. found ≡ spec.has_dir (listed_of source.now) part.now) }
{
    let key = key_of(alloc, source.prefix.as_bytes(), part, b"/")?;
    let placed = first_kind(source.items, key.as_slice()).is_some();
    let implied = source.implicit && has_name(source.prefixes, key.as_slice());
    Ok(can_show(source.prefix, part) && (placed || implied))
}

/// The kind of the file or symlink of this name, if one is there.
fn file_kind(alloc: Global, source: &Source, part: &[u8]) -> Result<Option<NodeKind>, NoMemory>
    ensures ok { IfOk result (λ kind. kind ≡ spec.file_kind (listed_of source.now) part.now) }
{
    if !can_show(source.prefix, part) {
        return Ok(None);
    }
    let key = key_of(alloc, source.prefix.as_bytes(), part, b"")?;
    Ok(first_kind(source.items, key.as_slice()))
}

/// Whether this part may be shown: it is a component, and its path is not too long.
fn can_show(prefix: &str, part: &[u8]) -> bool
    ensures { result ≡ (is_none (name_fault part.now) && nat_le (length (prefix.now ++ part.now)) path_max) }
{
    component_text(part).is_ok()
        && prefix.len() <= PATH_MAX
        && part.len() <= PATH_MAX - prefix.len()
}

/// What the first item of this name is.
fn first_kind(items: &[(Text, NodeKind)], name: &[u8]) -> Option<NodeKind>
    ensures { result ≡ spec.first_kind name.now items.now }
{
    for item in items {
        if name == item.0.as_str().as_bytes() {
            return Some(item.1);
        }
    }
    None
}

/// Whether a name is among these.
fn has_name(names: &[Text], name: &[u8]) -> bool
    ensures { result ≡ list_any (bytes_eq name.now) names.now }
{
    names.iter().any(|other| name == other.as_str().as_bytes())
}

/// Three texts in a row.
fn key_of(alloc: Global, front: &[u8], part: &[u8], end: &[u8]) -> Result<Vec<u8>, NoMemory>
    ensures ok { IfOk result (λ key. key.items ≡ (front.now ++ part.now) ++ end.now) }
{
    let mut key = Vec::from_slice(alloc, front)?;
    key.extend_from_slice(part)?;
    key.extend_from_slice(end)?;
    Ok(key)
}
