//! How the entries of a directory come together in a map.
ghost use Rattle.std.specs.Prelude.{◌≡◌, ◌++◌, ◌∷◌, [], ◌&&◌, true, Some, None, IfOk, OnOk, string_bytes, if◌then◌else◌};
ghost use Rattle.std.specs.BTreeMap.{get_by_text};
ghost use Rattle.object_names.specs.Paths.{shown_of};
ghost use Rattle.object_names.specs.declared.shown.NodeKind.TheVariants.{Dir};
ghost use Rattle.dir_listing.specs.Steps.{Has, PutsDir, PutsDirs, Puts, PutsFirst, PutsFile, PutsFiles, is_dir_kind, kept_dir, kept_files};

use crate::kept::Kept;
use crate::roles::Role;
use io_ports::NoMemory;
use object_names::{DirItem, NodeKind};
use std::alloc::Global;
use std::collections::BTreeMap;

/// The directories among these items by their names, and the files and symlinks in their order. The names are moved.
pub(crate) fn parted(
    alloc: Global,
    items: Vec<Kept>,
) -> Result<(BTreeMap<String, NodeKind>, Vec<DirItem>), NoMemory>
    ensures dirs { IfOk result (λ found. Has (λ shown. if kept_dir items.items shown then Some Dir else None) found.0) }
    ensures files { IfOk result (λ found. found.1.items ≡ kept_files items.items) }
{
    let mut entries = BTreeMap::new(alloc);
    let mut files = Vec::new(alloc);
    for item in items {
        put_item(&mut entries, &mut files, item)?;
    }
    Ok((entries, files))
}

/// Puts the directory of an item into the map, and its file behind the files.
fn put_item(
    entries: &mut BTreeMap<String, NodeKind>,
    files: &mut Vec<DirItem>,
    item: Kept,
) -> Result<(), NoMemory>
    ensures dirs { OnOk result (PutsDir item entries.old entries.new) }
    ensures files { OnOk result (files.new.items ≡ files.old.items ++ kept_files (item ∷ [])) }
{
    match item.role {
        Role::FileObject => {
            let kind = item.kind();
            let shown = item.text;
            files.push(DirItem { shown, kind })?;
            Ok(())
        }
        Role::Placeholder => put_dir(entries, item),
        Role::NoEntry => Ok(()),
    }
}

/// Puts the directories of these prefixes into the map, where prefixes make directories.
pub(crate) fn put_dirs(
    entries: &mut BTreeMap<String, NodeKind>,
    prefixes: Vec<Kept>,
    implicit: bool,
) -> Result<(), NoMemory>
    ensures ok { OnOk result (PutsDirs prefixes.items implicit entries.old entries.new) }
{
    if !implicit {
        return Ok(());
    }
    for prefix in prefixes {
        put_dir(entries, prefix)?;
    }
    Ok(())
}

/// Puts the directory of a listed name into the map, if there is one.
fn put_dir(entries: &mut BTreeMap<String, NodeKind>, name: Kept) -> Result<(), NoMemory>
    ensures ok { OnOk result (PutsDir name entries.old entries.new) }
{
    match name.role {
        Role::Placeholder => {
            entries.insert(name.text.into_string(), NodeKind::Dir)?;
            Ok(())
        }
        Role::FileObject | Role::NoEntry => Ok(()),
    }
}

/// Puts these files and symlinks into the map of the directories, in their order.
pub(crate) fn put_files(
    entries: &mut BTreeMap<String, NodeKind>,
    files: Vec<DirItem>,
) -> Result<(), NoMemory>
    ensures ok { OnOk result (PutsFiles files.items entries.old entries.new) }
{
    for file in files {
        put_file(entries, file)?;
    }
    Ok(())
}

/// Puts a file or symlink into the map, if no earlier one has its name: under its name, with the suffix where a directory
/// of this name stands there already. Where nothing does, the map is searched twice; each name is moved.
fn put_file(entries: &mut BTreeMap<String, NodeKind>, file: DirItem) -> Result<(), NoMemory>
    ensures ok { OnOk result (PutsFile file.shown file.kind entries.old entries.new) }
{
    let there = kind_at(entries, file.shown.as_str());
    let name = file.shown.into_string();
    let Some(there) = there else {
        return put(entries, name, file.kind);
    };
    if is_dir(there) {
        let hidden = with_suffix(name)?;
        return put_first(entries, hidden, file.kind);
    }
    Ok(())
}

/// Whether the kind is a directory's.
fn is_dir(kind: NodeKind) -> bool
    ensures { result ≡ is_dir_kind (Some kind) }
{
    match kind {
        NodeKind::Dir => true,
        NodeKind::File => false,
        NodeKind::Symlink => false,
    }
}

/// What stands under a name.
fn kind_at(entries: &BTreeMap<String, NodeKind>, name: &str) -> Option<NodeKind>
    ensures { result ≡ get_by_text entries.now name.now }
{
    entries.get(name).copied()
}

/// Puts a kind under a name.
fn put(
    entries: &mut BTreeMap<String, NodeKind>,
    name: String,
    kind: NodeKind,
) -> Result<(), NoMemory>
    ensures ok { OnOk result (Puts (string_bytes name) kind entries.old entries.new) }
{
    entries.insert(name, kind)?;
    Ok(())
}

/// Puts a kind under a name, where nothing stands there.
fn put_first(
    entries: &mut BTreeMap<String, NodeKind>,
    name: String,
    kind: NodeKind,
) -> Result<(), NoMemory>
    ensures ok { OnOk result (PutsFirst (string_bytes name) kind entries.old entries.new) }
{
    match kind_at(entries, name.as_str()) {
        None => put(entries, name, kind),
        Some(_) => Ok(()),
    }
}

/// The same name, with the suffix behind it.
fn with_suffix(name: String) -> Result<String, NoMemory>
    ensures ok { IfOk result (λ shown. string_bytes shown ≡ shown_of (string_bytes name) true) }
{
    let mut shown = name;
    shown.push('\n')?;
    Ok(shown)
}
