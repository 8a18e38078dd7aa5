//! Names as they are shown, and entries of a directory.
ghost use Rattle.std.specs.Prelude.{◌≡◌, IfOk};
ghost use Rattle.std.specs.BTreeMap.{IsOrdered};
ghost use Rattle.std.specs.String.{string_cmp};
ghost use Rattle.object_names.specs.Paths.{has_suffix, bare_name, shown_of, GivesBack};
ghost use Rattle.object_names.specs.Slow.{items_of};

use crate::component::Component;
use crate::path::joined;
use io_ports::{NoMemory, Row, Text};
use std::alloc::Global;
use std::collections::BTreeMap;

/// What a node of the mount is.
#[derive(Clone, Copy, Debug, PartialEq, Eq)]
pub enum NodeKind {
    /// A directory: a placeholder `P/`, or where directories are implicit any object below `P/`.
    Dir,
    /// A file: an object whose name does not end in `/`.
    File,
    /// A symlink: such an object with the metadata key `gcsfuse_symlink_target`.
    Symlink,
}

/// An entry of a directory: the name that is shown, and what it is.
#[derive(Debug, Drop)]
pub struct DirItem {
    /// The component, with the suffix where a directory of the same name hides the file.
    pub shown: Text,
    /// What the entry is.
    pub kind: NodeKind,
}

/// A shown name without its suffix, one U+000A at the end, and whether it had one.
pub fn strip_suffix(bytes: &[u8]) -> (&[u8], bool)
    ensures bare { result.0.now ≡ bare_name bytes.now }
    ensures suffix { result.1 ≡ has_suffix bytes.now }
    ensures whole { bytes.now ≡ shown_of result.0.now result.1 }
    ensures back { GivesBack bytes.now result.0.now result.1 }
{
    match bytes.strip_suffix(b"\n".as_slice()) {
        Some(bare) => (bare, true),
        None => (bytes, false),
    }
}

/// The name under which a component is shown: with the suffix where a directory of the same name hides it.
pub fn shown_name(alloc: Global, part: &Component, suffix: bool) -> Result<Text, NoMemory>
    ensures ok { IfOk result (λ shown. shown ≡ shown_of part.now suffix) }
{
    let name = part.as_str();
    if suffix {
        return joined(alloc, name, "\n");
    }
    Text::of(alloc, name)
}

/// The entries of a map from shown names to kinds, in its order. The names are moved, and not copied.
pub fn entry_row(
    alloc: Global,
    entries: BTreeMap<String, NodeKind>,
) -> Result<Row<DirItem>, NoMemory>
    ensures ok { IfOk result (λ row. row.items ≡ items_of entries.entries) }
    ensures ordered { IsOrdered string_cmp entries }
{
    let mut items = Vec::with_capacity(alloc, entries.len())?;
    for (name, kind) in entries {
        let shown = Text::from_string(name);
        items.push(DirItem { shown, kind })?;
    }
    Ok(Row::from_vec(items))
}
