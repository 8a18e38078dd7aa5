//! What is kept of a listed name.
ghost use Rattle.std.specs.Prelude.{◌≡◌, map, IfOk};
ghost use Rattle.dir_listing.specs.Kinds.{file_or_link};
ghost use Rattle.dir_listing.specs.Names.{told, kept_name, FitsAll, IsKeptOf};
ghost use Rattle.dir_listing.specs.Pages.{item_of};

use crate::kinds::has_target;
use crate::roles::{Role, role_of};
use bucket_api::Meta;
use io_ports::{NoMemory, Text};
use object_names::NodeKind;
use std::alloc::Global;

/// What is kept of a listed name. The text is its one copy, and becomes the shown name where there is an entry.
#[derive(Drop)]
pub(crate) struct Kept {
    /// The component that is shown, or the whole name where it gives no entry.
    pub(crate) text: Text,
    /// What the name is in the directory.
    pub(crate) role: Role,
    /// Whether the object's metadata has a symlink's target.
    pub(crate) link: bool,
}

impl Kept {
    /// What the object is, where its name does not end in a slash.
    pub(crate) fn kind(&self) -> NodeKind
        ensures { result ≡ file_or_link self.now.link }
    {
        if self.link {
            return NodeKind::Symlink;
        }
        NodeKind::File
    }
}

/// What is kept of these objects, in their order.
pub(crate) fn kept_items(
    alloc: Global,
    prefix: &[u8],
    metas: &[Meta],
) -> Result<Vec<Kept>, NoMemory>
    ensures told { IfOk result (λ items. map (told prefix.now) items.items ≡ map item_of metas.now) }
    ensures fit { IfOk result (λ items. FitsAll prefix.now items.items) }
{
    let mut items = Vec::with_capacity(alloc, metas.len())?;
    for meta in metas {
        items.push(keep_item(alloc, prefix, meta)?)?;
    }
    Ok(items)
}

/// What is kept of these prefixes, in their order.
pub(crate) fn kept_prefixes(
    alloc: Global,
    prefix: &[u8],
    names: &[Text],
) -> Result<Vec<Kept>, NoMemory>
    ensures told { IfOk result (λ prefixes. map (kept_name prefix.now) prefixes.items ≡ names.now) }
    ensures fit { IfOk result (λ prefixes. FitsAll prefix.now prefixes.items) }
{
    let mut prefixes = Vec::with_capacity(alloc, names.len())?;
    for name in names {
        prefixes.push(keep(alloc, prefix, name, false)?)?;
    }
    Ok(prefixes)
}

/// What is kept of an object.
fn keep_item(alloc: Global, prefix: &[u8], meta: &Meta) -> Result<Kept, NoMemory>
    ensures ok { IfOk result (λ kept. IsKeptOf prefix.now (item_of meta.now) kept) }
{
    let link = has_target(meta.pairs.as_slice());
    keep(alloc, prefix, &meta.name, link)
}

/// What is kept of a listed name: here it is copied.
fn keep(alloc: Global, prefix: &[u8], name: &Text, link: bool) -> Result<Kept, NoMemory>
    ensures ok { IfOk result (λ kept. IsKeptOf prefix.now (name.now, file_or_link link) kept) }
{
    let (role, part) = role_of(prefix, name.as_str());
    let text = copy_with_room(alloc, part)?;
    Ok(Kept { text, role, link })
}

/// A copy of a text, with room for the suffix behind it.
fn copy_with_room(alloc: Global, text: &str) -> Result<Text, NoMemory>
    ensures ok { IfOk result (λ copy. copy ≡ text.now) }
{
    let mut copy = String::with_capacity(alloc, text.len() + 1)?;
    copy.push_str(text)?;
    Ok(Text::from_string(copy))
}
