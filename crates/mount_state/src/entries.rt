//! The entries of a directory as a READDIR is answered them.
ghost use Rattle.std.specs.Prelude.{◌≡◌, drop, IfOk};
ghost use Rattle.mount_rules.specs.Requests.Readdir as spec;

use fuse_replies::{Dirent, dirent_len};
use io_ports::{NoMemory, Row};
use object_names::{DirItem, NodeKind};
use std::alloc::Global;

/// Entries from a position on, as many whole ones as fit into so many bytes. `NoMemory` where memory for them was
/// refused.
pub(crate) fn entries_from(
    alloc: Global,
    items: &[DirItem],
    first: u64,
    size: u32,
) -> Result<Row<Dirent>, NoMemory>
    ensures { IfOk result (λ row. row.items ≡ spec.fitting first size (drop first items.now)) }
{
    let mut entries = Vec::new(alloc);
    if first >= items.len() as u64 {
        return Ok(Row::from_vec(entries));
    }
    let rest = &items[first as usize..];
    let mut room = size as u64;
    let mut position = first;
    for item in rest {
        let length = dirent_len(item.shown.as_str());
        if length > room {
            return Ok(Row::from_vec(entries));
        }
        room -= length;
        position += 1;
        entries.push(dirent_at(alloc, item, position)?)?;
    }
    Ok(Row::from_vec(entries))
}

/// An entry, by the position behind it.
fn dirent_at(alloc: Global, item: &DirItem, off: u64) -> Result<Dirent, NoMemory>
    ensures { IfOk result (λ entry. entry ≡ record { off = off; kind = spec.type_of item.now.kind; name = item.now.shown }) }
{
    Ok(Dirent {
        off,
        kind: type_of(item.kind),
        name: item.shown.copy(alloc)?,
    })
}

/// The type of a directory entry: DT_DIR, DT_REG and DT_LNK of dirent.h.
fn type_of(kind: NodeKind) -> u32
    ensures { result ≡ spec.type_of kind }
{
    match kind {
        NodeKind::Dir => 4,
        NodeKind::File => 8,
        NodeKind::Symlink => 10,
    }
}
