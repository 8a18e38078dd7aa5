//! A node of the table.
ghost use Rattle.std.specs.Prelude.{◌≡◌, ◌<◌, ◌^◌, ◌&&◌, is_some, IfOk};
ghost use Rattle.std.specs.Borrow.{sem};
ghost use Rattle.std.specs.Option.{option_copied_mut};
ghost use Rattle.inode_spec.specs.Inodes as spec;
ghost use Rattle.inode_spec.specs.Inodes.{root, looked_up};
ghost use Rattle.inode_table.specs.Lending.{LendsFile};

use io_ports::{NoMemory, Text};
use object_names::NodeKind;
use std::alloc::Global;
use std::marker::Model;

/// The number of the root: `FUSE_ROOT_ID` of fuse.h.
pub(crate) const ROOT: u64 = 1;

/// A node: a file, directory or symlink that the kernel was shown and may name by its number.
#[derive(Debug, Drop)]
pub struct Inode<F> {
    /// What the node is, from its first look-up to its end.
    pub kind: NodeKind,
    /// The path of a file or symlink; the prefix of a directory, which ends in `/`; the empty text for the root.
    pub name: Text,
    /// How many look-ups of the node the kernel holds.
    pub lookups: u64,
    /// What is kept of a file or symlink; a directory has none.
    pub file: Option<F>,
}

impl<F> Model for Inode<F> {
    ghost use Rattle.inode_spec.specs.Inodes as spec;
    ghost use Rattle.inode_table.specs.Codes.{inode_code};

    ghost Value = { spec.Inode F };

    ghost coded = { inode_code F.code };

    ghost view = { λ i. record { kind = i.kind; name = i.name; lookups = i.lookups; file = i.file } };
}

impl<F: Drop> Inode<F> {
    /// The root: a directory with the empty name and no look-ups.
    pub(crate) fn root(alloc: Global) -> Result<Inode<F>, NoMemory>
        ensures { IfOk result (λ inode. inode ≡ root) }
    {
        Ok(Inode {
            kind: NodeKind::Dir,
            name: Text::of(alloc, "")?,
            lookups: 0,
            file: None,
        })
    }

    /// One more look-up.
    pub(crate) fn look(&mut self)
        requires { self.old.lookups < 2 ^ 63 }
        ensures { self.new ≡ looked_up self.old }
    {
        self.lookups += 1;
    }

    /// Whether the node of this number is the root, or has look-ups.
    pub(crate) fn is_live(&self, number: u64) -> bool
        ensures { result ≡ spec.is_live number self.now }
    {
        number == ROOT || self.lookups > 0
    }

    /// Whether the node stays without look-ups: it is a file or symlink, and a handle holds it.
    pub(crate) fn is_kept(&self, held: bool) -> bool
        ensures { result ≡ (held && is_some self.now.file) }
    {
        held && self.file.is_some()
    }

    /// What is kept of a file or symlink, to write.
    pub(crate) fn file_mut(&mut self) -> Option<&mut F>
        ensures* writes_back { sem 𝓛 (LendsFile F.row self.entry result) }
        ensures value { option_copied_mut result ≡ self.old.file }
    {
        self.file.as_mut()
    }
}
