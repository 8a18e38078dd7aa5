//! The memory that a request will want at its end.
ghost use Rattle.std.specs.Prelude.{◌≡◌};
ghost use Rattle.mount_state.specs.Spares.{provided_by};

use crate::prepared::Prepared;
use io_ports::Row;
use object_names::DirItem;
use std::marker::Model;

/// The memory that a request will want when it is done, made before it asks anything of the bucket. Contracts see the
/// entries, and what the mount prepared.
#[derive(Drop)]
pub struct Spare {
    /// The entries that an OPENDIR opens its handle with: who observes its pages fills them in.
    pub items: Row<DirItem>,
    /// What the mount itself prepared.
    pub(crate) prepared: Prepared,
}

impl Model for Spare {
    ghost use Rattle.mount_state.specs.Spares.{SpareState, provided_by};

    ghost Value = { SpareState };

    ghost view = { λ s. record { items = s.items.items; provided = provided_by s.prepared } };
}

impl Spare {
    /// The entries; what the mount prepared is let go.
    pub(crate) fn into_items(self) -> Row<DirItem>
        ensures { result.items ≡ self.items }
    {
        let Spare { items, prepared: _ } = self;
        items
    }

    /// What the mount prepared; the entries are let go.
    pub(crate) fn into_prepared(self) -> Prepared
        ensures { provided_by result ≡ self.provided }
    {
        let Spare { items: _, prepared } = self;
        prepared
    }
}
