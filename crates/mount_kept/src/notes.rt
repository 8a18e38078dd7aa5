//! What a call notes on its way, to be told at its end.
ghost use Rattle.std.specs.Prelude.{◌≡◌, ◌≤◌, ◌-◌, ◌++◌, ◌∷◌, [], length, OnOk};

use io_ports::{NoMemory, Row, Text};
use mount_model::Use;
use record_spec::Shown;
use std::alloc::Global;
use std::marker::Model;

/// What a call notes of one operation, at its moment in the log.
#[derive(Drop)]
pub enum Note {
    /// A look of its own, which showed this of a key.
    Saw {
        /// The key.
        key: Text,
        /// The moment.
        moment: u64,
        /// What was shown.
        shown: Shown,
    },
    /// A look of its own, which failed.
    Failed {
        /// The moment.
        moment: u64,
    },
    /// A look that a record served.
    Recalled {
        /// The moment of the record.
        moment: u64,
    },
    /// An insert, an update, a copy or a delete of a name, whatever it was answered.
    Wrote {
        /// The name.
        name: Text,
        /// The moment.
        moment: u64,
    },
}

/// The notes of a call, in order, with room for the uses that are told of them at its end. Contracts see the notes, and for
/// how many more there is room.
#[derive(Drop)]
pub struct Notes {
    notes: Row<Note>,
    uses: Row<Use>,
    spare: u64,
}

impl Model for Notes {
    ghost use Rattle.std.specs.Prelude.{◌≡◌, ◌≤◌, ◌+◌, [], length};
    ghost use Rattle.io_ports.specs.RowItems.{RowItems};
    ghost use Rattle.mount_kept.specs.declared.notes.Note.{Note};

    ghost Value = { RowItems Note };

    ghost view = { λ n. record { items = n.notes.items; spare = n.spare } };

    ghost invariant = { λ n. (n.uses.items ≡ []) × (n.spare ≤ n.notes.spare) × (length n.notes.items + n.spare ≤ n.uses.spare) };
}

impl Notes {
    /// No notes, and no room. It takes no memory.
    pub fn new(alloc: Global) -> Notes
        ensures { result ≡ record { items = []; spare = 0 } }
    {
        Notes {
            notes: Row::new(alloc),
            uses: Row::new(alloc),
            spare: 0,
        }
    }

    /// Makes room for one note more. `NoMemory` where memory for it, or for the use that is told of it, was refused.
    pub fn reserve(&mut self) -> Result<(), NoMemory>
        ensures ok { OnOk result (1 ≤ self.new.spare) }
        ensures kept { self.new.items ≡ self.old.items }
    {
        if self.spare > 0 {
            return Ok(());
        }
        let Some(all) = self.notes.len().checked_add(1) else {
            return Err(NoMemory);
        };
        self.uses.reserve(all)?;
        self.notes.reserve(1)?;
        self.spare = 1;
        Ok(())
    }

    /// Puts a note behind the others, into the room: no memory is asked for.
    pub fn push(&mut self, note: Note)
        requires { 1 ≤ self.old.spare }
        ensures { self.new ≡ record { items = self.old.items ++ note ∷ []; spare = self.old.spare - 1 } }
    {
        self.notes.push(note);
        self.spare -= 1;
    }

    /// The notes, and room for a use of each.
    pub(crate) fn into_parts(self) -> (Row<Note>, Row<Use>)
        ensures notes { result.0.items ≡ self.items }
        ensures none { result.1.items ≡ [] }
        ensures room { length self.items ≤ result.1.spare }
    {
        let Notes {
            notes,
            uses,
            spare: _,
        } = self;
        (notes, uses)
    }
}
