//! Items in order, with room that is asked for before it is used.
ghost use Rattle.std.specs.Prelude.{◌≡◌, ◌<◌, ◌≤◌, ◌-◌, ◌++◌, ◌∷◌, [], length, OnOk, OnErr};

use crate::memory::NoMemory;
use std::alloc::Global;
use std::marker::Model;

/// Items in order, with room for more that is asked for before it is used. Contracts see a row as its
/// `items` and its `spare`, the number of items that it takes without asking for memory.
#[derive(Debug, Drop)]
pub struct Row<T> {
    inner: Vec<T>,
    spare: u64,
}

impl<T> Model for Row<T> {
    ghost use Rattle.std.specs.Prelude.{ℕ, ◌+◌, ◌≤◌, vec_len, vec_capacity};
    ghost use Rattle.io_ports.specs.RowItems.{RowItems};

    ghost Value = { RowItems T };

    ghost view = { λ r. record { items = r.inner.items; spare = r.spare } };

    ghost invariant = { λ r. vec_len r.inner + r.spare ≤ vec_capacity r.inner };
}

impl<T> Row<T> {
    /// A row with no items and no spare.
    pub fn new(alloc: Global) -> Row<T>
        ensures items { result.items ≡ [] }
        ensures spare { result.spare ≡ 0 }
    {
        Row {
            inner: Vec::new(alloc),
            spare: 0,
        }
    }

    /// The items of a vector, which is taken as it is: no memory is asked for.
    pub fn from_vec(items: Vec<T>) -> Row<T>
        ensures items { result.items ≡ items.items }
        ensures spare { result.spare ≡ 0 }
    {
        Row {
            inner: items,
            spare: 0,
        }
    }

    /// The vector of the items, given back as it is.
    pub fn into_vec(self) -> Vec<T>
        ensures items { result.items ≡ self.items }
    {
        let Row { inner, spare: _ } = self;
        inner
    }

    /// Makes room: afterwards the row takes at least `more` further items, and never fewer than before.
    /// `NoMemory` where memory for them was refused, which comes only where `more` is above the spare.
    pub fn reserve(&mut self, more: u64) -> Result<(), NoMemory>
        ensures ok { OnOk result (more ≤ self.new.spare) }
        ensures err { OnErr result (self.new.spare ≡ self.old.spare) }
        ensures full { OnErr result (self.old.spare < more) }
        ensures spare { self.old.spare ≤ self.new.spare }
        ensures kept { self.new.items ≡ self.old.items }
    {
        if more > self.spare {
            self.inner.reserve(more as usize)?;
            self.spare = more;
        }
        Ok(())
    }

    /// Appends an item, into the spare: no memory is asked for.
    pub fn push(&mut self, item: T)
        requires { 1 ≤ self.old.spare }
        ensures items { self.new.items ≡ self.old.items ++ item ∷ [] }
        ensures spare { self.new.spare ≡ self.old.spare - 1 }
    {
        self.inner.push(item).unwrap();
        self.spare -= 1;
    }

    /// How many items there are.
    pub fn len(&self) -> u64
        ensures { result ≡ length self.now.items }
    {
        self.inner.len() as u64
    }

    /// The items, lent.
    pub fn as_slice(&self) -> &[T]
        ensures items { result.now ≡ self.now.items }
    {
        self.inner.as_slice()
    }
}
