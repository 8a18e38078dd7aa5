//! A map from numbers to values, with room of its own.
ghost use Rattle.std.specs.Prelude.{◌≡◌, ◌<◌, ◌≤◌, ◌-◌, OnOk, OnErr, IsSome, Some};
ghost use Rattle.std.specs.Borrow.{sem};
ghost use Rattle.std.specs.FinMap as fin;
ghost use Rattle.std.specs.Option.{option_copied};
ghost use Rattle.spare_maps.specs.Lending.{LendsValue};

use indexmap::IndexMap;
use io_ports::NoMemory;
use std::alloc::Global;
use std::marker::Model;

/// A map from numbers to values, with room that is asked for before it is used. Contracts see it as a finite map and
/// its `spare`, the number of further keys that it takes without asking for memory. Each call but `reserve` takes time
/// that does not grow with the map, on average.
#[derive(Drop)]
pub struct NumberMap<V> {
    inner: IndexMap<u64, V>,
    room: u64,
}

impl<V> Model for NumberMap<V> {
    ghost use Rattle.std.specs.Prelude.{◌≤◌};
    ghost use Rattle.std.specs.FinMap as fin;
    ghost use Rattle.indexmap.specs.IndexMap.{spare};
    ghost use Rattle.spare_maps.specs.SpareMaps.{Numbered, numbered_code};

    ghost Value = { Numbered V };

    ghost coded = { numbered_code V.code };

    ghost view = { λ a. record { map = fin.from_entries a.inner.entries; spare = a.room } };

    ghost invariant = { λ a. a.room ≤ spare a.inner };
}

impl<V: Drop> NumberMap<V> {
    /// A map with no keys and no spare.
    pub fn new(alloc: Global) -> NumberMap<V>
        ensures map { result.map ≡ fin.empty }
        ensures spare { result.spare ≡ 0 }
    {
        NumberMap {
            inner: IndexMap::new(alloc),
            room: 0,
        }
    }

    /// Makes room: afterwards the map takes at least `more` further keys, and never fewer than before. `NoMemory` where
    /// memory for them was refused, which comes only where `more` is above the spare.
    pub fn reserve(&mut self, more: u64) -> Result<(), NoMemory>
        ensures ok { OnOk result (more ≤ self.new.spare) }
        ensures err { OnErr result (self.new.spare ≡ self.old.spare) }
        ensures full { OnErr result (self.old.spare < more) }
        ensures spare { self.old.spare ≤ self.new.spare }
        ensures kept { self.new.map ≡ self.old.map }
    {
        if more > self.room {
            self.inner.reserve(more as usize)?;
            self.room = more;
        }
        Ok(())
    }

    /// The value under a number.
    pub fn get(&self, number: u64) -> Option<&V>
        ensures { option_copied result ≡ fin.get self.now.map number }
    {
        self.inner.get(&number)
    }

    /// Puts a value under a number, into the spare: no memory is asked for.
    pub fn put(&mut self, number: u64, value: V)
        requires { 1 ≤ self.old.spare }
        ensures map { self.new.map ≡ fin.insert self.old.map number value }
        ensures spare { self.new.spare ≡ self.old.spare - 1 }
    {
        let _ = self.inner.insert(number, value).unwrap();
        self.room -= 1;
    }

    /// The value under a number that is there, to write: no memory is asked for, and no spare is used.
    pub fn value_mut(&mut self, number: u64) -> &mut V
        requires { IsSome (fin.get self.old.map number) }
        ensures* writes_back { sem 𝓛 (LendsValue V.row self.entry number result) }
        ensures value { fin.get self.old.map number ≡ Some result.now }
    {
        let index = self.inner.get_index_of(&number).unwrap();
        &mut self.inner[index]
    }

    /// Takes a number away, and gives the value that was under it.
    pub fn remove(&mut self, number: u64) -> Option<V>
        ensures value { result ≡ fin.get self.old.map number }
        ensures map { self.new.map ≡ fin.remove self.old.map number }
        ensures spare { self.new.spare ≡ self.old.spare }
    {
        self.inner.swap_remove(&number)
    }
}
