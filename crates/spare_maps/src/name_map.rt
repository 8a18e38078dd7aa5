//! A map from names to numbers, with room of its own.
ghost use Rattle.std.specs.Prelude.{◌≡◌, ◌<◌, ◌≤◌, ◌-◌, OnOk, OnErr, IsSome};
ghost use Rattle.std.specs.FinMap as fin;

use indexmap::IndexMap;
use io_ports::{NoMemory, Text};
use std::alloc::Global;
use std::marker::Model;

/// A map from names to numbers, with room that is asked for before it is used. Contracts see it as a finite map from
/// the bytes of the names and its `spare`, the number of further names that it takes without asking for memory. Each
/// call but `reserve` takes time that grows with the name alone, on average.
#[derive(Drop)]
pub struct NameMap {
    inner: IndexMap<String, u64>,
    room: u64,
}

impl Model for NameMap {
    ghost use Rattle.std.specs.Prelude.{◌≤◌};
    ghost use Rattle.std.specs.FinMap as fin;
    ghost use Rattle.indexmap.specs.IndexMap.{spare};
    ghost use Rattle.spare_maps.specs.SpareMaps.{Named, named_code, by_bytes};

    ghost Value = { Named };

    ghost coded = { named_code };

    ghost view = { λ a. record { map = fin.from_entries (by_bytes a.inner.entries); spare = a.room } };

    ghost invariant = { λ a. a.room ≤ spare a.inner };
}

impl NameMap {
    /// A map with no names and no spare.
    pub fn new(alloc: Global) -> NameMap
        ensures map { result.map ≡ fin.empty }
        ensures spare { result.spare ≡ 0 }
    {
        NameMap {
            inner: IndexMap::new(alloc),
            room: 0,
        }
    }

    /// Makes room: afterwards the map takes at least `more` further names, and never fewer than before. `NoMemory` where
    /// memory for them was refused, which comes only where `more` is above the spare.
    pub fn reserve(&mut self, more: u64) -> Result<(), NoMemory>
        ensures ok { OnOk result (more ≤ self.new.spare) }
        ensures err { OnErr result (self.new.spare ≡ self.old.spare) }
        ensures full { OnErr result (self.old.spare < more) }
        ensures spare { self.old.spare ≤ self.new.spare }
        ensures kept { self.new.map ≡ self.old.map }
    {
        if more > self.room {
            self.inner.reserve(more as usize)?;
            self.room = more;
        }
        Ok(())
    }

    /// The number under a name.
    pub fn get(&self, name: &str) -> Option<u64>
        ensures { result ≡ fin.get self.now.map name.now }
    {
        self.inner.get(name).copied()
    }

    /// Puts a number under a name, into the spare: no memory is asked for.
    pub fn put(&mut self, name: Text, number: u64)
        requires { 1 ≤ self.old.spare }
        ensures map { self.new.map ≡ fin.insert self.old.map name number }
        ensures spare { self.new.spare ≡ self.old.spare - 1 }
    {
        let _ = self.inner.insert(name.into_string(), number).unwrap();
        self.room -= 1;
    }

    /// Takes a name away, and gives the number that was under it.
    pub fn remove(&mut self, name: &str) -> Option<u64>
        ensures value { result ≡ fin.get self.old.map name.now }
        ensures map { self.new.map ≡ fin.remove self.old.map name.now }
        ensures spare { self.new.spare ≡ self.old.spare }
    {
        self.inner.swap_remove(name)
    }
}
