//! How many claims are on each name, with room that is made before it is used.
ghost use Rattle.std.specs.Prelude.{◌≡◌, ◌≤◌, ◌<◌, ◌+◌, ◌-◌, ◌^◌, ℕ, List, OnOk, OnErr, IsSome, length, vec_len, if◌then◌else◌};
ghost use Rattle.std.specs.FinMap as fin;
ghost use Rattle.std.specs.Str.{bytes_eq};
ghost use Rattle.claims.specs.TallyWords.{no_tally, one_tally, plus, less};
ghost use Rattle.claims.specs.Tallies.{tally_in};

use crate::name_buffer::NameBuffer;
use crate::tally::Tally;
use indexmap::IndexMap;
use io_ports::NoMemory;
use std::alloc::Global;
use std::marker::Model;

/// The tallies of the names that are claimed, with room that is asked for before it is used. Contracts see them as a
/// finite map from the bytes of the names and a spare, the number of further names that are put without asking for
/// memory. A name is copied into a buffer that was made with the room.
#[derive(Drop)]
pub struct NameTallies {
    inner: IndexMap<String, Tally>,
    buffers: Vec<NameBuffer>,
    alloc: Global,
    room: u64,
}

impl Model for NameTallies {
    ghost use Rattle.std.specs.Prelude.{◌≤◌, vec_len};
    ghost use Rattle.std.specs.FinMap as fin;
    ghost use Rattle.indexmap.specs.IndexMap.{spare};
    ghost use Rattle.spare_maps.specs.SpareMaps.{by_bytes};
    ghost use Rattle.claims.specs.NameRoom.{NamedTallies, named_tallies_code};

    ghost Value = { NamedTallies };

    ghost coded = { named_tallies_code };

    ghost view = { λ a. record { map = fin.from_entries (by_bytes a.inner.entries); spare = a.room } };

    ghost invariant = { λ a. (a.room ≤ spare a.inner) × (a.room ≤ vec_len a.buffers) };
}

impl NameTallies {
    /// No names and no spare.
    pub fn new(alloc: Global) -> NameTallies
        ensures map { result.map ≡ fin.empty }
        ensures spare { result.spare ≡ 0 }
    {
        NameTallies {
            inner: IndexMap::new(alloc),
            buffers: Vec::new(alloc),
            alloc,
            room: 0,
        }
    }

    /// Makes room: afterwards at least `more` further names are put, and never fewer than before. `NoMemory` where memory
    /// for them was refused, which comes only where `more` is above the spare.
    pub fn reserve(&mut self, more: u64) -> Result<(), NoMemory>
        ensures ok { OnOk result (more ≤ self.new.spare) }
        ensures err { OnErr result (self.new.spare ≡ self.old.spare) }
        ensures full { OnErr result (self.old.spare < more) }
        ensures spare { self.old.spare ≤ self.new.spare }
        ensures kept { self.new.map ≡ self.old.map }
    {
        if more > self.room {
            self.inner.reserve(more as usize)?;
            fill(self.alloc, &mut self.buffers, more as usize)?;
            self.room = more;
        }
        Ok(())
    }

    /// The tally of a name, which has no claims where there is none.
    pub fn tally(&self, name: &str) -> Tally
        ensures { result ≡ tally_in self.now.map name.now }
    {
        self.get(name).unwrap_or(Tally::NONE)
    }

    /// The tally of a name, where there is one.
    fn get(&self, name: &str) -> Option<Tally>
        ensures { result ≡ fin.get self.now.map name.now }
    {
        self.inner.get(name).copied()
    }

    /// One more claim on a name. A name that has no tally is put into the spare.
    pub fn add(&mut self, name: &str, exclusive: bool)
        requires spare { 1 ≤ self.old.spare }
        requires fits { length name.now ≤ 1024 }
        requires claims { (tally_in self.old.map name.now).claims < 2 ^ 63 }
        requires exclusive { (tally_in self.old.map name.now).exclusive < 2 ^ 63 }
        ensures tallies { (q : List ℕ) → tally_in self.new.map q ≡ plus (tally_in self.old.map q) (if bytes_eq q name.now then one_tally exclusive else no_tally) }
        ensures spare { self.old.spare ≤ self.new.spare + 1 }
    {
        let Some(tally) = self.get(name) else {
            self.put(name, Tally::NONE.with(exclusive));
            return;
        };
        self.write(name, tally.with(exclusive));
    }

    /// One claim less on a name. A name that has none left is taken away.
    pub fn take_away(&mut self, name: &str, exclusive: bool)
        ensures tallies { (q : List ℕ) → tally_in self.new.map q ≡ less (tally_in self.old.map q) (if bytes_eq q name.now then one_tally exclusive else no_tally) }
        ensures spare { self.new.spare ≡ self.old.spare }
    {
        let Some(tally) = self.get(name) else {
            return;
        };
        let rest = tally.without(exclusive);
        if rest.is_none() {
            self.remove(name);
            return;
        }
        self.write(name, rest);
    }

    /// Puts a tally under a name, into the spare: no memory is asked for.
    fn put(&mut self, name: &str, tally: Tally)
        requires spare { 1 ≤ self.old.spare }
        requires fits { length name.now ≤ 1024 }
        ensures map { self.new.map ≡ fin.insert self.old.map name.now tally }
        ensures spare { self.new.spare ≡ self.old.spare - 1 }
    {
        let key = self.buffers.pop().unwrap().hold(name);
        let _ = self.inner.insert(key, tally).unwrap();
        self.room -= 1;
    }

    /// Writes another tally under a name that has one: no spare is used.
    fn write(&mut self, name: &str, tally: Tally)
        requires { IsSome (fin.get self.old.map name.now) }
        ensures map { self.new.map ≡ fin.insert self.old.map name.now tally }
        ensures spare { self.new.spare ≡ self.old.spare }
    {
        let index = self.inner.get_index_of(name).unwrap();
        self.inner[index] = tally;
    }

    /// Takes a name away.
    fn remove(&mut self, name: &str)
        ensures map { self.new.map ≡ fin.remove self.old.map name.now }
        ensures spare { self.new.spare ≡ self.old.spare }
    {
        self.inner.swap_remove(name);
    }
}

/// Makes buffers until there are as many as wanted.
fn fill(alloc: Global, buffers: &mut Vec<NameBuffer>, wanted: usize) -> Result<(), NoMemory>
    ensures ok { OnOk result (wanted ≤ vec_len buffers.new) }
    ensures kept { vec_len buffers.old ≤ vec_len buffers.new }
{
    while buffers.len() < wanted {
        buffers.push(NameBuffer::new(alloc)?)?;
    }
    Ok(())
}
