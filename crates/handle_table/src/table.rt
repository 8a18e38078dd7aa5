//! The table of open handles.
ghost use Rattle.std.specs.Prelude.{◌≡◌, ◌≤◌, ◌<◌, ◌^◌, ◌+◌, ◌-◌, ◌==◌, ℕ, Some, None, nat_eq, is_some, if◌then◌else◌, OnOk, OnErr};
ghost use Rattle.std.specs.FinMap as fin;
ghost use Rattle.std.specs.List.{list_any};
ghost use Rattle.std.specs.Option.{option_copied};
ghost use Rattle.handle_table.specs.Handles as spec;
ghost use Rattle.handle_table.specs.Handles.{Opened, IsHandleTable, opened, released, count_at};

use crate::handle::Handle;
use io_ports::{NoMemory, Row};
use object_names::DirItem;
use spare_maps::NumberMap;
use std::alloc::Global;
use std::marker::Model;

/// The open handles. Contracts see them by their numbers, which rise from 1 and are never given again, the next of
/// them, and the spare, for how many more handles there is room. Each call but `reserve` takes time that does not grow
/// with the table, on average.
#[derive(Drop)]
pub struct HandleTable {
    handles: NumberMap<Handle>,
    /// How many handles are open on each node that has one.
    held: NumberMap<u64>,
    next: u64,
    room: u64,
}

impl Model for HandleTable {
    ghost use Rattle.handle_table.specs.Handles.{Handles, handles_code, HoldsHandles};

    ghost Value = { Handles };

    ghost coded = { handles_code };

    ghost view = { λ t. record { handles = t.handles.map; next = t.next; spare = t.room } };

    ghost invariant = { λ t. HoldsHandles t.handles t.held t.next t.room };
}

impl HandleTable {
    /// A table with no open handle and no spare. The first handle will have the number 1.
    pub fn new(alloc: Global) -> HandleTable
        ensures ok { result ≡ spec.no_handles }
    {
        HandleTable {
            handles: NumberMap::new(alloc),
            held: NumberMap::new(alloc),
            next: 1,
            room: 0,
        }
    }

    /// Makes room: afterwards the table takes at least `more` further handles, and never fewer than
    /// before. `NoMemory` where memory for more than the spare was refused; then nothing has changed.
    pub fn reserve(&mut self, more: u64) -> Result<(), NoMemory>
        ensures ok { OnOk result (more ≤ self.new.spare) }
        ensures err { OnErr result (self.new ≡ self.old) }
        ensures full { OnErr result (self.old.spare < more) }
        ensures kept { self.new ≡ record self.old { spare = self.new.spare } }
        ensures spare { self.old.spare ≤ self.new.spare }
    {
        if more > self.room {
            self.handles.reserve(more)?;
            self.held.reserve(more)?;
            self.room = more;
        }
        Ok(())
    }

    /// Opens a file. Answers the handle's number.
    pub fn open_file(&mut self, node: u64) -> u64
        requires spare { 1 ≤ self.old.spare }
        requires next { self.old.next < 2 ^ 62 }
        ensures number { result ≡ self.old.next }
        ensures table { self.new ≡ opened self.old (record { node = node; items = None }) }
    {
        self.open(Handle { node, items: None })
    }

    /// Opens a directory with these entries. Answers the handle's number.
    pub fn open_dir(&mut self, node: u64, items: Row<DirItem>) -> u64
        requires spare { 1 ≤ self.old.spare }
        requires next { self.old.next < 2 ^ 62 }
        ensures number { result ≡ self.old.next }
        ensures table { self.new ≡ opened self.old (record { node = node; items = Some items.items }) }
    {
        self.open(Handle {
            node,
            items: Some(items),
        })
    }

    /// One more handle, under the next number.
    fn open(&mut self, handle: Handle) -> u64
        requires spare { 1 ≤ self.old.spare }
        requires next { self.old.next < 2 ^ 62 }
        ensures number { result ≡ self.old.next }
        ensures table { self.new ≡ opened self.old handle }
    {
        let fh = self.next;
        count_up(&mut self.held, handle.node);
        self.handles.put(fh, handle);
        self.next += 1;
        self.room -= 1;
        fh
    }

    /// The handle of a number, where it is open.
    pub fn get(&self, fh: u64) -> Option<&Handle>
        ensures ok { option_copied result ≡ fin.get self.now.handles fh }
        ensures valid { IsHandleTable self.now }
    {
        self.handles.get(fh)
    }

    /// Closes a handle. False exactly where it is not open, and then nothing changes.
    pub fn release(&mut self, fh: u64) -> bool
        ensures ok { result ≡ fin.contains_key self.old.handles fh }
        ensures table { self.new ≡ released self.old fh }
    {
        let Some(handle) = self.handles.remove(fh) else {
            return false;
        };
        count_down(&mut self.held, handle.node);
        true
    }

    /// Whether a handle is open on a node.
    pub fn held(&self, node: u64) -> bool
        ensures ok { result ≡ list_any (λ handle. handle.node == node) (fin.values self.now.handles) }
    {
        let Some(count) = self.held.get(node) else {
            return false;
        };
        *count > 0
    }
}

/// One more handle on a node.
fn count_up(held: &mut NumberMap<u64>, node: u64)
    requires spare { 1 ≤ held.old.spare }
    requires fits { count_at held.old.map node < 2 ^ 63 }
    ensures counts { (q : ℕ) → count_at held.new.map q ≡ (if q == node then count_at held.old.map node + 1 else count_at held.old.map q) }
    ensures spare { held.old.spare ≤ held.new.spare + 1 }
{
    let Some(count) = held.get(node).copied() else {
        held.put(node, 1);
        return;
    };
    *held.value_mut(node) = count + 1;
}

/// One handle less on a node.
fn count_down(held: &mut NumberMap<u64>, node: u64)
    ensures counts { (q : ℕ) → count_at held.new.map q ≡ (if q == node then count_at held.old.map node - 1 else count_at held.old.map q) }
    ensures spare { held.new.spare ≡ held.old.spare }
{
    let Some(count) = held.get(node).copied() else {
        return;
    };
    if count <= 1 {
        held.remove(node);
        return;
    }
    *held.value_mut(node) = count - 1;
}
