//! The table of nodes.
ghost use Rattle.std.specs.Prelude.{◌≡◌, ◌≤◌, ◌<◌, ◌-◌, ◌&&◌, not, is_some, IsSome, IfOk, OnOk, OnErr};
ghost use Rattle.std.specs.Borrow.{sem};
ghost use Rattle.std.specs.FinMap as fin;
ghost use Rattle.std.specs.Option.{option_copied, option_copied_mut, option_map_or};
ghost use Rattle.inode_spec.specs.Inodes as spec;
ghost use Rattle.inode_spec.specs.Inodes.{IsTable, IsLiveUnder, first_table, granted, looked, forgotten, detached, made_current, without_current, file_of};
ghost use Rattle.inode_spec.specs.Counts.{CountsDecide};
ghost use Rattle.inode_table.specs.Lending.{LendsFileOf};

use crate::inode::{Inode, ROOT};
use io_ports::{NoMemory, Text};
use object_names::NodeKind;
use spare_maps::{NameMap, NumberMap};
use std::alloc::Global;
use std::marker::Model;

/// The most look-ups that a table ever gives, so that no number comes to its end.
const MOST_LOOKUPS: u64 = 1 << 48;

/// The nodes that the kernel knows, each with what is kept of a file. Contracts see the nodes by their numbers, the
/// current node of each name that has one, the number that the next node gets, and the spare, for how many more look-ups
/// there is room. Each call but `new` and `reserve` takes no memory, and time that does not grow with the table, on
/// average.
#[derive(Drop)]
pub struct InodeTable<F> {
    nodes: NumberMap<Inode<F>>,
    current: NameMap,
    next: u64,
    /// How many look-ups were given so far.
    given: u64,
    room: u64,
}

impl<F> Model for InodeTable<F> {
    ghost use Rattle.inode_table.specs.Tables.{TableState, table_code, table_of, IsHeldTable};

    ghost Value = { TableState F };

    ghost coded = { table_code F.code };

    ghost view = { λ t. record { table = table_of t.nodes t.current t.next; spare = t.room } };

    ghost invariant = { λ t. IsHeldTable t.nodes t.current t.next t.given t.room };
}

impl<F: Drop> InodeTable<F> {
    /// A table with the root alone: node 1, a directory with the empty name and no look-ups, which is current of no
    /// name. It has no spare. `NoMemory` where memory for the root was refused.
    pub fn new(alloc: Global) -> Result<InodeTable<F>, NoMemory>
        ensures ok { IfOk result (λ made. made ≡ record { table = first_table; spare = 0 }) }
        ensures counts { OnOk result (CountsDecide F) }
    {
        let mut nodes = NumberMap::new(alloc);
        nodes.reserve(1)?;
        nodes.put(ROOT, Inode::root(alloc)?);
        Ok(InodeTable {
            nodes,
            current: NameMap::new(alloc),
            next: ROOT + 1,
            given: 0,
            room: 0,
        })
    }

    /// Makes room: afterwards the table takes at least `more` further look-ups, each of which may make a node, and never
    /// fewer than before. `NoMemory` where memory for them was refused, or where with them more than 2^48 look-ups would
    /// be given; it comes only where `more` is above the spare.
    pub fn reserve(&mut self, more: u64) -> Result<(), NoMemory>
        ensures ok { OnOk result (more ≤ self.new.spare) }
        ensures err { OnErr result (self.new ≡ self.old) }
        ensures full { OnErr result (self.old.spare < more) }
        ensures spare { self.old.spare ≤ self.new.spare }
        ensures kept { self.new.table ≡ self.old.table }
    {
        if more <= self.room {
            return Ok(());
        }
        if more > MOST_LOOKUPS - self.given {
            return Err(NoMemory);
        }
        self.nodes.reserve(more)?;
        self.current.reserve(more)?;
        self.room = more;
        Ok(())
    }

    /// A new node with one look-up, which becomes the current one of its name, under `again`, the same name. Answers its
    /// number. It takes one of the spare.
    pub fn grant(&mut self, kind: NodeKind, name: Text, again: Text, file: Option<F>) -> u64
        requires spare { 1 ≤ self.old.spare }
        requires again { again ≡ name }
        ensures number { result ≡ self.old.table.next }
        ensures table { self.new.table ≡ granted self.old.table (record { kind = kind; name = name; lookups = 1; file = file }) }
        ensures spare { self.new.spare ≡ self.old.spare - 1 }
    {
        let node = self.next;
        let inode = Inode {
            kind,
            name,
            lookups: 1,
            file,
        };
        self.nodes.put(node, inode);
        self.current.put(again, node);
        self.next += 1;
        self.given += 1;
        self.room -= 1;
        node
    }

    /// One more look-up of a node that is there. It takes one of the spare.
    pub fn look(&mut self, node: u64)
        requires there { IsSome (fin.get self.old.table.nodes node) }
        requires spare { 1 ≤ self.old.spare }
        ensures table { self.new.table ≡ looked self.old.table node }
        ensures spare { self.new.spare ≡ self.old.spare - 1 }
    {
        self.given += 1;
        self.room -= 1;
        let inode = self.nodes.value_mut(node);
        inode.look();
    }

    /// Takes look-ups of a node back, as many as it has at most (FORGET of fuse.h). A node other than the root that has
    /// none left is no longer current. It is dropped, but for a file or symlink that a handle holds, as `held` tells. True
    /// exactly where this call drops it. A node without look-ups stays as it is.
    #[tactic(auto, using(crate::proofs::HeldLaws::put_there))]
    pub fn forget(&mut self, node: u64, count: u64, held: bool) -> bool
        ensures dropped { result ≡ (is_some (fin.get self.old.table.nodes node) && not (is_some (fin.get self.new.table.nodes node))) }
        ensures table { self.new.table ≡ forgotten self.old.table node count held }
        ensures spare { self.new.spare ≡ self.old.spare }
    {
        if node == ROOT {
            return false;
        }
        let Some(inode) = self.nodes.get(node) else {
            return false;
        };
        if inode.lookups == 0 {
            return false;
        }
        if inode.lookups > count {
            let inode = self.nodes.value_mut(node);
            inode.lookups -= count;
            return false;
        }
        leave(&self.nodes, &mut self.current, node);
        drop_unless_held(&mut self.nodes, node, held)
    }

    /// The node of a number, where it is there.
    pub fn get(&self, node: u64) -> Option<&Inode<F>>
        ensures ok { option_copied result ≡ fin.get self.now.table.nodes node }
        ensures valid { IsTable self.now.table }
    {
        self.nodes.get(node)
    }

    /// The current node of a name, where it has one.
    pub fn current(&self, name: &str) -> Option<u64>
        ensures ok { result ≡ fin.get self.now.table.current name.now }
        ensures valid { IsTable self.now.table }
    {
        self.current.get(name)
    }

    /// What is kept of a file or symlink that is there, to write. A directory has none.
    pub fn file_mut(&mut self, node: u64) -> Option<&mut F>
        ensures* writes_back { sem 𝓛 (LendsFileOf F.row self.entry node result) }
        ensures value { option_copied_mut result ≡ file_of self.old.table node }
    {
        if self.nodes.get(node).is_none() {
            return None;
        }
        let inode = self.nodes.value_mut(node);
        inode.file_mut()
    }

    /// Leaves a name without a current node. The node itself stays.
    pub fn detach(&mut self, name: &str)
        ensures table { self.new.table ≡ detached self.old.table name.now }
        ensures spare { self.new.spare ≡ self.old.spare }
    {
        self.current.remove(name);
    }

    /// Makes a node that is live the current one of its name, under `again`, the same name. It takes one of the spare.
    pub fn make_current(&mut self, node: u64, again: Text)
        requires spare { 1 ≤ self.old.spare }
        requires live { IsLiveUnder self.old.table again node }
        ensures table { self.new.table ≡ made_current self.old.table node again }
        ensures spare { self.new.spare ≡ self.old.spare - 1 }
    {
        self.current.put(again, node);
        self.room -= 1;
    }

    /// No handle holds this node any more: where it is not live, it is dropped.
    pub fn let_go(&mut self, node: u64)
        ensures table { self.new.table ≡ spec.let_go self.old.table node }
        ensures spare { self.new.spare ≡ self.old.spare }
    {
        let Some(inode) = self.nodes.get(node) else {
            return;
        };
        if inode.is_live(node) {
            return;
        }
        let _ = self.nodes.remove(node);
    }
}

/// Leaves the name of a node without a current one, where that is this node.
fn leave<F: Drop>(nodes: &NumberMap<Inode<F>>, current: &mut NameMap, node: u64)
    ensures names { current.new.map ≡ option_map_or (λ inode. without_current current.old.map inode.name node) (fin.get nodes.now.map node) current.old.map }
    ensures spare { current.new.spare ≡ current.old.spare }
{
    let Some(inode) = nodes.get(node) else {
        return;
    };
    let name = inode.name.as_str();
    if current.get(name) == Some(node) {
        current.remove(name);
    }
}

/// Drops a node that is there, but for a file or symlink that a handle holds, which is left without look-ups. True where
/// it drops it.
#[tactic(auto, using(crate::proofs::HeldLaws::put_there, crate::proofs::HeldLaws::taken_away))]
fn drop_unless_held<F: Drop>(nodes: &mut NumberMap<Inode<F>>, node: u64, held: bool) -> bool
    ensures dropped { result ≡ (is_some (fin.get nodes.old.map node) && not (is_some (fin.get nodes.new.map node))) }
    ensures nodes { nodes.new.map ≡ option_map_or (spec.left_without nodes.old.map node held) (fin.get nodes.old.map node) nodes.old.map }
    ensures spare { nodes.new.spare ≡ nodes.old.spare }
{
    let Some(inode) = nodes.get(node) else {
        return false;
    };
    if inode.is_kept(held) {
        let inode = nodes.value_mut(node);
        inode.lookups = 0;
        return false;
    }
    let _ = nodes.remove(node);
    true
}
