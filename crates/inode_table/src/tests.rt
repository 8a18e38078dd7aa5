//! How the table is called, and what no clause says of it: that memory for a spare is there, and that many nodes come
//! and go at a cost that does not grow with them.
ghost use Rattle.std.specs.Prelude.{◌≡◌, if◌then◌else◌, is_some};
ghost use Rattle.inode_spec.specs.Inodes.{file_of, with_file};

use crate::InodeTable;
use io_ports::{NoMemory, Text};
use object_names::NodeKind;
use std::alloc::{AllocGlobal, Global};
use std::process::Abort;
use std::test::Fail;

/// A new node of this name. A file keeps the number 7.
fn show(
    table: &mut InodeTable<u64>,
    alloc: Global,
    kind: NodeKind,
    name: &str,
) -> Result<u64, NoMemory> {
    table.reserve(1)?;
    let again = Text::of(alloc, name)?;
    let name = Text::of(alloc, name)?;
    let file = if kind == NodeKind::Dir { None } else { Some(7) };
    Ok(table.grant(kind, name, again, file))
}

/// One more look-up of a node, where it is there.
fn look(table: &mut InodeTable<u64>, node: u64) -> Result<bool, NoMemory> {
    table.reserve(1)?;
    let Some(_) = table.get(node) else {
        return Ok(false);
    };
    table.look(node);
    Ok(true)
}

/// Makes a node current again, where it is live.
fn promote(table: &mut InodeTable<u64>, alloc: Global, node: u64) -> Result<bool, NoMemory> {
    table.reserve(1)?;
    let Some(inode) = table.get(node) else {
        return Ok(false);
    };
    if inode.lookups == 0 {
        return Ok(false);
    }
    let again = inode.name.copy(alloc)?;
    table.make_current(node, again);
    Ok(true)
}

/// Keeps another number of a file, where it is there.
fn keep(table: &mut InodeTable<u64>, node: u64, number: u64)
    ensures table { table.new.table ≡ (if is_some (file_of table.old.table node) then with_file table.old.table node number else table.old.table) }
    ensures spare { table.new.spare ≡ table.old.spare }
{
    if let Some(file) = table.file_mut(node) {
        *file = number;
    }
}

/// A file has this many look-ups, and keeps this number.
fn has_file<R: Abort>(table: &InodeTable<u64>, rt: &R, node: u64, lookups: u64, kept: u64) {
    let found = table.get(node);
    assert_eq!(rt; found.map(|inode| inode.lookups), Some(lookups));
    assert_eq!(rt; found.and_then(|inode| inode.file), Some(kept));
}

/// Takes look-ups of a file back that has more.
fn gives_back<R: Abort>(table: &mut InodeTable<u64>, rt: &R, node: u64, count: u64, left: u64) {
    assert!(rt; !table.forget(node, count, false));
    has_file(table, rt, node, left, 7);
}

/// Takes all look-ups of a node back, which goes.
fn goes<R: Abort>(table: &mut InodeTable<u64>, rt: &R, node: u64, count: u64, held: bool) {
    assert!(rt; table.forget(node, count, held));
    assert!(rt; !table.forget(node, count, held));
    assert!(rt; table.get(node).is_none());
}

fn look_ups_are_counted<R: Abort + AllocGlobal>(
    table: &mut InodeTable<u64>,
    rt: &R,
) -> Result<(), NoMemory> {
    assert_eq!(rt; show(table, rt.alloc(), NodeKind::File, "f")?, 2);
    assert!(rt; look(table, 2)?);
    assert!(rt; look(table, 2)?);
    gives_back(table, rt, 2, 2, 1);
    goes(table, rt, 2, 1, false);
    assert_eq!(rt; table.current("f"), None);
    assert!(rt; !look(table, 2)?);
    assert_eq!(rt; show(table, rt.alloc(), NodeKind::File, "f")?, 3);
    goes(table, rt, 3, u64::MAX, false);
    assert!(rt; !table.forget(1, 9, false));
    assert!(rt; table.get(1).is_some());
    Ok(())
}

#[test]
fn a_node_lives_while_it_is_looked_up(rt: HostRuntime) -> Result<(), Fail> {
    let mut table = InodeTable::new(rt.alloc())?;
    look_ups_are_counted(&mut table, &rt)?;
    Ok(())
}

fn held_nodes_stay<R: Abort + AllocGlobal>(
    table: &mut InodeTable<u64>,
    rt: &R,
) -> Result<(), NoMemory> {
    show(table, rt.alloc(), NodeKind::File, "f")?;
    table.let_go(2);
    assert!(rt; !table.forget(2, 1, true));
    has_file(table, rt, 2, 0, 7);
    assert_eq!(rt; table.current("f"), None);
    assert!(rt; !promote(table, rt.alloc(), 2)?);
    gives_back(table, rt, 2, 1, 0);
    table.let_go(2);
    assert!(rt; table.get(2).is_none());
    show(table, rt.alloc(), NodeKind::Dir, "d/")?;
    goes(table, rt, 3, 1, true);
    Ok(())
}

#[test]
fn a_file_stays_while_a_handle_holds_it(rt: HostRuntime) -> Result<(), Fail> {
    let mut table = InodeTable::new(rt.alloc())?;
    held_nodes_stay(&mut table, &rt)?;
    Ok(())
}

fn current_nodes_change<R: Abort + AllocGlobal>(
    table: &mut InodeTable<u64>,
    rt: &R,
) -> Result<(), NoMemory> {
    show(table, rt.alloc(), NodeKind::File, "f")?;
    show(table, rt.alloc(), NodeKind::File, "f")?;
    assert_eq!(rt; table.current("f"), Some(3));
    assert!(rt; promote(table, rt.alloc(), 2)?);
    assert_eq!(rt; table.current("f"), Some(2));
    goes(table, rt, 3, 1, false);
    assert_eq!(rt; table.current("f"), Some(2));
    table.detach("f");
    assert_eq!(rt; table.current("f"), None);
    has_file(table, rt, 2, 1, 7);
    Ok(())
}

#[test]
fn an_older_node_becomes_current_again(rt: HostRuntime) -> Result<(), Fail> {
    let mut table = InodeTable::new(rt.alloc())?;
    current_nodes_change(&mut table, &rt)?;
    Ok(())
}

fn kept_numbers_change<R: Abort + AllocGlobal>(
    table: &mut InodeTable<u64>,
    rt: &R,
) -> Result<(), NoMemory> {
    show(table, rt.alloc(), NodeKind::File, "f")?;
    show(table, rt.alloc(), NodeKind::File, "g")?;
    keep(table, 2, 8);
    keep(table, 1, 9);
    has_file(table, rt, 2, 1, 8);
    has_file(table, rt, 3, 1, 7);
    assert!(rt; table.file_mut(1).is_none());
    assert!(rt; table.reserve(1 << 49).is_err());
    Ok(())
}

#[test]
fn what_is_kept_of_a_file_is_written_in_place(rt: HostRuntime) -> Result<(), Fail> {
    let mut table = InodeTable::new(rt.alloc())?;
    kept_numbers_change(&mut table, &rt)?;
    Ok(())
}

/// Shows so many files, each of a name of its own.
fn show_many(table: &mut InodeTable<u64>, alloc: Global, count: u64) -> Result<(), NoMemory> {
    for turn in 0..count {
        let name = format!(in alloc; "f{turn}")?;
        show(table, alloc, NodeKind::File, name.as_str())?;
    }
    Ok(())
}

/// Forgets all of so many nodes, in another order than that of their numbers.
fn forget_all(table: &mut InodeTable<u64>, count: u64) -> u64 {
    let mut dropped = 0u64;
    for turn in 0..count {
        let node = 2 + (turn % 1000) * 100 + turn / 1000;
        if table.forget(node, u64::MAX, false) {
            dropped = dropped.saturating_add(1);
        }
    }
    dropped
}

#[test]
fn many_nodes_come_and_go(rt: HostRuntime) -> Result<(), Fail> {
    let mut table = InodeTable::new(rt.alloc())?;
    show_many(&mut table, rt.alloc(), 100_000)?;
    assert_eq!(rt; table.current("f99999"), Some(100_001));
    assert_eq!(rt; forget_all(&mut table, 100_000), 100_000);
    Ok(())
}
