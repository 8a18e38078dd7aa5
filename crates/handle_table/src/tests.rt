//! Handles that are opened and released, few and many.
ghost use Rattle.std.specs.Prelude.{◌≡◌, ◌<◌, ◌+◌, ◌^◌, OnOk};

use crate::HandleTable;
use io_ports::{NoMemory, Row};
use std::test::Fail;

/// A file is opened, for which room is made.
fn open_one(table: &mut HandleTable, node: u64) -> Result<u64, NoMemory>
    requires { table.old.next < 2 ^ 61 }
    ensures { OnOk result (table.new.next ≡ table.old.next + 1) }
{
    table.reserve(1)?;
    Ok(table.open_file(node))
}

/// A file is opened so many times.
fn open_often(table: &mut HandleTable, count: u64) -> Result<(), NoMemory>
    requires { table.old.next + count < 2 ^ 61 }
{
    for turn in 0..count {
        open_one(table, 5)?;
    }
    Ok(())
}

/// Releases the handles of the numbers 1 to `count`, and answers how many were open.
fn release_all(table: &mut HandleTable, count: u64) -> u64 {
    let mut released = 0u64;
    for turn in 0..count {
        if table.release(turn + 1) {
            released = released.saturating_add(1);
        }
    }
    released
}

#[test]
fn a_node_is_held_by_many_handles(rt: HostRuntime) -> Result<(), Fail> {
    let mut table = HandleTable::new(rt.alloc());
    open_often(&mut table, 3_000)?;
    assert_eq!(rt; release_all(&mut table, 2_999), 2_999);
    assert!(rt; table.held(5));
    assert!(rt; table.release(3_000));
    assert!(rt; !table.held(5));
    Ok(())
}

#[test]
fn handles_hold_their_nodes(rt: HostRuntime) -> Result<(), Fail> {
    let mut table = HandleTable::new(rt.alloc());
    table.reserve(3)?;
    let file = table.open_file(5);
    let again = table.open_file(5);
    let dir = table.open_dir(1, Row::new(rt.alloc()));
    assert_eq!(rt; file, 1);
    assert_eq!(rt; again, 2);
    assert_eq!(rt; dir, 3);
    assert_eq!(rt;
        table.get(dir).map(|handle| handle.items.is_some()),
        Some(true)
    );
    assert_eq!(rt;
        table.get(file).map(|handle| handle.items.is_some()),
        Some(false)
    );
    assert!(rt; table.release(file));
    assert!(rt; !table.release(file));
    assert!(rt; table.held(5));
    assert!(rt; table.release(again));
    assert!(rt; !table.held(5));
    assert!(rt; table.held(1));
    assert!(rt; table.get(again).is_none());
    Ok(())
}
