//! Tests of the table: pairs of claims on one key, names beside nodes, claims after a drop, many calls, and much room.
ghost use Rattle.std.specs.Prelude.{◌≡◌, ◌<◌, ◌≤◌, ◌+◌, ◌*◌, ◌^◌, [], ◌∷◌, length, IfOk};

use crate::{Claim, ClaimKey, Claims};
use io_ports::{NoMemory, Row, Text};
use std::alloc::Global;
use std::process::Abort;
use std::test::Fail;

/// A row with one claim.
fn one(alloc: Global, key: ClaimKey, exclusive: bool) -> Result<Row<Claim>, NoMemory>
    ensures { IfOk result (λ row. row.items ≡ (record { key = key; exclusive = exclusive }) ∷ []) }
{
    let mut row = Row::new(alloc);
    row.reserve(1)?;
    row.push(Claim { key, exclusive });
    Ok(row)
}

/// Claims a node alone. Whether that was granted.
fn try_node(
    alloc: Global,
    table: &mut Claims,
    number: u64,
    exclusive: bool,
) -> Result<bool, NoMemory>
    requires { table.old.next < 2 ^ 61 }
    ensures { table.new.next ≤ table.old.next + 2 }
{
    table.reserve(1)?;
    let wanted = one(alloc, ClaimKey::Node(number), exclusive)?;
    Ok(table.try_claim(wanted).is_ok())
}

/// Claims a name alone. Whether that was granted.
fn try_name(
    alloc: Global,
    table: &mut Claims,
    text: &str,
    exclusive: bool,
) -> Result<bool, NoMemory>
    requires short { length text.now ≤ 1024 }
    requires next { table.old.next < 2 ^ 61 }
    ensures { table.new.next ≤ table.old.next + 2 }
{
    table.reserve(1)?;
    let name = Text::of(alloc, text)?;
    let wanted = one(alloc, ClaimKey::Name(name), exclusive)?;
    Ok(table.try_claim(wanted).is_ok())
}

/// Claims a name alone, and drops it. Whether it was granted.
fn pass_name(
    alloc: Global,
    table: &mut Claims,
    text: &str,
    exclusive: bool,
) -> Result<bool, NoMemory>
    requires short { length text.now ≤ 1024 }
    requires next { table.old.next < 2 ^ 61 }
    ensures { table.new.next ≤ table.old.next + 2 }
{
    table.reserve(1)?;
    let name = Text::of(alloc, text)?;
    let wanted = one(alloc, ClaimKey::Name(name), exclusive)?;
    let Ok(number) = table.try_claim(wanted) else {
        return Ok(false);
    };
    table.drop_claim(number);
    Ok(true)
}

/// Whether one node may be claimed twice.
fn both(alloc: Global, table: &mut Claims, first: bool, second: bool) -> Result<bool, NoMemory>
    requires { table.old.next < 100 }
{
    if !try_node(alloc, table, 7, first)? {
        return Ok(false);
    }
    try_node(alloc, table, 7, second)
}

#[test]
fn claims_on_one_node_conflict_where_either_is_exclusive(rt: HostRuntime) -> Result<(), Fail> {
    for (first, second, free) in [
        (false, false, true),
        (false, true, false),
        (true, false, false),
        (true, true, false),
    ] {
        let mut table = Claims::new(rt.alloc());
        assert_eq!(rt; both(rt.alloc(), &mut table, first, second)?, free);
    }
    Ok(())
}

/// Claims a node and names that look like it.
fn names_and_nodes(rt: &impl Abort, alloc: Global, table: &mut Claims) -> Result<(), NoMemory>
    requires { table.old.next < 100 }
{
    assert!(rt; try_node(alloc, table, 7, true)?);
    assert!(rt; try_name(alloc, table, "7", true)?);
    assert!(rt; try_name(alloc, table, "7/", true)?);
    assert!(rt; !try_name(alloc, table, "7", false)?);
    Ok(())
}

#[test]
fn a_name_is_no_node_and_no_other_name(rt: HostRuntime) -> Result<(), Fail> {
    let mut table = Claims::new(rt.alloc());
    names_and_nodes(&rt, rt.alloc(), &mut table)?;
    Ok(())
}

/// Claims a name over and over, dropping it between.
fn names_in_turn(rt: &impl Abort, alloc: Global, table: &mut Claims) -> Result<(), NoMemory>
    requires { table.old.next < 100 }
{
    assert!(rt; pass_name(alloc, table, "d/", true)?);
    assert!(rt; try_name(alloc, table, "d/", false)?);
    assert!(rt; pass_name(alloc, table, "d/", false)?);
    assert!(rt; !try_name(alloc, table, "d/", true)?);
    Ok(())
}

#[test]
fn what_was_dropped_may_be_claimed_again(rt: HostRuntime) -> Result<(), Fail> {
    let mut table = Claims::new(rt.alloc());
    names_in_turn(&rt, rt.alloc(), &mut table)?;
    Ok(())
}

/// Claims so many nodes, one by one. How many were granted.
fn hold_many(alloc: Global, table: &mut Claims, count: u64) -> Result<u64, NoMemory>
    requires count { count ≤ 1000 }
    requires next { table.old.next ≡ 0 }
    ensures { table.new.next ≤ 2 * count }
{
    let mut held = 0;
    for number in 0..count {
        if try_node(alloc, table, number, true)? {
            held += 1;
        }
    }
    Ok(held)
}

#[test]
fn a_thousand_calls_hold_their_own(rt: HostRuntime) -> Result<(), Fail> {
    let mut table = Claims::new(rt.alloc());
    assert_eq!(rt; hold_many(rt.alloc(), &mut table, 1000)?, 1000);
    assert!(rt; !try_node(rt.alloc(), &mut table, 500, false)?);
    Ok(())
}

#[test]
fn room_is_made_for_many_claims_at_once(rt: HostRuntime) -> Result<(), Fail> {
    let mut table = Claims::new(rt.alloc());
    table.reserve(1_000)?;
    table.reserve(10)?;
    assert!(rt; table.reserve(u64::MAX).is_err());
    Ok(())
}

/// Takes what may go to another thread.
fn hand_over<T: Send + Drop>(_value: T) {}

#[test]
fn the_table_goes_to_another_thread(rt: HostRuntime) {
    hand_over(Claims::new(rt.alloc()));
}
