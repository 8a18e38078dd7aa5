//! Tests of the table: worked examples, ends of ranges, and that it may go to another thread.
use crate::{Learned, Shown, StatRecords};
use bucket_api::Meta;
use io_ports::{NoMemory, Row, Text};
use std::alloc::Global;
use std::marker::Send;
use std::test::Fail;

/// Learns at a tick that a key is absent.
fn learn(list: &mut StatRecords, alloc: Global, key: &str, moment: u64, tick: u64) -> Learned {
    let Ok(key) = Text::of(alloc, key) else {
        return Learned::NoMemory;
    };
    list.learn(&key, moment, tick, Shown::Absent)
}

/// What a bucket tells of an object of so many bytes.
fn object(alloc: Global, size: u64) -> Result<Shown, NoMemory> {
    Ok(Shown::Object(Meta {
        name: Text::of(alloc, "f")?,
        generation: 3,
        metageneration: 2,
        size,
        updated: 7,
        pairs: Row::new(alloc),
    }))
}

/// The size of the object that is found.
fn size_found(list: &mut StatRecords, key: &str) -> Option<u64> {
    match list.find(key, 0, 10) {
        Some((_, Shown::Object(meta))) => Some(meta.size),
        _ => None,
    }
}

/// The moment of the record that is found.
fn found(list: &mut StatRecords, key: &str, now: u64, lifetime: u64) -> Option<u64> {
    let Some((moment, _)) = list.find(key, now, lifetime) else {
        return None;
    };
    Some(moment)
}

/// The moment of the record that a key has, whatever its tick.
fn at(list: &StatRecords, key: &str) -> Option<u64> {
    let Some((moment, _)) = list.peek(key, 0, 1) else {
        return None;
    };
    Some(moment)
}

/// What may go to another thread comes back.
fn crossed<T: Send>(value: T) -> T {
    value
}

#[test]
fn an_older_observation_is_not_revived(rt: HostRuntime) -> Result<(), Fail> {
    let mut list = StatRecords::new(rt.alloc(), 1)?;
    assert_eq!(rt; learn(&mut list, rt.alloc(), "f", 7, 0), Learned::Kept);
    assert_eq!(rt; learn(&mut list, rt.alloc(), "g", 8, 0), Learned::Kept);
    assert_eq!(rt; list.low(), 7);
    assert_eq!(rt; learn(&mut list, rt.alloc(), "f", 5, 0), Learned::Behind);
    assert_eq!(rt; found(&mut list, "f", 0, 10), None);
    list.own_write("g", 9, false);
    assert_eq!(rt; list.low(), 9);
    assert_eq!(rt; found(&mut list, "g", 0, 10), None);
    assert_eq!(rt; learn(&mut list, rt.alloc(), "g", 8, 0), Learned::Behind);
    Ok(())
}

#[test]
fn an_object_is_found_as_it_was_shown(rt: HostRuntime) -> Result<(), Fail> {
    let mut list = StatRecords::new(rt.alloc(), 2)?;
    let file = Text::of(rt.alloc(), "f")?;
    let shown = object(rt.alloc(), 5)?;
    assert_eq!(rt; list.learn(&file, 4, 0, shown), Learned::Kept);
    let directory = Text::of(rt.alloc(), "f/")?;
    let present = Shown::Present;
    assert_eq!(rt; list.learn(&directory, 5, 0, present), Learned::Kept);
    assert_eq!(rt; size_found(&mut list, "f"), Some(5));
    assert_eq!(rt; size_found(&mut list, "f/"), None);
    assert_eq!(rt; found(&mut list, "f/", 0, 10), Some(5));
    Ok(())
}

#[test]
fn a_record_ends_with_its_lifetime(rt: HostRuntime) -> Result<(), Fail> {
    let mut list = StatRecords::new(rt.alloc(), 65_536)?;
    learn(&mut list, rt.alloc(), "f", 1, 0);
    assert_eq!(rt; found(&mut list, "f", 9, 10), Some(1));
    assert_eq!(rt; found(&mut list, "f", 10, 10), None);
    assert_eq!(rt; found(&mut list, "f", 0, 0), None);
    learn(&mut list, rt.alloc(), "g", 2, u64::MAX);
    assert_eq!(rt; found(&mut list, "g", u64::MAX, 1), Some(2));
    assert_eq!(rt; found(&mut list, "g", u64::MAX, 0), None);
    Ok(())
}

// Two stats of `f` in flight at once: the later one is done first, and its record has gone for one of `g` by the time
// the earlier one is done.
#[test]
fn a_stat_that_was_overtaken_is_not_kept(rt: HostRuntime) -> Result<(), Fail> {
    let mut list = StatRecords::new(rt.alloc(), 1)?;
    learn(&mut list, rt.alloc(), "g", 4, 0);
    assert_eq!(rt; learn(&mut list, rt.alloc(), "f", 7, 0), Learned::Kept);
    assert_eq!(rt; learn(&mut list, rt.alloc(), "g", 8, 0), Learned::Kept);
    assert_eq!(rt; list.low(), 7);
    assert_eq!(rt; learn(&mut list, rt.alloc(), "f", 5, 0), Learned::Behind);
    assert_eq!(rt; at(&list, "f"), None);
    assert_eq!(rt; at(&list, "g"), Some(8));
    Ok(())
}

#[test]
fn the_record_used_longest_ago_goes(rt: HostRuntime) -> Result<(), Fail> {
    let mut list = StatRecords::new(rt.alloc(), 2)?;
    learn(&mut list, rt.alloc(), "f", 1, 0);
    learn(&mut list, rt.alloc(), "g", 2, 0);
    assert_eq!(rt; found(&mut list, "f", 0, 1), Some(1));
    learn(&mut list, rt.alloc(), "h", 3, 0);
    assert_eq!(rt; at(&list, "g"), None);
    assert_eq!(rt; at(&list, "f"), Some(1));
    assert_eq!(rt; list.low(), 2);
    Ok(())
}

#[test]
fn an_older_record_is_replaced_and_a_newer_one_stays(rt: HostRuntime) -> Result<(), Fail> {
    let mut list = StatRecords::new(rt.alloc(), 4)?;
    assert_eq!(rt; learn(&mut list, rt.alloc(), "f", 4, 0), Learned::Kept);
    assert_eq!(rt; learn(&mut list, rt.alloc(), "f", 3, 0), Learned::Behind);
    assert_eq!(rt; learn(&mut list, rt.alloc(), "f", 4, 5), Learned::Kept);
    assert_eq!(rt; learn(&mut list, rt.alloc(), "f", 6, 0), Learned::Kept);
    assert_eq!(rt; list.low(), 0);
    list.own_write("g", 9, false);
    assert_eq!(rt; learn(&mut list, rt.alloc(), "f", 8, 0), Learned::Behind);
    assert_eq!(rt; at(&list, "f"), None);
    assert_eq!(rt; learn(&mut list, rt.alloc(), "f", 9, 0), Learned::Kept);
    Ok(())
}

#[test]
fn a_write_reaches_the_directories_of_its_name(rt: HostRuntime) -> Result<(), Fail> {
    let mut list = StatRecords::new(rt.alloc(), 8)?;
    learn(&mut list, rt.alloc(), "a/", 5, 0);
    learn(&mut list, rt.alloc(), "a/b/", 6, 0);
    learn(&mut list, rt.alloc(), "a", 7, 0);
    learn(&mut list, rt.alloc(), "a/b/c", 9, 0);
    list.own_write("a/b/c", 8, false);
    assert_eq!(rt; at(&list, "a/b/c"), None);
    assert_eq!(rt; list.low(), 9);
    assert_eq!(rt; at(&list, "a/b/"), Some(6));
    list.own_write("a/b/c", 8, true);
    assert_eq!(rt; at(&list, "a/b/"), None);
    assert_eq!(rt; at(&list, "a/"), None);
    assert_eq!(rt; at(&list, "a"), Some(7));
    Ok(())
}

#[test]
fn a_table_goes_to_another_thread(rt: HostRuntime) -> Result<(), Fail> {
    let list = crossed(StatRecords::new(rt.alloc(), 1)?);
    assert_eq!(rt; list.low(), 0);
    Ok(())
}
