//! What no clause says of the maps: that memory for a spare is there.
use crate::{NameMap, NumberMap};
use io_ports::Text;
use std::test::Fail;

#[test]
fn numbers_are_put_into_the_spare(rt: HostRuntime) -> Result<(), Fail> {
    let mut map = NumberMap::new(rt.alloc());
    map.reserve(2)?;
    map.put(7, 70u64);
    map.put(9, 90);
    assert_eq!(rt; map.get(7).copied(), Some(70));
    assert_eq!(rt; map.get(8).copied(), None);
    assert_eq!(rt; map.remove(7), Some(70));
    assert_eq!(rt; map.remove(7), None);
    assert_eq!(rt; map.get(9).copied(), Some(90));
    Ok(())
}

#[test]
fn names_are_put_into_the_spare(rt: HostRuntime) -> Result<(), Fail> {
    let mut map = NameMap::new(rt.alloc());
    map.reserve(2)?;
    map.put(Text::of(rt.alloc(), "a")?, 1);
    map.put(Text::of(rt.alloc(), "a")?, 2);
    assert_eq!(rt; map.get("a"), Some(2));
    assert_eq!(rt; map.get("b"), None);
    assert_eq!(rt; map.remove("a"), Some(2));
    assert_eq!(rt; map.get("a"), None);
    Ok(())
}
