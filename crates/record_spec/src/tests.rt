//! A test that what was shown is copied.
use crate::Shown;
use bucket_api::{Meta, Pair};
use io_ports::{NoMemory, Row, Text};
use std::alloc::Global;
use std::test::Fail;

/// What a bucket tells of an object with one pair.
fn object(alloc: Global) -> Result<Shown, NoMemory> {
    let pair = Pair {
        key: Text::of(alloc, "k")?,
        value: Text::of(alloc, "v")?,
    };
    let mut pairs = Row::new(alloc);
    pairs.reserve(1)?;
    pairs.push(pair);
    Ok(Shown::Object(Meta {
        name: Text::of(alloc, "f")?,
        generation: 3,
        metageneration: 2,
        size: 5,
        updated: 7,
        pairs,
    }))
}

/// The numbers that are shown of an object.
fn numbers(shown: &Shown) -> Option<[u64; 4]> {
    match shown {
        Shown::Object(meta) => {
            Some([
                meta.generation,
                meta.metageneration,
                meta.size,
                meta.updated,
            ])
        }
        _ => None,
    }
}

#[test]
fn what_was_shown_is_copied(rt: HostRuntime) -> Result<(), Fail> {
    let copy = object(rt.alloc())?.copy(rt.alloc())?;
    assert_eq!(rt; numbers(&copy), Some([3, 2, 5, 7]));
    assert!(rt; matches!(Shown::Absent.copy(rt.alloc())?, Shown::Absent));
    assert!(rt; matches!(Shown::Present.copy(rt.alloc())?, Shown::Present));
    Ok(())
}
