//! Pairs added to pairs.
ghost use Rattle.std.specs.Prelude.{◌≡◌, ◌++◌, ◌∷◌, [], IfOk, OnOk};
ghost use Rattle.bucket_api.specs.Metadata.{KeysRise};
ghost use Rattle.bucket_api.specs.BucketStep.{with_pairs};

use bucket_api::Pair;
use io_ports::{NoMemory, Row};
use std::alloc::Global;
use std::cmp::Ordering;

/// The present pairs with each of the others added or put in its place, in one pass over both.
pub(crate) fn merged(
    alloc: Global,
    present: &Row<Pair>,
    added: &Row<Pair>,
) -> Result<Row<Pair>, NoMemory>
    requires { KeysRise added.now.items }
    ensures ok { IfOk result (λ pairs. pairs.items ≡ with_pairs present.now.items added.now.items) }
{
    let mut pairs = Row::new(alloc);
    let mut old = present.as_slice();
    let mut new = added.as_slice();
    loop {
        let Some((kept, later)) = old.split_first() else {
            push_copies(alloc, &mut pairs, new)?;
            return Ok(pairs);
        };
        let Some((put, others)) = new.split_first() else {
            push_copies(alloc, &mut pairs, old)?;
            return Ok(pairs);
        };
        match kept.key.cmp(&put.key) {
            Ordering::Less => {
                push_copy(alloc, &mut pairs, kept)?;
                old = later;
            }
            Ordering::Equal => {
                push_copy(alloc, &mut pairs, put)?;
                old = later;
                new = others;
            }
            Ordering::Greater => {
                push_copy(alloc, &mut pairs, put)?;
                new = others;
            }
        }
    }
}

fn push_copies(alloc: Global, pairs: &mut Row<Pair>, more: &[Pair]) -> Result<(), NoMemory>
    ensures ok { OnOk result (pairs.new.items ≡ pairs.old.items ++ more.now) }
{
    for pair in more {
        push_copy(alloc, pairs, pair)?;
    }
    Ok(())
}

fn push_copy(alloc: Global, pairs: &mut Row<Pair>, pair: &Pair) -> Result<(), NoMemory>
    ensures ok { OnOk result (pairs.new.items ≡ pairs.old.items ++ pair.now ∷ []) }
{
    let copy = pair.copy(alloc)?;
    pairs.reserve(1)?;
    pairs.push(copy);
    Ok(())
}
