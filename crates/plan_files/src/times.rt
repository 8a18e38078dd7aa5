//! The time of a file as a pair of its object's metadata, as gcsfuse keeps it.
ghost use Rattle.std.specs.Prelude.{◌≡◌, ◌+◌, ◌++◌, ◌≤◌, length, IfOk, OnOk};
ghost use Rattle.bucket_api.specs.BucketStep.{with_pair};
ghost use Rattle.bucket_api.specs.Metadata.{KeysRise};
ghost use Rattle.mount_rules.specs.Requests.Flush as flush;
ghost use Rattle.plan_files.specs.Errands.{IsTime};

use bucket_api::Pair;
use file_metadata::MTIME_KEY;
use io_ports::{NoMemory, Row, Text};
use std::alloc::Global;
use std::cmp::Ordering;

/// A copy of an object's pairs with this time added, or put in the place of the pair of its key: at most 249,999,999,999
/// seconds since 1970 in UTC, and 999,999,999 nanoseconds past that. Where their keys rise, they still do. `NoMemory` where
/// memory was refused.
pub fn with_time(
    alloc: Global,
    pairs: &Row<Pair>,
    seconds: u64,
    nanos: u32,
) -> Result<Row<Pair>, NoMemory>
    requires { IsTime seconds nanos }
    ensures ok { IfOk result (λ row. row.items ≡ with_pair pairs.now.items (flush.time_pair seconds nanos)) }
    ensures rise { KeysRise pairs.now.items → IfOk result (λ row. KeysRise row.items) }
{
    let time = time_pair(alloc, seconds, nanos)?;
    let pairs = pairs.as_slice();
    let mut row = Row::new(alloc);
    row.reserve(pairs.len() as u64 + 1)?;
    put(alloc, &mut row, pairs, time)?;
    Ok(row)
}

/// The pair of a time.
fn time_pair(alloc: Global, seconds: u64, nanos: u32) -> Result<Pair, NoMemory>
    requires { IsTime seconds nanos }
    ensures ok { IfOk result (λ pair. pair ≡ flush.time_pair seconds nanos) }
{
    Ok(Pair {
        key: Text::of(alloc, MTIME_KEY)?,
        value: mtime_text::print(alloc, seconds, nanos)?,
    })
}

/// Copies pairs behind the others, with one more among them, into the room.
fn put(alloc: Global, row: &mut Row<Pair>, pairs: &[Pair], one: Pair) -> Result<(), NoMemory>
    requires { length pairs.now + 1 ≤ row.old.spare }
    ensures { OnOk result (row.new.items ≡ row.old.items ++ with_pair pairs.now one) }
{
    let mut rest = pairs;
    'pairs: while let Some((pair, later)) = rest.split_first() {
        match one.key.cmp(&pair.key) {
            Ordering::Less => {
                row.push(one);
                return copy_behind(alloc, row, rest);
            }
            Ordering::Equal => {
                row.push(one);
                return copy_behind(alloc, row, later);
            }
            Ordering::Greater => {
                row.push(pair.copy(alloc)?);
                rest = later;
            }
        }
    }
    row.push(one);
    Ok(())
}

/// Copies pairs behind the others, into the room.
fn copy_behind(alloc: Global, row: &mut Row<Pair>, pairs: &[Pair]) -> Result<(), NoMemory>
    requires { length pairs.now ≤ row.old.spare }
    ensures { OnOk result (row.new.items ≡ row.old.items ++ pairs.now) }
{
    for pair in pairs {
        row.push(pair.copy(alloc)?);
    }
    Ok(())
}
