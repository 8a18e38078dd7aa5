//! Where a page begins.
ghost use Rattle.std.specs.Prelude.{◌≡◌, Bool, false, nat_eq, IfOk, Some, option_copied};
ghost use Rattle.std.specs.List.{starts_with};
ghost use Rattle.bucket_list.specs.Start.{StartsAfter};

use crate::slash::{after_prefix, before_slash, joined};
use io_ports::{NoMemory, Text};
use std::alloc::Global;
use std::cmp::Ordering;
use std::ops::Bound;

/// The bound from which the names are met whose keys stand after the one asked. Where that one stands
/// under a key that ends at a slash, the names begin past all that stand under it: `0` is the byte
/// after `/`.
pub(crate) fn start(
    alloc: Global,
    prefix: &str,
    slash: bool,
    after: Option<&str>,
) -> Result<Bound<Text>, NoMemory>
    ensures ok { IfOk result (StartsAfter prefix.now slash (option_copied after.entry)) }
{
    let Some(after) = after else {
        return Ok(Bound::Included(Text::of(alloc, prefix)?));
    };
    let Some(rest) = after_prefix(after, prefix) else {
        return outside(alloc, prefix, after);
    };
    match before_slash(rest, slash) {
        Some(part) => Ok(Bound::Included(joined(alloc, prefix, part, "0")?)),
        None => Ok(Bound::Excluded(Text::of(alloc, after)?)),
    }
}

fn outside(alloc: Global, prefix: &str, after: &str) -> Result<Bound<Text>, NoMemory>
    requires { starts_with nat_eq after.now prefix.now ≡ false }
    ensures ok { IfOk result (λ bound. (slash : Bool) → StartsAfter prefix.now slash (Some after.now) bound) }
{
    match after.cmp(prefix) {
        Ordering::Less => Ok(Bound::Included(Text::of(alloc, prefix)?)),
        _ => Ok(Bound::Excluded(Text::of(alloc, after)?)),
    }
}
