//! What an object is, by its custom metadata.
ghost use Rattle.std.specs.Prelude.{◌≡◌};
ghost use Rattle.std.specs.List.{find};
ghost use Rattle.std.specs.Option.{option_copied};
ghost use Rattle.dir_listing.specs.Kinds as kinds;

use bucket_api::{Meta, Pair};
use file_metadata::TARGET_KEY;
use object_names::NodeKind;

/// What an object is whose name does not end in a slash: a symlink where its metadata has a target, and else a file.
pub fn node_kind(meta: &Meta) -> NodeKind
    ensures { result ≡ kinds.node_kind meta.now }
{
    if has_target(meta.pairs.as_slice()) {
        return NodeKind::Symlink;
    }
    NodeKind::File
}

/// The pair with a symlink's target, where the object is one.
pub fn target_pair(meta: &Meta) -> Option<&Pair>
    ensures { option_copied result ≡ find kinds.is_target meta.now.pairs }
{
    first_target(meta.pairs.as_slice())
}

/// Whether a symlink's target is among these pairs.
pub(crate) fn has_target(pairs: &[Pair]) -> bool
    ensures { result ≡ kinds.has_target pairs.now }
{
    pairs.iter().any(|pair| pair.key.as_str() == TARGET_KEY)
}

/// The first of these pairs that holds a symlink's target.
fn first_target(pairs: &[Pair]) -> Option<&Pair>
    ensures { option_copied result ≡ find kinds.is_target pairs.now }
{
    pairs.iter().find(|pair| pair.key.as_str() == TARGET_KEY)
}
