//! The errands of requests that make an object of a name.
ghost use Rattle.std.specs.Prelude.{◌≡◌, ℕ, List, [], ◌∷◌, None, IfOk, true};
ghost use Rattle.std.specs.Str.{is_utf8};
ghost use Rattle.bucket_api.specs.Metadata.{KeysRise};
ghost use Rattle.mount_core.specs.Errands.{keys_of, plan_of, wanted_of, IsErrand};
ghost use Rattle.mount_rules.specs.Making as making;
ghost use Rattle.mount_rules.specs.Requests.Create as create;
ghost use Rattle.mount_rules.specs.Requests.Mkdir as mkdir;
ghost use Rattle.mount_rules.specs.Requests.Symlink as symlink;
ghost use Rattle.mount_rules.specs.Rules.{at_node};
ghost use Rattle.mount_rules.specs.View.{view_of};

use crate::errand::Errand;
use crate::names::path_of;
use bucket_api::Pair;
use file_metadata::TARGET_KEY;
use io_ports::{NoMemory, Row, Text};
use mount_state::Mount;
use object_names::dir_prefix;
use plan_names::NameErrand;
use std::alloc::Global;
use std::str;

/// CREATE and MKNOD: makes an empty object of the path of a name, without metadata.
pub(crate) fn make_file(
    alloc: Global,
    mount: &Mount,
    node: u64,
    name: &[u8],
) -> Result<Errand, NoMemory>
    requires { create.refusal name.now (view_of mount.now.mount (at_node node)) ≡ None }
    ensures wanted { IfOk result (λ errand. wanted_of errand ≡ None) }
    ensures keys { IfOk result (λ errand. keys_of errand ≡ []) }
    ensures plan { IfOk result (λ errand. (content : List ℕ) (second : ℕ) → plan_of errand content second ≡ making.plan (create.path_of name.now (view_of mount.now.mount (at_node node))) [] second) }
    ensures errand { IfOk result IsErrand }
{
    make(alloc, mount, node, name, Row::new(alloc))
}

/// SYMLINK: makes an empty object of the path of a name, with the link's target in its metadata.
pub(crate) fn make_link(
    alloc: Global,
    mount: &Mount,
    node: u64,
    name: &[u8],
    target: &[u8],
) -> Result<Errand, NoMemory>
    requires { symlink.refusal name.now target.now (view_of mount.now.mount (at_node node)) ≡ None }
    ensures wanted { IfOk result (λ errand. wanted_of errand ≡ None) }
    ensures keys { IfOk result (λ errand. keys_of errand ≡ []) }
    ensures plan { IfOk result (λ errand. (content : List ℕ) (second : ℕ) → plan_of errand content second ≡ making.plan (create.path_of name.now (view_of mount.now.mount (at_node node))) (symlink.target_pair target.now ∷ []) second) }
    ensures errand { IfOk result IsErrand }
{
    let pairs = target_pairs(alloc, target)?;
    make(alloc, mount, node, name, pairs)
}

/// MKDIR: makes the placeholder of the directory at the path of a name.
pub(crate) fn make_directory(
    alloc: Global,
    mount: &Mount,
    node: u64,
    name: &[u8],
) -> Result<Errand, NoMemory>
    requires { mkdir.refusal name.now (view_of mount.now.mount (at_node node)) ≡ None }
    ensures wanted { IfOk result (λ errand. wanted_of errand ≡ None) }
    ensures keys { IfOk result (λ errand. keys_of errand ≡ []) }
    ensures plan { IfOk result (λ errand. (content : List ℕ) (second : ℕ) → plan_of errand content second ≡ making.plan (mkdir.prefix_of name.now (view_of mount.now.mount (at_node node))) [] second) }
    ensures errand { IfOk result IsErrand }
{
    let path = path_of(alloc, mount, node, name)?;
    Ok(Errand::Names(NameErrand::Make {
        name: dir_prefix(alloc, path.as_str())?,
        pairs: Row::new(alloc),
    }))
}

/// An empty object of the path of a name is made, with these pairs as its metadata.
fn make(
    alloc: Global,
    mount: &Mount,
    node: u64,
    name: &[u8],
    pairs: Row<Pair>,
) -> Result<Errand, NoMemory>
    requires free { create.refusal name.now (view_of mount.now.mount (at_node node)) ≡ None }
    requires ordered { KeysRise pairs.items }
    ensures wanted { IfOk result (λ errand. wanted_of errand ≡ None) }
    ensures keys { IfOk result (λ errand. keys_of errand ≡ []) }
    ensures plan { IfOk result (λ errand. (content : List ℕ) (second : ℕ) → plan_of errand content second ≡ making.plan (create.path_of name.now (view_of mount.now.mount (at_node node))) pairs.items second) }
    ensures errand { IfOk result IsErrand }
{
    let name = path_of(alloc, mount, node, name)?;
    Ok(Errand::Names(NameErrand::Make { name, pairs }))
}

/// The metadata of a symlink: the pair of its target, as gcsfuse keeps it.
fn target_pairs(alloc: Global, target: &[u8]) -> Result<Row<Pair>, NoMemory>
    requires { is_utf8 target.now ≡ true }
    ensures ok { IfOk result (λ pairs. pairs.items ≡ symlink.target_pair target.now ∷ []) }
    ensures ordered { IfOk result (λ pairs. KeysRise pairs.items) }
{
    let Ok(target) = str::from_utf8(target) else {
        unreachable!();
    };
    let mut pairs = Row::new(alloc);
    pairs.reserve(1)?;
    pairs.push(Pair {
        key: Text::of(alloc, TARGET_KEY)?,
        value: Text::of(alloc, target)?,
    });
    Ok(pairs)
}
