//! The errands of a look-up and of a listing, and the paths of names.
ghost use Rattle.std.specs.Prelude.{◌≡◌, ◌≤◌, ◌∷◌, ℕ, List, [], None, IfOk, IfSome};
ghost use Rattle.bucket_api.specs.declared.answers.Answer.{Answer};
ghost use Rattle.mount_core.specs.Errands.{keys_of, plan_of, wanted_of, HoldsEntries, IsErrand};
ghost use Rattle.mount_rules.specs.Guards as guards;
ghost use Rattle.mount_rules.specs.Requests.Lookup as lookup;
ghost use Rattle.mount_rules.specs.Requests.Opendir as opendir;
ghost use Rattle.mount_rules.specs.Rules.{at_node};
ghost use Rattle.mount_rules.specs.View.{sight_at, view_of};
ghost use Rattle.object_names.specs.Paths.{dir_prefix_of, has_suffix, IsPath};
ghost use Rattle.object_names.specs.declared.shown.DirItem.{DirItem};

use crate::errand::Errand;
use io_ports::{NoMemory, Text};
use mount_model::Config;
use mount_state::Mount;
use object_names::{component_text, strip_suffix};
use plan_names::NameErrand;
use std::alloc::Global;

/// LOOKUP: looks the path of a name up, its suffix left out.
pub(crate) fn look_up(
    alloc: Global,
    config: &Config,
    mount: &Mount,
    node: u64,
    name: &[u8],
) -> Result<Errand, NoMemory>
    requires { lookup.refusal name.now (view_of mount.now.mount (at_node node)) ≡ None }
    ensures wanted { IfOk result (λ errand. wanted_of errand ≡ None) }
    ensures keys { IfOk result (λ errand. keys_of errand ≡ dir_prefix_of (lookup.path_of name.now (view_of mount.now.mount (at_node node))) ∷ lookup.path_of name.now (view_of mount.now.mount (at_node node)) ∷ []) }
    ensures plan { IfOk result (λ errand. (content : List ℕ) (second : ℕ) → plan_of errand content second ≡ lookup.plan config.now.implicit_dirs (lookup.path_of name.now (view_of mount.now.mount (at_node node))) (has_suffix name.now)) }
    ensures errand { IfOk result IsErrand }
{
    let (part, suffix) = strip_suffix(name);
    let path = path_of(alloc, mount, node, part)?;
    Ok(Errand::Names(NameErrand::Lookup {
        path,
        suffix,
        implicit: config.implicit_dirs,
    }))
}

/// OPENDIR: lists the directory by pages.
pub(crate) fn list(
    alloc: Global,
    config: &Config,
    mount: &Mount,
    node: u64,
) -> Result<Errand, NoMemory>
    requires page { 1 ≤ config.now.list_page }
    requires free { opendir.refusal (view_of mount.now.mount (at_node node)) ≡ None }
    ensures wanted { IfOk result (λ errand. wanted_of errand ≡ None) }
    ensures keys { IfOk result (λ errand. keys_of errand ≡ []) }
    ensures plan { IfOk result (λ errand. (content : List ℕ) (second : ℕ) → plan_of errand content second ≡ opendir.plan (opendir.prefix_of (view_of mount.now.mount (at_node node))) config.now.list_page None) }
    ensures errand { IfOk result IsErrand }
    ensures entries { IfOk result (λ errand. (told : List Answer) (items : List DirItem) → HoldsEntries errand config.now.implicit_dirs told items → IfSome (opendir.entries (opendir.prefix_of (view_of mount.now.mount (at_node node))) config.now.implicit_dirs told) (λ entries. items ≡ entries)) }
{
    let Some(inode) = mount.nodes().get(node) else {
        unreachable!();
    };
    let prefix = inode.name.copy(alloc)?;
    Ok(Errand::Names(NameErrand::Opendir {
        prefix,
        page: config.list_page,
    }))
}

/// The path of a part of a live directory.
pub(crate) fn path_of(
    alloc: Global,
    mount: &Mount,
    node: u64,
    part: &[u8],
) -> Result<Text, NoMemory>
    requires { guards.in_directory (sight_at mount.now.mount.table node) (guards.part_refusal part.now) ≡ None }
    ensures ok { IfOk result (λ path. path ≡ guards.path_in (sight_at mount.now.mount.table node) part.now) }
    ensures path { IfOk result IsPath }
{
    let Some(inode) = mount.nodes().get(node) else {
        unreachable!();
    };
    let Ok(part) = component_text(part) else {
        unreachable!();
    };
    let prefix = inode.name.as_str();
    let mut path = String::with_capacity(alloc, prefix.len() + part.len())?;
    path.push_str(prefix)?;
    path.push_str(part)?;
    Ok(Text::from_string(path))
}
