//! The errands of requests that take a name away from an object.
ghost use Rattle.std.specs.Prelude.{◌≡◌, ◌∷◌, ℕ, List, [], None, IfOk, if◌then◌else◌};
ghost use Rattle.mount_core.specs.Errands.{keys_of, plan_of, wanted_of, IsErrand};
ghost use Rattle.mount_laws.specs.Renames.{renamed};
ghost use Rattle.mount_rules.specs.Requests.Mkdir as mkdir;
ghost use Rattle.mount_rules.specs.Requests.Rename as rename;
ghost use Rattle.mount_rules.specs.Requests.Rmdir as rmdir;
ghost use Rattle.mount_rules.specs.Requests.Unlink as unlink;
ghost use Rattle.mount_rules.specs.Rules.{at_node, AtTake};
ghost use Rattle.mount_rules.specs.View.{view_of};
ghost use Rattle.mount_state.specs.Moving.{moving_view};
ghost use Rattle.object_names.specs.Paths.{dir_prefix_of};

use crate::errand::Errand;
use crate::names::path_of;
use io_ports::NoMemory;
use mount_model::Config;
use mount_state::Mount;
use object_names::strip_suffix;
use plan_names::NameErrand;
use std::alloc::Global;

/// UNLINK: removes the object of the path of a name, its suffix left out.
pub(crate) fn unlink(
    alloc: Global,
    mount: &Mount,
    node: u64,
    name: &[u8],
) -> Result<Errand, NoMemory>
    requires { unlink.refusal name.now (view_of mount.now.mount (at_node node)) ≡ None }
    ensures wanted { IfOk result (λ errand. wanted_of errand ≡ None) }
    ensures keys { IfOk result (λ errand. keys_of errand ≡ []) }
    ensures plan { IfOk result (λ errand. (content : List ℕ) (second : ℕ) → plan_of errand content second ≡ unlink.plan (unlink.path_of name.now (view_of mount.now.mount (at_node node)))) }
    ensures errand { IfOk result IsErrand }
{
    let (part, _) = strip_suffix(name);
    let path = path_of(alloc, mount, node, part)?;
    Ok(Errand::Names(NameErrand::Unlink { path }))
}

/// RMDIR: removes the placeholder of the directory at the path of a name, where nothing else lies in it.
pub(crate) fn remove_directory(
    alloc: Global,
    mount: &Mount,
    node: u64,
    name: &[u8],
) -> Result<Errand, NoMemory>
    requires { mkdir.refusal name.now (view_of mount.now.mount (at_node node)) ≡ None }
    ensures wanted { IfOk result (λ errand. wanted_of errand ≡ None) }
    ensures keys { IfOk result (λ errand. keys_of errand ≡ []) }
    ensures plan { IfOk result (λ errand. (content : List ℕ) (second : ℕ) → plan_of errand content second ≡ rmdir.plan (mkdir.prefix_of name.now (view_of mount.now.mount (at_node node)))) }
    ensures errand { IfOk result IsErrand }
{
    let path = path_of(alloc, mount, node, name)?;
    Ok(Errand::Names(NameErrand::Rmdir { path }))
}

/// RENAME and RENAME2: moves the object of the path of a name, its suffix left out, to the path of a name in a second
/// directory. Where both paths are one, nothing is asked.
pub(crate) fn rename(
    alloc: Global,
    config: &Config,
    mount: &Mount,
    node: u64,
    name: &[u8],
    newdir: u64,
    newname: &[u8],
) -> Result<Errand, NoMemory>
    requires { rename.refusal (renamed newdir name.now newname.now) (moving_view mount.now.mount node (renamed newdir name.now newname.now)) ≡ None }
    ensures wanted { IfOk result (λ errand. wanted_of errand ≡ None) }
    ensures keys { IfOk result (λ errand. keys_of errand ≡ (if rename.is_same (renamed newdir name.now newname.now) (moving_view mount.now.mount node (renamed newdir name.now newname.now)) then [] else dir_prefix_of (rename.from_of (renamed newdir name.now newname.now) (moving_view mount.now.mount node (renamed newdir name.now newname.now))) ∷ [])) }
    ensures plan { IfOk result (λ errand. (at : AtTake) → at.config ≡ config.now → (content : List ℕ) → plan_of errand content at.second ≡ rename.plan (renamed newdir name.now newname.now) (record { at = at; view = moving_view mount.now.mount node (renamed newdir name.now newname.now) })) }
    ensures errand { IfOk result IsErrand }
{
    let (part, suffix) = strip_suffix(name);
    let from = path_of(alloc, mount, node, part)?;
    let to = path_of(alloc, mount, newdir, newname)?;
    if from == to {
        return Ok(Errand::Nothing);
    }
    Ok(Errand::Names(NameErrand::Rename {
        from,
        to,
        suffix,
        implicit: config.implicit_dirs,
    }))
}
