//! What a READLINK is answered: the target of a symlink, as it is kept.
ghost use Rattle.std.specs.Prelude.{◌≡◌, IfOk};
ghost use Rattle.mount_rules.specs.Requests.Readlink as spec;
ghost use Rattle.mount_rules.specs.View.{kept_at};
ghost use Rattle.mount_state.specs.Spares.{provided_by, target};

use crate::attributes::target_of;
use crate::prepared::Prepared;
use crate::tables::Tables;
use crate::target::Target;
use io_ports::NoMemory;
use std::alloc::Global;

impl Tables {
    /// A copy of the target of a node; of nothing, where it is no symlink.
    pub(crate) fn target(&self, alloc: Global, node: u64) -> Result<Prepared, NoMemory>
        ensures { IfOk result (λ prepared. provided_by prepared ≡ target (spec.target_in (kept_at self.now.nodes.table node))) }
    {
        let target = Target::of(alloc, self.kept_target(node))?;
        Ok(Prepared::Target(target))
    }

    /// The target that is kept of a node; empty, where it is no symlink.
    fn kept_target(&self, node: u64) -> &str
        ensures { result.now ≡ spec.target_in (kept_at self.now.nodes.table node) }
    {
        let Some(inode) = self.nodes.get(node) else {
            return "";
        };
        let Some(file) = &inode.file else {
            return "";
        };
        target_of(&file.kept.meta)
    }
}
