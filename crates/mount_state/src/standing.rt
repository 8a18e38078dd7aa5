//! How the generation stands that a node shows, at the end of a request that asked for it.
ghost use Rattle.std.specs.Prelude.{◌≡◌};
ghost use Rattle.mount_rules.specs.Plans.{answers_of};
ghost use Rattle.mount_rules.specs.Standing as spec;
ghost use Rattle.mount_rules.specs.View.{sight_at};
ghost use Rattle.plan_files.specs.Outcomes.{as_standing};

use crate::tables::Tables;
use crate::told::Told;
use plan_files::{Standing, outcome_of_stat};

impl Tables {
    /// How the generation of a node stands, by what was observed.
    pub(crate) fn standing(&self, node: u64, seen: Told) -> Standing
        ensures { as_standing result ≡ spec.standing (spec.generation_seen (sight_at self.now.nodes.table node)) (answers_of seen.items) }
    {
        outcome_of_stat(self.source(node), seen.into_answers())
    }

    /// The generation that a node shows; 0 of a directory.
    fn source(&self, node: u64) -> u64
        ensures { result ≡ spec.generation_seen (sight_at self.now.nodes.table node) }
    {
        let Some(inode) = self.nodes.get(node) else {
            return 0;
        };
        let Some(file) = &inode.file else {
            return 0;
        };
        file.source
    }
}
