//! The ends of FORGET and BATCH_FORGET. Neither has a reply, and before a version is agreed on an effect.
ghost use Rattle.std.specs.Prelude.{◌≡◌, if◌then◌else◌};
ghost use Rattle.mount_rules.specs.Requests.BatchForget as batch;
ghost use Rattle.mount_rules.specs.Requests.Forget as spec;
ghost use Rattle.mount_state.specs.Tables.{mount_of, Uses};

use crate::tables::Tables;
use fuse_replies::Reply;
use fuse_requests::Forgotten;

impl Tables {
    /// Look-ups of a node are given back.
    pub(crate) fn forget(&mut self, node: u64, count: u64) -> Reply
        ensures reply { result ≡ Reply.Silent }
        ensures mount { mount_of self.new ≡ (if self.old.negotiated then spec.after node count (mount_of self.old) else mount_of self.old) }
        ensures uses { Uses 0 self.old self.new }
    {
        if self.negotiated {
            self.give_back(node, count);
        }
        Reply::Silent
    }

    /// Look-ups of many nodes are given back, pair by pair.
    pub(crate) fn forget_pairs(&mut self, pairs: &[Forgotten]) -> Reply
        ensures reply { result ≡ Reply.Silent }
        ensures mount { mount_of self.new ≡ (if self.old.negotiated then batch.after pairs.now (mount_of self.old) else mount_of self.old) }
        ensures uses { Uses 0 self.old self.new }
    {
        if self.negotiated {
            for pair in pairs {
                self.give_back(pair.node, pair.count);
            }
        }
        Reply::Silent
    }

    /// Takes look-ups of a node back. A node that has none left is dropped, and what is staged of it; a file stays while a
    /// handle holds it.
    fn give_back(&mut self, node: u64, count: u64)
        ensures mount { mount_of self.new ≡ spec.after node count (mount_of self.old) }
        ensures uses { Uses 0 self.old self.new }
    {
        let held = self.handles.held(node);
        self.nodes.forget(node, count, held);
        self.end_staged(node);
    }

    /// Lets what is staged of a node go, where the node is there no more.
    pub(crate) fn end_staged(&mut self, node: u64)
        ensures mount { mount_of self.new ≡ spec.with_left node self.old.nodes.table (mount_of self.old) }
        ensures uses { Uses 0 self.old self.new }
        ensures kept { self.new ≡ record self.old { staging = self.new.staging } }
    {
        if self.nodes.get(node).is_none() {
            self.staging.end(node);
        }
    }
}
