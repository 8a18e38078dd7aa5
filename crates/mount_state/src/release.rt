//! The end of a RELEASE.
ghost use Rattle.std.specs.Prelude.{◌≡◌};
ghost use Rattle.mount_rules.specs.Requests.Release as spec;
ghost use Rattle.mount_state.specs.Tables.{mount_of, Uses};

use crate::tables::Tables;
use fuse_replies::Reply;

impl Tables {
    /// The handle is open no more; a file that isn't live goes with its last one, and what is staged of it.
    pub(crate) fn release_file(&mut self, node: u64, fh: u64) -> Reply
        ensures reply { result ≡ Reply.Empty }
        ensures mount { mount_of self.new ≡ spec.after node fh (mount_of self.old) }
        ensures uses { Uses 0 self.old self.new }
    {
        self.handles.release(fh);
        self.let_go(node);
        self.end_staged(node);
        Reply::Empty
    }

    /// A file that isn't live goes, where no handle holds it.
    fn let_go(&mut self, node: u64)
        ensures table { self.new.nodes.table ≡ spec.left_by self.old.handles.handles node self.old.nodes.table }
        ensures spare { self.new.nodes.spare ≡ self.old.nodes.spare }
        ensures kept { self.new ≡ record self.old { nodes = self.new.nodes } }
    {
        if !self.handles.held(node) {
            self.nodes.let_go(node);
        }
    }
}
