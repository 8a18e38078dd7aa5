//! The end of a RELEASEDIR.
ghost use Rattle.std.specs.Prelude.{◌≡◌};
ghost use Rattle.mount_rules.specs.Requests.Releasedir as spec;
ghost use Rattle.mount_state.specs.Tables.{mount_of, Uses};

use crate::tables::Tables;
use fuse_replies::Reply;

impl Tables {
    /// The handle is open no more.
    pub(crate) fn release_directory(&mut self, fh: u64) -> Reply
        ensures reply { result ≡ Reply.Empty }
        ensures mount { mount_of self.new ≡ spec.after fh (mount_of self.old) }
        ensures uses { Uses 0 self.old self.new }
    {
        self.handles.release(fh);
        Reply::Empty
    }
}
