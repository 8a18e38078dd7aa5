//! The end of each request that the mount answers alone: on a handle of a directory, on look-ups, and on the mount itself.
ghost use Rattle.std.specs.Prelude.{◌≡◌, ℕ, List, None};
ghost use Rattle.fuse_replies.specs.Replies.{IsSendable, without_spare as reply_without_spare};
ghost use Rattle.fuse_requests.specs.Grammar.{without_spare};
ghost use Rattle.mount_model.specs.Observing.{Observed};
ghost use Rattle.mount_rules.specs.Dispatch.{early, mount_after, reply_to};
ghost use Rattle.mount_rules.specs.Rules.{AtTake};
ghost use Rattle.mount_state.specs.Groups.{IsOnMount};
ghost use Rattle.mount_state.specs.Tables.{mount_of, Uses};

use crate::tables::Tables;
use fuse_replies::Reply;
use fuse_requests::Request;

impl Tables {
    /// What a request is answered that the mount answers alone, and the tables then.
    pub(crate) fn finish_on_mount(&mut self, request: &Request) -> Reply
        requires group { IsOnMount (without_spare request.now) }
        requires free { early (mount_of self.old) (without_spare request.now) ≡ None }
        ensures reply { (at : AtTake) (seen : List Observed) → reply_without_spare result ≡ reply_to at (mount_of self.old) (without_spare request.now) seen }
        ensures mount { (at : AtTake) (seen : List Observed) → mount_of self.new ≡ mount_after at (mount_of self.old) (without_spare request.now) seen }
        ensures uses { Uses 0 self.old self.new }
        ensures sendable { IsSendable (reply_without_spare result) }
    {
        match request {
            Request::Releasedir { fh, .. } => self.release_directory(*fh),
            Request::Fsyncdir { .. } | Request::Destroy => Reply::Empty,
            Request::Statfs => Reply::Stat,
            Request::Init {
                major,
                minor,
                readahead,
                flags,
            } => self.init(*major, *minor, *readahead, *flags),
            Request::Forget { node, count } => self.forget(*node, *count),
            Request::BatchForget { pairs } => self.forget_pairs(pairs.as_slice()),
            Request::Interrupt | Request::Unknown { .. } => Reply::Silent,
            _ => unreachable!(),
        }
    }
}
