//! INIT.
ghost use Rattle.std.specs.Prelude.{◌≡◌, true, if◌then◌else◌};
ghost use Rattle.fuse_replies.specs.Replies.{IsSendable, without_spare};
ghost use Rattle.mount_rules.specs.Requests.Init as spec;

use crate::tables::Tables;
use fuse_replies::Reply;
use fuse_replies::errno::EPROTO;

/// The flags that the mount grants where they are offered: ASYNC_READ, BIG_WRITES and PARALLEL_DIROPS of fuse.h.
const GRANTED_FLAGS: u32 = 0x40021;

impl Tables {
    /// Agrees on a version, where the kernel offers one that the mount takes.
    pub(crate) fn init(&mut self, major: u32, minor: u32, readahead: u32, flags: u32) -> Reply
        ensures reply { result ≡ spec.reply major minor readahead flags }
        ensures no_spare { without_spare result ≡ result }
        ensures sendable { IsSendable result }
        ensures tables { self.new ≡ record self.old { negotiated = if spec.is_taken major minor then true else self.old.negotiated } }
    {
        if is_taken(major, minor) {
            self.negotiated = true;
        }
        reply(major, minor, readahead, flags)
    }
}

/// Whether the mount takes this version: 7.31, or a later minor of 7.
fn is_taken(major: u32, minor: u32) -> bool
    ensures { result ≡ spec.is_taken major minor }
{
    major == 7 && minor >= 31
}

/// What an INIT is answered. A newer major is told to offer 7, and an older version is refused.
fn reply(major: u32, minor: u32, readahead: u32, flags: u32) -> Reply
    ensures reply { result ≡ spec.reply major minor readahead flags }
    ensures no_spare { without_spare result ≡ result }
    ensures sendable { IsSendable result }
{
    if major > 7 {
        return Reply::InitDone {
            readahead: 0,
            flags: 0,
            waits: true,
        };
    }
    if is_taken(major, minor) {
        return Reply::InitDone {
            readahead,
            flags: flags & GRANTED_FLAGS,
            waits: false,
        };
    }
    Reply::Error(EPROTO)
}
