//! What a SETATTR sets of a file.
ghost use Rattle.std.specs.Prelude.{◌≡◌, Bool, Option, is_some};
ghost use Rattle.mount_rules.specs.Files.{length_of};
ghost use Rattle.mount_rules.specs.Requests.Setattr as spec;
ghost use Rattle.mount_rules.specs.View.{Sight};
ghost use Rattle.plan_files.specs.Settings.{as_change, asked_of};
ghost use Rattle.staging_spec.specs.StagedFiles.{StagedContent};

use object_names::NodeKind;

/// FATTR_SIZE of fuse.h.
const SIZE: u32 = 1 << 3;

/// FATTR_MTIME of fuse.h.
const MTIME: u32 = 1 << 5;

/// FATTR_MTIME_NOW of fuse.h.
const MTIME_NOW: u32 = 1 << 8;

/// What a SETATTR asks for (fuse.h: `struct fuse_setattr_in`).
#[derive(Clone, Copy, Debug, PartialEq, Eq)]
pub struct Asked {
    /// Which of its fields are valid: the bits FATTR_SIZE, FATTR_MTIME and FATTR_MTIME_NOW are looked at.
    pub valid: u32,
    /// A length in bytes.
    pub size: u64,
    /// The seconds of a time, in Unix time.
    pub seconds: u64,
    /// The nanoseconds behind that second.
    pub nanos: u32,
}

/// What a SETATTR changes.
#[derive(Clone, Copy, Debug, PartialEq, Eq)]
pub enum Change {
    /// The content gets another length.
    Resize,
    /// The time of the staged content is set.
    StageTime,
    /// The time of the object is set.
    SetTime,
    /// Nothing: it goes as a GETATTR.
    Look,
}

impl Asked {
    /// Whether a length is asked for.
    #[tactic(auto, using(crate::proofs::BitLaws::size_bit))]
    pub fn sets_size(&self) -> bool
        ensures { result ≡ spec.sets_size (asked_of self.now) }
    {
        self.valid & SIZE != 0
    }

    /// Whether the time is asked for that is told.
    #[tactic(auto, using(crate::proofs::BitLaws::time_bit))]
    pub fn sets_time(&self) -> bool
        ensures { result ≡ spec.sets_time (asked_of self.now) }
    {
        self.valid & MTIME != 0
    }

    /// Whether the time of the call is asked for, which wins over the one that is told.
    #[tactic(auto, using(crate::proofs::BitLaws::now_bit))]
    pub fn sets_now(&self) -> bool
        ensures { result ≡ spec.sets_now (asked_of self.now) }
    {
        self.valid & MTIME_NOW != 0
    }

    /// The time that is set, in seconds and nanoseconds, by a call at this second.
    pub fn time_set(&self, second: u64) -> (u64, u32)
        ensures { result ≡ spec.time_set (asked_of self.now) second }
    {
        if self.sets_now() {
            return (second, 0);
        }
        (self.seconds, self.nanos)
    }

    /// The time of a content that gets another length by a call at this second: the one that is set, or else that second.
    pub fn time_then(&self, second: u64) -> (u64, u32)
        ensures { result ≡ spec.time_then (asked_of self.now) second }
    {
        if self.sets_time() || self.sets_now() {
            return self.time_set(second);
        }
        (second, 0)
    }

    /// What is changed of a node of this kind, whose content has so many bytes, and whether any of it is staged.
    pub fn change_of(&self, kind: NodeKind, len: u64, staged: bool) -> Change
        ensures { (found : Option StagedContent) (file : Sight) → file.kind ≡ kind → length_of found file ≡ len → is_some found ≡ staged → as_change result ≡ spec.change_of (asked_of self.now) found file }
    {
        if self.sets_size() && self.size != len {
            return Change::Resize;
        }
        if !is_file(kind) || !self.sets_time() && !self.sets_now() {
            return Change::Look;
        }
        if staged {
            return Change::StageTime;
        }
        Change::SetTime
    }
}

/// Whether a node of this kind is a regular file.
fn is_file(kind: NodeKind) -> bool
    ensures { result ≡ spec.is_file kind }
{
    match kind {
        NodeKind::File => true,
        _ => false,
    }
}
