//! The error that an errand on a file ends in.
ghost use Rattle.std.specs.Prelude.{◌≡◌};
ghost use Rattle.mount_rules.specs.Reading as reading;
ghost use Rattle.mount_rules.specs.Requests.Flush as flush;
ghost use Rattle.mount_rules.specs.Requests.Setattr as setattr;
ghost use Rattle.mount_rules.specs.Standing as standing;
ghost use Rattle.plan_files.specs.Errors.{errno_of, errno_of_came, errno_of_reads, errno_of_standing, errno_of_update};

use crate::errand::FileErrand;
use bucket_api::Answer;
use fuse_replies::errno::{EIO, ESTALE};

/// The error that the errand ends in once it was answered so, 0 where it ends well: EIO where the bucket failed, and ESTALE
/// where a generation to be read, replaced or changed is live no more.
pub fn errno(errand: &FileErrand, answers: &[Answer]) -> u32
    ensures { result ≡ errno_of errand.now answers.now }
{
    match errand {
        FileErrand::Attr { .. } => errno_of_stat(answers),
        FileErrand::Source { .. } => errno_of_reads(answers),
        FileErrand::Flush { .. } => errno_of_flush(answers),
        FileErrand::Touch { .. } => errno_of_touch(answers),
    }
}

/// The error of a stat.
fn errno_of_stat(answers: &[Answer]) -> u32
    ensures { result ≡ errno_of_standing (standing.standing 0 answers.now) }
{
    match answers {
        [] | [Answer::Meta(_) | Answer::NotFound, ..] => 0,
        _ => EIO,
    }
}

/// The error of reads: that of the first one that was not given bytes.
fn errno_of_reads(answers: &[Answer]) -> u32
    ensures { result ≡ errno_of_reads (reading.reads answers.now) }
{
    for answer in answers {
        match answer {
            Answer::Bytes(_) => {},
            Answer::NotFound => return ESTALE,
            _ => return EIO,
        }
    }
    0
}

/// The error of a flush, by the first answer that is no bytes.
fn errno_of_flush(answers: &[Answer]) -> u32
    ensures { result ≡ errno_of_came (flush.came_of answers.now) }
{
    for answer in answers {
        match answer {
            Answer::Bytes(_) => {},
            Answer::Meta(_) => return 0,
            Answer::NotFound | Answer::Precondition { .. } => return ESTALE,
            _ => return EIO,
        }
    }
    EIO
}

/// The error of an update.
fn errno_of_touch(answers: &[Answer]) -> u32
    ensures { result ≡ errno_of_update (setattr.standing_of answers.now) }
{
    match answers {
        [] | [Answer::Meta(_), ..] => 0,
        [Answer::NotFound | Answer::Precondition { .. }, ..] => ESTALE,
        _ => EIO,
    }
}
