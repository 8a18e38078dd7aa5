//! The moving of an object to another name: it is looked up, copied, and deleted as it was seen.
ghost use Rattle.std.specs.Prelude.{◌≡◌, ◌≢◌, Some, IfOk, OnErr};
ghost use Rattle.bucket_api.specs.Names.{IsObjectName};
ghost use Rattle.mount_model.specs.Observing.{next_step};
ghost use Rattle.mount_rules.specs.Plans.{done};
ghost use Rattle.mount_rules.specs.Requests.Rename as spec;
ghost use Rattle.object_names.specs.Paths.{IsPath};
ghost use Rattle.plan_names.specs.Errands.{next_of, MayMake};
ghost use Rattle.plan_names.specs.Outcomes.{as_moved};
ghost use Rattle.plan_names.specs.Telling.{told as told_by};

use crate::lookup;
use crate::lookup::{Probed, probe_outcome};
use bucket_api::{Answer, Op};
use fuse_replies::errno::{EIO, ENOENT, ENOSYS, ESTALE};
use io_ports::{NoMemory, Text};
use mount_model::Next;
use std::alloc::Global;

/// What came of moving an object.
#[derive(Clone, Copy, Debug, PartialEq, Eq)]
pub enum Moved {
    /// It has its new name.
    Moved,
    /// The old name is that of a directory.
    Directory,
    /// There is no object of the old name.
    Nothing,
    /// It was replaced or removed meanwhile.
    Stale,
    /// The bucket failed.
    Fault,
}

/// What moving an object asks next: its look-up, the copy of the generation that this showed, and the delete of that
/// generation.
pub(crate) fn next_op(
    alloc: Global,
    from: &Text,
    to: &Text,
    suffix: bool,
    implicit: bool,
    second: u64,
    answers: &[Answer],
) -> Result<Next, NoMemory>
    requires from { IsPath from.now }
    requires to { IsPath to.now }
    ensures ok { IfOk result (λ next. next_step next ≡ next_of (spec.moving_plan implicit from.now to.now suffix second answers.now)) }
    ensures may { IfOk result (λ next. MayMake (next_step next)) }
    ensures err { OnErr result (spec.moving_plan implicit from.now to.now suffix second answers.now ≢ done) }
{
    match answers {
        [] | [_] => lookup::next_op(alloc, from, suffix, implicit, answers),
        [_, told] => copy(alloc, from, to, second, told),
        [_, told, copied] => delete(alloc, from, told, copied),
        _ => Ok(Next::Finish),
    }
}

/// The copy of the generation that the look-up showed.
fn copy(alloc: Global, from: &Text, to: &Text, second: u64, told: &Answer) -> Result<Next, NoMemory>
    requires from { IsPath from.now }
    requires to { IsPath to.now }
    ensures ok { IfOk result (λ next. next_step next ≡ next_of (spec.after_stat from.now to.now second told.now)) }
    ensures may { IfOk result (λ next. MayMake (next_step next)) }
    ensures err { OnErr result (spec.after_stat from.now to.now second told.now ≢ done) }
{
    let Answer::Meta(meta) = told else {
        return Ok(Next::Finish);
    };
    Ok(Next::Do(Op::Copy {
        from: from.copy(alloc)?,
        generation: meta.generation,
        to: to.copy(alloc)?,
        stamp: second,
    }))
}

/// The delete of the generation that was copied.
fn delete(alloc: Global, from: &Text, told: &Answer, copied: &Answer) -> Result<Next, NoMemory>
    requires { IsPath from.now }
    ensures ok { IfOk result (λ next. next_step next ≡ next_of (spec.after_copy from.now told.now copied.now)) }
    ensures may { IfOk result (λ next. MayMake (next_step next)) }
    ensures err { OnErr result (spec.after_copy from.now told.now copied.now ≢ done) }
{
    let (Answer::Meta(meta), Answer::Meta(_)) = (told, copied) else {
        return Ok(Next::Finish);
    };
    Ok(Next::Do(Op::Delete {
        name: from.copy(alloc)?,
        only: Some(meta.generation),
    }))
}

/// What moving an object to another name came to that was answered so.
pub fn outcome_of_rename(answers: &[Answer]) -> Moved
    ensures { as_moved result ≡ spec.came_of answers.now }
{
    match answers {
        [] => Moved::Fault,
        [probe] => moved_by_probe(probe_outcome(probe)),
        [_, told] => moved_by_stat(told),
        [_, _, copied] => moved_by_copy(copied),
        [_, _, _, deleted, ..] => moved_by_delete(deleted),
    }
}

/// What moving an object came to that the probe ended.
fn moved_by_probe(probed: Probed) -> Moved
    ensures { as_moved result ≡ spec.came_of_probe (told_by probed) }
{
    match probed {
        Probed::Present => Moved::Directory,
        Probed::Absent => Moved::Nothing,
        Probed::Failed => Moved::Fault,
    }
}

/// What moving an object came to that the stat ended.
fn moved_by_stat(told: &Answer) -> Moved
    ensures { as_moved result ≡ spec.came_of_stat told.now }
{
    match told {
        Answer::NotFound => Moved::Nothing,
        _ => Moved::Fault,
    }
}

/// What moving an object came to that the copy ended.
fn moved_by_copy(copied: &Answer) -> Moved
    ensures { as_moved result ≡ spec.came_of_copy copied.now }
{
    match copied {
        Answer::NotFound => Moved::Stale,
        _ => Moved::Fault,
    }
}

/// What moving an object came to that the delete ended.
fn moved_by_delete(deleted: &Answer) -> Moved
    ensures { as_moved result ≡ spec.came_of_delete deleted.now }
{
    match deleted {
        Answer::Done => Moved::Moved,
        Answer::NotFound | Answer::Precondition { .. } => Moved::Stale,
        _ => Moved::Fault,
    }
}

impl Moved {
    /// The error that the request is answered, 0 where the object has its new name.
    pub fn errno(self) -> u32
        ensures { result ≡ spec.errno_of (as_moved self) }
    {
        match self {
            Moved::Moved => 0,
            Moved::Directory => ENOSYS,
            Moved::Nothing => ENOENT,
            Moved::Stale => ESTALE,
            Moved::Fault => EIO,
        }
    }
}
