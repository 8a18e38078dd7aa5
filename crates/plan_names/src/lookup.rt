//! The look-up of a path: first its directory, then its object.
ghost use Rattle.std.specs.Prelude.{◌≡◌, ◌≢◌, false, [], IfOk, OnErr};
ghost use Rattle.bucket_api.specs.Operation.{stat as stat_of};
ghost use Rattle.mount_model.specs.Observing.{next_step};
ghost use Rattle.mount_rules.specs.Plans.{ask, done};
ghost use Rattle.mount_rules.specs.Requests.Lookup as spec;
ghost use Rattle.object_names.specs.Paths.{IsPath};
ghost use Rattle.plan_names.specs.Errands.{next_of, MayMake};
ghost use Rattle.plan_names.specs.Telling.{told};

use bucket_api::{Answer, Op};
use fuse_replies::errno::{EIO, ENOENT};
use io_ports::{NoMemory, Text};
use mount_model::Next;
use object_names::dir_prefix;
use std::alloc::Global;

/// What an answer to a probe tells of a directory.
#[derive(Clone, Copy, Debug, PartialEq, Eq)]
pub(crate) enum Probed {
    /// The directory is there.
    Present,
    /// It is not.
    Absent,
    /// The bucket failed.
    Failed,
}

/// What a look-up asks next: the probe of its path, and then, where that doesn't end it, the stat.
pub(crate) fn next_op(
    alloc: Global,
    path: &Text,
    suffix: bool,
    implicit: bool,
    answers: &[Answer],
) -> Result<Next, NoMemory>
    requires { IsPath path.now }
    ensures ok { IfOk result (λ next. next_step next ≡ next_of (spec.plan implicit path.now suffix answers.now)) }
    ensures may { IfOk result (λ next. MayMake (next_step next)) }
    ensures err { OnErr result (spec.plan implicit path.now suffix answers.now ≢ done) }
{
    match answers {
        [] => probe(alloc, path, implicit),
        [answer] => after_probe(alloc, path, suffix, probe_outcome(answer)),
        _ => Ok(Next::Finish),
    }
}

/// The operation that tells whether the directory of a path is there: with implicit directories, whether any name begins
/// with its prefix.
fn probe(alloc: Global, path: &Text, implicit: bool) -> Result<Next, NoMemory>
    requires { IsPath path.now }
    ensures ok { IfOk result (λ next. next_step next ≡ next_of (spec.plan implicit path.now false [])) }
    ensures may { IfOk result (λ next. MayMake (next_step next)) }
{
    let key = dir_prefix(alloc, path.as_str())?;
    if implicit {
        return Ok(Next::Do(Op::List {
            prefix: key,
            slash: false,
            max: 1,
            after: None,
        }));
    }
    Ok(Next::Do(Op::Stat { name: key }))
}

/// What is asked once the probe was answered: the stat, unless the directory ends the look-up.
fn after_probe(alloc: Global, path: &Text, suffix: bool, probed: Probed) -> Result<Next, NoMemory>
    requires { IsPath path.now }
    ensures ok { IfOk result (λ next. next_step next ≡ next_of (spec.after_probe path.now suffix (told probed))) }
    ensures may { IfOk result (λ next. MayMake (next_step next)) }
    ensures err { OnErr result (spec.after_probe path.now suffix (told probed) ≢ done) }
{
    match (probed, suffix) {
        (Probed::Present, true) | (Probed::Absent, false) => stat(alloc, path),
        _ => Ok(Next::Finish),
    }
}

/// The stat of a path.
fn stat(alloc: Global, path: &Text) -> Result<Next, NoMemory>
    requires { IsPath path.now }
    ensures ok { IfOk result (λ next. next_step next ≡ next_of (ask (stat_of path.now))) }
    ensures may { IfOk result (λ next. MayMake (next_step next)) }
{
    let name = path.copy(alloc)?;
    Ok(Next::Do(Op::Stat { name }))
}

/// What an answer to a probe tells.
pub(crate) fn probe_outcome(answer: &Answer) -> Probed
    ensures { told result ≡ spec.probed answer.now }
{
    match answer {
        Answer::Meta(_) | Answer::Done => Probed::Present,
        Answer::Page(page) if page.items.len() > 0 => Probed::Present,
        Answer::Page(_) | Answer::NotFound => Probed::Absent,
        _ => Probed::Failed,
    }
}

/// The error of a look-up that was answered so.
pub(crate) fn errno(answers: &[Answer]) -> u32
    ensures { result ≡ spec.errno_of (spec.found answers.now) }
{
    match answers {
        [] => EIO,
        [answer] => probe_errno(probe_outcome(answer)),
        [_, answer, ..] => stat_errno(answer),
    }
}

/// The error of a look-up that the probe ended.
fn probe_errno(probed: Probed) -> u32
    ensures { result ≡ spec.errno_of (spec.found_by (told probed)) }
{
    match probed {
        Probed::Present => 0,
        Probed::Absent => ENOENT,
        Probed::Failed => EIO,
    }
}

/// The error of a look-up that the stat ended.
fn stat_errno(answer: &Answer) -> u32
    ensures { result ≡ spec.errno_of (spec.found_at answer.now) }
{
    match answer {
        Answer::Meta(_) => 0,
        Answer::NotFound => ENOENT,
        _ => EIO,
    }
}
