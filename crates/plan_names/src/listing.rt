//! The listing of a directory, page after page.
ghost use Rattle.std.specs.Prelude.{◌≡◌, ◌≢◌, ◌≤◌, [], None, true, false, IfOk, IfSome, OnErr};
ghost use Rattle.std.specs.List.{list_all};
ghost use Rattle.bucket_api.specs.Operation.{list as list_of};
ghost use Rattle.mount_model.specs.Observing.{make, next_step};
ghost use Rattle.mount_rules.specs.Plans.{done};
ghost use Rattle.mount_rules.specs.Requests.Opendir as spec;
ghost use Rattle.plan_names.specs.Errands.{next_of, Asked, MayMake};

use bucket_api::{Answer, Op};
use fuse_replies::errno::EIO;
use io_ports::{NoMemory, Text};
use mount_model::Next;
use std::alloc::Global;

/// What listing a directory asks next: the page behind the last one.
pub(crate) fn next_op(
    alloc: Global,
    prefix: &Text,
    page: u64,
    answers: &[Answer],
) -> Result<Next, NoMemory>
    requires page { 1 ≤ page }
    requires asked { Asked (spec.plan prefix.now page None) answers.now }
    ensures ok { IfOk result (λ next. next_step next ≡ next_of (spec.plan prefix.now page None answers.now)) }
    ensures may { IfOk result (λ next. MayMake (next_step next)) }
    ensures err { OnErr result (spec.plan prefix.now page None answers.now ≢ done) }
{
    let Some(last) = answers.last() else {
        return list(alloc, prefix, page, None);
    };
    let Answer::Page(last) = last else {
        return Ok(Next::Finish);
    };
    match &last.next {
        Some(key) => list(alloc, prefix, page, Some(key.copy(alloc)?)),
        None => Ok(Next::Finish),
    }
}

/// The operation that asks for a page behind a key.
fn list(alloc: Global, prefix: &Text, page: u64, after: Option<Text>) -> Result<Next, NoMemory>
    requires page { 1 ≤ page }
    requires after { IfSome after (λ key. key ≢ []) }
    ensures ok { IfOk result (λ next. next_step next ≡ make (list_of prefix.now true page after)) }
    ensures may { IfOk result (λ next. MayMake (next_step next)) }
{
    Ok(Next::Do(Op::List {
        prefix: prefix.copy(alloc)?,
        slash: true,
        max: page,
        after,
    }))
}

/// The error of a listing that was answered so.
pub(crate) fn errno(answers: &[Answer]) -> u32
    ensures { result ≡ spec.errno_of answers.now }
{
    if are_pages(answers) {
        return 0;
    }
    EIO
}

/// Whether every answer is a page.
fn are_pages(answers: &[Answer]) -> bool
    ensures { result ≡ list_all spec.is_page answers.now }
{
    answers.iter().all(is_page)
}

/// Whether an answer is a page.
fn is_page(answer: &Answer) -> bool
    ensures { result ≡ spec.is_page answer.now }
{
    match answer {
        Answer::Page(_) => true,
        _ => false,
    }
}
