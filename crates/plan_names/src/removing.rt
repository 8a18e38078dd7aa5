//! The removing of an object, and of an empty directory.
ghost use Rattle.std.specs.Prelude.{◌≡◌, ◌≢◌, ◌++◌, ◌∷◌, ℕ, List, [], None, IfOk, MatchOption, OnErr, option_map};
ghost use Rattle.std.specs.List.{list_any};
ghost use Rattle.std.specs.Str.{bytes_eq};
ghost use Rattle.bucket_api.specs.Operation.{delete as delete_of};
ghost use Rattle.bucket_api.specs.PageData.{PageData};
ghost use Rattle.mount_model.specs.Observing.{next_step};
ghost use Rattle.mount_rules.specs.Plans.{ask, done};
ghost use Rattle.mount_rules.specs.Removing as spec;
ghost use Rattle.mount_rules.specs.Requests.Opendir.{page_in};
ghost use Rattle.mount_rules.specs.Requests.Rmdir as rmdir;
ghost use Rattle.mount_rules.specs.Requests.Rmdir.{is_other};
ghost use Rattle.mount_rules.specs.Requests.Unlink as unlink;
ghost use Rattle.object_names.specs.Paths.{dir_prefix_of, IsPath};
ghost use Rattle.plan_names.specs.Errands.{next_of, MayMake};
ghost use Rattle.plan_names.specs.Outcomes.{as_emptied, as_inside, as_removed};

use bucket_api::{Answer, Meta, Op};
use fuse_replies::errno::{EIO, ENOENT, ENOTEMPTY};
use io_ports::{NoMemory, Text};
use mount_model::Next;
use object_names::dir_prefix;
use std::alloc::Global;

/// What came of removing an object.
#[derive(Clone, Copy, Debug, PartialEq, Eq)]
pub enum Removed {
    /// It is gone.
    Gone,
    /// There was none.
    Nothing,
    /// The bucket failed.
    Fault,
}

/// What came of removing an empty directory.
#[derive(Clone, Copy, Debug, PartialEq, Eq)]
pub enum Emptied {
    /// Its placeholder was to be removed, with this end.
    Removed(Removed),
    /// Something lies in it.
    NotEmpty,
}

/// What a page of two names shows of a directory.
#[derive(Clone, Copy, Debug, PartialEq, Eq)]
pub(crate) enum Inside {
    /// Nothing at all.
    Absent,
    /// Its placeholder alone.
    Empty,
    /// What lies in it.
    Filled,
}

/// What removing the object of a path asks next: the one delete.
pub(crate) fn next_of_unlink(
    alloc: Global,
    path: &Text,
    answers: &[Answer],
) -> Result<Next, NoMemory>
    requires { IsPath path.now }
    ensures ok { IfOk result (λ next. next_step next ≡ next_of (unlink.plan path.now answers.now)) }
    ensures may { IfOk result (λ next. MayMake (next_step next)) }
    ensures err { OnErr result (unlink.plan path.now answers.now ≢ done) }
{
    if !answers.is_empty() {
        return Ok(Next::Finish);
    }
    Ok(Next::Do(Op::Delete {
        name: path.copy(alloc)?,
        only: None,
    }))
}

/// What removing the empty directory of a path asks next: a page of two names of what it holds, and then, where that is
/// its placeholder alone, the delete of this.
pub(crate) fn next_of_rmdir(
    alloc: Global,
    path: &Text,
    answers: &[Answer],
) -> Result<Next, NoMemory>
    requires { IsPath path.now }
    ensures ok { IfOk result (λ next. next_step next ≡ next_of (rmdir.plan (dir_prefix_of path.now) answers.now)) }
    ensures may { IfOk result (λ next. MayMake (next_step next)) }
    ensures err { OnErr result (rmdir.plan (dir_prefix_of path.now) answers.now ≢ done) }
{
    match answers {
        [] => list(alloc, path),
        [listed] => after_list(alloc, path, listed),
        _ => Ok(Next::Finish),
    }
}

/// The operation that shows whether anything lies in the directory of a path.
fn list(alloc: Global, path: &Text) -> Result<Next, NoMemory>
    ensures ok { IfOk result (λ next. next_step next ≡ next_of (rmdir.plan (dir_prefix_of path.now) [])) }
    ensures may { IfOk result (λ next. MayMake (next_step next)) }
{
    Ok(Next::Do(Op::List {
        prefix: dir_prefix(alloc, path.as_str())?,
        slash: false,
        max: 2,
        after: None,
    }))
}

/// What is asked once that was answered: the delete of the placeholder, where nothing else is there.
fn after_list(alloc: Global, path: &Text, listed: &Answer) -> Result<Next, NoMemory>
    requires { IsPath path.now }
    ensures ok { IfOk result (λ next. next_step next ≡ next_of (rmdir.after_list (dir_prefix_of path.now) listed.now)) }
    ensures may { IfOk result (λ next. MayMake (next_step next)) }
    ensures err { OnErr result (rmdir.after_list (dir_prefix_of path.now) listed.now ≢ done) }
{
    match inside_by(path.as_str(), listed) {
        Some(Inside::Empty) => delete(alloc, path),
        _ => Ok(Next::Finish),
    }
}

/// The delete of the placeholder of a path's directory.
fn delete(alloc: Global, path: &Text) -> Result<Next, NoMemory>
    requires { IsPath path.now }
    ensures ok { IfOk result (λ next. next_step next ≡ next_of (ask (delete_of (dir_prefix_of path.now) None))) }
    ensures may { IfOk result (λ next. MayMake (next_step next)) }
{
    Ok(Next::Do(Op::Delete {
        name: dir_prefix(alloc, path.as_str())?,
        only: None,
    }))
}

/// What a page shows of the directory of a path; none where the bucket gave no page.
fn inside_by(path: &str, listed: &Answer) -> Option<Inside>
    requires { IsPath path.now }
    ensures { option_map as_inside result ≡ option_map (λ (page : PageData). rmdir.inside (dir_prefix_of path.now) page.items) (page_in listed.now) }
{
    match listed {
        Answer::Page(page) => Some(inside_of(path, page.items.as_slice())),
        _ => None,
    }
}

/// What these objects, whose names begin with the prefix of the directory of a path, show of it.
fn inside_of(path: &str, items: &[Meta]) -> Inside
    requires { IsPath path.now }
    ensures { as_inside result ≡ rmdir.inside (dir_prefix_of path.now) items.now }
{
    if items.is_empty() {
        return Inside::Absent;
    }
    if has_other(path, items) {
        return Inside::Filled;
    }
    Inside::Empty
}

/// Whether one of these objects is another than the placeholder of the directory of a path.
fn has_other(path: &str, items: &[Meta]) -> bool
    requires { IsPath path.now }
    ensures { result ≡ list_any (is_other (dir_prefix_of path.now)) items.now }
{
    items
        .iter()
        .any(|meta| !is_placeholder(meta.name.as_str(), path))
}

/// Whether a name is that of the placeholder of a path's directory.
fn is_placeholder(name: &str, path: &str) -> bool
    requires { IsPath path.now }
    ensures { result ≡ bytes_eq name.now (dir_prefix_of path.now) }
{
    match without_slash(name.as_bytes()) {
        Some(front) => front == path.as_bytes(),
        None => false,
    }
}

/// A name without the slash at its end.
fn without_slash(name: &[u8]) -> Option<&[u8]>
    ensures { MatchOption result ((front : List ℕ) → name.now ≢ front ++ 47 ∷ []) (λ front. name.now ≡ front.now ++ 47 ∷ []) }
{
    name.strip_suffix(b"/".as_slice())
}

/// What removing an object came to that was answered so.
fn removed_by(answer: &Answer) -> Removed
    ensures { as_removed result ≡ spec.removed_by answer.now }
{
    match answer {
        Answer::Done => Removed::Gone,
        Answer::NotFound => Removed::Nothing,
        _ => Removed::Fault,
    }
}

impl Removed {
    /// The error that the request is answered, 0 where the object is gone.
    pub fn errno(self) -> u32
        ensures { result ≡ spec.errno_of (as_removed self) }
    {
        match self {
            Removed::Gone => 0,
            Removed::Nothing => ENOENT,
            Removed::Fault => EIO,
        }
    }
}

impl Emptied {
    /// The error that the request is answered, 0 where the directory is removed.
    pub fn errno(self) -> u32
        ensures { result ≡ rmdir.errno_of (as_emptied self) }
    {
        match self {
            Emptied::Removed(removed) => removed.errno(),
            Emptied::NotEmpty => ENOTEMPTY,
        }
    }
}

/// What removing the object of a path came to that was answered so.
pub fn outcome_of_unlink(answers: &[Answer]) -> Removed
    ensures { as_removed result ≡ unlink.removed answers.now }
{
    match answers {
        [answer, ..] => removed_by(answer),
        [] => Removed::Fault,
    }
}

/// What removing the empty directory of a path came to that was answered so.
pub fn outcome_of_rmdir(path: &str, answers: &[Answer]) -> Emptied
    requires { IsPath path.now }
    ensures { as_emptied result ≡ rmdir.came_of (dir_prefix_of path.now) answers.now }
{
    match answers {
        [] => Emptied::Removed(Removed::Fault),
        [listed] => emptied_by(path, listed),
        [_, deleted, ..] => Emptied::Removed(removed_by(deleted)),
    }
}

/// What removing an empty directory came to that the page ended.
fn emptied_by(path: &str, listed: &Answer) -> Emptied
    requires { IsPath path.now }
    ensures { as_emptied result ≡ rmdir.came_of_list (dir_prefix_of path.now) listed.now }
{
    match inside_by(path, listed) {
        Some(Inside::Filled) => Emptied::NotEmpty,
        Some(_) => Emptied::Removed(Removed::Nothing),
        None => Emptied::Removed(Removed::Fault),
    }
}
