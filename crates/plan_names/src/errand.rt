//! Errands on names, and what each asks next.
ghost use Rattle.std.specs.Prelude.{◌≡◌, ◌≢◌, IfOk, OnErr};
ghost use Rattle.mount_model.specs.Observing.{next_step};
ghost use Rattle.mount_rules.specs.Plans.{done};
ghost use Rattle.plan_names.specs.Errands.{plan_of, errno_of, next_of, IsErrand, Asked, MayMake};

use crate::{
    listing, lookup, making, outcome_of_rename, outcome_of_rmdir, outcome_of_unlink, removing,
    renaming,
};
use bucket_api::{Answer, Pair};
use io_ports::{NoMemory, Row, Text};
use mount_model::Next;
use std::alloc::Global;

/// What a request on names has to do on the bucket, as plain data made from what the request saw at its take.
#[derive(Drop)]
pub enum NameErrand {
    /// Looks a path up: first its directory, then its object (gcsfuse's order).
    Lookup {
        /// The path, without the suffix.
        path: Text,
        /// Whether the name had the suffix, by which the file is meant that a directory of the name hides.
        suffix: bool,
        /// Whether directories are implicit.
        implicit: bool,
    },
    /// Makes an empty object of a name, only where none is live.
    Make {
        /// The object's name.
        name: Text,
        /// Its metadata, by rising keys.
        pairs: Row<Pair>,
    },
    /// Removes the object of a path.
    Unlink {
        /// The path, without the suffix.
        path: Text,
    },
    /// Removes the placeholder of an empty directory.
    Rmdir {
        /// The path of the directory.
        path: Text,
    },
    /// Moves an object to another name: it is looked up, copied, and deleted as it was seen.
    Rename {
        /// The old path, without the suffix.
        from: Text,
        /// The new path, another one.
        to: Text,
        /// Whether the old name had the suffix.
        suffix: bool,
        /// Whether directories are implicit.
        implicit: bool,
    },
    /// Lists a directory, page after page.
    Opendir {
        /// What the names in the directory begin with.
        prefix: Text,
        /// The most keys of a page, at least 1.
        page: u64,
    },
}

/// What the errand asks of the bucket next, after it was answered so; `second` stamps what it makes. `NoMemory` comes only
/// where an operation is still to be made.
pub fn next_op(
    alloc: Global,
    errand: &NameErrand,
    second: u64,
    answers: &[Answer],
) -> Result<Next, NoMemory>
    requires errand { IsErrand errand.now }
    requires asked { Asked (plan_of errand.now second) answers.now }
    ensures ok { IfOk result (λ next. next_step next ≡ next_of (plan_of errand.now second answers.now)) }
    ensures may { IfOk result (λ next. MayMake (next_step next)) }
    ensures err { OnErr result (plan_of errand.now second answers.now ≢ done) }
{
    match errand {
        NameErrand::Lookup {
            path,
            suffix,
            implicit,
        } => lookup::next_op(alloc, path, *suffix, *implicit, answers),
        NameErrand::Make { name, pairs } => making::next_op(alloc, name, pairs, second, answers),
        NameErrand::Unlink { path } => removing::next_of_unlink(alloc, path, answers),
        NameErrand::Rmdir { path } => removing::next_of_rmdir(alloc, path, answers),
        NameErrand::Rename {
            from,
            to,
            suffix,
            implicit,
        } => renaming::next_op(alloc, from, to, *suffix, *implicit, second, answers),
        NameErrand::Opendir { prefix, page } => listing::next_op(alloc, prefix, *page, answers),
    }
}

/// The error that the errand ends in once it was answered so, 0 where it ends well.
pub fn errno(errand: &NameErrand, answers: &[Answer]) -> u32
    requires { IsErrand errand.now }
    ensures { result ≡ errno_of errand.now answers.now }
{
    match errand {
        NameErrand::Lookup { .. } => lookup::errno(answers),
        NameErrand::Make { .. } => making::errno(answers),
        NameErrand::Unlink { .. } => outcome_of_unlink(answers).errno(),
        NameErrand::Rmdir { path } => outcome_of_rmdir(path.as_str(), answers).errno(),
        NameErrand::Rename { .. } => outcome_of_rename(answers).errno(),
        NameErrand::Opendir { .. } => listing::errno(answers),
    }
}
