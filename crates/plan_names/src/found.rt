//! What came of an errand on names, as a value.
ghost use Rattle.std.specs.Prelude.{◌≡◌};
ghost use Rattle.mount_rules.specs.Making as making;
ghost use Rattle.mount_rules.specs.Requests.Lookup as lookup;
ghost use Rattle.plan_names.specs.Outcomes.{as_found, as_made};
ghost use Rattle.plan_names.specs.Telling.{told};

use crate::lookup::{Probed, probe_outcome};
use bucket_api::{Answer, Meta};
use io_ports::Row;

/// What a look-up found.
#[derive(Drop)]
pub enum Found {
    /// The directory of the path.
    Directory,
    /// The object of the path, as the bucket told of it.
    Object(Meta),
    /// Neither.
    Nothing,
    /// The bucket failed.
    Fault,
}

/// What came of making an object.
#[derive(Drop)]
pub enum Made {
    /// The object, as the bucket told of it.
    New(Meta),
    /// An object of the name was live.
    Exists,
    /// The bucket failed.
    Fault,
}

/// What a look-up found that was answered so. It takes no memory.
pub fn outcome_of_lookup(answers: Row<Answer>) -> Found
    ensures { as_found result ≡ lookup.found answers.items }
{
    let mut answers = answers.into_vec();
    if answers.len() >= 2 {
        return found_at(answers.swap_remove(1));
    }
    match answers.pop() {
        Some(probe) => found_by(probe_outcome(&probe)),
        None => Found::Fault,
    }
}

/// What a look-up found that the probe ended.
fn found_by(probed: Probed) -> Found
    ensures { as_found result ≡ lookup.found_by (told probed) }
{
    match probed {
        Probed::Present => Found::Directory,
        Probed::Absent => Found::Nothing,
        Probed::Failed => Found::Fault,
    }
}

/// What a look-up found that the stat ended.
fn found_at(answer: Answer) -> Found
    ensures { as_found result ≡ lookup.found_at answer }
{
    match answer {
        Answer::Meta(meta) => Found::Object(meta),
        Answer::NotFound => Found::Nothing,
        _ => Found::Fault,
    }
}

/// What came of making an object that was answered so. It takes no memory.
pub fn outcome_of_insert(answers: Row<Answer>) -> Made
    ensures { as_made result ≡ making.made answers.items }
{
    let mut answers = answers.into_vec();
    if answers.is_empty() {
        return Made::Fault;
    }
    made_by(answers.swap_remove(0))
}

/// What came of the insert.
fn made_by(answer: Answer) -> Made
    ensures { as_made result ≡ making.made_by answer }
{
    match answer {
        Answer::Meta(meta) => Made::New(meta),
        Answer::Precondition { .. } => Made::Exists,
        _ => Made::Fault,
    }
}
