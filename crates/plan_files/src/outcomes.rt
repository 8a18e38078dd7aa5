//! What came of an errand on a file, as a value.
ghost use Rattle.std.specs.Prelude.{◌≡◌};
ghost use Rattle.mount_rules.specs.Reading as reading;
ghost use Rattle.mount_rules.specs.Requests.Flush as flush;
ghost use Rattle.mount_rules.specs.Requests.Setattr as setattr;
ghost use Rattle.mount_rules.specs.Standing as standing;
ghost use Rattle.plan_files.specs.Outcomes.{as_came, as_reads, as_standing};

use bucket_api::{Answer, Meta};
use io_ports::Row;

/// How the generation stands that a node shows.
#[derive(Drop)]
pub enum Standing {
    /// Nothing was asked.
    Unasked,
    /// It is live, as the bucket told of it.
    Live(Meta),
    /// It is live no more: another one is, or none.
    Gone,
    /// The bucket failed.
    Fault,
}

/// What the reads of a source came to.
#[derive(Clone, Copy, Debug, PartialEq, Eq)]
pub enum Reads {
    /// All were given bytes.
    Given,
    /// The generation is live no more.
    Gone,
    /// The bucket failed.
    Failed,
}

/// What came of a flush.
#[derive(Drop)]
pub enum Came {
    /// A new generation, as the bucket told of it.
    Made(Meta),
    /// None: the source is live no more.
    Stale,
    /// The bucket failed.
    Fault,
}

/// How a generation stands, by what a stat was answered, where one was made. It takes no memory.
pub fn outcome_of_stat(generation: u64, answers: Row<Answer>) -> Standing
    ensures { as_standing result ≡ standing.standing generation answers.items }
{
    let mut answers = answers.into_vec();
    if answers.is_empty() {
        return Standing::Unasked;
    }
    standing_by(generation, answers.swap_remove(0))
}

/// How a generation stands, by the answer to the stat.
fn standing_by(generation: u64, answer: Answer) -> Standing
    ensures { as_standing result ≡ standing.standing_by generation answer }
{
    match answer {
        Answer::Meta(meta) if meta.generation == generation => Standing::Live(meta),
        Answer::Meta(_) | Answer::NotFound => Standing::Gone,
        _ => Standing::Fault,
    }
}

/// What the reads came to that were answered so.
pub fn outcome_of_reads(answers: &[Answer]) -> Reads
    ensures { as_reads result ≡ reading.reads answers.now }
{
    for answer in answers {
        match answer {
            Answer::Bytes(_) => {},
            Answer::NotFound => return Reads::Gone,
            _ => return Reads::Failed,
        }
    }
    Reads::Given
}

/// How a generation stands, by what its update was answered, where one was made. It takes no memory.
pub fn outcome_of_update(answers: Row<Answer>) -> Standing
    ensures { as_standing result ≡ setattr.standing_of answers.items }
{
    let mut answers = answers.into_vec();
    if answers.is_empty() {
        return Standing::Unasked;
    }
    updated_by(answers.swap_remove(0))
}

/// How a generation stands, by the answer to its update.
fn updated_by(answer: Answer) -> Standing
    ensures { as_standing result ≡ setattr.standing_by answer }
{
    match answer {
        Answer::Meta(meta) => Standing::Live(meta),
        Answer::NotFound | Answer::Precondition { .. } => Standing::Gone,
        _ => Standing::Fault,
    }
}

/// What came of the flush that was answered so: reads of the source, and then the insert. It takes no memory.
pub fn outcome_of_flush(answers: Row<Answer>) -> Came
    ensures { as_came result ≡ flush.came_of answers.items }
{
    for answer in answers.into_vec() {
        match answer {
            Answer::Bytes(_) => {},
            Answer::Meta(meta) => return Came::Made(meta),
            Answer::NotFound | Answer::Precondition { .. } => return Came::Stale,
            _ => return Came::Fault,
        }
    }
    Came::Fault
}
