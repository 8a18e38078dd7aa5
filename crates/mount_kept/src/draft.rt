//! What will be noted of an operation, before it is made.
ghost use Rattle.std.specs.Prelude.{◌≡◌, Some, IfOk};
ghost use Rattle.bucket_api.specs.Operation.{operation};
ghost use Rattle.bucket_api.specs.declared.answers.Answer.TheVariants as answers;
ghost use Rattle.history_spec.specs.Pasts.{shown_of};
ghost use Rattle.mount_kept.specs.Drafts.{looks, note_from, IsDraftOf};

use crate::notes::Note;
use bucket_api::{Answer, Op, Page};
use io_ports::{NoMemory, Text};
use record_spec::Shown;
use std::alloc::Global;

/// What will be noted of an operation once it is answered, with its copies made before it: so that an operation that was made
/// is always noted.
#[derive(Drop)]
pub enum Draft {
    /// That a key was looked at.
    Look {
        /// The key.
        key: Text,
    },
    /// That a name was written.
    Write {
        /// The name.
        name: Text,
    },
    /// Nothing.
    Nothing,
}

impl Draft {
    /// What will be noted of an operation. `NoMemory` where memory for its copies was refused.
    pub fn of(alloc: Global, op: &Op) -> Result<Draft, NoMemory>
        ensures ok { IfOk result (λ draft. IsDraftOf (operation op.now) draft) }
    {
        Ok(match op {
            Op::Stat { name } => Draft::Look {
                key: name.copy(alloc)?,
            },
            Op::List {
                prefix,
                slash: false,
                max: 1,
                after: None,
            } => Draft::Look {
                key: prefix.copy(alloc)?,
            },
            Op::Insert { name, .. } | Op::Update { name, .. } | Op::Delete { name, .. } => {
                Draft::Write {
                    name: name.copy(alloc)?,
                }
            }
            Op::Copy { to, .. } => Draft::Write {
                name: to.copy(alloc)?,
            },
            Op::List { .. } | Op::Read { .. } => Draft::Nothing,
        })
    }

    /// Whether it is that of a look.
    pub fn looks(&self) -> bool
        ensures { result ≡ looks self.now }
    {
        matches!(self, Draft::Look { .. })
    }

    /// The note, at the moment of the operation, where its answer showed this. It takes no memory.
    pub fn into_note(self, moment: u64, shown: Option<Shown>) -> Option<Note>
        ensures { result ≡ note_from self moment shown }
    {
        match self {
            Draft::Look { key } => Some(match shown {
                Some(shown) => Note::Saw { key, moment, shown },
                None => Note::Failed { moment },
            }),
            Draft::Write { name } => Some(Note::Wrote { name, moment }),
            Draft::Nothing => None,
        }
    }
}

/// A copy of what an answer to a look shows; nothing where the look failed. `NoMemory` where memory for it was refused.
pub fn copy_shown(alloc: Global, answer: &Answer) -> Result<Option<Shown>, NoMemory>
    ensures ok { IfOk result (λ shown. shown ≡ shown_of answer.now) }
{
    Ok(match answer {
        Answer::Meta(meta) => Some(Shown::Object(meta.copy(alloc)?)),
        Answer::Page(page) => Some(shown_by(page)),
        Answer::NotFound => Some(Shown::Absent),
        Answer::Done => Some(Shown::Present),
        Answer::Bytes(_) | Answer::Precondition { .. } | Answer::Fault => None,
    })
}

/// What an answer to a look shows, moved out of it; nothing where the look failed. It takes no memory.
pub fn into_shown(answer: Answer) -> Option<Shown>
    ensures { result ≡ shown_of answer }
{
    match answer {
        Answer::Meta(meta) => Some(Shown::Object(meta)),
        Answer::Page(page) => Some(shown_by(&page)),
        Answer::NotFound => Some(Shown::Absent),
        Answer::Done => Some(Shown::Present),
        Answer::Bytes(_) | Answer::Precondition { .. } | Answer::Fault => None,
    }
}

/// What the page of a probe shows: a directory where any name begins with its prefix.
fn shown_by(page: &Page) -> Shown
    ensures { Some result ≡ shown_of (answers.Page page.now) }
{
    if page.items.len() > 0 {
        Shown::Present
    } else {
        Shown::Absent
    }
}
