//! A request on its way: what it asks of its bucket next, whoever its bucket is.
ghost use Rattle.std.specs.Prelude.{◌≡◌, ◌≢◌, ℕ, List, [], IfOk, OnErr};
ghost use Rattle.bucket_api.specs.Operation.{operation, read};
ghost use Rattle.mount_core.specs.Courses.{after_answer, rest, Asks, AsksMore, Awaits, FitsAnswer, IsAwaiting, IsCourse, IsIdle, IsStep};
ghost use Rattle.mount_core.specs.Errands.{HoldsEntries, IsErrand, IsFlushing, IsListing};
ghost use Rattle.mount_core.specs.declared.course.Stage.TheVariants as stages;
ghost use Rattle.mount_rules.specs.Plans.{answers_of, done, Contents};

use crate::errand::Errand;
use bucket_api::{Answer, Op};
use io_ports::{NoMemory, Row};
use mount_model::Next;
use mount_state::{Base, Told};
use object_names::DirItem;
use plan_files::insert_op;
use std::alloc::Global;
use std::mem;

/// How far a request has come.
#[derive(Clone, Copy, Debug, PartialEq, Eq)]
pub(crate) enum Stage {
    /// What it wants of a source was not asked for yet.
    Unread,
    /// What it wants of a source was asked for, from this place on.
    Reading {
        /// The place.
        first: u64,
    },
    /// What it wants was read, and no operation awaits its answer.
    Between,
    /// An operation of its errand awaits its answer.
    Asking,
    /// What it wants was not to be read, so it asks nothing more.
    Ended,
}

/// What a request asks next.
#[derive(Drop)]
pub(crate) enum Ask {
    /// The read of what it wants of a source.
    Read(Op),
    /// An operation of its errand.
    Make(Op),
    /// Nothing: it is done with the bucket.
    Nothing,
}

/// A request on its way along its errand. It reads what it wants of a source, and asks what its errand asks, one operation
/// after the other, each with room for its answer. Whoever carries it out makes the operations, on whatever bucket.
#[derive(Drop)]
pub(crate) struct Course {
    /// What is left of its errand: nothing, once the insert of a flush was asked.
    errand: Errand,
    /// The second of its take, which stamps what it makes.
    second: u64,
    stage: Stage,
    /// What was read of the source.
    base: Base,
    /// What it was told: all answers but the bytes of its source.
    told: Told,
}

impl Course {
    /// A request at its take, with what it has to do. It takes no memory.
    pub(crate) fn new(alloc: Global, errand: Errand, second: u64) -> Course
        requires { IsErrand errand }
        ensures course { IsCourse result }
        ensures errand { result.errand ≡ errand }
        ensures second { result.second ≡ second }
        ensures stage { result.stage ≡ stages.Unread }
        ensures told { result.told.items ≡ [] }
        ensures base { result.base.bytes ≡ [] }
    {
        Course {
            errand,
            second,
            stage: Stage::Unread,
            base: Base::empty(alloc),
            told: Told::new(alloc),
        }
    }

    /// The operation to make next, with room for its answer. `NoMemory` where memory for it or for its answer was refused,
    /// which comes only where there is one.
    pub(crate) fn next(&mut self, alloc: Global) -> Result<Ask, NoMemory>
        requires course { IsCourse self.old }
        requires idle { IsIdle self.old.stage }
        ensures ok { IfOk result (λ ask. Asks self.old self.new ask) }
        ensures course { IfOk result (λ ask. IsCourse self.new × Awaits self.new ask) }
        ensures err { OnErr result (AsksMore self.old) }
    {
        match self.stage {
            Stage::Unread => self.next_read(alloc),
            Stage::Between => self.next_step(alloc),
            Stage::Ended => Ok(Ask::Nothing),
            Stage::Reading { .. } | Stage::Asking => unreachable!(),
        }
    }

    /// The read of what it wants of a source; where it wants nothing, the first operation of its errand.
    fn next_read(&mut self, alloc: Global) -> Result<Ask, NoMemory>
        requires course { IsCourse self.old }
        requires unread { self.old.stage ≡ stages.Unread }
        ensures ok { IfOk result (λ ask. Asks self.old self.new ask) }
        ensures course { IfOk result (λ ask. IsCourse self.new × Awaits self.new ask) }
        ensures err { OnErr result (AsksMore self.old) }
    {
        let Some(op) = self.errand.read_op(alloc)? else {
            self.stage = Stage::Between;
            return self.next_step(alloc);
        };
        self.told.reserve()?;
        self.stage = Stage::Reading {
            first: first_of(&op),
        };
        Ok(Ask::Read(op))
    }

    /// The operation that its errand asks next.
    fn next_step(&mut self, alloc: Global) -> Result<Ask, NoMemory>
        requires course { IsCourse self.old }
        requires between { self.old.stage ≡ stages.Between }
        ensures ok { IfOk result (λ ask. Asks self.old self.new ask) }
        ensures course { IfOk result (λ ask. IsCourse self.new × Awaits self.new ask) }
        ensures step { IfOk result (λ ask. IsStep ask) }
        ensures err { OnErr result ((contents : Contents) → rest self.old contents [] ≢ done) }
    {
        if let Errand::Flush { .. } = self.errand {
            return self.next_insert();
        }
        match self
            .errand
            .next_op(alloc, self.second, self.told.answers())?
        {
            Next::Do(op) => {
                self.told.reserve()?;
                self.stage = Stage::Asking;
                Ok(Ask::Make(op))
            },
            Next::Finish => Ok(Ask::Nothing),
            Next::Insert => unreachable!(),
        }
    }

    /// The one insert of a flush. The frozen copy's own buffer becomes the content: no memory is asked for but the room of
    /// its answer.
    fn next_insert(&mut self) -> Result<Ask, NoMemory>
        requires course { IsCourse self.old }
        requires between { self.old.stage ≡ stages.Between }
        requires flush { IsFlushing self.old.errand }
        ensures ok { IfOk result (λ ask. Asks self.old self.new ask) }
        ensures course { IfOk result (λ ask. IsCourse self.new × Awaits self.new ask) }
        ensures step { IfOk result (λ ask. IsStep ask) }
        ensures err { OnErr result ((contents : Contents) → rest self.old contents [] ≢ done) }
    {
        self.told.reserve()?;
        let Errand::Flush { errand, frozen } = mem::replace(&mut self.errand, Errand::Nothing)
        else {
            unreachable!();
        };
        let content = frozen.finish(self.base.first, self.base.bytes.as_slice());
        self.stage = Stage::Asking;
        Ok(Ask::Make(insert_op(errand, self.second, content)))
    }

    /// What the operation that awaits it was answered, at its moment: it goes into the room for it, and no memory is asked
    /// for. The bytes of a source are moved.
    pub(crate) fn saw(&mut self, moment: u64, answer: Answer)
        requires course { IsCourse self.old }
        requires awaits { IsAwaiting self.old self.old.stage }
        requires fits { FitsAnswer self.old.stage self.old answer }
        ensures after { self.new ≡ after_answer self.old.stage self.old moment answer }
        ensures course { IsCourse self.new }
        ensures idle { IsIdle self.new.stage }
    {
        let Stage::Reading { first } = self.stage else {
            self.told.push(moment, answer);
            self.stage = Stage::Between;
            return;
        };
        match answer {
            Answer::Bytes(bytes) => {
                self.base = Base { first, bytes };
                self.stage = Stage::Between;
            }
            answer => {
                self.told.push(moment, answer);
                self.stage = Stage::Ended;
            }
        }
    }

    /// What it was told, what it read, and the entries of the directory that it listed. `NoMemory` where memory for these
    /// was refused, which comes only to one that lists a directory.
    pub(crate) fn into_end(
        self,
        alloc: Global,
        implicit: bool,
    ) -> Result<(Told, Base, Row<DirItem>), NoMemory>
        ensures told { IfOk result (λ end. end.0 ≡ self.told) }
        ensures base { IfOk result (λ end. end.1 ≡ self.base) }
        ensures entries { IfOk result (λ end. HoldsEntries self.errand implicit (answers_of self.told.items) end.2.items) }
        ensures err { OnErr result (IsListing self.errand) }
    {
        let Course {
            errand,
            second: _,
            stage: _,
            base,
            told,
        } = self;
        let items = errand.entries(alloc, implicit, told.answers())?;
        Ok((told, base, items))
    }
}

/// The place from which a read is made.
fn first_of(op: &Op) -> u64
    ensures { (name : List ℕ) → (generation first count : ℕ) → operation op.now ≡ read name generation first count → result ≡ first }
{
    match op {
        Op::Read { first, .. } => *first,
        _ => 0,
    }
}
