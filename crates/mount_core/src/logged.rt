//! A request that is carried out on a bucket with its log and scripted faults, and by what records tell.
ghost use Rattle.std.specs.Prelude.{◌≡◌, ◌≤◌, ◌++◌, [], true, IfOk, OnOk, OnErr};
ghost use Rattle.std.specs.List.{cons_option};
ghost use Rattle.bucket_api.specs.Operation.{operation, IsAllowed};
ghost use Rattle.history_spec.specs.JournalState.{OpenCall};
ghost use Rattle.mount_core.specs.Bases.{HasBytes};
ghost use Rattle.history_spec.specs.Pasts.{shown_of};
ghost use Rattle.mount_core.specs.Courses.{IsAwaiting, IsCourse, IsIdle};
ghost use Rattle.mount_core.specs.Errands.{wanted_of, HoldsEntries, IsErrand};
ghost use Rattle.mount_core.specs.Logged.{bucket_now, CanRead, FitsNext, IsCarried, IsErrandOf, IsOfBucket, IsServed, Makes, StepsBy, StopsBy, StopsMade, StopsShort};
ghost use Rattle.mount_kept.specs.Drafts.{looks, note_from};
ghost use Rattle.mount_rules.specs.Mount.{IsMount, MountModel};
ghost use Rattle.mount_rules.specs.Plans.{answers_of};

use crate::course::{Ask, Course};
use crate::errand::Errand;
use bucket_api::{Answer, Op};
use io_ports::{NoMemory, Row};
use logged_bucket::LoggedBucket;
use mount_kept::{Draft, Found, Note, Notes, copy_shown, into_shown};
use mount_state::{Base, Told};
use object_names::DirItem;
use record_spec::Shown;
use std::alloc::Global;

/// Carries a request out on a bucket to its end, as a call of this lane, where what was found at its take serves its looks: what
/// it was told, what it read of a source, and the entries that it listed. What it does is noted. `NoMemory` where memory was
/// refused on the way, or where the log is full; what was made until then stands, and is noted.
pub(crate) fn carry_logged(
    alloc: Global,
    errand: Errand,
    second: u64,
    implicit: bool,
    lane: u64,
    mut found: Found,
    bucket: &mut LoggedBucket,
    notes: &mut Notes,
) -> Result<(Told, Base, Row<DirItem>), NoMemory>
    requires errand { IsErrand errand }
    requires bucket { IsOfBucket bucket.old }
    requires bytes { HasBytes (bucket_now bucket.old) (wanted_of errand) }
    requires none { notes.old.items ≡ [] }
    ensures ok { IfOk result (λ came. (mount : MountModel) (o : OpenCall) → IsMount mount → IsErrandOf errand second lane mount bucket.old o → IsServed found mount bucket.old o → IsCarried mount found bucket.old bucket.new o came.0 came.1 notes.new.items) }
    ensures bucket { IsOfBucket bucket.new }
    ensures entries { IfOk result (λ came. HoldsEntries errand implicit (answers_of came.0.items) came.2.items) }
    ensures err { OnErr result ((mount : MountModel) (o : OpenCall) → IsMount mount → IsErrandOf errand second lane mount bucket.old o → IsServed found mount bucket.old o → StopsShort mount found bucket.old bucket.new o notes.new.items) }
{
    let mut course = Course::new(alloc, errand, second);
    while step(alloc, lane, &mut course, &mut found, bucket, notes)? {}
    let (told, base, items) = course.into_end(alloc, implicit)?;
    Ok((told, base, items))
}

/// Does what a request asks next: a look is served by what was found of its key, and anything else is made as an event of this
/// lane; false where it asks nothing. It is noted. After `NoMemory` nothing was made, or a look, which is noted.
fn step(
    alloc: Global,
    lane: u64,
    course: &mut Course,
    found: &mut Found,
    bucket: &mut LoggedBucket,
    notes: &mut Notes,
) -> Result<bool, NoMemory>
    requires course { IsCourse course.old }
    requires idle { IsIdle course.old.stage }
    requires bucket { IsOfBucket bucket.old }
    requires bytes { CanRead course.old bucket.old }
    ensures ok { IfOk result (λ more. StepsBy more lane course.old course.new found.old found.new bucket.old bucket.new notes.old.items notes.new.items) }
    ensures course { IfOk result (λ more. IsCourse course.new × IsIdle course.new.stage) }
    ensures bucket { IsOfBucket bucket.new }
    ensures err { OnErr result (StopsBy lane course.old found.old bucket.old bucket.new notes.old.items notes.new.items) }
{
    let op = match course.next(alloc)? {
        Ask::Read(op) | Ask::Make(op) => op,
        Ask::Nothing => return Ok(false),
    };
    notes.reserve()?;
    let Some(recall) = found.take(&op) else {
        make(alloc, lane, op, course, bucket, notes)?;
        return Ok(true);
    };
    let (moment, answer) = recall.into_answer();
    notes.push(Note::Recalled { moment });
    course.saw(moment, answer);
    Ok(true)
}

/// Makes what was asked as an event of this lane, and notes it. After `NoMemory` nothing was made, or a look, which is noted.
fn make(
    alloc: Global,
    lane: u64,
    op: Op,
    course: &mut Course,
    bucket: &mut LoggedBucket,
    notes: &mut Notes,
) -> Result<(), NoMemory>
    requires course { IsCourse course.old }
    requires awaits { IsAwaiting course.old course.old.stage }
    requires bucket { IsOfBucket bucket.old }
    requires fits { FitsNext lane course.old (operation op) bucket.old }
    requires allowed { IsAllowed (operation op) }
    requires room { 1 ≤ notes.old.spare }
    ensures ok { OnOk result (Makes lane (operation op) course.old course.new bucket.old bucket.new notes.old.items notes.new.items) }
    ensures course { OnOk result (IsCourse course.new × IsIdle course.new.stage) }
    ensures bucket { IsOfBucket bucket.new }
    ensures err { OnErr result (StopsMade lane (operation op) bucket.old bucket.new notes.old.items notes.new.items) }
{
    let draft = Draft::of(alloc, &op)?;
    let (moment, answer) = bucket.act(alloc, lane, op)?;
    let Ok(shown) = shown_to(&draft, alloc, &answer) else {
        note(notes, draft, moment, into_shown(answer));
        return Err(NoMemory);
    };
    note(notes, draft, moment, shown);
    course.saw(moment, answer);
    Ok(())
}

/// A copy of what an answer shows, where it is that of a look. `NoMemory` where memory for it was refused, which comes only to a
/// look.
fn shown_to(draft: &Draft, alloc: Global, answer: &Answer) -> Result<Option<Shown>, NoMemory>
    ensures ok { IfOk result (λ shown. looks draft.now ≡ true → shown ≡ shown_of answer.now) }
    ensures err { OnErr result (looks draft.now ≡ true) }
{
    if draft.looks() {
        return copy_shown(alloc, answer);
    }
    Ok(None)
}

/// Notes an operation at a moment, whose answer showed this.
fn note(notes: &mut Notes, draft: Draft, moment: u64, shown: Option<Shown>)
    requires { 1 ≤ notes.old.spare }
    ensures { notes.new.items ≡ notes.old.items ++ cons_option (note_from draft moment shown) [] }
{
    if let Some(note) = draft.into_note(moment, shown) {
        notes.push(note);
    }
}
