//! A request that is carried out at once, on the bucket of a mount on one thread.
ghost use Rattle.std.specs.Prelude.{◌≡◌, Bool, IfOk, OnErr};
ghost use Rattle.mount_core.specs.Bases.{HasBytes};
ghost use Rattle.mount_core.specs.Carrying.{CanRead, CarriedOut, Steps, StopsShort};
ghost use Rattle.mount_core.specs.Courses.{AsksMore, IsCourse, IsIdle};
ghost use Rattle.mount_core.specs.Errands.{wanted_of, HoldsEntries, IsErrand};
ghost use Rattle.mount_rules.specs.Plans.{answers_of};

use crate::course::{Ask, Course};
use crate::errand::Errand;
use crate::store::Store;
use io_ports::NoMemory;
use mount_state::{Base, Spare, Told};
use std::alloc::Global;

/// Carries a request out on a bucket to its end, and gives its spare the entries that it listed: what it was told, and what
/// it read of a source. `NoMemory` where memory was refused on the way, or where a bucket's most operations were made; what
/// was made until then stands.
pub(crate) fn carry_out(
    alloc: Global,
    errand: Errand,
    second: u64,
    implicit: bool,
    store: &mut Store,
    spare: &mut Spare,
) -> Result<(Told, Base), NoMemory>
    requires errand { IsErrand errand }
    requires bytes { HasBytes store.old.bucket (wanted_of errand) }
    ensures ok { IfOk result (λ came. CarriedOut errand second store.old came.0 came.1 store.new) }
    ensures entries { IfOk result (λ came. HoldsEntries errand implicit (answers_of came.0.items) spare.new.items) }
    ensures provided { spare.new.provided ≡ spare.old.provided }
    ensures err { OnErr result (StopsShort errand second store.old store.new) }
{
    let mut course = Course::new(alloc, errand, second);
    while step(alloc, &mut course, store)? {}
    let (told, base, items) = course.into_end(alloc, implicit)?;
    spare.items = items;
    Ok((told, base))
}

/// Makes what a request asks next: false where it asks nothing. A read is not counted among what is made. After `NoMemory`
/// nothing was made.
fn step(alloc: Global, course: &mut Course, store: &mut Store) -> Result<bool, NoMemory>
    requires course { IsCourse course.old }
    requires idle { IsIdle course.old.stage }
    requires bytes { CanRead course.old store.old }
    ensures ok { IfOk result (λ more. Steps more course.old course.new store.old store.new) }
    ensures course { IfOk result (λ more. IsCourse course.new × IsIdle course.new.stage) }
    ensures err { OnErr result (AsksMore course.old) }
    ensures kept { OnErr result (store.new ≡ store.old) }
{
    match course.next(alloc)? {
        Ask::Read(op) => {
            let answer = store.look(alloc, &op)?;
            course.saw(0, answer);
        }
        Ask::Make(op) => {
            let (moment, answer) = store.make(alloc, op)?;
            course.saw(moment, answer);
        }
        Ask::Nothing => return Ok(false),
    }
    Ok(true)
}
