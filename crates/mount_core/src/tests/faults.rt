//! What faults do that a script sets.
ghost use Rattle.std.specs.Prelude.{IfOk};
ghost use Rattle.bucket_api.specs.Scripts.{script_of, IsScript};

use crate::tests::ask::Ask::{Flush, Init, Lookup, Open, Rename, Write};
use crate::tests::holding;
use crate::tests::lone::{Move, Setting, moved};
use crate::tests::told::Told;
use crate::tests::told::Told::{Agreed, Done, Errno, File, Fresh, Opened, Wrote};
use bucket_api::{Mode, Scripted};
use io_ports::{NoMemory, Row};
use std::process::Abort;
use std::test::Fail;

/// A fault of a script: its moment, and whether the operation has its effect all the same.
type Fault = (u64, bool);

/// Each look is made anew.
const NO_LIFETIME: Setting = Setting {
    lifetime: 0,
    capacity: 1000,
    implicit: false,
};

/// A script of this fault.
fn script_with<R: Abort + AllocGlobal>(rt: &R, fault: Fault) -> Result<Row<Scripted>, NoMemory>
    ensures { IfOk result (λ script. IsScript (script_of script.items)) }
{
    let (moment, lost) = fault;
    assert!(rt; moment > 0);
    let mut script = Row::new(rt.alloc());
    script.reserve(1)?;
    let mode = if lost { Mode::Lost } else { Mode::Failed };
    script.push(Scripted { moment, mode });
    Ok(script)
}

/// With one fault, all moves are told so, and by then so many generations were given and so many events made.
fn fails<R: Abort + AllocGlobal>(
    rt: &R,
    fault: Fault,
    all: &[Move<'_>],
    expected: (u64, u64),
) -> Result<(), NoMemory> {
    let script = script_with(rt, fault)?;
    let lone = moved(rt, NO_LIFETIME, holding(rt, &[])?, script, all)?;
    let (bucket, log, _journal) = lone.finish();
    assert_eq!(rt;
        (bucket.last(), log.len()),
        expected,
        "with a fault at {}",
        fault.0
    );
    Ok(())
}

/// A fault at each operation of a RENAME of `f` to `g`: what look-ups of both are told then, the last generation, and how
/// many events there are.
const RENAMES: &[(Fault, Told<'static>, Told<'static>, (u64, u64))] = &[
    ((4, false), File(2), Errno(2), (1, 8)),
    ((4, true), File(2), Errno(2), (1, 8)),
    ((5, false), File(2), Errno(2), (1, 9)),
    ((5, true), File(2), Errno(2), (1, 9)),
    ((6, false), File(2), Errno(2), (1, 10)),
    ((6, true), File(2), Fresh(3, 5), (2, 10)),
    ((7, false), File(2), Fresh(3, 5), (2, 11)),
    ((7, true), Errno(2), Fresh(3, 5), (2, 11)),
];

#[test]
fn a_rename_fails_at_each_of_its_operations(rt: HostRuntime) -> Result<(), Fail> {
    for (fault, old, new, expected) in RENAMES {
        let all = [
            Move::Put("f"),
            Move::Call((Init, Agreed)),
            Move::Call((Lookup(1, "f"), File(2))),
            Move::Call((Rename(1, "f", 1, "g"), Errno(5))),
            Move::Call((Lookup(1, "f"), *old)),
            Move::Call((Lookup(1, "g"), *new)),
        ];
        fails(&rt, *fault, &all, *expected)?;
    }
    Ok(())
}

/// A fault at the read of a WRITE, and at the insert of its flush: what the WRITE, its FLUSH and one more FLUSH are told, the
/// last generation, and how many events there are.
const FLUSHES: &[(
    Fault,
    Told<'static>,
    Told<'static>,
    Told<'static>,
    (u64, u64),
)] = &[
    ((5, false), Errno(5), Done, Done, (1, 5)),
    ((5, true), Errno(5), Done, Done, (1, 5)),
    ((6, false), Wrote(1), Errno(5), Done, (2, 7)),
    ((6, true), Wrote(1), Errno(5), Errno(116), (2, 7)),
];

#[test]
fn a_flush_fails_at_each_of_its_operations(rt: HostRuntime) -> Result<(), Fail> {
    for (fault, write, first, again, expected) in FLUSHES {
        let all = [
            Move::Put("f"),
            Move::Call((Init, Agreed)),
            Move::Call((Lookup(1, "f"), File(2))),
            Move::Call((Open(2), Opened(1))),
            Move::Call((Write(2, 1, 0, "H"), *write)),
            Move::Call((Flush(2, 1), *first)),
            Move::Call((Flush(2, 1), *again)),
        ];
        fails(&rt, *fault, &all, *expected)?;
    }
    Ok(())
}
