//! One table of operations and answers, tried on a bucket of one caller and on a shared one.
//!
//! The answers are those of Cloud Storage's documents on request preconditions, object metadata and listing.
ghost use Rattle.bucket_api.specs.Operation.{operation, IsAllowed};
ghost use Rattle.bucket_api.specs.Scripts.{script_of, IsScript};

use super::bodies::{Alone, Shared, Tried};
use super::operations::{copy, delete, insert, list, read, shown, stat, update};
use super::scripts::no_faults;
use bucket_api::Op;
use io_ports::NoMemory;
use std::process::Abort;
use std::sync::Wait;
use std::test::Fail;

/// Makes the operation, and compares its answer.
pub(super) fn answers<B: Tried, R: Abort + AllocGlobal + Wait>(
    rt: &R,
    body: &mut B,
    op: Op,
    expected: &str,
) -> Result<(), NoMemory>
    requires { IsAllowed (operation op) }
{
    let answer = body.ask(rt, &op)?;
    assert_eq!(rt; shown(rt.alloc(), &answer)?.as_str(), expected);
    Ok(())
}

/// A new object, and what refuses another one.
fn inserts<B: Tried, R: Abort + AllocGlobal + Wait>(rt: &R, body: &mut B) -> Result<(), NoMemory> {
    answers(rt, body, stat(rt, "f")?, "not found")?;
    answers(rt, body, insert(rt, "f", Some(1), 5)?, "precondition 0 0")?;
    answers(rt, body, insert(rt, "f", Some(0), 5)?, "f 1 1 5 at 5")?;
    answers(rt, body, insert(rt, "f", Some(0), 6)?, "precondition 1 1")
}

/// The live object as it is read and changed.
fn changes<B: Tried, R: Abort + AllocGlobal + Wait>(rt: &R, body: &mut B) -> Result<(), NoMemory> {
    answers(rt, body, read(rt, "f", 1)?, "bytes ell")?;
    answers(rt, body, read(rt, "f", 2)?, "not found")?;
    answers(rt, body, update(rt, "v", Some(1), 7)?, "f 1 2 5 at 7 k=v")?;
    answers(rt, body, update(rt, "w", Some(1), 8)?, "precondition 1 2")?;
    answers(rt, body, stat(rt, "f")?, "f 1 2 5 at 7 k=v")
}

/// Copies of the live object, and what a list shows of them.
fn copies<B: Tried, R: Abort + AllocGlobal + Wait>(rt: &R, body: &mut B) -> Result<(), NoMemory> {
    answers(rt, body, copy(rt, 2, "g", 9)?, "not found")?;
    answers(rt, body, copy(rt, 1, "d/g", 9)?, "d/g 2 1 5 at 9 k=v")?;
    answers(rt, body, list(rt, 2)?, "page f | d/ | -")?;
    answers(rt, body, list(rt, 1)?, "page | d/ | d/")
}

/// The end of the first object, after which its generation isn't given again.
fn deletes<B: Tried, R: Abort + AllocGlobal + Wait>(rt: &R, body: &mut B) -> Result<(), NoMemory> {
    answers(rt, body, delete(rt, "f", 2)?, "precondition 1 2")?;
    answers(rt, body, delete(rt, "f", 1)?, "done")?;
    answers(rt, body, delete(rt, "f", 1)?, "not found")?;
    answers(rt, body, insert(rt, "f", None, 10)?, "f 3 1 5 at 10")
}

/// The whole table.
fn all_seven<B: Tried, R: Abort + AllocGlobal + Wait>(
    rt: &R,
    body: &mut B,
) -> Result<(), NoMemory> {
    inserts(rt, body)?;
    changes(rt, body)?;
    copies(rt, body)?;
    deletes(rt, body)
}

#[test]
fn a_bucket_of_one_caller_answers_as_cloud_storage(rt: HostRuntime) -> Result<(), Fail> {
    let mut bucket = Alone::new(rt.alloc());
    all_seven(&rt, &mut bucket)?;
    Ok(())
}

#[test]
fn a_shared_bucket_answers_as_cloud_storage(rt: HostRuntime) -> Result<(), Fail> {
    let mut bucket = Shared::new(rt.alloc(), no_faults(rt.alloc()))?;
    all_seven(&rt, &mut bucket)?;
    assert_eq!(rt; bucket.faults(), 0);
    Ok(())
}
