//! The making of an object where none is live.
ghost use Rattle.std.specs.Prelude.{◌≡◌, ◌≢◌, IfOk, OnErr};
ghost use Rattle.bucket_api.specs.Metadata.{KeysRise};
ghost use Rattle.bucket_api.specs.Names.{IsObjectName};
ghost use Rattle.mount_model.specs.Observing.{next_step};
ghost use Rattle.mount_rules.specs.Making as spec;
ghost use Rattle.mount_rules.specs.Plans.{done};
ghost use Rattle.plan_names.specs.Errands.{next_of, MayMake};

use bucket_api::{Answer, Op, Pair, copy_pairs};
use fuse_replies::errno::{EEXIST, EIO};
use io_ports::{Bytes, NoMemory, Row, Text};
use mount_model::Next;
use std::alloc::Global;

/// What making an object asks next: the one insert.
pub(crate) fn next_op(
    alloc: Global,
    name: &Text,
    pairs: &Row<Pair>,
    second: u64,
    answers: &[Answer],
) -> Result<Next, NoMemory>
    requires name { IsObjectName name.now }
    requires pairs { KeysRise pairs.now.items }
    ensures ok { IfOk result (λ next. next_step next ≡ next_of (spec.plan name.now pairs.now.items second answers.now)) }
    ensures may { IfOk result (λ next. MayMake (next_step next)) }
    ensures err { OnErr result (spec.plan name.now pairs.now.items second answers.now ≢ done) }
{
    if !answers.is_empty() {
        return Ok(Next::Finish);
    }
    Ok(Next::Do(Op::Insert {
        name: name.copy(alloc)?,
        content: Bytes::of(alloc, &[])?,
        pairs: copy_pairs(alloc, pairs)?,
        only: Some(0),
        stamp: second,
    }))
}

/// The error of a request that was to make an object, and was answered so.
pub(crate) fn errno(answers: &[Answer]) -> u32
    ensures { result ≡ spec.errno_of (spec.made answers.now) }
{
    match answers {
        [Answer::Meta(_), ..] => 0,
        [Answer::Precondition { .. }, ..] => EEXIST,
        _ => EIO,
    }
}
