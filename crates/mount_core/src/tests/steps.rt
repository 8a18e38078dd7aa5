//! A mount that is asked one request after the other, and what its replies are to show.
use crate::Serial;
use crate::tests::ask::Ask;
use crate::tests::told::{Told, shows};
use fuse_replies::Reply;
use fuse_replies::errno::ENOMEM;
use io_ports::NoMemory;
use std::alloc::Global;
use std::process::Abort;

/// A request and what it is told.
pub(crate) type Step<'a> = (Ask<'a>, Told<'a>);

/// Sends requests one after the other, and compares what they are told. Where memory is refused to a request that wants
/// some, it is sent once more: nothing has changed, but for the copy of a RENAME, so it is told the same, and so are those
/// behind it. So these tests also pass where any one allocation of a mount is refused.
pub(crate) fn plays<R: Abort + AllocGlobal>(
    rt: &R,
    mount: &mut Serial,
    steps: &[Step<'_>],
) -> Result<(), NoMemory> {
    for (place, step) in steps.iter().enumerate() {
        let reply = answered(rt.alloc(), mount, step.0)?;
        assert!(rt; shows(&reply, step.1), "at step {place}");
    }
    Ok(())
}

/// The reply to a request that is sent again where it was refused memory.
fn answered(alloc: Global, mount: &mut Serial, ask: Ask<'_>) -> Result<Reply, NoMemory> {
    let reply = sent(alloc, mount, ask);
    if is_refused(&reply, ask) {
        return sent(alloc, mount, ask);
    }
    reply
}

/// The reply to a request.
fn sent(alloc: Global, mount: &mut Serial, ask: Ask<'_>) -> Result<Reply, NoMemory> {
    let request = ask.request(alloc)?;
    mount.call(alloc, request)
}

/// Memory was refused to a request that may be.
fn is_refused(reply: &Result<Reply, NoMemory>, ask: Ask<'_>) -> bool {
    match reply {
        Ok(Reply::Error(errno)) => *errno == ENOMEM && ask.asks_the_bucket(),
        Ok(_) => false,
        Err(_) => ask.wants_memory(),
    }
}
