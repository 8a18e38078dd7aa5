//! Frames are answered: each request is performed, and the frame of its reply put.
ghost use Rattle.std.specs.Prelude.{◌≡◌, ◌∷◌, [], IfOk, IfErr, OnOk, OnErr};
ghost use Rattle.std.specs.Io.KnownBytes.{Appends};
ghost use Rattle.fuse_frames.specs.Cutter.{place};
ghost use Rattle.fuse_head.specs.Head.{IsWholeFrame};
ghost use Rattle.fuse_requests.specs.Grammar.{without_spare, request_of};
ghost use Rattle.io_ports.specs.Faults.{Rose};
ghost use Rattle.io_ports.specs.Streams.{AppendsPrefix};
ghost use Rattle.gcsmount.specs.Answers.{Answers, ServesFrames};

use fuse_frames::FrameCutter;
use fuse_head::head_of;
use fuse_replies::write_reply;
use fuse_requests::{BodyFault, Request, read_request};
use io_ports::{Bytes, Failed, NoMemory, Sink};
use mount_core::Serial;
use std::alloc::Global;

/// Why no further frame is answered.
#[derive(Clone, Copy, Debug, PartialEq, Eq)]
pub(crate) enum Stop {
    /// The sink failed.
    WriteFault,
    /// Memory was refused.
    NoMemory,
}

/// Answers one frame: performs its request and puts the frame of the reply, if there is one.
pub(crate) fn answer<W: Sink>(
    alloc: Global,
    serial: &mut Serial,
    frame: &[u8],
    sink: &mut W,
) -> Result<(), Stop>
    requires { IsWholeFrame frame.now }
    ensures answers { Answers serial.old serial.new (frame.now ∷ []) (W.port sink.old) (W.port sink.new) result }
{
    match reply_to(alloc, serial, frame) {
        Ok(text) => put(sink, text.as_slice()),
        Err(NoMemory) => Err(Stop::NoMemory),
    }
}

/// Answers the frames that wait in the cutter, in order.
pub(crate) fn answer_waiting<W: Sink>(
    alloc: Global,
    serial: &mut Serial,
    cutter: &mut FrameCutter,
    sink: &mut W,
) -> Result<(), Stop>
    ensures answers { Answers serial.old serial.new cutter.old.held (W.port sink.old) (W.port sink.new) result }
    ensures cutter { OnOk result (cutter.new ≡ record cutter.old { given = place cutter.old; held = [] }) }
{
    while let Some(frame) = cutter.next() {
        match answer(alloc, serial, frame.as_slice(), sink) {
            Ok(()) => {}
            Err(stop) => return Err(stop),
        }
    }
    Ok(())
}

// Performs the request of a frame, and writes the frame of its reply.
fn reply_to(alloc: Global, serial: &mut Serial, frame: &[u8]) -> Result<Bytes, NoMemory>
    requires { IsWholeFrame frame.now }
    ensures ok { IfOk result (λ text. ServesFrames serial.old (frame.now ∷ []) text serial.new) }
    ensures config { serial.new.config ≡ serial.old.config }
{
    let request = request_in(alloc, frame)?;
    let reply = serial.call(alloc, request)?;
    write_reply(alloc, head_of(frame).unique, &reply)
}

// What a whole frame asks: an unknown request of its opcode where its body is outside the grammar.
fn request_in(alloc: Global, frame: &[u8]) -> Result<Request, NoMemory>
    requires { IsWholeFrame frame.now }
    ensures ok { IfOk result (λ request. without_spare request ≡ request_of frame.now) }
{
    match read_request(alloc, frame) {
        Ok(request) => Ok(request),
        Err(BodyFault::NoMemory) => Err(NoMemory),
        Err(_) => Ok(Request::Unknown {
            opcode: head_of(frame).opcode,
        }),
    }
}

/// Puts the bytes, if there are any.
pub(crate) fn put<W: Sink>(sink: &mut W, bytes: &[u8]) -> Result<(), Stop>
    ensures ok { OnOk result (Appends (W.port sink.old).bytes (W.port sink.new).bytes bytes.now) }
    ensures err { OnErr result (AppendsPrefix (W.port sink.old).bytes (W.port sink.new).bytes bytes.now) }
    ensures failed { IfErr result (λ stop. (stop ≡ Stop.WriteFault) × Rose (W.port sink.old).faults (W.port sink.new).faults) }
    ensures kept { OnOk result ((W.port sink.new).faults ≡ (W.port sink.old).faults) }
{
    if bytes.is_empty() {
        return Ok(());
    }
    match sink.put(bytes) {
        Ok(()) => Ok(()),
        Err(Failed) => Err(Stop::WriteFault),
    }
}
