//! One piece of the input is cut into frames and answered.
ghost use Rattle.std.specs.Prelude.{◌≡◌, ◌≤◌, ◌+◌, ◌^◌, ℕ, List, length};
ghost use Rattle.fuse_frames.specs.Cutter.{fed};
ghost use Rattle.mount_model.specs.declared.config.Config.{Config};
ghost use Rattle.gcsmount.specs.Serving as serving;
ghost use Rattle.gcsmount.specs.Serving.{HasServed, ServesPiece};

use crate::answer::{Stop, answer_waiting};
use crate::serve_end::ServeEnd;
use fuse_frames::{CutFault, FrameCutter};
use io_ports::Sink;
use mount_core::Serial;
use std::alloc::Global;

/// Serves one more piece of the input: cuts it, and answers the frames that are whole by now.
pub(crate) fn serve_piece<W: Sink>(
    alloc: Global,
    serial: &mut Serial,
    cutter: &mut FrameCutter,
    piece: &[u8],
    sink: &mut W,
) -> Result<(), ServeEnd>
    requires { fed cutter.old + length piece.now ≤ 2 ^ 62 }
    ensures served { (config : Config) (input put : List ℕ) → HasServed config input put cutter.old serial.old →
        ServesPiece config input put piece.now cutter.new serial.new (W.port sink.old) (W.port sink.new) result }
{
    let fed = cutter.feed(piece);
    match answer_waiting(alloc, serial, cutter, sink) {
        Ok(()) => end_of(fed),
        Err(stop) => Err(end_by(stop)),
    }
}

/// The end to which a fault of cutting leads.
pub(crate) fn end_of(fed: Result<(), CutFault>) -> Result<(), ServeEnd>
    ensures { result ≡ serving.end_of fed }
{
    match fed {
        Ok(()) => Ok(()),
        Err(CutFault::NoMemory) => Err(ServeEnd::NoMemory),
        Err(CutFault::LenBelow40(place)) => Err(ServeEnd::Refused { number: 15, place }),
        Err(CutFault::LenOver(place)) => Err(ServeEnd::Refused { number: 16, place }),
        Err(CutFault::Truncated(place)) => Err(ServeEnd::Refused { number: 17, place }),
    }
}

fn end_by(stop: Stop) -> ServeEnd
    ensures { result ≡ serving.end_by stop }
{
    match stop {
        Stop::WriteFault => ServeEnd::WriteFault,
        Stop::NoMemory => ServeEnd::NoMemory,
    }
}
