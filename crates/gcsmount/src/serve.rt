//! A stream of request frames is served to its end.
ghost use Rattle.std.specs.Prelude.{◌≡◌, ◌≤◌, ◌+◌, ℕ, List, length, take};
ghost use Rattle.mount_model.specs.Configs.{IsConfig};
ghost use Rattle.mount_model.specs.declared.config.Config.{Config};
ghost use Rattle.fuse_frames.specs.Cutter.{fed};
ghost use Rattle.gcsmount.specs.Serve.{IsComplete, Streams, longest_input};
ghost use Rattle.gcsmount.specs.Serving.{FinishesBy, HasServed, ServesTaken};

use crate::input::{LONGEST_INPUT, piece_buffer, take_piece};
use crate::serve_end::ServeEnd;
use crate::server::{end_of, serve_piece};
use bucket_plain::Plain;
use fuse_frames::FrameCutter;
use io_ports::{Failed, Sink, Source};
use mount_core::Serial;
use mount_model::Config;
use std::alloc::Global;

/// Serves the request frames of a source to its end, on a mount over an empty bucket: each whole frame is
/// answered before more input is taken. At most 65,536 bytes are asked for at once, and never more than
/// one byte past 67,108,864, which isn't cut into frames.
pub fn serve_stream<R: Source, W: Sink>(
    alloc: Global,
    config: &Config,
    source: &mut R,
    sink: &mut W,
) -> ServeEnd
    requires { IsConfig config.now }
    ensures streams { Streams config.now result (R.port source.old) (R.port source.new) (W.port sink.old) (W.port sink.new) }
    ensures complete { IsComplete result (R.port source.old) (R.port source.new) (W.port sink.old) (W.port sink.new) }
{
    serve_input(alloc, config, source, sink)
}

fn serve_input<R: Source, W: Sink>(
    alloc: Global,
    config: &Config,
    source: &mut R,
    sink: &mut W,
) -> ServeEnd
    requires { IsConfig config.now }
    ensures streams { Streams config.now result (R.port source.old) (R.port source.new) (W.port sink.old) (W.port sink.new) }
{
    let Ok(mut buffer) = piece_buffer(alloc) else {
        return ServeEnd::NoMemory;
    };
    let Ok(mut serial) = Serial::new(alloc, config, Plain::new(alloc)) else {
        return ServeEnd::NoMemory;
    };
    let mut cutter = FrameCutter::new(alloc);
    let mut taken = 0;
    loop {
        let count = match take_piece(source, buffer.as_mut_slice(), taken) {
            Err(Failed) => return ServeEnd::ReadFault,
            Ok(0) => return end_of_input(cutter),
            Ok(count) => count,
        };
        match serve_taken(
            alloc,
            &mut serial,
            &mut cutter,
            buffer.as_slice(),
            taken,
            count,
            sink,
        ) {
            Ok(()) => taken += count as u64,
            Err(end) => return end,
        }
    }
}

// Serves the bytes of one take, but for one past the longest input.
fn serve_taken<W: Sink>(
    alloc: Global,
    serial: &mut Serial,
    cutter: &mut FrameCutter,
    buffer: &[u8],
    taken: u64,
    count: usize,
    sink: &mut W,
) -> Result<(), ServeEnd>
    requires fed { fed cutter.old ≡ taken }
    requires taken { taken ≤ longest_input }
    requires buffer { count ≤ length buffer.now }
    requires bound { taken + count ≤ longest_input + 1 }
    ensures served { (config : Config) (input put : List ℕ) → taken ≡ length input → HasServed config input put cutter.old serial.old →
        ServesTaken config input put (take count buffer.now) cutter.new serial.new (W.port sink.old) (W.port sink.new) result }
{
    let counted = (LONGEST_INPUT - taken).min(count as u64) as usize;
    let (piece, _past) = buffer.split_at(counted);
    match serve_piece(alloc, serial, cutter, piece, sink) {
        Err(end) => Err(end),
        Ok(()) if counted < count => Err(ServeEnd::TooLong),
        Ok(()) => Ok(()),
    }
}

// Ends the input: a frame that it ends within is refused.
fn end_of_input(cutter: FrameCutter) -> ServeEnd
    ensures { FinishesBy cutter result }
{
    match end_of(cutter.finish()) {
        Ok(()) => ServeEnd::Ended,
        Err(end) => end,
    }
}
