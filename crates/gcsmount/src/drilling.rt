//! A drill is made and played, and its line is put into a sink.
ghost use Rattle.std.specs.Prelude.{IfOk};
ghost use Rattle.gcsmount.specs.Drills.{IsDrillLine, RunsDrill};

use crate::answer::put;
use drill_maker::{make, summary};
use io_ports::{NoMemory, Sink, Text};
use play_lanes::play;
use std::alloc::Global;

/// Plays the drill of a seed, puts its line, and answers the status.
pub(crate) fn run_drill<W: Sink>(alloc: Global, seed: u64, sink: &mut W) -> u8
    ensures runs { RunsDrill seed (W.port sink.old) (W.port sink.new) result }
{
    let Ok(line) = drill_line(alloc, seed) else {
        return 5;
    };
    match put(sink, line.as_str().as_bytes()) {
        Ok(()) => 0,
        Err(_) => 4,
    }
}

/// The line that tells of the drill of a seed, as it was played.
fn drill_line(alloc: Global, seed: u64) -> Result<Text, NoMemory>
    ensures ok { IfOk result (IsDrillLine seed) }
{
    let scenario = make(alloc, seed)?;
    let played = play(alloc, &scenario)?;
    summary(alloc, seed, &played)
}
