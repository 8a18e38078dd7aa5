//! A scenario is read from a source and played, and its history is put into a sink.
ghost use Rattle.std.specs.Prelude.{◌≡◌, IfErr, IfOk};
ghost use Rattle.gcsmount.specs.Plays.{PlaysStream, ReadsScenario, ScenarioEndsBy, StopsReading};
ghost use Rattle.scenario.specs.Lawful.{IsLawful};

use crate::input::{InputFault, take_input};
use crate::play_end::PlayEnd;
use history_text::{WriteFault, write};
use io_ports::{Sink, Source};
use play_lanes::play;
use scenario::{Scenario, ScenarioFault};
use std::alloc::Global;

/// Plays the scenario that a source holds, and puts its history into a sink. The input is taken whole first: at most
/// 65,536 bytes at once, and never more than one byte past 67,108,864.
pub fn play_stream<R: Source, W: Sink>(alloc: Global, source: &mut R, sink: &mut W) -> PlayEnd
    ensures streams { PlaysStream result (R.port source.old) (R.port source.new) (W.port sink.old) (W.port sink.new) }
{
    match read_scenario(alloc, source) {
        Ok(scenario) => play_scenario(alloc, &scenario, sink),
        Err(end) => end,
    }
}

/// The scenario that the whole input is.
fn read_scenario<R: Source>(alloc: Global, source: &mut R) -> Result<Scenario, PlayEnd>
    ensures ok { IfOk result (λ scenario. ReadsScenario scenario (R.port source.old) (R.port source.new)) }
    ensures lawful { IfOk result (λ scenario. IsLawful scenario) }
    ensures err { IfErr result (λ end. StopsReading end (R.port source.old) (R.port source.new)) }
{
    let input = match take_input(alloc, source) {
        Ok(input) => input,
        Err(InputFault::ReadFault) => return Err(PlayEnd::ReadFault),
        Err(InputFault::NoMemory) => return Err(PlayEnd::NoMemory),
        Err(InputFault::TooLong) => return Err(PlayEnd::TooLong),
    };
    match Scenario::read(alloc, input.as_slice()) {
        Ok(scenario) => Ok(scenario),
        Err(ScenarioFault::NoMemory) => Err(PlayEnd::NoMemory),
        Err(ScenarioFault::Bad { number, place }) => Err(PlayEnd::Refused { number, place }),
    }
}

/// Plays a scenario, and puts its history.
fn play_scenario<W: Sink>(alloc: Global, scenario: &Scenario, sink: &mut W) -> PlayEnd
    requires lawful { IsLawful scenario.now }
    ensures ends { ScenarioEndsBy result scenario.now (W.port sink.old) (W.port sink.new) }
{
    let Ok(played) = play(alloc, scenario) else {
        return PlayEnd::NoMemory;
    };
    match write(alloc, sink, &played) {
        Ok(()) => PlayEnd::Played,
        Err(WriteFault::NoMemory) => PlayEnd::NoMemory,
        Err(WriteFault::Failed) => PlayEnd::WriteFault,
    }
}
