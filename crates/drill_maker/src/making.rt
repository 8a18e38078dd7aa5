//! The scenario of a drill.
ghost use Rattle.std.specs.Prelude.{◌≡◌, ◌∷◌, [], ◌++◌, ◌≤◌, map, IfOk, OnOk};
ghost use Rattle.std.specs.List.{range_with_len};
ghost use Rattle.bucket_api.specs.Operation.{operation};
ghost use Rattle.scenario.specs.Lawful.{IsLawful};
ghost use Rattle.scenario.specs.Works.{lane_of};
ghost use Rattle.drill_maker.specs.Drill as drill;
ghost use Rattle.drill_maker.specs.Steps.{with_steps};

use crate::directory::directory_lane;
use crate::lane::Lane;
use bucket_api::Op;
use bucket_plain::Plain;
use fuse_requests::Request;
use io_ports::{Bytes, NoMemory, Row, Text};
use mount_model::Config;
use scenario::{LaneWork, Phase, Scenario};
use std::alloc::Global;

/// Makes the scenario of a drill. INIT comes first, alone. Then eight lanes each make a directory, fill 16 files in it,
/// with contents whose sizes of 1 to 131,072 bytes depend on the seed, and take every fourth of them away, while a remote
/// writer puts four objects beside them. Every `seed` has a scenario; its contents take 5 to 9 MB.
///
/// `NoMemory` comes where memory for it was refused.
pub fn make(alloc: Global, seed: u64) -> Result<Scenario, NoMemory>
    ensures ok { IfOk result (λ scenario. scenario ≡ drill.drill seed) }
    ensures lawful { IfOk result (λ scenario. IsLawful scenario) }
{
    let phases = both_phases(alloc, seed)?;
    Ok(Scenario {
        config: Config::new(),
        start: Plain::new(alloc),
        script: Row::new(alloc),
        phases,
    })
}

/// The phases.
fn both_phases(alloc: Global, seed: u64) -> Result<Row<Phase>, NoMemory>
    ensures ok { IfOk result (λ phases. phases.items ≡ drill.both_phases seed) }
{
    let mut phases = Row::new(alloc);
    phases.reserve(2)?;
    phases.push(first_phase(alloc)?);
    phases.push(second_phase(alloc, seed)?);
    Ok(phases)
}

/// The phase of INIT.
fn first_phase(alloc: Global) -> Result<Phase, NoMemory>
    ensures ok { IfOk result (λ phase. phase ≡ drill.first_phase) }
{
    let mut lanes = Row::new(alloc);
    lanes.reserve(1)?;
    lanes.push(starting_lane(alloc)?);
    Ok(Phase { lanes })
}

/// The lane of INIT.
#[tactic(auto, unfolding(crate::specs::Drill::lane_doing, crate::specs::Steps::with_steps))]
fn starting_lane(alloc: Global) -> Result<LaneWork, NoMemory>
    ensures ok { IfOk result (λ work. lane_of work ≡ drill.lane_doing (drill.starting ∷ [])) }
{
    let mut lane = Lane::new(alloc, 1)?;
    start(alloc, &mut lane)?;
    Ok(lane.finish())
}

/// INIT, as a kernel of protocol 7.31 asks it.
#[tactic(auto, using(crate::proofs::WritableLaws::init_writable))]
fn start(alloc: Global, lane: &mut Lane) -> Result<(), NoMemory>
    ensures ok { OnOk result (lane.new ≡ with_steps lane.old (drill.starting ∷ [])) }
{
    let init = Request::Init {
        major: 7,
        minor: 31,
        readahead: 131_072,
        flags: u32::MAX,
    };
    lane.ask(alloc, &init, &[])
}

/// The phase of the directories and the remote writer.
fn second_phase(alloc: Global, seed: u64) -> Result<Phase, NoMemory>
    ensures ok { IfOk result (λ phase. phase ≡ drill.second_phase seed) }
{
    let mut lanes = Row::new(alloc);
    lanes.reserve(9)?;
    push_directories(alloc, &mut lanes, seed)?;
    lanes.push(remote_lane(alloc)?);
    Ok(Phase { lanes })
}

/// The lanes of the directories.
fn push_directories(alloc: Global, lanes: &mut Row<LaneWork>, seed: u64) -> Result<(), NoMemory>
    requires { 9 ≤ lanes.old.spare }
    ensures ok { OnOk result (map lane_of lanes.new.items ≡ map lane_of lanes.old.items ++ map (drill.directory_lane seed) (range_with_len 1 8)) }
    ensures spare { OnOk result (1 ≤ lanes.new.spare) }
{
    for directory in 1..=8 {
        lanes.push(directory_lane(alloc, seed, directory)?);
    }
    Ok(())
}

/// The lane of the remote writer.
fn remote_lane(alloc: Global) -> Result<LaneWork, NoMemory>
    ensures ok { IfOk result (λ work. lane_of work ≡ drill.remote_lane) }
{
    let mut operations = Row::new(alloc);
    operations.reserve(4)?;
    for number in 1..=4 {
        operations.push(remote_write(alloc, number)?);
    }
    Ok(LaneWork::Remote(operations))
}

/// The write of a new object.
fn remote_write(alloc: Global, number: u64) -> Result<Op, NoMemory>
    ensures ok { IfOk result (λ op. operation op ≡ drill.remote_write number) }
{
    let name = Text::from_string(format!(in alloc; "r/{number}")?);
    let content = Bytes::of(alloc, &[0; 10])?;
    Ok(Op::Insert {
        name,
        content,
        pairs: Row::new(alloc),
        only: None,
        stamp: 0,
    })
}
