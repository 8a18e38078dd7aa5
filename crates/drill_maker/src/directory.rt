//! The lane of a drill that fills a directory.
ghost use Rattle.std.specs.Prelude.{◌≡◌, ◌∷◌, [], ◌≤◌, map, IfOk, OnOk};
ghost use Rattle.std.specs.List.{flat_map, range_with_len};
ghost use Rattle.scenario.specs.Works.{lane_of};
ghost use Rattle.drill_maker.specs.Steps.{with_steps};
ghost use Rattle.drill_maker.specs.Drill as drill;

use crate::file::{File, name_of};
use crate::lane::Lane;
use fuse_requests::Request;
use io_ports::NoMemory;
use scenario::LaneWork;
use std::alloc::Global;

/// The files that are taken away again.
const REMOVED: [u64; 4] = [4, 8, 12, 16];

/// How many calls the lane has: one for the directory, four for each of 16 files, and one for each that is taken away.
const CALLS: usize = 1 + 16 * 4 + 4;

/// The lane that makes a directory, fills its files and takes every fourth away.
pub(crate) fn directory_lane(alloc: Global, seed: u64, directory: u64) -> Result<LaneWork, NoMemory>
    requires { directory ≤ 8 }
    ensures ok { IfOk result (λ work. lane_of work ≡ drill.directory_lane seed directory) }
{
    let mut lane = Lane::new(alloc, CALLS)?;
    make_directory(alloc, &mut lane, directory)?;
    fill_files(alloc, &mut lane, seed, directory)?;
    remove_files(alloc, &mut lane, seed, directory)?;
    Ok(lane.finish())
}

/// The MKDIR of the directory, in the root.
fn make_directory(alloc: Global, lane: &mut Lane, directory: u64) -> Result<(), NoMemory>
    requires { directory ≤ 8 }
    ensures ok { OnOk result (lane.new ≡ with_steps lane.old (drill.making directory ∷ [])) }
{
    let name = name_of(alloc, "d", directory)?;
    lane.ask(alloc, &Request::Mkdir { node: 1, name }, &[])
}

/// The calls that fill its files.
fn fill_files(alloc: Global, lane: &mut Lane, seed: u64, directory: u64) -> Result<(), NoMemory>
    requires { directory ≤ 8 }
    ensures ok { OnOk result (lane.new ≡ with_steps lane.old (flat_map (drill.filling seed directory) (range_with_len 1 16))) }
{
    for number in 1..=16 {
        let file = File {
            seed,
            directory,
            number,
        };
        file.fill(alloc, lane)?;
    }
    Ok(())
}

/// The calls that take every fourth of them away.
fn remove_files(alloc: Global, lane: &mut Lane, seed: u64, directory: u64) -> Result<(), NoMemory>
    requires { directory ≤ 8 }
    ensures ok { OnOk result (lane.new ≡ with_steps lane.old (map (drill.removing directory) (4 ∷ 8 ∷ 12 ∷ 16 ∷ []))) }
{
    for number in &REMOVED {
        let file = File {
            seed,
            directory,
            number: *number,
        };
        file.remove(alloc, lane)?;
    }
    Ok(())
}
