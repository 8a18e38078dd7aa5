//! The lanes of a phase.
ghost use Rattle.std.specs.Prelude.{◌≡◌, ◌+◌, Ok, IfOk, IfErr, map, sum_by};
ghost use Rattle.serde_json.specs.View.{view};
ghost use Rattle.scenario.specs.Checks as checks;
ghost use Rattle.scenario.specs.Format as format;
ghost use Rattle.scenario.specs.Lawful.{IsLane, StaysCounted};
ghost use Rattle.scenario.specs.Told.{TellsFault};
ghost use Rattle.scenario.specs.Works.{lane_of};

use crate::calls::Calls;
use crate::fault::ScenarioFault;
use crate::form::Form;
use crate::items::{Gather, items, take_all};
use crate::lane::LaneWork;
use crate::listed::Counted;
use crate::members::{MAY, Member, needed, object};
use crate::remote::RemoteOp;
use crate::spot::Spot;
use crate::values::Range;
use bucket_api::Op;
use io_ports::Row;
use serde_json::Value;
use std::alloc::Global;

const MEMBERS: [Member; 3] = [("calls", MAY), ("remote", MAY), ("clock", MAY)];

/// The seconds of a step of the clock.
const STEP: Range = Range {
    least: 1,
    most: 1_000_000,
};

/// The lanes of a phase, read so far.
#[derive(Drop)]
pub(crate) struct Lanes<'a> {
    /// The number of calls of each lane of the phases before.
    pub(crate) counts: &'a [u64],
    /// The items of the phases before.
    pub(crate) first: u64,
    /// Those and the items of the lanes.
    pub(crate) items: u64,
    /// The lanes.
    pub(crate) lanes: Vec<LaneWork>,
}

impl<'a> Gather for Lanes<'a> {
    ghost use Rattle.std.specs.Prelude.{◌≡◌, ◌+◌, ◌≤◌, ℕ, List, map, sum_by};
    ghost use Rattle.scenario.specs.Parts.{Lane};
    ghost use Rattle.scenario.specs.Works.{lane_of};
    ghost use Rattle.scenario.specs.Lawful.{AreLanes};
    ghost use Rattle.scenario.specs.Checks as checks;
    ghost use Rattle.scenario.specs.Walks as walk;
    ghost use Rattle.scenario.specs.Format as format;

    ghost Known = { List ℕ × ℕ };

    ghost known = { λ l. (l.counts.now, l.first) };

    ghost Made = { List Lane };

    ghost made = { λ l. map lane_of l.lanes.items };

    ghost step = { λ known before d. walk.put_last before (format.lane (checks.spot_after known.0 known.1 before) d) };

    ghost fits = { λ l. (l.items ≡ l.first + sum_by checks.items_of (map lane_of l.lanes.items)) × (l.items ≤ format.most_items) × AreLanes l.counts.now l.first (map lane_of l.lanes.items) };

    fn take(&mut self, alloc: Global, item: &Value) -> Result<(), ScenarioFault> {
        let spot = self.next_spot();
        let lane = lane(alloc, &spot, item)?;
        self.items += lane.items();
        self.lanes.push(lane)?;
        Ok(())
    }
}

impl<'a> Lanes<'a> {
    /// Where the next lane stands.
    fn next_spot(&self) -> Spot<'a>
        requires { self.now.items ≡ self.now.first + sum_by checks.items_of (map lane_of self.now.lanes.items) }
        ensures { result ≡ checks.spot_after self.now.counts.now self.now.first (map lane_of self.now.lanes.items) }
    {
        Spot {
            counts: self.counts,
            lane: self.counts.len() as u64 + self.lanes.len() as u64 + 1,
            items: self.items,
        }
    }
}

/// A lane: it has exactly one of the three kinds of work.
fn lane(alloc: Global, spot: &Spot<'_>, value: &Value) -> Result<LaneWork, ScenarioFault>
    ensures ok { IfOk result (λ work. format.lane spot.now (view value.now) ≡ Ok (lane_of work)) }
    ensures err { IfErr result (λ e. TellsFault e (format.lane spot.now (view value.now))) }
    ensures good { IfOk result (λ work. IsLane spot.now (lane_of work)) }
    ensures few { IfOk result (λ work. StaysCounted spot.now (checks.items_of (lane_of work))) }
{
    object(alloc, value, &MEMBERS)?;
    let calls = value.get("calls").is_some();
    let remote = value.get("remote").is_some();
    let clock = value.get("clock").is_some();
    match (calls, remote, clock) {
        (true, false, false) => Ok(LaneWork::Calls(needed(
            alloc,
            value,
            "calls",
            &Calls { spot },
        )?)),
        (false, true, false) => Ok(LaneWork::Remote(needed(
            alloc,
            value,
            "remote",
            &Remote { spot },
        )?)),
        (false, false, true) => Ok(LaneWork::Clock(needed(
            alloc,
            value,
            "clock",
            &Clock { spot },
        )?)),
        (false, false, false) => Err(ScenarioFault::here(alloc, 2)),
        _ => Err(ScenarioFault::here(alloc, 3)),
    }
}

/// The operations of a remote writer.
#[derive(Drop)]
struct Remote<'a> {
    spot: &'a Spot<'a>,
}

impl<'a> Form for Remote<'a> {
    ghost use Rattle.std.specs.Prelude.{List, map, length, All};
    ghost use Rattle.bucket_api.specs.Operation.{Operation, operation, IsAllowed};
    ghost use Rattle.scenario.specs.Lawful.{StaysCounted};
    ghost use Rattle.scenario.specs.Format as format;

    type Part = Row<Op>;

    ghost Found = { List Operation };

    ghost found = { λ operations. map operation operations.items };

    ghost reads = { λ r. format.all_operations r.spot.now };

    ghost good = { λ r operations. All IsAllowed operations × StaysCounted r.spot.now (length operations) };

    fn read(&self, alloc: Global, value: &Value) -> Result<Row<Op>, ScenarioFault> {
        let found = items(alloc, value)?;
        let mut operations = Counted {
            spot: self.spot,
            form: &RemoteOp,
            parts: Vec::new(alloc),
        };
        take_all(alloc, found, &mut operations)?;
        Ok(Row::from_vec(operations.parts))
    }
}

/// The steps of a clock.
#[derive(Drop)]
struct Clock<'a> {
    spot: &'a Spot<'a>,
}

impl<'a> Form for Clock<'a> {
    ghost use Rattle.std.specs.Prelude.{List, ℕ, length, All};
    ghost use Rattle.scenario.specs.Lawful.{IsStep, StaysCounted};
    ghost use Rattle.scenario.specs.Format as format;

    type Part = Row<u64>;

    ghost Found = { List ℕ };

    ghost found = { λ steps. steps.items };

    ghost reads = { λ c. format.all_steps c.spot.now };

    ghost good = { λ c steps. All IsStep steps × StaysCounted c.spot.now (length steps) };

    fn read(&self, alloc: Global, value: &Value) -> Result<Row<u64>, ScenarioFault> {
        let found = items(alloc, value)?;
        let mut steps = Counted {
            spot: self.spot,
            form: &STEP,
            parts: Vec::new(alloc),
        };
        take_all(alloc, found, &mut steps)?;
        Ok(Row::from_vec(steps.parts))
    }
}
