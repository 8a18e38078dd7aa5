//! The lanes of a scenario, and its phases.
ghost use Rattle.std.specs.Prelude.{◌≡◌};
ghost use Rattle.scenario.specs.Checks as checks;
ghost use Rattle.scenario.specs.Works.{lane_of};

use crate::call::ScriptedCall;
use bucket_api::Op;
use io_ports::Row;
use std::marker::Model;

/// What a lane does, in order.
#[derive(Drop)]
pub enum LaneWork {
    /// It makes these calls of the mount.
    Calls(Row<ScriptedCall>),
    /// It makes these operations on the bucket, as a writer beside the mount.
    Remote(Row<Op>),
    /// It lets so many seconds pass, 1 to 1,000,000 at each step.
    Clock(Row<u64>),
}

impl LaneWork {
    /// How many items it has.
    pub(crate) fn items(&self) -> u64
        ensures { result ≡ checks.items_of (lane_of self.now) }
    {
        match self {
            LaneWork::Calls(calls) => calls.len(),
            LaneWork::Remote(operations) => operations.len(),
            LaneWork::Clock(steps) => steps.len(),
        }
    }

    /// How many calls it has.
    pub(crate) fn calls(&self) -> u64
        ensures { result ≡ checks.calls_of (lane_of self.now) }
    {
        match self {
            LaneWork::Calls(calls) => calls.len(),
            LaneWork::Remote(_) | LaneWork::Clock(_) => 0,
        }
    }
}

/// A phase: 1 to 64 lanes that run beside each other. The next phase begins when all have ended. Clauses see it as the
/// list of its lanes.
#[derive(Drop)]
pub struct Phase {
    /// The lanes. They have the numbers 1, 2, .. through all phases.
    pub lanes: Row<LaneWork>,
}

impl Model for Phase {
    ghost use Rattle.std.specs.Prelude.{List, map};
    ghost use Rattle.scenario.specs.Parts.{Lane};
    ghost use Rattle.scenario.specs.Works.{lane_of};

    ghost Value = { List Lane };

    ghost view = { λ p. map lane_of p.lanes.items };
}
