//! The calls of a lane.
ghost use Rattle.std.specs.Prelude.{◌≡◌, Ok, IfOk, IfErr};
ghost use Rattle.serde_json.specs.View.{view};
ghost use Rattle.scenario.specs.Lawful.{IsCall};
ghost use Rattle.scenario.specs.Told.{TellsFault};
ghost use Rattle.scenario.specs.Format as format;

use crate::call::ScriptedCall;
use crate::fault::ScenarioFault;
use crate::fixups::{Fixup, Fixups};
use crate::form::Form;
use crate::items::{Gather, items, take_all};
use crate::members::{MAY, MUST, Member, needed, object, optional};
use crate::spot::Spot;
use crate::values::Frame;
use io_ports::Row;
use serde_json::Value;
use std::alloc::Global;

const MEMBERS: [Member; 2] = [("frame", MUST), ("fix", MAY)];

/// The calls of a lane.
#[derive(Drop)]
pub(crate) struct Calls<'a> {
    pub(crate) spot: &'a Spot<'a>,
}

impl<'a> Form for Calls<'a> {
    ghost use Rattle.std.specs.Prelude.{List, length};
    ghost use Rattle.scenario.specs.Parts.{Call};
    ghost use Rattle.scenario.specs.Lawful.{AreCalls, StaysCounted};
    ghost use Rattle.scenario.specs.Format as format;

    type Part = Row<ScriptedCall>;

    ghost Found = { List Call };

    ghost found = { λ calls. calls.items };

    ghost reads = { λ c. format.all_calls c.spot.now };

    ghost good = { λ c calls. AreCalls c.spot.now calls × StaysCounted c.spot.now (length calls) };

    fn read(&self, alloc: Global, value: &Value) -> Result<Row<ScriptedCall>, ScenarioFault> {
        let found = items(alloc, value)?;
        let mut calls = CallList {
            spot: self.spot,
            calls: Vec::new(alloc),
        };
        take_all(alloc, found, &mut calls)?;
        Ok(Row::from_vec(calls.calls))
    }
}

/// The calls read so far.
#[derive(Drop)]
struct CallList<'a> {
    spot: &'a Spot<'a>,
    calls: Vec<ScriptedCall>,
}

impl<'a> Gather for CallList<'a> {
    ghost use Rattle.std.specs.Prelude.{List, ◌+◌, length};
    ghost use Rattle.scenario.specs.Parts.{Call};
    ghost use Rattle.scenario.specs.Lawful.{AreCalls, StaysCounted};
    ghost use Rattle.scenario.specs.Checks.{Spot};
    ghost use Rattle.scenario.specs.Walks as walk;
    ghost use Rattle.scenario.specs.Format as format;

    ghost Known = { Spot };

    ghost known = { λ c. c.spot.now };

    ghost Made = { List Call };

    ghost made = { λ c. c.calls.items };

    ghost step = { λ spot before d. walk.put_last before (format.counted spot (λ calls. format.call spot (length calls + 1)) before d) };

    ghost fits = { λ c. AreCalls c.spot.now c.calls.items × StaysCounted c.spot.now (length c.calls.items) };

    #[tactic(auto, using(crate::proofs::Growing::each_push))]
    fn take(&mut self, alloc: Global, item: &Value) -> Result<(), ScenarioFault> {
        self.spot.count(alloc, self.calls.len())?;
        let index = self.calls.len() as u64 + 1;
        let call = call_at(alloc, self.spot, index, item)?;
        self.calls.push(call)?;
        Ok(())
    }
}

/// The call of this index.
fn call_at(
    alloc: Global,
    spot: &Spot<'_>,
    index: u64,
    value: &Value,
) -> Result<ScriptedCall, ScenarioFault>
    ensures ok { IfOk result (λ call. format.call spot.now index (view value.now) ≡ Ok call) }
    ensures err { IfErr result (λ e. TellsFault e (format.call spot.now index (view value.now))) }
    ensures good { IfOk result (λ call. IsCall spot.now index call) }
{
    object(alloc, value, &MEMBERS)?;
    let frame = needed(alloc, value, "frame", &Frame)?;
    let size = frame.as_slice().len() as u64;
    let each = Fixup { spot, index, size };
    let fixes = optional(alloc, value, "fix", Row::new(alloc), &Fixups { each })?;
    Ok(ScriptedCall { frame, fixes })
}
