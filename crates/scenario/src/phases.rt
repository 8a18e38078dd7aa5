//! The phases of a scenario.
ghost use Rattle.std.specs.Prelude.{◌≡◌, ◌≤◌, ◌++◌, Ok, IfOk, IfErr, OnOk, length, map};
ghost use Rattle.serde_json.specs.View.{view, items_view};
ghost use Rattle.scenario.specs.Format as format;
ghost use Rattle.scenario.specs.Told.{TellsFault};
ghost use Rattle.scenario.specs.Checks as checks;
ghost use Rattle.scenario.specs.Works.{lane_of};

use crate::fault::ScenarioFault;
use crate::form::Form;
use crate::items::{Gather, items, take_all};
use crate::lane::{LaneWork, Phase};
use crate::lanes::Lanes;
use io_ports::Row;
use serde_json::Value;
use std::alloc::{AllocError, Global};

/// The most lanes of a phase.
const MOST_LANES: usize = 64;

/// The phases, in order.
#[derive(Drop)]
pub(crate) struct Phases;

impl Form for Phases {
    ghost use Rattle.std.specs.Prelude.{List, ◌≤◌};
    ghost use Rattle.scenario.specs.Parts.{Lane};
    ghost use Rattle.scenario.specs.Lawful.{ArePhases};
    ghost use Rattle.scenario.specs.Checks as checks;
    ghost use Rattle.scenario.specs.Format as format;

    type Part = Row<Phase>;

    ghost Found = { List (List Lane) };

    ghost found = { λ phases. phases.items };

    ghost reads = { λ _. format.all_phases };

    ghost good = { λ _ phases. ArePhases phases × (checks.items_in phases ≤ format.most_items) };

    fn read(&self, alloc: Global, value: &Value) -> Result<Row<Phase>, ScenarioFault> {
        let found = items(alloc, value)?;
        let mut phases = PhaseList {
            phases: Vec::new(alloc),
            counts: Vec::new(alloc),
            items: 0,
        };
        take_all(alloc, found, &mut phases)?;
        Ok(Row::from_vec(phases.phases))
    }
}

/// The phases read so far, the number of calls of each of their lanes, and the number of their items.
#[derive(Drop)]
struct PhaseList {
    phases: Vec<Phase>,
    counts: Vec<u64>,
    items: u64,
}

impl Gather for PhaseList {
    ghost use Rattle.std.specs.Prelude.{◌≡◌, ◌≤◌, List};
    ghost use Rattle.scenario.specs.Parts.{Lane};
    ghost use Rattle.scenario.specs.Lawful.{ArePhases};
    ghost use Rattle.scenario.specs.Checks as checks;
    ghost use Rattle.scenario.specs.Walks as walk;
    ghost use Rattle.scenario.specs.Format as format;

    ghost Known = { Unit {0} };

    ghost known = { λ _. tt };

    ghost Made = { List (List Lane) };

    ghost made = { λ p. p.phases.items };

    ghost step = { λ _ before d. walk.put_last before (format.phase before d) };

    ghost fits = { λ p. (p.counts.items ≡ checks.counts_of p.phases.items) × (p.items ≡ checks.items_in p.phases.items) × (p.items ≤ format.most_items) × ArePhases p.phases.items };

    fn take(&mut self, alloc: Global, item: &Value) -> Result<(), ScenarioFault> {
        let found = few_items(alloc, item)?;
        let mut lanes = Lanes {
            counts: self.counts.as_slice(),
            first: self.items,
            items: self.items,
            lanes: Vec::new(alloc),
        };
        take_all(alloc, found, &mut lanes)?;
        let Lanes { items, lanes, .. } = lanes;
        push_counts(&mut self.counts, lanes.as_slice())?;
        self.items = items;
        self.phases.push(Phase {
            lanes: Row::from_vec(lanes),
        })?;
        Ok(())
    }
}

/// The items of an array of 1 to 64 lanes.
#[tactic(auto, using(crate::proofs::Counts::items_len_view))]
fn few_items<'v>(alloc: Global, value: &'v Value) -> Result<&'v [Value], ScenarioFault>
    ensures ok { IfOk result (λ found. format.few_items (view value.now) ≡ Ok (items_view found.now)) }
    ensures err { IfErr result (λ e. TellsFault e (format.few_items (view value.now))) }
    ensures few { IfOk result (λ found. (1 ≤ length found.now) × (length found.now ≤ 64)) }
{
    let found = items(alloc, value)?;
    if found.is_empty() {
        return Err(ScenarioFault::here(alloc, 11));
    }
    if found.len() > MOST_LANES {
        return Err(ScenarioFault::here(alloc, 11));
    }
    Ok(found)
}

/// Adds the number of calls of each lane.
fn push_counts(counts: &mut Vec<u64>, lanes: &[LaneWork]) -> Result<(), AllocError>
    ensures { OnOk result (counts.new.items ≡ counts.old.items ++ map checks.calls_of (map lane_of lanes.now)) }
{
    for lane in lanes {
        counts.push(lane.calls())?;
    }
    Ok(())
}
