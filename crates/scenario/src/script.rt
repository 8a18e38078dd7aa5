//! The faults that are to come.
use crate::fault::ScenarioFault;
use crate::form::Form;
use crate::items::{Gather, items, take_all};
use crate::members::{MUST, Member, needed, object};
use crate::values::{Choice, Range};
use bucket_api::{Mode, Scripted};
use io_ports::Row;
use serde_json::Value;
use std::alloc::Global;

const MEMBERS: [Member; 2] = [("moment", MUST), ("mode", MUST)];

const MODES: [(&str, Mode); 2] = [("failed", Mode::Failed), ("lost", Mode::Lost)];

const MOMENT: Range = Range {
    least: 1,
    most: 1_000_000_000,
};

/// The faults that are to come, by rising moments.
#[derive(Drop)]
pub(crate) struct Script;

impl Form for Script {
    ghost use Rattle.std.specs.Prelude.{List};
    ghost use Rattle.bucket_api.specs.declared.events.Scripted.{Scripted};
    ghost use Rattle.bucket_api.specs.Scripts.{script_of, IsScript};
    ghost use Rattle.scenario.specs.Format as format;

    type Part = Row<Scripted>;

    ghost Found = { List Scripted };

    ghost found = { λ script. script.items };

    ghost reads = { λ _. format.script };

    ghost good = { λ _ script. IsScript (script_of script) };

    fn read(&self, alloc: Global, value: &Value) -> Result<Row<Scripted>, ScenarioFault> {
        let found = items(alloc, value)?;
        let mut faults = Faults {
            faults: Vec::new(alloc),
            last: 0,
        };
        take_all(alloc, found, &mut faults)?;
        Ok(Row::from_vec(faults.faults))
    }
}

/// The faults read so far, and the moment of the last one, 0 where there is none.
#[derive(Drop)]
struct Faults {
    faults: Vec<Scripted>,
    last: u64,
}

impl Gather for Faults {
    ghost use Rattle.std.specs.Prelude.{◌≡◌, List};
    ghost use Rattle.bucket_api.specs.declared.events.Scripted.{Scripted};
    ghost use Rattle.bucket_api.specs.Scripts.{script_of, IsScript};
    ghost use Rattle.scenario.specs.Walks as walk;
    ghost use Rattle.scenario.specs.Format as format;

    ghost Known = { Unit {0} };

    ghost known = { λ _. tt };

    ghost Made = { List Scripted };

    ghost made = { λ f. f.faults.items };

    ghost step = { λ _ before d. walk.put_last before (format.planned_fault before d) };

    ghost fits = { λ f. IsScript (script_of f.faults.items) × (f.last ≡ format.last_moment f.faults.items) };

    fn take(&mut self, alloc: Global, item: &Value) -> Result<(), ScenarioFault> {
        object(alloc, item, &MEMBERS)?;
        let after = MomentAfter { last: self.last };
        let moment = needed(alloc, item, "moment", &after)?;
        let mode = needed(alloc, item, "mode", &Choice { rows: &MODES })?;
        self.faults.push(Scripted { moment, mode })?;
        self.last = moment;
        Ok(())
    }
}

/// A moment that is later than the last one.
#[derive(Drop)]
struct MomentAfter {
    last: u64,
}

impl Form for MomentAfter {
    ghost use Rattle.std.specs.Prelude.{ℕ, ◌<◌};
    ghost use Rattle.scenario.specs.Format as format;

    type Part = u64;

    ghost Found = { ℕ };

    ghost found = { λ n. n };

    ghost reads = { λ after. format.moment_after after.last };

    ghost good = { λ after n. after.last < n };

    fn read(&self, alloc: Global, value: &Value) -> Result<u64, ScenarioFault> {
        let moment = MOMENT.read(alloc, value)?;
        if moment <= self.last {
            return Err(ScenarioFault::here(alloc, 10));
        }
        Ok(moment)
    }
}
