//! The bucket at the start.
ghost use Rattle.std.specs.Prelude.{◌≡◌, ◌≤◌, ◌^◌, IfErr, OnOk};
ghost use Rattle.bucket_api.specs.BucketState.{BucketState, IsBucket, IsWithin};
ghost use Rattle.bucket_api.specs.BucketStep.{with_new, new_object};
ghost use Rattle.scenario.specs.Lawful.{AreParts};

use crate::fault::ScenarioFault;
use crate::form::Form;
use crate::items::{Gather, items, take_all};
use crate::members::{MAY, MUST, Member, object, optional};
use crate::object_parts::{ObjectParts, parts_of};
use crate::values::SECOND;
use bucket_api::{Meta, Object};
use bucket_plain::Plain;
use io_ports::Text;
use serde_json::Value;
use std::alloc::Global;
use std::collections::BTreeMap;

const MEMBERS: [Member; 4] = [
    ("name", MUST),
    ("hex", MAY),
    ("meta", MAY),
    ("updated", MAY),
];

/// More objects than a memory holds.
const MOST_OBJECTS: u64 = 1 << 60;

/// The bucket at the start: its objects have the generations 1, 2, .. in order.
#[derive(Drop)]
pub(crate) struct Start;

impl Form for Start {
    ghost use Rattle.std.specs.Prelude.{◌^◌, ◌-◌};
    ghost use Rattle.bucket_api.specs.BucketState.{BucketState, IsWithin};
    ghost use Rattle.scenario.specs.Format as format;

    type Part = Plain;

    ghost Found = { BucketState };

    ghost found = { λ bucket. bucket };

    ghost reads = { λ _. format.start_bucket };

    ghost good = { λ _. IsWithin (2 ^ 62 - 1) };

    fn read(&self, alloc: Global, value: &Value) -> Result<Plain, ScenarioFault> {
        let found = items(alloc, value)?;
        let mut live = Live {
            objects: BTreeMap::new(alloc),
            last: 0,
        };
        take_all(alloc, found, &mut live)?;
        Ok(Plain::from_objects(live.objects, live.last))
    }
}

/// The objects read so far, by name, and the last generation.
#[derive(Drop)]
struct Live {
    objects: BTreeMap<Text, Object>,
    last: u64,
}

impl Gather for Live {
    ghost use Rattle.std.specs.Prelude.{◌≤◌, ◌^◌};
    ghost use Rattle.bucket_api.specs.BucketState.{BucketState, IsBucket, IsWithin};
    ghost use Rattle.scenario.specs.Format as format;

    ghost Known = { Unit {0} };

    ghost known = { λ _. tt };

    ghost Made = { BucketState };

    ghost made = { λ live. record { entries = live.objects.entries; last = live.last } };

    ghost step = { λ _. format.start_object };

    ghost fits = { λ live. IsBucket (record { entries = live.objects.entries; last = live.last }) × IsWithin live.last (record { entries = live.objects.entries; last = live.last }) × (live.last ≤ 2 ^ 60) };

    fn take(&mut self, alloc: Global, item: &Value) -> Result<(), ScenarioFault> {
        object(alloc, item, &MEMBERS)?;
        let parts = parts_of(alloc, item)?;
        let updated = optional(alloc, item, "updated", 0, &SECOND)?;
        if self.objects.contains_key(&parts.name) {
            return Err(ScenarioFault::here(alloc, 8));
        }
        self.put(alloc, parts, updated)
    }
}

impl Live {
    /// Puts in an object under the next generation.
    #[tactic(auto, using(crate::proofs::Starts::bucket_next, crate::proofs::Starts::within_next))]
    fn put(&mut self, alloc: Global, parts: ObjectParts, updated: u64) -> Result<(), ScenarioFault>
        requires bucket { IsBucket (record { entries = self.old.objects.entries; last = self.old.last }) }
        requires within { IsWithin self.old.last (record { entries = self.old.objects.entries; last = self.old.last }) }
        requires parts { AreParts parts }
        ensures ok { let before : BucketState = record { entries = self.old.objects.entries; last = self.old.last } in OnOk result (with_new before parts.name (new_object before parts.name parts.content parts.pairs updated) ≡ record { entries = self.new.objects.entries; last = self.new.last }) }
        ensures bucket { OnOk result (IsBucket (record { entries = self.new.objects.entries; last = self.new.last })) }
        ensures within { OnOk result (IsWithin self.new.last (record { entries = self.new.objects.entries; last = self.new.last })) }
        ensures last { OnOk result (self.new.last ≤ 2 ^ 60) }
        ensures err { IfErr result (λ e. e ≡ ScenarioFault.NoMemory) }
    {
        if self.last >= MOST_OBJECTS {
            return Err(ScenarioFault::NoMemory);
        }
        let ObjectParts {
            name,
            content,
            pairs,
        } = parts;
        let generation = self.last + 1;
        let meta = Meta {
            name: name.copy(alloc)?,
            generation,
            metageneration: 1,
            size: content.as_slice().len() as u64,
            updated,
            pairs,
        };
        self.objects.insert(name, Object { meta, content })?;
        self.last = generation;
        Ok(())
    }
}
