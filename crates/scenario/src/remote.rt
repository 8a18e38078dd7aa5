//! Remote operations.
ghost use Rattle.std.specs.Prelude.{◌≡◌, Ok, IfErr, OnOk};
ghost use Rattle.serde_json.specs.View.{view};
ghost use Rattle.bucket_api.specs.Operation.{operation, IsAllowed};
ghost use Rattle.scenario.specs.Lawful.{AreParts};
ghost use Rattle.scenario.specs.Told.{TellsFault};
ghost use Rattle.scenario.specs.Format as format;
ghost use Rattle.scenario.specs.Walks as walk;

use crate::fault::ScenarioFault;
use crate::form::Form;
use crate::members::{MAY, MUST, Member, needed, object, optional};
use crate::object_parts::{ObjectParts, parts_of};
use crate::values::{Choice, Range, SECOND};
use bucket_api::Op;
use serde_json::Value;
use std::alloc::Global;

/// What a remote writer does.
#[derive(Clone, Copy)]
pub(crate) enum Act {
    /// It makes a new content.
    Write,
    /// It adds pairs to the live object's metadata, or puts them in their places.
    Update,
    /// It takes the live object away.
    Delete,
}

const ACTS: [(&str, Act); 3] = [
    ("write", Act::Write),
    ("update", Act::Update),
    ("delete", Act::Delete),
];

const WRITE: [Member; 6] = [
    ("act", MUST),
    ("name", MUST),
    ("hex", MAY),
    ("meta", MAY),
    ("only", MAY),
    ("stamp", MAY),
];

const UPDATE: [Member; 5] = [
    ("act", MUST),
    ("name", MUST),
    ("meta", MAY),
    ("only", MAY),
    ("stamp", MAY),
];

const DELETE: [Member; 3] = [("act", MUST), ("name", MUST), ("only", MAY)];

/// A remote operation.
#[derive(Drop)]
pub(crate) struct RemoteOp;

impl Form for RemoteOp {
    ghost use Rattle.bucket_api.specs.Operation.{Operation, operation, IsAllowed};
    ghost use Rattle.scenario.specs.Format as format;

    type Part = Op;

    ghost Found = { Operation };

    ghost found = { operation };

    ghost reads = { λ _. format.remote_operation };

    ghost good = { λ _. IsAllowed };

    fn read(&self, alloc: Global, value: &Value) -> Result<Op, ScenarioFault> {
        test_members(alloc, value)?;
        let act = needed(alloc, value, "act", &Choice { rows: &ACTS })?;
        let parts = parts_of(alloc, value)?;
        let only = optional(alloc, value, "only", None, &Only)?;
        let stamp = optional(alloc, value, "stamp", 0, &SECOND)?;
        Ok(op_by(act, parts, only, stamp))
    }
}

/// Tests the members by the act. Where there is none, or one that isn't known, they may be those of a write.
fn test_members(alloc: Global, value: &Value) -> Result<(), ScenarioFault>
    ensures ok { OnOk result (walk.object (format.members_for (format.act_in (view value.now))) (view value.now) ≡ Ok (view value.now)) }
    ensures err { IfErr result (λ e. TellsFault e (walk.object (format.members_for (format.act_in (view value.now))) (view value.now))) }
{
    match act_in(value) {
        Some(Act::Update) => object(alloc, value, &UPDATE),
        Some(Act::Delete) => object(alloc, value, &DELETE),
        Some(Act::Write) => object(alloc, value, &WRITE),
        None => object(alloc, value, &WRITE),
    }
}

/// The act, where it is one of the known ones.
fn act_in(value: &Value) -> Option<Act>
    ensures { result ≡ format.act_in (view value.now) }
{
    let Some(act) = value.get("act") else {
        return None;
    };
    let Some(word) = act.as_str() else {
        return None;
    };
    match word {
        "write" => Some(Act::Write),
        "update" => Some(Act::Update),
        "delete" => Some(Act::Delete),
        _ => None,
    }
}

/// The operation of an act.
fn op_by(act: Act, parts: ObjectParts, only: Option<u64>, stamp: u64) -> Op
    requires { AreParts parts }
    ensures is { operation result ≡ format.operation_by act parts only stamp }
    ensures allowed { IsAllowed (operation result) }
{
    let ObjectParts {
        name,
        content,
        pairs,
    } = parts;
    match act {
        Act::Write => Op::Insert {
            name,
            content,
            pairs,
            only,
            stamp,
        },
        Act::Update => Op::Update {
            name,
            pairs,
            only,
            only_meta: None,
            stamp,
        },
        Act::Delete => Op::Delete { name, only },
    }
}

/// The generation that must be live.
#[derive(Drop)]
struct Only;

impl Form for Only {
    ghost use Rattle.std.specs.Prelude.{ℕ, Option};
    ghost use Rattle.scenario.specs.Format as format;

    type Part = Option<u64>;

    ghost Found = { Option ℕ };

    ghost found = { λ only. only };

    ghost reads = { λ _. format.only };

    ghost good = { λ _ _. Unit {0} };

    fn read(&self, alloc: Global, value: &Value) -> Result<Option<u64>, ScenarioFault> {
        let generation = GENERATION.read(alloc, value)?;
        Ok(Some(generation))
    }
}

const GENERATION: Range = Range {
    least: 0,
    most: 1_000_000_000,
};
