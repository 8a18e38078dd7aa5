//! The parts that an object at the start and a write have in common.
ghost use Rattle.std.specs.Prelude.{◌≡◌, Ok, IfOk, IfErr};
ghost use Rattle.serde_json.specs.View.{view};
ghost use Rattle.scenario.specs.Format as format;
ghost use Rattle.scenario.specs.Lawful.{AreParts};
ghost use Rattle.scenario.specs.Told.{TellsFault};

use crate::fault::ScenarioFault;
use crate::members::{needed, optional};
use crate::pairs::Metadata;
use crate::values::{Content, ObjectName};
use bucket_api::Pair;
use io_ports::{Bytes, Row, Text};
use serde_json::Value;
use std::alloc::Global;
use std::marker::Model;

/// An object's name, content and metadata. Clauses see them as plain data.
#[derive(Drop)]
pub(crate) struct ObjectParts {
    pub(crate) name: Text,
    pub(crate) content: Bytes,
    pub(crate) pairs: Row<Pair>,
}

impl Model for ObjectParts {
    ghost use Rattle.scenario.specs.Parts as parts;

    ghost Value = { parts.ObjectParts };

    ghost view = { λ p. record { name = p.name; content = p.content; pairs = p.pairs.items } };
}

/// Reads the parts, in this order.
#[tactic(auto, using(crate::proofs::Keys::rise_of_none))]
pub(crate) fn parts_of(alloc: Global, value: &Value) -> Result<ObjectParts, ScenarioFault>
    ensures ok { IfOk result (λ parts. format.parts (view value.now) ≡ Ok parts) }
    ensures err { IfErr result (λ e. TellsFault e (format.parts (view value.now))) }
    ensures good { IfOk result (λ parts. AreParts parts) }
{
    let name = needed(alloc, value, "name", &ObjectName)?;
    let none = Bytes::from_vec(Vec::new(alloc));
    let content = optional(alloc, value, "hex", none, &Content)?;
    let pairs = optional(alloc, value, "meta", Row::new(alloc), &Metadata)?;
    Ok(ObjectParts {
        name,
        content,
        pairs,
    })
}
