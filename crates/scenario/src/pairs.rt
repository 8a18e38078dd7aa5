//! An object's metadata.
ghost use Rattle.std.specs.Prelude.{◌≡◌, [], Ok, IfOk, IfErr};
ghost use Rattle.bucket_api.specs.Metadata.{KeysRise};
ghost use Rattle.serde_json.specs.View.{view, members_view};
ghost use Rattle.scenario.specs.Told.{TellsFault};
ghost use Rattle.scenario.specs.Format as format;

use crate::fault::ScenarioFault;
use crate::form::Form;
use crate::values::text;
use bucket_api::Pair;
use io_ports::{Row, Text};
use serde_json::{Map, Value};
use std::alloc::Global;

/// The most pairs of an object.
const MOST_PAIRS: usize = 64;

/// The most bytes of a key and of a value.
const MOST_TEXT: usize = 4095;

/// An object's metadata: its members, in byte order of their keys.
#[derive(Drop)]
pub(crate) struct Metadata;

impl Form for Metadata {
    ghost use Rattle.std.specs.Prelude.{List};
    ghost use Rattle.bucket_api.specs.declared.objects.Pair.{Pair};
    ghost use Rattle.bucket_api.specs.Metadata.{KeysRise};
    ghost use Rattle.scenario.specs.Format as format;

    type Part = Row<Pair>;

    ghost Found = { List Pair };

    ghost found = { λ pairs. pairs.items };

    ghost reads = { λ _. format.meta };

    ghost good = { λ _. KeysRise };

    #[tactic(auto, using(crate::proofs::Counts::members_len_view))]
    fn read(&self, alloc: Global, value: &Value) -> Result<Row<Pair>, ScenarioFault> {
        let Some(members) = value.as_object() else {
            return Err(ScenarioFault::here(alloc, 4));
        };
        if members.len() > MOST_PAIRS {
            return Err(ScenarioFault::here(alloc, 5));
        }
        pairs(alloc, members)
    }
}

/// The members as pairs.
fn pairs(alloc: Global, members: &Map<String, Value>) -> Result<Row<Pair>, ScenarioFault>
    ensures ok { IfOk result (λ found. format.pairs [] (members_view members.now.entries) ≡ Ok found.items) }
    ensures err { IfErr result (λ e. TellsFault e (format.pairs [] (members_view members.now.entries))) }
    ensures good { IfOk result (λ found. KeysRise found.items) }
{
    let mut found = Vec::with_capacity(alloc, members.len())?;
    for (key, value) in members {
        match pair(alloc, key.as_str(), value) {
            Ok(next) => found.push(next)?,
            Err(fault) => return Err(fault.within(alloc, key.as_str())),
        }
    }
    Ok(Row::from_vec(found))
}

/// A member as a pair.
fn pair(alloc: Global, key: &str, value: &Value) -> Result<Pair, ScenarioFault>
    ensures ok { IfOk result (λ p. format.pair key.now (view value.now) ≡ Ok p) }
    ensures err { IfErr result (λ e. TellsFault e (format.pair key.now (view value.now))) }
{
    let key = short(alloc, key, 1)?;
    let word = text(alloc, value)?;
    let value = short(alloc, word, 0)?;
    Ok(Pair {
        key: Text::of(alloc, key)?,
        value: Text::of(alloc, value)?,
    })
}

/// A text that is short enough, and has so many bytes at least.
fn short<'t>(alloc: Global, word: &'t str, least: usize) -> Result<&'t str, ScenarioFault>
    ensures ok { IfOk result (λ t. format.short least word.now ≡ Ok t.now) }
    ensures err { IfErr result (λ e. TellsFault e (format.short least word.now)) }
{
    if least <= word.len() && word.len() <= MOST_TEXT {
        return Ok(word);
    }
    Err(ScenarioFault::here(alloc, 5))
}
