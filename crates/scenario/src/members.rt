//! The members of an object.
ghost use Rattle.std.specs.Prelude.{◌≡◌, ◌&&◌, not, is_some, Ok, IfOk, IfErr, OnOk, map};
ghost use Rattle.serde_json.specs.Find.{get};
ghost use Rattle.serde_json.specs.View.{view, members_view};
ghost use Rattle.scenario.specs.Told.{TellsFault};
ghost use Rattle.scenario.specs.Walks as walk;

use crate::fault::ScenarioFault;
use crate::form::Form;
use serde_json::{Map, Value};
use std::alloc::Global;

/// A member that an object may have: its name, and whether the object must have it.
pub(crate) type Member = (&'static str, bool);

/// For a member that an object must have.
pub(crate) const MUST: bool = true;

/// For one that it may have.
pub(crate) const MAY: bool = false;

/// Tests an object: its kind, then whether it has a member that the table doesn't know, then whether it lacks one that
/// it must have.
pub(crate) fn object(alloc: Global, value: &Value, table: &[Member]) -> Result<(), ScenarioFault>
    ensures ok { OnOk result (walk.object (map (λ row. (row.0.now, row.1)) table.now) (view value.now) ≡ Ok (view value.now)) }
    ensures err { IfErr result (λ e. TellsFault e (walk.object (map (λ row. (row.0.now, row.1)) table.now) (view value.now))) }
{
    let Some(members) = value.as_object() else {
        return Err(ScenarioFault::here(alloc, 4));
    };
    if has_unknown(table, members) {
        return Err(ScenarioFault::here(alloc, 3));
    }
    if lacks_one(table, value) {
        return Err(ScenarioFault::here(alloc, 2));
    }
    Ok(())
}

/// Whether one of the members is none of the table's.
fn has_unknown(table: &[Member], members: &Map<String, Value>) -> bool
    ensures { result ≡ walk.has_unknown (map (λ row. (row.0.now, row.1)) table.now) (walk.names_of (members_view members.now.entries)) }
{
    for (name, _) in members {
        if !knows(table, name.as_str()) {
            return true;
        }
    }
    false
}

/// Whether the table has a member of this name.
fn knows(table: &[Member], name: &str) -> bool
    ensures { result ≡ walk.knows (map (λ row. (row.0.now, row.1)) table.now) name.now }
{
    for (known, _) in table {
        if *known == name {
            return true;
        }
    }
    false
}

/// Whether the object lacks one of the members that it must have.
fn lacks_one(table: &[Member], value: &Value) -> bool
    ensures { result ≡ walk.lacks_one (map (λ row. (row.0.now, row.1)) table.now) (view value.now) }
{
    for (name, needed) in table {
        if lacks(value, *name, *needed) {
            return true;
        }
    }
    false
}

/// Whether the member is needed, and isn't there.
fn lacks(value: &Value, name: &str, needed: bool) -> bool
    ensures { result ≡ (needed && not (is_some (get name.now (view value.now)))) }
{
    needed && value.get(name).is_none()
}

/// The value of a member that must be there.
pub(crate) fn needed<F: Form>(
    alloc: Global,
    value: &Value,
    name: &str,
    form: &F,
) -> Result<F::Part, ScenarioFault>
    ensures ok { IfOk result (λ part. walk.needed_under name.now (F.reads form.now) (view value.now) ≡ Ok (F.found part)) }
    ensures err { IfErr result (λ e. TellsFault e (walk.needed_under name.now (F.reads form.now) (view value.now))) }
    ensures good { IfOk result (λ part. F.good form.now (F.found part)) }
{
    let Some(member) = value.get(name) else {
        return Err(ScenarioFault::here(alloc, 2));
    };
    match form.read(alloc, member) {
        Ok(part) => Ok(part),
        Err(fault) => Err(fault.within(alloc, name)),
    }
}

/// The value of a member, or this one where it is absent.
pub(crate) fn optional<F: Form>(
    alloc: Global,
    value: &Value,
    name: &str,
    default: F::Part,
    form: &F,
) -> Result<F::Part, ScenarioFault>
    requires { F.good form.now (F.found default) }
    ensures ok { IfOk result (λ part. walk.optional_under name.now (F.found default) (F.reads form.now) (view value.now) ≡ Ok (F.found part)) }
    ensures err { IfErr result (λ e. TellsFault e (walk.optional_under name.now (F.found default) (F.reads form.now) (view value.now))) }
    ensures good { IfOk result (λ part. F.good form.now (F.found part)) }
{
    let Some(member) = value.get(name) else {
        return Ok(default);
    };
    match form.read(alloc, member) {
        Ok(part) => Ok(part),
        Err(fault) => Err(fault.within(alloc, name)),
    }
}
