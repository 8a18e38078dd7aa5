//! The items of an array.
ghost use Rattle.std.specs.Prelude.{◌≡◌, Ok, Some, IfOk, IfErr, IfSome, OnOk, option_map, decimal};
ghost use Rattle.serde_json.specs.Data.{Data};
ghost use Rattle.serde_json.specs.View.{view, items_view};
ghost use Rattle.scenario.specs.Told.{told, TellsFault};
ghost use Rattle.scenario.specs.Walks as walk;
ghost use Rattle.scenario.specs.Walks.{Walk};

use crate::fault::ScenarioFault;
use serde_json::Value;
use std::alloc::Global;

/// What is made of an array's items, one after another.
pub(crate) trait Gather {
    /// What was known before the first item, as plain data.
    ghost Known: { Type 0 };

    /// What has been made so far, as plain data.
    ghost Made: { Type 0 };

    /// What was known before the first item.
    ghost known: { Self → Known };

    /// What the items before have made.
    ghost made: { Self → Made };

    /// What one more item makes of it.
    ghost step: { Known → Made → Data → Walk Made };

    /// What is kept beside it agrees with it.
    ghost fits: { Self → Type 0 };

    /// Takes in one more item.
    fn take(&mut self, alloc: Global, item: &Value) -> Result<(), ScenarioFault>
        requires { fits self.old }
        ensures ok { OnOk result (step (known self.old) (made self.old) (view item.now) ≡ Ok (made self.new)) }
        ensures err { IfErr result (λ e. TellsFault e (step (known self.old) (made self.old) (view item.now))) }
        ensures kept { known self.new ≡ known self.old }
        ensures fits { OnOk result (fits self.new) };
}

/// The items of a value that must be an array.
pub(crate) fn items<'v>(alloc: Global, value: &'v Value) -> Result<&'v [Value], ScenarioFault>
    ensures ok { IfOk result (λ found. walk.items (view value.now) ≡ Ok (items_view found.now)) }
    ensures err { IfErr result (λ e. TellsFault e (walk.items (view value.now))) }
{
    match value.as_array() {
        Some(found) => Ok(found.as_slice()),
        None => Err(ScenarioFault::here(alloc, 4)),
    }
}

/// Takes in the items, in order.
pub(crate) fn take_all<G: Gather>(
    alloc: Global,
    found: &[Value],
    all: &mut G,
) -> Result<(), ScenarioFault>
    requires { G.fits all.old }
    ensures ok { OnOk result (walk.through (G.step (G.known all.old)) 0 (G.made all.old) (items_view found.now) ≡ Ok (G.made all.new)) }
    ensures err { IfErr result (λ e. TellsFault e (walk.through (G.step (G.known all.old)) 0 (G.made all.old) (items_view found.now))) }
    ensures kept { G.known all.new ≡ G.known all.old }
    ensures fits { OnOk result (G.fits all.new) }
{
    for (position, item) in found.iter().enumerate() {
        if let Err(fault) = all.take(alloc, item) {
            return Err(at_position(alloc, fault, position));
        }
    }
    Ok(())
}

/// The fault of an item, as one of its array.
fn at_position(alloc: Global, fault: ScenarioFault, position: usize) -> ScenarioFault
    ensures { IfSome (told result) (λ f. option_map (walk.below (decimal position)) (told fault) ≡ Some f) }
{
    match format!(in alloc; "{position}") {
        Ok(step) => fault.within(alloc, step.as_str()),
        Err(_) => ScenarioFault::NoMemory,
    }
}
