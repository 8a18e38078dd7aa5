//! A scenario, and how it is read.
ghost use Rattle.std.specs.Prelude.{◌≡◌, Ok, Some, IfOk, IfErr, IfSome, option_map};
ghost use Rattle.serde_json.specs.View.{view};
ghost use Rattle.scenario.specs.Format as format;
ghost use Rattle.scenario.specs.Format.{scenario_of};
ghost use Rattle.scenario.specs.Lawful.{IsLawful};
ghost use Rattle.scenario.specs.Told.{told, TellsFault};

use crate::fault::ScenarioFault;
use crate::lane::Phase;
use crate::members::{MAY, MUST, Member, needed, object, optional};
use crate::phases::Phases;
use crate::script::Script;
use crate::settings::Settings;
use crate::start::Start;
use bucket_api::Scripted;
use bucket_plain::Plain;
use io_ports::{Row, Text};
use mount_model::Config;
use serde_json::Value;
use std::alloc::Global;
use std::marker::Model;

/// What a mount is played by: its settings, the bucket at the start, the faults that are to come, and the phases. Clauses see
/// it as plain data.
#[derive(Drop)]
pub struct Scenario {
    /// The settings of the mount.
    pub config: Config,
    /// The bucket at the start.
    pub start: Plain,
    /// The faults that the bucket's operations are to meet, by rising moments.
    pub script: Row<Scripted>,
    /// The phases, which come one after another.
    pub phases: Row<Phase>,
}

impl Model for Scenario {
    ghost use Rattle.scenario.specs.Parts.{ScenarioData};

    ghost Value = { ScenarioData };

    ghost view = { λ s. record { config = s.config; start = s.start; script = s.script.items; phases = s.phases.items } };
}

const MEMBERS: [Member; 4] = [
    ("config", MAY),
    ("objects", MAY),
    ("faults", MAY),
    ("phases", MUST),
];

impl Scenario {
    /// Reads the JSON text of a scenario.
    ///
    /// `Bad` comes exactly where the text has a fault, with the number and the place of the first one.
    pub fn read(alloc: Global, bytes: &[u8]) -> Result<Scenario, ScenarioFault>
        ensures ok { IfOk result (λ scenario. scenario_of bytes.now ≡ Ok scenario) }
        ensures err { IfErr result (λ e. TellsFault e (scenario_of bytes.now)) }
        ensures lawful { IfOk result (λ scenario. IsLawful scenario) }
    {
        match read_text(alloc, bytes) {
            Ok(scenario) => Ok(scenario),
            Err(fault) => Err(at_top(alloc, fault)),
        }
    }
}

/// Reads the text, with the empty place for the whole.
fn read_text(alloc: Global, bytes: &[u8]) -> Result<Scenario, ScenarioFault>
    ensures ok { IfOk result (λ scenario. format.text_of bytes.now ≡ Ok scenario) }
    ensures err { IfErr result (λ e. TellsFault e (format.text_of bytes.now)) }
    ensures lawful { IfOk result (λ scenario. IsLawful scenario) }
{
    let value = json(alloc, bytes)?;
    whole(alloc, &value)
}

/// The JSON value of the text.
#[tactic(auto, using(crate::proofs::JsonTexts::json_found, crate::proofs::JsonTexts::json_refused))]
fn json(alloc: Global, bytes: &[u8]) -> Result<Value, ScenarioFault>
    ensures ok { IfOk result (λ value. format.json bytes.now ≡ Ok (view value)) }
    ensures err { IfErr result (λ e. TellsFault e (format.json bytes.now)) }
{
    match Value::from_slice(alloc, bytes) {
        Ok(value) => Ok(value),
        Err(error) if error.is_memory() => Err(ScenarioFault::NoMemory),
        Err(_) => Err(ScenarioFault::here(alloc, 1)),
    }
}

/// The whole value.
fn whole(alloc: Global, value: &Value) -> Result<Scenario, ScenarioFault>
    ensures ok { IfOk result (λ scenario. format.whole (view value.now) ≡ Ok scenario) }
    ensures err { IfErr result (λ e. TellsFault e (format.whole (view value.now))) }
    ensures lawful { IfOk result (λ scenario. IsLawful scenario) }
{
    object(alloc, value, &MEMBERS)?;
    let config = optional(alloc, value, "config", Config::new(), &Settings)?;
    let start = optional(alloc, value, "objects", Plain::new(alloc), &Start)?;
    let script = optional(alloc, value, "faults", Row::new(alloc), &Script)?;
    let phases = needed(alloc, value, "phases", &Phases)?;
    Ok(Scenario {
        config,
        start,
        script,
        phases,
    })
}

/// The fault of the whole, which has the place `/`.
fn at_top(alloc: Global, fault: ScenarioFault) -> ScenarioFault
    ensures { IfSome (told result) (λ f. option_map format.placed_at (told fault) ≡ Some f) }
{
    let ScenarioFault::Bad { number, place } = fault else {
        return ScenarioFault::NoMemory;
    };
    if !place.as_str().is_empty() {
        return ScenarioFault::Bad { number, place };
    }
    match Text::of(alloc, "/") {
        Ok(place) => ScenarioFault::Bad { number, place },
        Err(_) => ScenarioFault::NoMemory,
    }
}
