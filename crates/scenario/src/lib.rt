//! The scenario that a mount is played by, read from its JSON text, for whoever plays, audits or makes one.
#![tactic(auto)]

mod call;
mod calls;
mod fault;
mod fixups;
mod form;
mod items;
mod lane;
mod lanes;
mod listed;
mod members;
mod object_parts;
mod pairs;
mod phases;
mod remote;
mod scenario;
mod script;
mod settings;
mod spot;
mod start;
#[cfg(test)]
mod tests;
mod values;

pub use call::{Fix, ScriptedCall};
pub use fault::ScenarioFault;
pub use lane::{LaneWork, Phase};
pub use scenario::Scenario;
