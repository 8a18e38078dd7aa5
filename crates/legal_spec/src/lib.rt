//! Legal histories of a scenario, their text, and what they promise: definitions and their laws.
#![tactic(auto)]

mod laws;

pub use laws::legal_laws;
