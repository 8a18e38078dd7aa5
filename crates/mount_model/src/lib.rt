//! The types that the layers of a mount share, for whoever plans, serves or plays its requests.
#![tactic(auto)]

mod config;
mod gate;
mod journal;
mod observing;

pub use config::Config;
pub use gate::{CallId, Gate, IdleGate, Place};
pub use journal::{Fill, How, JournalEntry, Use};
pub use observing::{Next, Observation};
