//! The journal of a mount, and how the log of its bucket explains it: definitions and their laws.
#![tactic(auto)]

mod laws;

pub use laws::{claim_laws, history_laws, lane_laws, walk_laws};
