//! What a mount is that many calls share, as accounts tell of it: its takes, its ends and its ticks, and the laws of them.
#![tactic(auto)]

mod laws;

pub use laws::{beside_laws, core_laws, ticket_laws};
