//! The claims that calls hold while they are under way, by key, so that calls that would disturb one another are not
//! taken at once.
#![tactic(auto)]

mod name_buffer;
mod name_tallies;
mod table;
mod tallies;
mod tally;
#[cfg(test)]
mod tests;

pub use claim_spec::{Claim, ClaimKey};
pub use table::Claims;
