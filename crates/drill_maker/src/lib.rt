//! A drill: a scenario that is made from a seed, and the line that tells of it once it was played.
#![tactic(auto)]

mod directory;
mod file;
mod lane;
mod making;
mod summing;
#[cfg(test)]
mod tests;

pub use making::make;
pub use summing::summary;
