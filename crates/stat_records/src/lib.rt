//! The record list of a mount as a table: what the bucket showed of each name, at most so many, the most recently used kept.
#![tactic(auto)]

mod stat_records;
mod steps;
#[cfg(test)]
mod tests;

pub use record_spec::{Learned, Shown};
pub use stat_records::StatRecords;
