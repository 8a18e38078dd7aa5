//! A bucket in memory with the log of its operations, and scripted faults.
#![tactic(auto)]

mod logged_bucket;
mod script;
#[cfg(test)]
mod tests;

pub use logged_bucket::LoggedBucket;
