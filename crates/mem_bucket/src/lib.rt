//! A bucket in memory that many threads share, with scripted faults.
#![tactic(auto)]

mod kept;
mod mem_bucket;
mod mem_pass;
#[cfg(test)]
mod tests;

pub use mem_bucket::MemBucket;
pub use mem_pass::MemPass;
