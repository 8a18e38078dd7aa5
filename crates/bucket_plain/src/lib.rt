//! A bucket of whole objects in memory, changed by one caller at a time: the bucket step as it is defined.
#![tactic(auto)]

mod changes;
mod pairs;
mod plain;
mod reads;
#[cfg(test)]
mod tests;

pub use plain::Plain;
