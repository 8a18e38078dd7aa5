//! What a mount remembers of the names that it asked the bucket about: the types, the definitions and the laws of the record list.
#![tactic(auto)]

mod records;
#[cfg(test)]
mod tests;

pub use records::{Learned, Record, Shown};
