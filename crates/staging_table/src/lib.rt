//! The staged contents of a mount's files, by node, in one region of blocks.
#![tactic(auto)]

mod held;
mod table;
#[cfg(test)]
mod tests;

pub use table::StagingTable;
