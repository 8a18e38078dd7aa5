//! One region of blocks of 65,536 bytes, from which files take chains of blocks, each at a position.
#![tactic(auto)]

mod chain;
mod links;
mod node;
mod nodes;
mod pool;
mod region;
#[cfg(test)]
mod tests;

pub use chain::Chain;
pub use pool::BlockPool;
pub use region::BLOCK;
