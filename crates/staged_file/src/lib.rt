//! The staged content of a file: the blocks that were touched, over a source that is read only where it is wanted.
#![tactic(auto)]

mod frozen;
mod laws;
mod reading;
mod resizing;
mod span;
mod staged;
#[cfg(test)]
mod tests;
mod wanted;
mod wants;
mod writing;

pub use frozen::Frozen;
pub use laws::chain_laws;
pub use staged::Staged;
pub use wanted::{NoBlocks, Wanted};
