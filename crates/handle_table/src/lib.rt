//! The handles that a kernel has open, by number, and which nodes they hold.
#![tactic(auto)]

mod handle;
mod table;
#[cfg(test)]
mod tests;

pub use handle::Handle;
pub use table::HandleTable;
