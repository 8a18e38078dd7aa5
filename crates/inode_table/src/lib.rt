//! The nodes that a kernel knows, by number: how often it looked each up, and which one is current under a name.
#![tactic(auto)]

mod inode;
mod table;
#[cfg(test)]
mod tests;

pub use inode::Inode;
pub use table::InodeTable;
