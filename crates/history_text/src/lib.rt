//! A played history as text, put into a sink piece by piece.
#![tactic(auto)]

mod lines;
mod operations;
mod parts;
mod played;
mod printer;
#[cfg(test)]
mod tests;
mod word;
mod writing;

pub use played::Played;
pub use writing::{WriteFault, write};
