//! The words of the program's command line, read as a command.
#![tactic(auto)]

mod command;
mod number;
mod option;
#[cfg(test)]
mod tests;
mod words;

pub use command::{Command, Refused};
pub use option::DEFAULT_WORKERS;
pub use words::{USAGE, read_words};
