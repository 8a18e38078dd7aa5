//! What the program is told to do.

/// A command of the program.
#[derive(Clone, Copy, Debug, PartialEq, Eq)]
pub enum Command {
    /// Serves frames from the input.
    Serve,
    /// Plays the scenario that the input holds.
    Play {
        /// How many threads play its lanes, 1 to 64.
        workers: u64,
    },
    /// Plays the scenario that is made of a number.
    Drill {
        /// The number.
        seed: u64,
        /// How many threads play its lanes, 1 to 64.
        workers: u64,
    },
}

/// The words are no form of a command.
#[derive(Clone, Copy, Debug, PartialEq, Eq)]
pub struct Refused;
