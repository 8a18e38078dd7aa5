//! The ends that playing a scenario may have, each with its cause.
use io_ports::Text;

/// How playing a scenario ended.
#[derive(Debug, Drop)]
pub enum PlayEnd {
    /// The input was read to its end and played, and the history was put whole.
    Played,
    /// The input is no scenario; nothing was put.
    Refused {
        /// The number of the first fault, 1 to 14.
        number: u64,
        /// Its place: the names of members and the positions of items, each behind a `/`.
        place: Text,
    },
    /// The source failed; nothing was put.
    ReadFault,
    /// The sink failed, having taken a prefix of the history.
    WriteFault,
    /// Memory was refused; nothing was put.
    NoMemory,
    /// The input has more than 67,108,864 bytes; nothing was put.
    TooLong,
}
