//! What the table holds of one file.
ghost use Rattle.std.specs.Prelude.{◌≡◌};

use staged_file::Staged;

/// The staged content of a file, and the time that it was last changed.
#[derive(Debug, Drop)]
pub struct Held {
    /// The content, whose touched blocks stand in the table's region.
    pub staged: Staged,
    /// Seconds of Unix time.
    pub seconds: u64,
    /// Nanoseconds behind that second.
    pub nanos: u32,
}

impl Held {
    /// A content that was last changed at a second.
    pub fn since(staged: Staged, second: u64) -> Held
        ensures { result ≡ record { staged = staged; seconds = second; nanos = 0 } }
    {
        Held {
            staged,
            seconds: second,
            nanos: 0,
        }
    }
}
