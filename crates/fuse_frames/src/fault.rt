//! Why a stream of frames ends amiss.
/// Why a stream of frames isn't cut any further, or has ended amiss. Each number is the place in the stream of the
/// first byte of the frame that is meant.
#[derive(Clone, Copy, Debug, PartialEq, Eq)]
pub enum CutFault {
    /// Memory was refused, and nothing has changed.
    NoMemory,
    /// The frame's len is below the 40 bytes of its own head.
    LenBelow40(u64),
    /// The frame's len is above the 135,168 bytes that a frame may have.
    LenOver(u64),
    /// The stream ends before the frame does.
    Truncated(u64),
}
