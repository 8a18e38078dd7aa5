//! That a stream failed.
/// A stream failed. It comes only where the stream's count of faults rose in the call.
#[derive(Clone, Copy, Debug, PartialEq, Eq)]
pub struct Failed;
