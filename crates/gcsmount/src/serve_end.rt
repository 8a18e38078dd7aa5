//! The ends that serving a stream may have, each with its cause.
/// How serving a stream ended.
#[derive(Clone, Copy, Debug, PartialEq, Eq)]
pub enum ServeEnd {
    /// The input was read to its end, and every frame was answered.
    Ended,
    /// What begins at `place`, a number of bytes from the start of the input, is no whole frame. `number`
    /// says why: 15 where its len is below 40, 16 where its len is above 135,168, 17 where the input ends
    /// within it. Every frame before it was answered.
    Refused {
        /// 15, 16 or 17.
        number: u64,
        /// Bytes of the input before it.
        place: u64,
    },
    /// The source failed. Every whole frame that had come was answered.
    ReadFault,
    /// The sink failed, having taken a prefix of the replies.
    WriteFault,
    /// Memory was refused. A prefix of the replies was put.
    NoMemory,
    /// The input has more than 67,108,864 bytes. Every whole frame among those was answered.
    TooLong,
}
