//! What a bucket answers.
use crate::objects::Meta;
use crate::pages::Page;
use io_ports::Bytes;

/// What a bucket answers to an operation.
#[derive(Drop)]
pub enum Answer {
    /// What is told of the live object, after the operation.
    Meta(Meta),
    /// The bytes that were read.
    Bytes(Bytes),
    /// The page that was asked for.
    Page(Page),
    /// The object is deleted.
    Done,
    /// No live object has the name, or the name and generation.
    NotFound,
    /// A precondition does not hold, and nothing has changed.
    Precondition {
        /// The live generation, 0 where none is live.
        generation: u64,
        /// The live metageneration, 0 where none is live.
        metageneration: u64,
    },
    /// The operation failed on its way there or back. It has had no effect, or its whole effect.
    Fault,
}
