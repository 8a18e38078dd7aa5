//! The events of a bucket's log.
use crate::operations::Op;
use std::marker::Model;

/// What became of an operation.
#[derive(Debug, Clone, Copy, PartialEq, Eq)]
pub enum Mode {
    /// It had its effect, and its answer came.
    Done,
    /// It had no effect, and was answered by a fault.
    Failed,
    /// It had its whole effect, and was answered by a fault.
    Lost,
}

/// A fault that is to come.
#[derive(Debug, Clone, Copy, PartialEq, Eq)]
pub struct Scripted {
    /// The moment of the operation that it befalls. Moments count from 1.
    pub moment: u64,
    /// What becomes of that operation.
    pub mode: Mode,
}

/// One operation that was made. The first event of a log stands at moment 1.
#[derive(Drop)]
pub struct Event {
    /// The number of the lane that made it.
    pub lane: u64,
    /// The operation.
    pub op: Op,
    /// What became of it.
    pub mode: Mode,
}

impl Model for Event {
    ghost use Rattle.bucket_api.specs.LogEvent.{LogEvent};

    ghost Value = { LogEvent };

    ghost use Rattle.bucket_api.specs.Operation.{operation};

    ghost view = { λ e. record { lane = e.lane; op = operation e.op; mode = e.mode } };
}
