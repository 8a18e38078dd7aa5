//! What a request observes of its bucket, and what it asks next.
use bucket_api::{Answer, Op};
use std::marker::Model;

/// An operation that a request has made on its bucket, or a record that stood for one. Clauses see it as plain data.
#[derive(Drop)]
pub struct Observation {
    /// The operation.
    pub op: Op,
    /// Its moment in the bucket's log, from 1.
    pub moment: u64,
    /// What it was answered.
    pub answer: Answer,
}

impl Model for Observation {
    ghost use Rattle.mount_model.specs.Observing.{Observed};

    ghost Value = { Observed };

    ghost use Rattle.bucket_api.specs.Operation.{operation};

    ghost view = { λ o. record { op = operation o.op; moment = o.moment; answer = o.answer } };
}

/// What a request asks next, after what it has observed.
#[derive(Drop)]
pub enum Next {
    /// Nothing: it is done with the bucket.
    Finish,
    /// The insert of a flush, whose content is the file's staged content.
    Insert,
    /// This operation.
    Do(Op),
}
