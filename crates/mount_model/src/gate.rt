//! The gate that calls pass before they are taken, and the numbers of calls.
use std::sync::Wait;

/// Which call of a mount: the number of the lane that makes it, and its index in that lane, from 1.
#[derive(Clone, Copy, Debug, PartialEq, Eq)]
pub struct CallId {
    pub lane: u64,
    pub index: u64,
}

/// How far a call has come.
#[derive(Clone, Copy, Debug, PartialEq, Eq)]
pub enum Place {
    /// The mount has taken it.
    Taken,
    /// It is about to make a bucket operation.
    BeforeOp,
    /// It has made a bucket operation.
    AfterOp,
    /// It is answered.
    Answered,
}

/// A place where calls can be watched, or held, as a test of threads does. It is passed with no lock held.
pub trait Gate {
    /// Passes a call that has come to this place.
    fn at<T: Wait>(&self, rt: &T, call: CallId, place: Place);
}

/// A gate that does nothing.
#[derive(Clone, Copy, Debug)]
pub struct IdleGate;

impl Gate for IdleGate {
    fn at<T: Wait>(&self, _rt: &T, _call: CallId, _place: Place) {}
}
