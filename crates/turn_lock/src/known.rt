//! What a seat knows. These types are for the proofs alone: no value of them is made.
use lane_spec::Numbers;
use std::collections::LinkedList;

/// An entry of the book, with the number of the seat that made it.
pub struct Line<E> {
    pub by: u64,
    pub entry: E,
}

/// What a seat's thread knows of the lock.
pub struct Known<S, E> {
    // What the lock was made with. A seat that another has met knows nothing.
    pub first: Option<S>,
    pub number: u64,
    pub held: Numbers,
    pub seen: LinkedList<Line<E>>,
    pub mine: LinkedList<E>,
    pub entered: bool,
    // What a seat that was met had seen and held, until the longer list is settled.
    pub met: LinkedList<Line<E>>,
    pub met_held: Numbers,
}
