//! Which numbers a seat or a pass holds, and what it is that a list goes on with no further item of these numbers.
#![tactic(auto)]

use std::collections::LinkedList;

/// A set of numbers: a list, or all but a list. It is for contracts and proofs alone: no value of it is made.
pub enum Numbers {
    /// The numbers of the list.
    Only(LinkedList<u64>),
    /// All numbers but those of the list.
    AllBut(LinkedList<u64>),
}
