//! What a request on a file asks of the bucket next, by what it was answered so far; for the mount that makes its
//! operations one after the other, and for the one that makes those of many calls at once.
#![tactic(auto)]

mod errand;
mod errors;
mod outcomes;
mod setting;
#[cfg(test)]
mod tests;
mod times;

pub use errand::{FileErrand, insert_op, next_op, read_op};
pub use errors::errno;
pub use outcomes::{
    Came, Reads, Standing, outcome_of_flush, outcome_of_reads, outcome_of_stat, outcome_of_update,
};
pub use setting::{Asked, Change};
pub use times::with_time;
