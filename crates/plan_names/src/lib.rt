//! What a request on names asks of the bucket next, by what it was answered so far; for the mount that makes its
//! operations one after the other, and for the one that makes those of many calls at once.
#![tactic(auto)]

mod errand;
mod found;
mod listing;
mod lookup;
mod making;
mod removing;
mod renaming;
#[cfg(test)]
mod tests;

pub use errand::{NameErrand, errno, next_op};
pub use found::{Found, Made, outcome_of_insert, outcome_of_lookup};
pub use removing::{Emptied, Removed, outcome_of_rmdir, outcome_of_unlink};
pub use renaming::{Moved, outcome_of_rename};
