//! What a call claims while it is under way, and when two claims conflict: the words that the table of claims and the
//! rules of the requests share.
#![tactic(auto)]

mod claim;

pub use claim::{Claim, ClaimKey};
