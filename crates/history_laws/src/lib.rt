//! What a mount promises along any account of it: laws, as clauses of functions that do nothing.
#![tactic(auto)]

mod laws;

pub use laws::{account_laws, apart_laws, record_laws};
