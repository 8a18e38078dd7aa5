//! What a mount keeps of what it learned, along an account: the definitions and laws of its record list.
#![tactic(auto)]

mod laws;

pub use laws::{keeping_laws, recall_laws, thrift_laws};
