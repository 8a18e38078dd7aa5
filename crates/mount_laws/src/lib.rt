//! The laws of the mount: what is proved of the rules of each request, of what calls leave to one another, and of runs on
//! one thread.
#![tactic(auto)]

mod laws;

pub use laws::{overlap_laws, request_laws, run_laws};
