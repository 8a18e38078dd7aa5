//! Requests of the FUSE wire as values, for whoever reads or writes their frames.
#![tactic(auto, using(crate::proofs::PartLemmas::parts))]

mod fault;
mod fields;
mod fixed;
mod head;
mod mounts;
mod naming;
mod nodes;
pub mod opcode;
mod parts;
mod reading;
mod request;
mod tail;
#[cfg(test)]
mod tests;
mod writing;

pub use fault::BodyFault;
pub use reading::read_request;
pub use request::{Forgotten, Request};
pub use writing::write_request;
