//! Cuts a stream of bytes into FUSE request frames, whatever pieces it comes in, for whoever reads a kernel's side.
#![tactic(auto)]

mod cutter;
mod fault;
mod front;
mod pieces;
#[cfg(test)]
mod tests;

pub use cutter::FrameCutter;
pub use fault::CutFault;
