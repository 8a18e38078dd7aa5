//! Replies of the FUSE kernel protocol 7.31 as values, and their frames, written and read.
#![tactic(auto)]

mod bodies;
mod dirents;
pub mod errno;
mod fault;
mod fields;
mod init;
mod read;
mod reply;
#[cfg(test)]
mod tests;
mod write;

pub use dirents::dirent_len;
pub use fault::ReplyFault;
pub use read::read_reply;
pub use reply::{AttrOut, Dirent, EntryOut, Reply, ReplyKind};
pub use write::write_reply;
