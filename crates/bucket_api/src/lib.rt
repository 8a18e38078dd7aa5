//! What a bucket of whole objects is asked and answers, for everything that stands over a bucket.
#![tactic(auto)]

mod answers;
mod bucket;
mod contents;
mod events;
mod moments;
mod names;
mod objects;
mod operations;
mod pages;
#[cfg(test)]
mod tests;

pub use answers::Answer;
pub use bucket::Bucket;
pub use contents::content_laws;
pub use events::{Event, Mode, Scripted};
pub use moments::{event_at, moment_at, position_of};
pub use names::allowed;
pub use objects::{Meta, Object, Pair, copy_pairs};
pub use operations::Op;
pub use pages::Page;
