//! The mount on one thread: each request asks its bucket at once, and is done before the next one.
#![tactic(auto)]

mod carry;
mod course;
mod errand;
mod files;
mod logged;
mod lone;
mod making;
mod names;
mod removing;
mod serial;
mod store;
#[cfg(test)]
mod tests;

pub use lone::Lone;
pub use serial::Serial;
