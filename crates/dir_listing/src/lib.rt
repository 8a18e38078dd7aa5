//! What a directory shows, out of the pages of a bucket's list.
#![tactic(auto)]

mod entries;
mod kept;
mod kinds;
mod listing;
mod paths;
mod roles;
#[cfg(test)]
mod tests;

pub use kinds::{node_kind, target_pair};
pub use listing::Listing;
pub use paths::paths_name_objects;
