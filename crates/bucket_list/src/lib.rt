//! Pages of a listing, for buckets that keep their objects in an ordered map.
#![tactic(auto)]

mod listing;
mod slash;
mod start;
mod steps;
#[cfg(test)]
mod tests;
mod walk;

pub use listing::page;
