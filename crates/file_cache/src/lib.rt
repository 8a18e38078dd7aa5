//! Whole files that were read from the bucket, kept by name and generation, the one used longest ago dropped first.
#![tactic(auto)]

mod blocks;
mod file_cache;
mod filled;
mod stored_file;
#[cfg(test)]
mod tests;

pub use cache_spec::FileKey;
pub use file_cache::FileCache;
pub use filled::Filled;
