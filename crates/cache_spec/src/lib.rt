//! The list of kept files: what a file cache holds, in the order of its use, and what each use of the cache makes of it.
#![tactic(auto)]

mod file_key;

pub use file_key::FileKey;
