//! What gcsfuse keeps of a file in the custom metadata of its object: the keys, and the range of an mtime.
#![tactic(auto)]

/// The metadata key under which gcsfuse keeps a symlink's target. An object that has it is a symlink.
pub const TARGET_KEY: &str = "gcsfuse_symlink_target";

/// The metadata key under which gcsfuse keeps the mtime that was set, as a text in RFC 3339.
pub const MTIME_KEY: &str = "gcsfuse_mtime";

/// The last second of the mount's clock and of an mtime, from the beginning of 1970 in UTC. It lies in the year 9892, so
/// each second up to it has a date of four-digit year.
pub const LAST_SECOND: u64 = 249_999_999_999;
