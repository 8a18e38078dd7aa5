//! Names of files and directories over a bucket's flat names: components, paths, the suffix, and what a directory shows.
#![tactic(auto)]

mod component;
mod path;
mod shown;
mod slow;
#[cfg(test)]
mod tests;

pub use component::{Component, NameFault, component_text};
pub use path::{PATH_MAX, PathFault, dir_prefix, join, path_fits};
pub use shown::{DirItem, NodeKind, entry_row, shown_name, strip_suffix};
pub use slow::slow_entries;
