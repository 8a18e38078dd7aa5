//! A mount in tables: what it holds of nodes, handles and staged contents, why it refuses a request, and what a request that
//! is done is answered and leaves.
#![tactic(auto)]

mod attributes;
mod base;
mod entries;
mod file;
mod finish;
mod flush;
mod forget;
mod getattr;
mod groups;
mod init;
mod limits;
mod lookup;
mod making;
mod mount;
mod moving;
mod naming;
mod on_mount;
mod on_node;
mod open;
mod opendir;
mod path;
mod prepare;
mod prepared;
mod read;
mod readlink;
mod refusals;
mod release;
mod releasedir;
#[cfg(test)]
mod removal_tests;
mod removing;
mod rename;
mod setattr;
mod showing;
mod spare;
mod staged;
mod standing;
mod tables;
mod target;
#[cfg(test)]
mod tests;
mod told;
mod unread;
mod write;

pub use base::Base;
pub use file::{File, Kept};
pub use mount::Mount;
pub use spare::Spare;
pub use told::Told;
