//! What a mount keeps of what its bucket showed, for the calls to come: records of names, and whole files.
#![tactic(auto)]

mod draft;
mod kept;
mod laws;
mod lifetimes;
mod notes;
mod recall;
#[cfg(test)]
mod tests;

pub use draft::{Draft, copy_shown, into_shown};
pub use kept::Kept;
pub use laws::kept_laws;
pub use notes::{Note, Notes};
pub use recall::{Found, Recall};
