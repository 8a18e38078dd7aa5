//! What staged content is: patching, resizing, which blocks are touched, and which bytes are still the source's.
#![tactic(auto)]

mod laws;

pub use laws::{content_laws, file_laws, overlay_laws};
