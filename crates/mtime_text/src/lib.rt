//! Modification times as the text that metadata holds: read by the grammar of RFC 3339, printed in UTC with nine decimals.
#![tactic(auto)]

mod digits;
mod printing;
mod reading;
#[cfg(test)]
mod tests;

pub use printing::print;
pub use reading::read;
