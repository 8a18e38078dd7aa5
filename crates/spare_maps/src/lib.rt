//! Maps that take as many further keys as was reserved without asking for memory, seen as finite maps.
#![tactic(auto)]

mod name_map;
mod number_map;
#[cfg(test)]
mod tests;

pub use name_map::NameMap;
pub use number_map::NumberMap;
