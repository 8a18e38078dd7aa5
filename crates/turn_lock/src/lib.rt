//! A lock with a book: who enters is handed a state that stands for a list of entries, each signed by the number of its maker.
#![tactic(auto)]

mod booked;
mod known;
mod rule;
mod seat;
mod steps;
#[cfg(test)]
mod tests;
mod turn;

pub use booked::Booked;
pub use known::Line;
pub use seat::Seat;
pub use turn::Turn;
