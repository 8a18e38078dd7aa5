//! A scenario is played: its calls, remote operations and clocks, lane by lane.
#![tactic(auto)]

mod given;
mod player;
mod playing;

pub use playing::play;
