//! The engine of spreads: caps on the bins of an instance that cost no coverage, and the best plan within them.
#![tactic(auto)]

mod board;
mod bounded;
mod evenest;
mod free;
mod groups;
mod levels;
mod numbers;
mod prices;
mod spreading;
mod straight;
mod ways;
mod witness;

pub use groups::JobEvening;
pub use spreading::spread_plan;
