//! Collectors that take what a desk gives them, scrape it and report it.
//!
//! Contracts see a turn as its visits: for each target held, in order, how it was asked, what came of it, and what the report
//! was answered.
#![tactic(auto)]

mod gate;
mod round;
mod tally;
mod target;
mod turn;
mod visit;
mod worker;

pub use gate::{Gate, Open};
pub use round::run_round;
pub use turn::{Turn, TurnEnd, collector_turn};
pub use worker::Worker;
