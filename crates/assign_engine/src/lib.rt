//! The engine: it finds an optimal assignment together with the prices that prove it.
#![tactic(auto)]

mod ends;
mod engine;
mod frontier;
mod insert;
mod matching;
mod reprice;
mod search;
mod search_tables;
mod seating;
mod start;
mod table;
mod walks;

pub use engine::{Work, solve};
