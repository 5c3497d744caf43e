//! The words of the command line of `allocd`: what they ask for, their help, and what is said of words that are wrong.
//!
//! Contracts see words as their bytes, and a command line as `clap` reads it (`specs/Commands.antt`).
#![tactic(auto)]

mod asked;
mod commands;
mod limits;
mod options;
mod refusal;

pub use asked::{Asked, InputCommand, ServeOptions, SpreadOptions, read_words};
pub use commands::VERSION;
