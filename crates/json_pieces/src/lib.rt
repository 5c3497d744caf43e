//! JSON texts in pieces: the text of a value is written one bracket, comma, name or plain value after the other, and never stands in
//! memory as a whole.
#![tactic(auto)]

mod pieces;
mod writing;

pub use pieces::Pieces;
pub use writing::write_value;
