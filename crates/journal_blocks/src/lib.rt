//! A journal's text as blocks of a bounded length, which are written one after the other: each is whole lines, or a piece of one line. So what is left of
//! a write that was cut short ends with whole lines, or with blocks that are pieces of one more line.
//!
//! Contracts see a text and a block as their bytes.
#![tactic(auto)]

mod blocks;
mod laws;
mod lengths;
mod torn;

pub use blocks::{MOST_BYTES, cut};
pub use laws::torn_ends_are_blocks;
pub use torn::whole_count;
