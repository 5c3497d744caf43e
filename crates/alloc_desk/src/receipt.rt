//! What a submitted event got.
use allocation_core::Answer;

/// What a submitted event got.
#[derive(Drop)]
pub struct Receipt {
    /// The position of its entry in the journal, from 0.
    pub position: u64,
    /// The seat of the pass that submitted it.
    pub seat: u32,
    pub answer: Answer,
}
