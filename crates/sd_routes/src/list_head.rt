//! The head of a list.
use fleet_events::{AllocationNumber, CollectorId, Round};

/// What the head of a list tells.
#[derive(Clone, Copy, PartialEq, Eq)]
pub struct ListHead {
    pub allocation: AllocationNumber,
    pub round: Round,
    /// How many targets the list leaves out, where lists are served in order.
    pub left_out: Option<u32>,
    /// The collector's number.
    pub collector: CollectorId,
    /// The epoch, which changes at each renewal and with each new journal.
    pub epoch: u64,
    /// For how long the round is open, in milliseconds.
    pub age: u64,
    /// How long a round is, in milliseconds.
    pub length: u64,
}
