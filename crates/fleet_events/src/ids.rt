//! The numbers by which events and answers name things.

/// A target's number, from 0.
pub type TargetId = u32;

/// A collector's number, from 1.
pub type CollectorId = u32;

/// The number of an allocation, from 1; 0 is the empty one before the first.
pub type AllocationNumber = u32;

/// The number of a round, from 1.
pub type Round = u32;
