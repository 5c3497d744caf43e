//! Tests of the fleet's crates up to the allocator: what is copied, what answers are told as, laws, the greatest fleet, and want of memory. They stand apart
//! from those crates, since a crate with tests is proved once more with them. What comes of events is told by rows (`history_rows`).
#![tactic(auto)]

#[cfg(test)]
mod allocations;
#[cfg(test)]
mod events;
#[cfg(test)]
mod limits;
#[cfg(test)]
mod memory;
