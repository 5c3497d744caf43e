//! The engine's matching and its prices.
use crate::seating::Seating;

/// What the engine changes as it goes: who is in which bin, and the prices.
#[derive(Drop)]
pub struct Matching {
    pub seating: Seating,
    pub item_prices: Vec<u32>,
    pub bin_prices: Vec<u32>,
}
