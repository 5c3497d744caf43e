//! A plan within caps that are to cost no coverage, with the prices that are to show it.

use crate::even::Even;
use lists::{List, Plain};
use price_certificate::Plan;
use std::alloc::AllocError;

/// A plan within caps that are to cost no coverage.
#[derive(Debug, Drop)]
pub struct Spread {
    /// How many items each bin may have; 0: none.
    pub caps: List<u32>,
    /// The plan, with the prices that are to certify it within the caps.
    pub plan: Plan,
    /// A price for each item, where nothing was before and there are no caps.
    pub free_item_prices: List<u32>,
    /// A price for each bin, likewise.
    pub free_bin_prices: List<u32>,
    /// How even the plan is, if that is to be shown too.
    pub even: Option<Even>,
}

impl Plain for Spread {
    fn copy(&self) -> Result<Spread, AllocError> {
        let caps = self.caps.copy()?;
        let plan = self.plan.copy()?;
        let free_item_prices = self.free_item_prices.copy()?;
        let free_bin_prices = self.free_bin_prices.copy()?;
        let even = self.even.copy()?;
        Ok(Spread {
            caps,
            plan,
            free_item_prices,
            free_bin_prices,
            even,
        })
    }

    fn same(&self, other: &Spread) -> bool {
        self.caps.same(&other.caps)
            && self.plan.same(&other.plan)
            && self.free_item_prices.same(&other.free_item_prices)
            && self.free_bin_prices.same(&other.free_bin_prices)
            && self.even.same(&other.even)
    }
}
