//! An assignment with the prices that are to certify it.
ghost use Rattle.price_certificate.specs.Plan.{plan_in, plan_data};

use json_values::{FromJson, Spelled, member};
use lists::{List, Plain};
use serde_json::{Value, json};
use std::alloc::{AllocError, Global};

/// An assignment with the prices that are to certify it.
#[derive(Debug, Drop)]
pub struct Plan {
    /// Pairs of an item and a bin, in any order.
    pub pairs: List<(u32, u32)>,
    /// A price for each item.
    pub item_prices: List<u32>,
    /// A price for each bin.
    pub bin_prices: List<u32>,
}

impl Plain for Plan {
    fn copy(&self) -> Result<Plan, AllocError> {
        let pairs = self.pairs.copy()?;
        let item_prices = self.item_prices.copy()?;
        let bin_prices = self.bin_prices.copy()?;
        Ok(Plan {
            pairs,
            item_prices,
            bin_prices,
        })
    }

    fn same(&self, other: &Plan) -> bool {
        self.pairs.same(&other.pairs)
            && self.item_prices.same(&other.item_prices)
            && self.bin_prices.same(&other.bin_prices)
    }
}

impl FromJson for Plan {
    ghost spelled = { plan_in };

    #[tactic(auto, unfolding(crate::specs::Plan::plan_in))]
    fn read(alloc: Global, value: &Value) -> Result<Option<Plan>, AllocError> {
        let Some(pairs) = member(alloc, value, "pairs")? else {
            return Ok(None);
        };
        let Some(item_prices) = member(alloc, value, "item_prices")? else {
            return Ok(None);
        };
        let Some(bin_prices) = member(alloc, value, "bin_prices")? else {
            return Ok(None);
        };
        Ok(Some(Plan {
            pairs,
            item_prices,
            bin_prices,
        }))
    }
}

impl Spelled for Plan {
    ghost spelling = { plan_data };

    #[tactic(auto, unfolding(crate::specs::Plan::plan_in))]
    fn write(&self, alloc: Global) -> Result<Value, AllocError> {
        let bin_prices = self.bin_prices.write(alloc)?;
        let item_prices = self.item_prices.write(alloc)?;
        let pairs = self.pairs.write(alloc)?;
        json!(in alloc; {"bin_prices": bin_prices, "item_prices": item_prices, "pairs": pairs})
    }
}
