//! How even the loads of collectors can be, with the levels and prices that are to prove it.
ghost use Rattle.std.specs.Prelude.{◌≡◌, Some, OnOk};
ghost use Rattle.serde_json.specs.Data.{object, no_members};
ghost use Rattle.serde_json.specs.View.{members_view};
ghost use Rattle.spread_certificate.specs.Document.{even_in, even_data};

use crate::document::optional;
use json_values::{FromJson, Spelled, member, put_written};
use lists::{List, Plain};
use serde_json::{Map, Value};
use std::alloc::{AllocError, Global};

/// The most percent that a slack may be.
pub const MOST_SLACK: u32 = 1000;

/// A witness, which is an assignment that is as even as any that covers and leaves as many, with the levels and prices that
/// are to prove it; and how far above its loads those of the plan may be. A collector has so many bins in a row, one for
/// each job; its load is what it has in those that do not drain.
#[derive(Debug, Drop)]
pub struct Even {
    /// How many bins a collector has, at least 1: bin `b` is one of collector `b / jobs`.
    pub jobs: u32,
    /// By how many percent a collector's caps may be above its load in the witness, 0 to 1,000.
    pub slack: u32,
    /// A level for each collector, below which it is not full: its load in the witness is its level, or one more.
    pub levels: List<u32>,
    /// What a pair is worth at level 0; it is worth one less for each level that its collector has.
    pub keep: u32,
    /// A price for each item.
    pub item_prices: List<u32>,
    /// A price for each bin.
    pub bin_prices: List<u32>,
    /// The pairs of the witness, in any order; where there are none here it has those of the plan.
    pub witness: Option<List<(u32, u32)>>,
}

impl Plain for Even {
    fn copy(&self) -> Result<Even, AllocError> {
        let levels = self.levels.copy()?;
        let item_prices = self.item_prices.copy()?;
        let bin_prices = self.bin_prices.copy()?;
        let witness = self.witness.copy()?;
        Ok(Even {
            jobs: self.jobs,
            slack: self.slack,
            levels,
            keep: self.keep,
            item_prices,
            bin_prices,
            witness,
        })
    }

    fn same(&self, other: &Even) -> bool {
        self.jobs == other.jobs
            && self.slack == other.slack
            && self.levels.same(&other.levels)
            && self.keep == other.keep
            && self.item_prices.same(&other.item_prices)
            && self.bin_prices.same(&other.bin_prices)
            && self.witness.same(&other.witness)
    }
}

impl FromJson for Even {
    ghost spelled = { even_in };

    #[tactic(auto, unfolding(crate::specs::Document::even_in))]
    fn read(alloc: Global, value: &Value) -> Result<Option<Even>, AllocError> {
        let Some(jobs) = member(alloc, value, "jobs")? else {
            return Ok(None);
        };
        let Some(slack) = member(alloc, value, "slack")? else {
            return Ok(None);
        };
        let Some(keep) = member(alloc, value, "keep")? else {
            return Ok(None);
        };
        let Some(levels) = member(alloc, value, "levels")? else {
            return Ok(None);
        };
        let Some(item_prices) = member(alloc, value, "item_prices")? else {
            return Ok(None);
        };
        let Some(bin_prices) = member(alloc, value, "bin_prices")? else {
            return Ok(None);
        };
        let Some(witness) = optional(alloc, value, "pairs")? else {
            return Ok(None);
        };
        Ok(Some(Even {
            jobs,
            slack,
            levels,
            keep,
            item_prices,
            bin_prices,
            witness,
        }))
    }
}

impl Spelled for Even {
    ghost spelling = { even_data };

    fn write(&self, alloc: Global) -> Result<Value, AllocError> {
        let mut members = Map::new(alloc);
        match put_even(&mut members, alloc, self) {
            Ok(()) => Ok(Value::Object(members)),
            Err(refused) => {
                drop(members);
                Err(refused)
            }
        }
    }
}

/// Puts the members of how even a plan is into an empty object.
#[tactic(auto, unfolding(crate::specs::Document::even_in))]
fn put_even(members: &mut Map<String, Value>, alloc: Global, even: &Even) -> Result<(), AllocError>
    requires { members_view members.old.entries ≡ no_members }
    ensures form { OnOk result (object (members_view members.new.entries) ≡ even_data even.now) }
    ensures reads_back { OnOk result (even_in (object (members_view members.new.entries)) ≡ Some even.now) }
{
    put_written(members, alloc, "bin_prices", &even.bin_prices)?;
    put_written(members, alloc, "item_prices", &even.item_prices)?;
    put_written(members, alloc, "jobs", &even.jobs)?;
    put_written(members, alloc, "keep", &even.keep)?;
    put_written(members, alloc, "levels", &even.levels)?;
    if let Some(witness) = &even.witness {
        put_written(members, alloc, "pairs", witness)?;
    }
    put_written(members, alloc, "slack", &even.slack)
}
