//! What the checker says of a plan, and the texts of faults.
ghost use Rattle.std.specs.Prelude.{◌≡◌, IfOk, string_bytes};
ghost use Rattle.price_certificate.specs.Lines.{fault_line};

use lists::Plain;
use std::alloc::{AllocError, Global};

/// What is wrong with a plan.
#[derive(Clone, Copy, Debug, PartialEq, Eq)]
pub enum Fault {
    /// The prices are not as many as the items, or as the bins.
    WrongLengths,
    /// The pair at this place names an item or a bin that there is not.
    BadNumber(u64),
    /// The item stands in two pairs.
    ItemTwice(u32),
    /// The item may not use the bin.
    OutOfReach(u32, u32),
    /// The bin has more items than its capacity.
    OverLimit(u32),
    /// The prices of the item and the bin are together below their weight.
    PriceTooLow(u32, u32),
    /// The value of the prices, and what the pairs are worth.
    SumsDiffer(u64, u64),
}

/// What the checker says of a plan.
#[derive(Clone, Copy, Debug, PartialEq, Eq)]
pub enum Verdict {
    /// The plan is certified, and so the best: how many items it covers, how many of them it leaves at draining bins, and
    /// how many pairs of the preceding assignment it loses.
    Best { covered: u64, left: u64, moved: u64 },
    /// The first fault.
    Refused(Fault),
}

impl Fault {
    /// The fault's name, and then its values in decimal after one space each.
    pub fn line(&self, alloc: Global) -> Result<String, AllocError>
        ensures { IfOk result (λ s. string_bytes s ≡ fault_line self.now) }
    {
        match self {
            Fault::WrongLengths => String::from_str(alloc, "WrongLengths"),
            Fault::BadNumber(place) => format!(in alloc; "BadNumber {place}"),
            Fault::ItemTwice(item) => format!(in alloc; "ItemTwice {item}"),
            Fault::OutOfReach(item, bin) => format!(in alloc; "OutOfReach {item} {bin}"),
            Fault::OverLimit(bin) => format!(in alloc; "OverLimit {bin}"),
            Fault::PriceTooLow(item, bin) => format!(in alloc; "PriceTooLow {item} {bin}"),
            Fault::SumsDiffer(prices, weight) => {
                format!(in alloc; "SumsDiffer {prices} {weight}")
            }
        }
    }
}

impl Plain for Fault {
    fn copy(&self) -> Result<Fault, AllocError> {
        Ok(*self)
    }

    fn same(&self, other: &Fault) -> bool {
        *self == *other
    }
}
