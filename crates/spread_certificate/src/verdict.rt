//! What the judge says of a spread, and the texts of faults.
ghost use Rattle.std.specs.Prelude.{◌≡◌, IfOk, string_bytes};
ghost use Rattle.spread_certificate.specs.Lines.{even_line, spread_line};

use price_certificate::Fault;
use std::alloc::{AllocError, Global};

/// What the judge says of a spread.
#[derive(Clone, Copy, PartialEq, Eq)]
pub enum SpreadVerdict {
    /// The plan is the best within its caps, and they cost no coverage: how many items it covers, how many of them it leaves at
    /// draining bins, how many pairs of the preceding assignment it loses, and within which slack it is even, if it tells that.
    Best {
        covered: u64,
        left: u64,
        moved: u64,
        slack: Option<u32>,
    },
    /// The first fault.
    Refused(SpreadFault),
}

/// What is wrong with a spread.
#[derive(Clone, Copy, Debug, PartialEq, Eq)]
pub enum SpreadFault {
    /// There is not a cap for each bin.
    WrongCaps,
    /// The cap of a bin is above what it may have.
    CapTooHigh(u32),
    /// The plan covers fewer than it could, or leaves more, or its prices do not show otherwise.
    Free(Fault),
    /// The plan is not the best within the caps, or its prices do not show otherwise.
    Within(Fault),
    /// The plan may be less even than it is to be.
    Even(EvenFault),
}

/// What is wrong with levels that are to show how even a plan is.
#[derive(Clone, Copy, Debug, PartialEq, Eq)]
pub enum EvenFault {
    /// A collector has no bin.
    NoJobs,
    /// The slack is above 1,000 percent.
    SlackTooHigh(u32),
    /// The levels are not as many as the collectors, or the prices as the items, or as the bins.
    WrongLengths,
    /// How many items the witness covers, and how many the plan.
    CoversOther(u64, u64),
    /// How many items the witness leaves at draining bins, and how many the plan.
    LeavesOther(u64, u64),
    /// The witness is not feasible.
    Witness(Fault),
    /// The level of the collector is above what a pair is worth at level 0.
    LevelTooHigh(u32),
    /// The prices of the item and the bin are together below what the pair is worth at the levels.
    PriceTooLow(u32, u32),
    /// The value of the prices, and what the pairs of the witness are worth at the levels.
    SumsDiffer(u64, u64),
    /// The load of the collector in the witness is neither its level nor one more.
    OffLevel(u32),
    /// The caps of the collector are together above its load in the witness and the slack.
    CapsTooHigh(u32),
}

impl SpreadFault {
    /// The fault's name, and then its values in decimal after one space each, or the text of the fault that it has.
    pub fn line(&self, alloc: Global) -> Result<String, AllocError>
        ensures { IfOk result (λ s. string_bytes s ≡ spread_line self.now) }
    {
        match self {
            SpreadFault::WrongCaps => String::from_str(alloc, "WrongCaps"),
            SpreadFault::CapTooHigh(bin) => format!(in alloc; "CapTooHigh {bin}"),
            SpreadFault::Free(fault) => {
                let line = fault.line(alloc)?;
                format!(in alloc; "Free {line}")
            }
            SpreadFault::Within(fault) => {
                let line = fault.line(alloc)?;
                format!(in alloc; "Within {line}")
            }
            SpreadFault::Even(fault) => {
                let line = fault.line(alloc)?;
                format!(in alloc; "Even {line}")
            }
        }
    }
}

impl EvenFault {
    /// The fault's name, and then its values in decimal after one space each, or the text of the fault that it has.
    pub fn line(&self, alloc: Global) -> Result<String, AllocError>
        ensures { IfOk result (λ s. string_bytes s ≡ even_line self.now) }
    {
        match self {
            EvenFault::NoJobs => String::from_str(alloc, "NoJobs"),
            EvenFault::SlackTooHigh(slack) => format!(in alloc; "SlackTooHigh {slack}"),
            EvenFault::WrongLengths => String::from_str(alloc, "WrongLengths"),
            EvenFault::CoversOther(witness, plan) => {
                format!(in alloc; "CoversOther {witness} {plan}")
            }
            EvenFault::LeavesOther(witness, plan) => {
                format!(in alloc; "LeavesOther {witness} {plan}")
            }
            EvenFault::Witness(fault) => {
                let line = fault.line(alloc)?;
                format!(in alloc; "Witness {line}")
            }
            EvenFault::LevelTooHigh(collector) => format!(in alloc; "LevelTooHigh {collector}"),
            EvenFault::PriceTooLow(item, bin) => format!(in alloc; "PriceTooLow {item} {bin}"),
            EvenFault::SumsDiffer(prices, worth) => {
                format!(in alloc; "SumsDiffer {prices} {worth}")
            }
            EvenFault::OffLevel(collector) => format!(in alloc; "OffLevel {collector}"),
            EvenFault::CapsTooHigh(collector) => format!(in alloc; "CapsTooHigh {collector}"),
        }
    }
}
