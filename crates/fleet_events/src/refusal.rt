//! Why an event changed nothing, and the text of it.
ghost use Rattle.std.specs.Prelude.{◌≡◌, ◌↔◌, IfOk, IsTrue, string_bytes};
ghost use Rattle.fleet_events.specs.Lines.{refusal_line};

use crate::ids::{AllocationNumber, CollectorId, Round};
use lists::Plain;
use price_certificate::Fault;
use spread_certificate::{EvenFault, SpreadFault};
use std::alloc::{AllocError, Global};

/// Why an event changed nothing.
#[derive(Clone, Copy, Debug, PartialEq, Eq)]
pub enum Refusal {
    /// No job has the name.
    UnknownJob,
    /// The job has no such source.
    UnknownSource,
    /// More than 16,384 targets would be live.
    TooManyLive,
    /// More than 65,535 targets would be known.
    TooManyKnown,
    /// A live collector has the name: this one.
    AlreadyJoined(CollectorId),
    /// More than 256 collectors would be live, or the jobs times the live collectors more than 16,384.
    TooManyCollectors,
    /// The last number of a collector is given.
    IdsSpent,
    /// No live collector has the number.
    UnknownCollector,
    /// The collector is draining.
    AlreadyDraining,
    /// The checker's first fault of the plan.
    Refused(Fault),
    /// The judge's first fault of the spread.
    RefusedSpread(SpreadFault),
    /// The plan has the pairs of the current allocation, which has this number.
    Unchanged(AllocationNumber),
    /// The last number of an allocation is given.
    NumbersSpent,
    /// The last round is open.
    RoundsSpent,
    /// The collector took, or was served the list of the target's job of, another allocation last: that of this number, 0 if none.
    NotTaken(AllocationNumber),
    /// No known target has the number.
    UnknownTarget,
    /// In the allocation named another collector, or none, holds the target.
    NotHolder(Option<CollectorId>),
    /// Another collector's list still has the target: that of this one.
    StillServed(CollectorId),
    /// The round is below the first one of which a report is booked, which is this.
    RoundClosed(Round),
    /// The round is above the open one, which is this.
    RoundNotOpen(Round),
    /// A report of the target in the round is booked.
    AlreadyBooked,
}

impl Refusal {
    /// The refusal's name, and then its values after one space each.
    pub(crate) fn line(&self, alloc: Global) -> Result<String, AllocError>
        ensures { IfOk result (λ s. string_bytes s ≡ refusal_line self.now) }
    {
        match self {
            Refusal::UnknownJob => String::from_str(alloc, "UnknownJob"),
            Refusal::UnknownSource => String::from_str(alloc, "UnknownSource"),
            Refusal::TooManyLive => String::from_str(alloc, "TooManyLive"),
            Refusal::TooManyKnown => String::from_str(alloc, "TooManyKnown"),
            Refusal::AlreadyJoined(collector) => format!(in alloc; "AlreadyJoined {collector}"),
            Refusal::TooManyCollectors => String::from_str(alloc, "TooManyCollectors"),
            Refusal::IdsSpent => String::from_str(alloc, "IdsSpent"),
            Refusal::UnknownCollector => String::from_str(alloc, "UnknownCollector"),
            Refusal::AlreadyDraining => String::from_str(alloc, "AlreadyDraining"),
            Refusal::Refused(fault) => refused_line(alloc, fault),
            Refusal::RefusedSpread(fault) => refused_spread_line(alloc, fault),
            Refusal::Unchanged(number) => format!(in alloc; "Unchanged {number}"),
            Refusal::NumbersSpent => String::from_str(alloc, "NumbersSpent"),
            Refusal::RoundsSpent => String::from_str(alloc, "RoundsSpent"),
            Refusal::NotTaken(number) => format!(in alloc; "NotTaken {number}"),
            Refusal::UnknownTarget => String::from_str(alloc, "UnknownTarget"),
            Refusal::NotHolder(holder) => holder_line(alloc, *holder),
            Refusal::StillServed(collector) => format!(in alloc; "StillServed {collector}"),
            Refusal::RoundClosed(open) => format!(in alloc; "RoundClosed {open}"),
            Refusal::RoundNotOpen(open) => format!(in alloc; "RoundNotOpen {open}"),
            Refusal::AlreadyBooked => String::from_str(alloc, "AlreadyBooked"),
        }
    }
}

/// A refusal without its values, as refusals are counted.
#[derive(Clone, Copy, PartialEq, Eq)]
pub enum RefusalKind {
    UnknownJob,
    UnknownSource,
    TooManyLive,
    TooManyKnown,
    AlreadyJoined,
    TooManyCollectors,
    IdsSpent,
    UnknownCollector,
    AlreadyDraining,
    Refused,
    RefusedSpread,
    Unchanged,
    NumbersSpent,
    RoundsSpent,
    NotTaken,
    UnknownTarget,
    NotHolder,
    StillServed,
    RoundClosed,
    RoundNotOpen,
    AlreadyBooked,
}

/// How many refusals there are.
pub const REFUSAL_COUNT: usize = RefusalKind::AlreadyBooked as usize + 1;

/// All refusals, in the order in which they are told.
pub const REFUSALS: [RefusalKind; REFUSAL_COUNT] = [
    RefusalKind::UnknownJob,
    RefusalKind::UnknownSource,
    RefusalKind::TooManyLive,
    RefusalKind::TooManyKnown,
    RefusalKind::AlreadyJoined,
    RefusalKind::TooManyCollectors,
    RefusalKind::IdsSpent,
    RefusalKind::UnknownCollector,
    RefusalKind::AlreadyDraining,
    RefusalKind::Refused,
    RefusalKind::RefusedSpread,
    RefusalKind::Unchanged,
    RefusalKind::NumbersSpent,
    RefusalKind::RoundsSpent,
    RefusalKind::NotTaken,
    RefusalKind::UnknownTarget,
    RefusalKind::NotHolder,
    RefusalKind::StillServed,
    RefusalKind::RoundClosed,
    RefusalKind::RoundNotOpen,
    RefusalKind::AlreadyBooked,
];

impl RefusalKind {
    /// That of a refusal.
    pub fn of(refusal: &Refusal) -> RefusalKind {
        match refusal {
            Refusal::UnknownJob => RefusalKind::UnknownJob,
            Refusal::UnknownSource => RefusalKind::UnknownSource,
            Refusal::TooManyLive => RefusalKind::TooManyLive,
            Refusal::TooManyKnown => RefusalKind::TooManyKnown,
            Refusal::AlreadyJoined(_) => RefusalKind::AlreadyJoined,
            Refusal::TooManyCollectors => RefusalKind::TooManyCollectors,
            Refusal::IdsSpent => RefusalKind::IdsSpent,
            Refusal::UnknownCollector => RefusalKind::UnknownCollector,
            Refusal::AlreadyDraining => RefusalKind::AlreadyDraining,
            Refusal::Refused(_) => RefusalKind::Refused,
            Refusal::RefusedSpread(_) => RefusalKind::RefusedSpread,
            Refusal::Unchanged(_) => RefusalKind::Unchanged,
            Refusal::NumbersSpent => RefusalKind::NumbersSpent,
            Refusal::RoundsSpent => RefusalKind::RoundsSpent,
            Refusal::NotTaken(_) => RefusalKind::NotTaken,
            Refusal::UnknownTarget => RefusalKind::UnknownTarget,
            Refusal::NotHolder(_) => RefusalKind::NotHolder,
            Refusal::StillServed(_) => RefusalKind::StillServed,
            Refusal::RoundClosed(_) => RefusalKind::RoundClosed,
            Refusal::RoundNotOpen(_) => RefusalKind::RoundNotOpen,
            Refusal::AlreadyBooked => RefusalKind::AlreadyBooked,
        }
    }

    /// The name of the refusal.
    pub fn name(self) -> &'static str {
        match self {
            RefusalKind::UnknownJob => "UnknownJob",
            RefusalKind::UnknownSource => "UnknownSource",
            RefusalKind::TooManyLive => "TooManyLive",
            RefusalKind::TooManyKnown => "TooManyKnown",
            RefusalKind::AlreadyJoined => "AlreadyJoined",
            RefusalKind::TooManyCollectors => "TooManyCollectors",
            RefusalKind::IdsSpent => "IdsSpent",
            RefusalKind::UnknownCollector => "UnknownCollector",
            RefusalKind::AlreadyDraining => "AlreadyDraining",
            RefusalKind::Refused => "Refused",
            RefusalKind::RefusedSpread => "RefusedSpread",
            RefusalKind::Unchanged => "Unchanged",
            RefusalKind::NumbersSpent => "NumbersSpent",
            RefusalKind::RoundsSpent => "RoundsSpent",
            RefusalKind::NotTaken => "NotTaken",
            RefusalKind::UnknownTarget => "UnknownTarget",
            RefusalKind::NotHolder => "NotHolder",
            RefusalKind::StillServed => "StillServed",
            RefusalKind::RoundClosed => "RoundClosed",
            RefusalKind::RoundNotOpen => "RoundNotOpen",
            RefusalKind::AlreadyBooked => "AlreadyBooked",
        }
    }
}

/// `Refused`, and the fault's line after one space.
fn refused_line(alloc: Global, fault: &Fault) -> Result<String, AllocError>
    ensures { IfOk result (λ s. string_bytes s ≡ refusal_line (Refusal.Refused fault.now)) }
{
    let mut line = String::from_str(alloc, "Refused ")?;
    let rest = fault.line(alloc)?;
    line.push_str(rest.as_str())?;
    Ok(line)
}

/// `RefusedSpread`, and the fault's line after one space.
fn refused_spread_line(alloc: Global, fault: &SpreadFault) -> Result<String, AllocError>
    ensures { IfOk result (λ s. string_bytes s ≡ refusal_line (Refusal.RefusedSpread fault.now)) }
{
    let mut line = String::from_str(alloc, "RefusedSpread ")?;
    let rest = fault.line(alloc)?;
    line.push_str(rest.as_str())?;
    Ok(line)
}

/// The line of a target's other holder, or of none.
fn holder_line(alloc: Global, holder: Option<CollectorId>) -> Result<String, AllocError>
    ensures { IfOk result (λ s. string_bytes s ≡ refusal_line (Refusal.NotHolder holder)) }
{
    match holder {
        Some(holder) => format!(in alloc; "NotHolder {holder}"),
        None => String::from_str(alloc, "NotHolder none"),
    }
}

impl Plain for Refusal {
    fn copy(&self) -> Result<Refusal, AllocError> {
        Ok(*self)
    }

    fn same(&self, other: &Refusal) -> bool {
        match (self, other) {
            (Refusal::UnknownJob, Refusal::UnknownJob) => true,
            (Refusal::UnknownSource, Refusal::UnknownSource) => true,
            (Refusal::TooManyLive, Refusal::TooManyLive) => true,
            (Refusal::TooManyKnown, Refusal::TooManyKnown) => true,
            (Refusal::AlreadyJoined(id), Refusal::AlreadyJoined(other_id)) => *id == *other_id,
            (Refusal::TooManyCollectors, Refusal::TooManyCollectors) => true,
            (Refusal::IdsSpent, Refusal::IdsSpent) => true,
            (Refusal::UnknownCollector, Refusal::UnknownCollector) => true,
            (Refusal::AlreadyDraining, Refusal::AlreadyDraining) => true,
            (Refusal::Refused(fault), Refusal::Refused(other_fault)) => fault.same(other_fault),
            (Refusal::RefusedSpread(fault), Refusal::RefusedSpread(other_fault)) => same_fault(
                fault,
                other_fault,
            ),
            (Refusal::Unchanged(number), Refusal::Unchanged(other_number)) => *number
                == *other_number,
            (Refusal::NumbersSpent, Refusal::NumbersSpent) => true,
            (Refusal::RoundsSpent, Refusal::RoundsSpent) => true,
            (Refusal::NotTaken(number), Refusal::NotTaken(other_number)) => *number
                == *other_number,
            (Refusal::UnknownTarget, Refusal::UnknownTarget) => true,
            (Refusal::NotHolder(holder), Refusal::NotHolder(other_holder)) => holder.same(
                other_holder,
            ),
            (Refusal::StillServed(id), Refusal::StillServed(other_id)) => *id == *other_id,
            (Refusal::RoundClosed(round), Refusal::RoundClosed(other_round)) => *round
                == *other_round,
            (Refusal::RoundNotOpen(round), Refusal::RoundNotOpen(other_round)) => *round
                == *other_round,
            (Refusal::AlreadyBooked, Refusal::AlreadyBooked) => true,
            _ => false,
        }
    }
}

/// Whether two faults of spreads are equal.
fn same_fault(fault: &SpreadFault, other: &SpreadFault) -> bool
    ensures { IsTrue result ↔ (fault.now ≡ other.now) }
{
    match (fault, other) {
        (SpreadFault::WrongCaps, SpreadFault::WrongCaps) => true,
        (SpreadFault::CapTooHigh(bin), SpreadFault::CapTooHigh(other_bin)) => *bin == *other_bin,
        (SpreadFault::Free(fault), SpreadFault::Free(other)) => fault.same(other),
        (SpreadFault::Within(fault), SpreadFault::Within(other)) => fault.same(other),
        (SpreadFault::Even(fault), SpreadFault::Even(other)) => same_even_fault(fault, other),
        _ => false,
    }
}

/// Whether two faults of how even a spread is are equal.
fn same_even_fault(fault: &EvenFault, other: &EvenFault) -> bool
    ensures { IsTrue result ↔ (fault.now ≡ other.now) }
{
    match (fault, other) {
        (EvenFault::NoJobs, EvenFault::NoJobs) => true,
        (EvenFault::SlackTooHigh(slack), EvenFault::SlackTooHigh(other)) => *slack == *other,
        (EvenFault::WrongLengths, EvenFault::WrongLengths) => true,
        (EvenFault::CoversOther(a, b), EvenFault::CoversOther(c, d)) => *a == *c && *b == *d,
        (EvenFault::LeavesOther(a, b), EvenFault::LeavesOther(c, d)) => *a == *c && *b == *d,
        (EvenFault::Witness(fault), EvenFault::Witness(other)) => fault.same(other),
        (EvenFault::LevelTooHigh(collector), EvenFault::LevelTooHigh(other)) => *collector
            == *other,
        (EvenFault::PriceTooLow(a, b), EvenFault::PriceTooLow(c, d)) => *a == *c && *b == *d,
        (EvenFault::SumsDiffer(a, b), EvenFault::SumsDiffer(c, d)) => *a == *c && *b == *d,
        (EvenFault::OffLevel(collector), EvenFault::OffLevel(other)) => *collector == *other,
        (EvenFault::CapsTooHigh(collector), EvenFault::CapsTooHigh(other)) => *collector == *other,
        _ => false,
    }
}
