//! Laws over all lists of events.
ghost use Rattle.allocation_core.specs.State.{State};
ghost use Rattle.allocation_core.specs.Steps.{answer_of};
ghost use Rattle.allocation_core.specs.Answers.{IsAnswerTo};
ghost use Rattle.allocation_core.specs.Best.{AlwaysBest, AlwaysMost, InstalledAreBest, PublishedCoverMost};
ghost use Rattle.allocation_core.specs.Booked.{AlwaysBooked, WithOneAllIsAsBefore, WithOneItStays};
ghost use Rattle.allocation_core.specs.Installed.{CertifiedAreInstalled, SpreadsAreInstalled};
ghost use Rattle.allocation_core.specs.Kept.{AlwaysKept};
ghost use Rattle.allocation_core.specs.Lists.{AlwaysDisjoint, AlwaysWhole};
ghost use Rattle.fleet_events.specs.declared.event.Event.{Event};

use fleet_assignment::{best_cover_most, instances_are_problems, plan_laws};
use price_certificate::no_fault_is_certified;
use spread_certificate::no_best_fault_is_certified;

/// Over every list of events, each published allocation is the best of the moment just before its Install, or the best of the
/// moment just before its Spread within caps that cost nothing. It is sound: only live targets, each at most once and in ascending
/// order, each at a live collector that reaches it, and no collector with more of a job's targets than the job's limit. No sound
/// allocation of that moment covers more targets, and none that covers as many leaves fewer at draining collectors. None that is
/// equal in both, and within the caps of its Spread where it has one, loses fewer of those pairs of the preceding allocation that
/// could be kept. Where a Spread tells how even its allocation is, it is so even.
pub fn published_are_best()
    ensures { AlwaysBest }
{
    plan_laws();
}

/// Over every list of events without a Spread, each published allocation is the best of the moment just before its Install.
pub fn installed_are_best()
    ensures { InstalledAreBest }
{
    published_are_best();
}

/// What an Install or a Spread published covers the most targets of its moment and leaves the fewest at draining collectors; so,
/// over every list of events, each published allocation does.
pub fn published_cover_most()
    ensures each { PublishedCoverMost }
    ensures always { AlwaysMost }
{
    published_are_best();
    best_cover_most();
}

/// Over every list of events, a report is booked only from the target's holder in the allocation that it names, the one that
/// this collector last took, in one of the rounds then open, and at most once for each target and round.
pub fn booked_by_holders()
    ensures { AlwaysBooked }
{}

/// Over every list of events, where reports are booked of one round, this is the open one: reports of others are refused, and the rounds
/// of a target rise. So it stays from whatever state it holds of.
pub fn with_one_all_is_as_before()
    ensures first { WithOneAllIsAsBefore }
    ensures stays { WithOneItStays }
{}

/// Over every list of events, no target stands in two of the lists that collectors were served last and that are not released: whatever
/// is published, and whoever joins, drains or leaves.
pub fn lists_are_disjoint()
    ensures { AlwaysDisjoint }
{}

/// Over every list of events, a list that is served has what its collector holds of the job in the current allocation, but for what stands
/// in the list of another collector that was served last and is not released.
pub fn lists_are_whole()
    ensures { AlwaysWhole }
{}

/// Each event has only answers of its kind.
pub fn answers_fit()
    ensures { (m : State) (event : Event) → IsAnswerTo event (answer_of m event) }
{}

/// Over every list of events, an Install of a plan that is certified for the instance of the moment is published, unless its
/// pairs are those of the current allocation or the last number is given.
pub fn certified_are_installed()
    ensures { CertifiedAreInstalled }
{
    instances_are_problems();
    no_fault_is_certified();
}

/// The same of a Spread: one that is certified for the instance of the moment is published, unless its pairs are those of the current
/// allocation or the last number is given.
pub fn spreads_are_installed()
    ensures { SpreadsAreInstalled }
{
    instances_are_problems();
    no_best_fault_is_certified();
}

/// What every state keeps, over every list of events: no limit is passed, a source lists targets of its own job alone and in
/// ascending order, no known target and no name of a live collector stands twice.
pub fn states_are_kept()
    ensures { AlwaysKept }
{}
