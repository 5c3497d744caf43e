//! Laws over first lines and over journals.
ghost use Rattle.history_laws.specs.Journals.{ConsistentAreHistories};
ghost use Rattle.history_laws.specs.Promises.{OpenedAreGood};

use allocation_core::published_cover_most;
use fleet_assignment::plan_laws;

/// Over every list of events from whatever state a first line opens, be it the first of its jobs or that of a history: each allocation
/// that they publish is the best of its moment, or the best within caps that cost nothing, and covers the most; each report is booked
/// from the target's holder, at most once for each target and round; and no target stands in two of the lists that were served last.
pub fn opened_are_good()
    ensures { OpenedAreGood }
{
    plan_laws();
    published_cover_most();
}

/// Journals in which an audit finds no fault are one history: what they say are events and renewals that are not refused, all that is
/// promised holds of each of them, and each books in later rounds than all before it.
pub fn consistent_journals_are_histories()
    ensures { ConsistentAreHistories }
{
    opened_are_good();
}
