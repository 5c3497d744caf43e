//! Laws over all states and histories.
ghost use Rattle.renewal.specs.Continuity.{RenewalsContinue};
ghost use Rattle.renewal.specs.Histories.{HistoriesAreGood};

use fleet_assignment::plan_laws;

/// A target that goes on is, under its new number, the same target of the job of the same name. It is live where it was and its
/// job keeps its sources, the same collectors reach it, and the same live collector holds it. Each collector has the same own
/// limit for each job of the list. With the same jobs the instance of the next plan is the very same.
pub fn renewals_continue()
    ensures { RenewalsContinue }
{}

/// Over every history of events and renewals, each published allocation is the best of its moment, or the best within caps that cost
/// nothing, its moves counted from the preceding allocation or from the one that was carried over; and each report is booked from the
/// target's holder in the allocation that it names, in one of the rounds then open, at most once for each target and round.
pub fn histories_are_good()
    ensures { HistoriesAreGood }
{
    plan_laws();
}
