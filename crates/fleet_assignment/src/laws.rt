//! What a plan and its allocation have to do with one another.
ghost use Rattle.fleet_assignment.specs.Best.{InstancesAreProblems, FeasibleAreCarriedOver, OptimalIsBest, AllocationsAreOnce};
ghost use Rattle.fleet_assignment.specs.Laws.{PlanLaws};
ghost use Rattle.fleet_assignment.specs.Within.{BestCoverMost, BestWithinIsCarriedOver};

use price_certificate::{certified_is_optimal, no_fault_is_certified};

/// The instance of a fleet and a preceding allocation is one.
pub fn instances_are_problems()
    ensures { InstancesAreProblems }
{}

/// The allocation of a feasible plan is sound and in order of target, covers as many targets as the plan has pairs, leaves at
/// draining collectors what the plan leaves at draining bins, and moves what the plan moves.
pub fn feasible_are_carried_over()
    ensures { FeasibleAreCarriedOver }
{}

/// A feasible plan is optimal for the instance exactly if its allocation is a best one of the fleet.
pub fn optimal_is_best()
    ensures { OptimalIsBest }
{}

/// The allocation of a plan that is the best within caps, which cost nothing, is so too.
pub fn best_within_is_carried_over()
    ensures { BestWithinIsCarriedOver }
{}

/// The best of all allocations, and the best within caps that cost nothing, cover the most targets and leave the fewest at draining
/// collectors.
pub fn best_cover_most()
    ensures { BestCoverMost }
{}

/// No target stands twice in an allocation, whatever the plan.
pub fn allocations_are_once()
    ensures { AllocationsAreOnce }
{}

/// What is known of certificates, instances and allocations: all that a publication rests on.
pub fn plan_laws()
    ensures { PlanLaws }
{
    certified_is_optimal();
    no_fault_is_certified();
    instances_are_problems();
    feasible_are_carried_over();
    optimal_is_best();
    best_within_is_carried_over();
    allocations_are_once();
}
